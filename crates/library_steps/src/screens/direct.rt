//! Direct calls on a screen.
use crate::words::character;
use case_player::Words;
use vt100::{ScreenError, WrappedScreen};

/// Makes the call that the words name, and returns its result. A call that returns nothing is never refused.
pub fn call(wrapped: &mut WrappedScreen<()>, words: &Words) -> Result<(), ScreenError> {
    match words.word() {
        "text" => return wrapped.text(character(words)),
        "lf" => return wrapped.lf(),
        "vt" => return wrapped.vt(),
        "ff" => return wrapped.ff(),
        "su" => return wrapped.su(words.place()),
        "ris" => return wrapped.ris(),
        "set_size_with_cb" => return wrapped.set_size_with_cb(words.size(), words.size()),
        "cha" => wrapped.cha(words.place()),
        "vpa" => wrapped.vpa(words.place()),
        "cup" => wrapped.cup((words.place(), words.place())),
        "decstbm" => wrapped.decstbm((words.place(), words.place())),
        _ => words.want("the name of a call"),
    }
    Ok(())
}
