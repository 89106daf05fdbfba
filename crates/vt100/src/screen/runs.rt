//! Characters of one column each, or of two each, printed at once.
ghost use Rattle.std.specs.Prelude.{◌≡◌, ◌⊎◌, ◌<◌, [], IfSome, IfNone, length};
ghost use Rattle.vt100.specs.Runs.{PrintsPrefix};

use crate::callbacks::Callbacks;
use crate::screen::WrappedScreen;
use arrayvec::ArrayVec;
use vt100_cells::{Char3, RUN_LEN, TextGlyph, take_run};

impl<CB: Callbacks> WrappedScreen<CB> {
    /// Prints the characters at the start of a text that take one column each, or two each, up to a run of them, and
    /// returns what is left. If there is no such character, or a row has no room for one, nothing is done.
    pub(crate) fn print_chars<'a>(&mut self, text: &'a str) -> Option<&'a str>
        ensures shorter { IfSome result (λ rest. length rest.now < length text.now) }
        ensures printed { IfSome result (λ rest. PrintsPrefix CB.step CB.scrolls text.now rest.now self.old.callbacks
            self.old.screen self.new.callbacks self.new.screen) }
        ensures none { IfNone result (self.new ≡ self.old) }
    {
        // Characters of the common scripts are printed from their bytes.
        if Char3::split(text, 2).is_some() {
            self.print_taken::<Char3, 2>(text, &mut ArrayVec::new())
        } else if Char3::split(text, 1).is_some() {
            self.print_taken::<Char3, 1>(text, &mut ArrayVec::new())
        } else {
            self.print_other(text)
        }
    }

    /// Prints the characters of any script at the start of a text, as [`print_chars`](Self::print_chars) does.
    fn print_other<'a>(&mut self, text: &'a str) -> Option<&'a str>
        ensures shorter { IfSome result (λ rest. length rest.now < length text.now) }
        ensures printed { IfSome result (λ rest. PrintsPrefix CB.step CB.scrolls text.now rest.now self.old.callbacks
            self.old.screen self.new.callbacks self.new.screen) }
        ensures none { IfNone result (self.new ≡ self.old) }
    {
        match self.print_taken::<char, 1>(text, &mut ArrayVec::new()) {
            Some(rest) => Some(rest),
            None => self.print_taken::<char, 2>(text, &mut ArrayVec::new()),
        }
    }

    /// Prints the run of characters of `COLUMNS` columns each at the start of a text, which it takes into `run`, and
    /// returns what is left. If there is no such character, or a row has no room for one, nothing is done.
    fn print_taken<'a, G: TextGlyph, const COLUMNS: usize>(
        &mut self,
        text: &'a str,
        run: &mut ArrayVec<G, RUN_LEN>,
    ) -> Option<&'a str>
        requires columns { (COLUMNS ≡ 1) ⊎ (COLUMNS ≡ 2) }
        requires empty { run.old.items ≡ [] }
        ensures shorter { IfSome result (λ rest. length rest.now < length text.now) }
        ensures printed { IfSome result (λ rest. PrintsPrefix CB.step CB.scrolls text.now rest.now self.old.callbacks
            self.old.screen self.new.callbacks self.new.screen) }
        ensures none { IfNone result (self.new ≡ self.old) }
    {
        let (_, cols) = self.screen.size();
        if usize::from(cols.get()) < COLUMNS {
            return None;
        }
        let rest = take_run::<G, COLUMNS>(text, run);
        if run.is_empty() {
            return None;
        }
        prove!(self.screen.is_live() || self.screen.failed());
        // A refusal is recorded in the screen, which has then failed.
        let _ = self.run::<G, COLUMNS>(run.as_slice());
        Some(rest)
    }
}
