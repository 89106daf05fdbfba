//! Escape sequences that erase (ECMA-48).
ghost use Rattle.std.specs.Prelude.{◌≡◌, ◌≤◌, ◌+◌, length, List, [], ◌∷◌, ◌++◌};
ghost use Rattle.vt100_forms.specs.Form.{Form, bytes_of};

use super::{BufWrite, FormText, counted, push_counted};
use crate::text_run::TextRun;
use std::marker::Model;

/// Moves the cursor to the top left corner and clears the screen (CUP, ED).
#[derive(Debug, Default, Drop)]
pub struct ClearScreen;

impl BufWrite for ClearScreen {
    ghost forms = { λ _. Form.ClearScreen ∷ [] };

    fn as_text<'a>(&self, _room: &'a mut FormText) -> &'a str {
        "\x1b[H\x1b[J"
    }
}

/// Clears the row from the cursor on (EL).
#[derive(Debug, Default, Drop)]
pub struct ClearRowForward;

impl BufWrite for ClearRowForward {
    ghost forms = { λ _. Form.ClearRowForward ∷ [] };

    fn as_text<'a>(&self, _room: &'a mut FormText) -> &'a str {
        "\x1b[K"
    }
}

/// Erases a number of columns from the cursor on (ECH). A count of 0 has no bytes.
#[derive(Debug, Drop)]
pub struct EraseChar {
    count: u16,
}

impl Model for EraseChar {
    ghost use Rattle.vt100_forms.specs.Form.{Form};

    ghost Value = { Form };

    ghost view = { λ m. Form.EraseChar m.count };
}

impl EraseChar {
    /// An erasure of `count` columns.
    pub fn new(count: u16) -> Self
        ensures { result ≡ Form.EraseChar count }
    {
        EraseChar { count }
    }

    /// Appends the escape sequence's bytes to `run`, 8 at most.
    #[doc(hidden)]
    pub fn push_to(&self, run: &mut TextRun)
        requires { length run.old + 8 ≤ 192 }
        ensures bytes { run.new ≡ run.old ++ bytes_of (self.now ∷ []) }
        ensures len { length run.new ≤ length run.old + 8 }
    {
        push_counted(run, self.count, b'X');
    }
}

impl Default for EraseChar {
    ghost is_default = { λ m. m ≡ Form.EraseChar 1 };

    fn default() -> Self {
        EraseChar { count: 1 }
    }
}

impl BufWrite for EraseChar {
    ghost forms = { λ m. m ∷ [] };

    fn as_text<'a>(&self, room: &'a mut FormText) -> &'a str {
        counted(room, self.count, b'X')
    }
}
