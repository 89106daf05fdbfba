//! Escape sequences that move, save and restore the cursor (ECMA-48, the VT100's).
ghost use Rattle.std.specs.Prelude.{◌≡◌, ◌≤◌, ◌+◌, length, List, [], ◌∷◌, ◌++◌};
ghost use Rattle.vt100_forms.specs.Form.{Form, bytes_of};

use super::{BufWrite, FormText, counted, push_count, push_counted};
use crate::error::GridError;
use crate::position::Pos;
use crate::text_run::TextRun;
use std::marker::Model;

/// Moves the cursor to the first column of the next row (CR and LF).
#[derive(Debug, Default, Drop)]
pub struct Crlf;

impl BufWrite for Crlf {
    ghost forms = { λ _. Form.Crlf ∷ [] };

    fn as_text<'a>(&self, _room: &'a mut FormText) -> &'a str {
        "\r\n"
    }
}

/// Moves the cursor to the left by a column (BS).
#[derive(Debug, Default, Drop)]
pub struct Backspace;

impl BufWrite for Backspace {
    ghost forms = { λ _. Form.Backspace ∷ [] };

    fn as_text<'a>(&self, _room: &'a mut FormText) -> &'a str {
        "\x08"
    }
}

/// Saves the cursor and the attributes (DECSC).
#[derive(Debug, Default, Drop)]
pub struct SaveCursor;

impl BufWrite for SaveCursor {
    ghost forms = { λ _. Form.SaveCursor ∷ [] };

    fn as_text<'a>(&self, _room: &'a mut FormText) -> &'a str {
        "\x1b7"
    }
}

/// Restores the saved cursor and attributes (DECRC).
#[derive(Debug, Default, Drop)]
pub struct RestoreCursor;

impl BufWrite for RestoreCursor {
    ghost forms = { λ _. Form.RestoreCursor ∷ [] };

    fn as_text<'a>(&self, _room: &'a mut FormText) -> &'a str {
        "\x1b8"
    }
}

/// Moves the cursor to a position (CUP). The bytes count rows and columns from 1.
#[derive(Debug, Default, Drop)]
pub struct MoveTo {
    row: u16,
    col: u16,
}

impl Model for MoveTo {
    ghost use Rattle.vt100_forms.specs.Form.{Form};

    ghost Value = { Form };

    ghost view = { λ m. Form.MoveTo m.row m.col };
}

impl MoveTo {
    /// A move to `pos`, which is counted from 0.
    pub fn new(pos: Pos) -> Self
        ensures { result ≡ Form.MoveTo pos.row pos.col }
    {
        MoveTo {
            row: pos.row,
            col: pos.col,
        }
    }

    /// Appends the escape sequence's bytes to `run`.
    fn push_to(&self, run: &mut TextRun)
        requires { length run.old + 14 ≤ 192 }
        ensures bytes { run.new ≡ run.old ++ bytes_of (self.now ∷ []) }
        ensures len { length run.new ≤ length run.old + 14 }
    {
        run.push_ascii(b'\x1b');
        run.push_ascii(b'[');
        if self.row != 0 || self.col != 0 {
            push_count(run, u32::from(self.row) + 1);
            run.push_ascii(b';');
            push_count(run, u32::from(self.col) + 1);
        }
        run.push_ascii(b'H');
    }
}

impl BufWrite for MoveTo {
    ghost forms = { λ m. m ∷ [] };

    fn as_text<'a>(&self, room: &'a mut FormText) -> &'a str {
        let mut run = TextRun::new();
        self.push_to(&mut run);
        room.push_str(run.as_str());
        room.as_str()
    }
}

/// Moves the cursor to the right by a number of columns (CUF). A count of 0 has no bytes.
#[derive(Debug, Drop)]
pub struct MoveRight {
    count: u16,
}

impl Model for MoveRight {
    ghost use Rattle.vt100_forms.specs.Form.{Form};

    ghost Value = { Form };

    ghost view = { λ m. Form.MoveRight m.count };
}

impl MoveRight {
    /// A move by `count` columns.
    pub fn new(count: u16) -> Self
        ensures { result ≡ Form.MoveRight count }
    {
        MoveRight { count }
    }
}

impl Default for MoveRight {
    ghost is_default = { λ m. m ≡ Form.MoveRight 1 };

    fn default() -> Self {
        MoveRight { count: 1 }
    }
}

impl BufWrite for MoveRight {
    ghost forms = { λ m. m ∷ [] };

    fn as_text<'a>(&self, room: &'a mut FormText) -> &'a str {
        counted(room, self.count, b'C')
    }
}

/// Moves the cursor from one position to another: CR LF to the first column of the next row, CUF to the right within a
/// row, CUP to all other positions. To the same position it has no bytes.
#[derive(Debug, Drop)]
pub struct MoveFromTo {
    from: Pos,
    to: Pos,
}

impl Model for MoveFromTo {
    ghost use Rattle.std.specs.Prelude.{List};
    ghost use Rattle.vt100_forms.specs.Form.{Form, moves};

    ghost Value = { List Form };

    ghost view = { λ m. moves m.from m.to };
}

impl MoveFromTo {
    ghost use Rattle.vt100_forms.specs.Form.{moves};

    /// A move from `from`, where the cursor is, to `to`.
    pub fn new(from: Pos, to: Pos) -> Self
        ensures { result ≡ moves from to }
    {
        MoveFromTo { from, to }
    }

    /// Appends the escape sequence's bytes to `run`, 14 at most.
    #[doc(hidden)]
    pub fn push_to(&self, run: &mut TextRun)
        requires { length run.old + 14 ≤ 192 }
        ensures bytes { run.new ≡ run.old ++ bytes_of self.now }
        ensures len { length run.new ≤ length run.old + 14 }
    {
        if u32::from(self.to.row) == u32::from(self.from.row) + 1 && self.to.col == 0 {
            run.push_ascii(b'\r');
            run.push_ascii(b'\n');
        } else if self.from.row == self.to.row && self.from.col < self.to.col {
            push_counted(run, self.to.col - self.from.col, b'C');
        } else if self.to != self.from {
            MoveTo::new(self.to).push_to(run);
        }
    }
}

impl BufWrite for MoveFromTo {
    ghost forms = { λ m. m };

    fn as_text<'a>(&self, room: &'a mut FormText) -> &'a str {
        let mut run = TextRun::new();
        self.push_to(&mut run);
        room.push_str(run.as_str());
        room.as_str()
    }

    fn write_buf(&self, buf: &mut String) -> Result<(), GridError> {
        let mut run = TextRun::new();
        self.push_to(&mut run);
        run.move_to(buf)?;
        Ok(())
    }
}
