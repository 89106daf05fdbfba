//! A program's output on its way to a screen that knows no character sets.

ghost use Rattle.std.specs.Prelude.{◌≡◌, ◌≤◌, ◌*◌, ◌++◌, [], ℕ, List, ◌<◌, length, IsOk, OnErr, OnOk, ◌+◌};
ghost use Rattle.std.specs.Prelude.{vec_capacity, vec_len};
ghost use Rattle.charset_filter.specs.Filter.{Gives, HasRead};
ghost use Rattle.charset_filter.specs.Lines.{HasPassed, passed, piece_of, room_of};
ghost use Rattle.charset_filter.specs.declared.lines.LineDrawing.TheVariants.{Drawn, Kept};

use crate::CharsetFilter;
use std::alloc::{AllocError, Global};

/// What becomes of the characters that a program prints from DEC's special graphics, the line drawing set.
#[derive(Clone, Copy, Debug, PartialEq, Eq)]
pub enum LineDrawing {
    /// They stay the letters that the program wrote, as `lqqk`.
    Kept,
    /// They become the Unicode characters that they mean, as `┌──┐`.
    Drawn,
}

/// A filter that a program's output passes on its way to a screen, piece by piece.
///
/// The contract of `pass` holds for every past: the bytes that have passed since the filter was created.
#[derive(Drop)]
pub struct PieceFilter {
    lines: LineDrawing,
    filter: CharsetFilter,
    /// What the last piece gave, if lines are drawn.
    drawn: Vec<u8>,
}

impl PieceFilter {
    /// A filter that nothing has passed. It gives no bytes for an empty piece.
    pub fn new(alloc: Global, lines: LineDrawing) -> Self
        ensures passed { HasPassed result lines [] }
        ensures given { piece_of result [] ≡ [] }
    {
        PieceFilter {
            lines,
            filter: CharsetFilter::new(),
            drawn: Vec::new(alloc),
        }
    }

    /// Reads the next piece. Then [`given`](PieceFilter::given) returns what it gives.
    ///
    /// If lines are drawn, the call takes room for eight times as many bytes as the piece has, and 512 more. It fails
    /// only if there is no memory for that. Then the piece has not passed, and may be given again. The filter keeps
    /// that room, so a piece that is no longer than one before it never fails. If lines are kept, no piece fails.
    pub fn pass(&mut self, piece: &[u8]) -> Result<(), AllocError>
        ensures passed { OnOk result ((lines : LineDrawing) (past : List ℕ) → HasPassed self.old lines past
            → HasPassed self.new lines (past ++ piece.now)
            × (piece_of self.new piece.now ≡ passed lines past piece.now)) }
        ensures short { OnOk result ((lines : LineDrawing) (past : List ℕ) → HasPassed self.old lines past
            → length (piece_of self.new piece.now) ≤ 8 * length piece.now + 512) }
        ensures kept { (past : List ℕ) → HasPassed self.old Kept past → IsOk result }
        ensures none { piece.now ≡ [] → IsOk result }
        ensures full { OnErr result ((lines : LineDrawing) (past : List ℕ) → HasPassed self.old lines past
            → room_of self.old < 8 * length piece.now + 512) }
        ensures room { (past : List ℕ) → HasPassed self.old Drawn past → OnOk result (0 < length piece.now
            → 8 * length piece.now + 512 ≤ room_of self.new) }
        ensures keeps { room_of self.old ≤ room_of self.new }
        ensures same { OnErr result ((lines : LineDrawing) (past : List ℕ) → HasPassed self.old lines past
            → HasPassed self.new lines past) }
    {
        match self.lines {
            LineDrawing::Kept => Ok(()),
            LineDrawing::Drawn => self.draw(piece),
        }
    }

    /// Reads the next piece, and keeps what it gives. What the piece before it gave is dropped.
    fn draw(&mut self, piece: &[u8]) -> Result<(), AllocError>
        ensures short { OnOk result ((past : List ℕ) → HasRead self.old.filter past
            → length self.new.drawn.items ≤ 8 * length piece.now + 512) }
        ensures kind { self.new.lines ≡ self.old.lines }
        ensures drawn { OnOk result (Gives self.old.filter piece.now (length piece.now) self.new.filter []
            self.new.drawn.items) }
        ensures none { piece.now ≡ [] → IsOk result }
        ensures full { OnErr result ((past : List ℕ) → HasRead self.old.filter past
            → vec_capacity self.old.drawn < 8 * length piece.now + 512) }
        ensures room { OnOk result (0 < length piece.now
            → 8 * length piece.now + 512 ≤ vec_capacity self.new.drawn) }
        ensures keeps { vec_capacity self.old.drawn ≤ vec_capacity self.new.drawn }
        ensures same { OnErr result ((past : List ℕ) → HasRead self.old.filter past → HasRead self.new.filter past) }
    {
        self.drawn.clear();
        make_room(&mut self.drawn, piece.len())?;
        self.filter.advance(piece, &mut self.drawn)?;
        Ok(())
    }

    /// What the last piece that passed gives: itself, or what it is with its lines drawn.
    pub fn given<'a>(&'a self, piece: &'a [u8]) -> &'a [u8]
        ensures { result.now ≡ piece_of self.now piece.now }
    {
        match self.lines {
            LineDrawing::Kept => piece,
            LineDrawing::Drawn => &self.drawn,
        }
    }
}

/// Makes room in an empty output for all that `len` bytes can give. If `len` is 0, it makes no room.
fn make_room(output: &mut Vec<u8>, len: usize) -> Result<(), AllocError>
    requires { vec_len output.old ≡ 0 }
    ensures empty { output.new.items ≡ output.old.items }
    ensures len { vec_len output.new ≡ 0 }
    ensures room { OnOk result (0 < len → 8 * len + 512 ≤ vec_capacity output.new) }
    ensures none { len ≡ 0 → IsOk result }
    ensures full { OnErr result (vec_capacity output.old < 8 * len + 512) }
    ensures keeps { vec_capacity output.old ≤ vec_capacity output.new }
{
    if len == 0 {
        return Ok(());
    }
    let Some(most) = len.checked_mul(8) else {
        return Err(AllocError);
    };
    let Some(room) = most.checked_add(512) else {
        return Err(AllocError);
    };
    output.reserve(room)
}
