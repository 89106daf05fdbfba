//! Copies and comparisons of rows. They go no further than to the column from which on both rows are blank.
ghost use Rattle.std.specs.Prelude.{◌≡◌, ◌≤◌, ◌↔◌, IsTrue, length, None, false};
ghost use Rattle.vt100_rows.specs.Row.{IsBlankFrom};

use crate::row::Row;
use row_drawing::{Pen, Place};
use vt100_cells::Cell;
use vt100_cells::line::same_to;

impl Row {
    /// A column from which on both rows are blank: their width, if none is known.
    #[inline]
    fn filled_with(&self, other: &Self) -> usize
        requires { length self.now.cells ≡ length other.now.cells }
        ensures within { result ≤ length self.now.cells }
        ensures blank { IsBlankFrom self.now.cells result }
        ensures other { IsBlankFrom other.now.cells result }
    {
        usize::from(self.filled.max(other.filled)).min(self.cells.len())
    }

    /// Makes the row equal to another one of its width. It keeps its memory and takes none.
    pub fn copy_from(&mut self, other: &Self)
        requires { length self.old.cells ≡ length other.now.cells }
        ensures { self.new ≡ other.now }
    {
        let end = self.filled_with(other);
        copy_prefix(&mut self.cells, &other.cells, end);
        self.wrapped = other.wrapped;
        self.filled = other.filled;
    }

    /// Whether the row is equal to another one of its width.
    pub fn is_same(&self, other: &Self) -> bool
        requires { length self.now.cells ≡ length other.now.cells }
        ensures { IsTrue result ↔ self.now ≡ other.now }
    {
        let end = self.filled_with(other);
        self.wrapped == other.wrapped && same_to(&self.cells, &other.cells, 0, end) == end
    }

    /// Whether nothing is to be drawn of the row over `prev`: a terminal that shows `prev` shows the row, and the pen
    /// has nothing pending.
    pub(crate) fn is_drawn(&self, prev: &Self, pen: &Pen, place: Place) -> bool
        ensures row { IsTrue result → self.now ≡ prev.now }
        ensures above { IsTrue result → IsTrue place.above → IsTrue place.was_above }
        ensures closed { IsTrue result → pen.now.erase ≡ None }
        ensures kept { IsTrue result → pen.now.lost ≡ false }
    {
        if self.cells.len() != prev.cells.len() {
            return false;
        }
        (!place.above || place.was_above) && pen.erase.is_none() && !pen.lost && self.is_same(prev)
    }

    /// A column from which on every cell is a default cell. It is 65,535 if none is known.
    #[inline]
    pub fn filled(&self) -> u16
        ensures { IsBlankFrom self.now.cells result }
    {
        self.filled
    }
}

/// Makes the first `end` cells those of another line, where the cells after these are default cells in both.
fn copy_prefix(cells: &mut [Cell], others: &[Cell], end: usize)
    requires length { length cells.old ≡ length others.now }
    requires within { end ≤ length others.now }
    requires blank { IsBlankFrom cells.old end }
    requires others { IsBlankFrom others.now end }
    ensures { cells.new ≡ others.now }
{
    cells[..end].copy_from_slice(&others[..end]);
}
