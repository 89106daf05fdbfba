//! What a grid shows.
ghost use Rattle.std.specs.Prelude.{◌≡◌, ℕ, ◌+◌, ◌-◌, ◌<◌, ◌≤◌, ◌==◌, length, true, false, if◌then◌else◌};
ghost use Rattle.std.specs.Option.{option_copied};

use crate::drawing_rows::DrawingRows;
use crate::grid::Grid;
use crate::visible_rows::VisibleRows;
use vt100_forms::Pos;
use vt100_rows::kept_rows::kept_at;
use vt100_rows::{Cell, Row};

impl Grid {
    ghost use Rattle.vt100_core.specs.Grid.{GridView, visible, visible_at, visible_row_at, drawing_row_at, cell_in};

    /// The rows that are shown, from the top: as many kept ones as the scrollback's offset says, then drawn ones. A
    /// kept row can be wider than the screen.
    pub fn visible_rows(&self) -> VisibleRows<'_>
        ensures { result ≡ visible self.now }
    {
        // For the proof: the rows' own facts.
        let _rows = &self.rows;
        VisibleRows::new(self)
    }

    /// The rows that are drawn on, from the top.
    pub fn drawing_rows(&self) -> DrawingRows<'_>
        ensures { result ≡ self.now.rows }
    {
        DrawingRows::new(&self.rows)
    }

    /// The row that is shown at `row`, counted from 0 at the top.
    pub fn visible_row(&self, row: u16) -> Option<&Row>
        ensures { option_copied result ≡ visible_row_at self.now row }
    {
        if usize::from(row) < self.rows.len() {
            Some(self.shown_row(row))
        } else {
            None
        }
    }

    /// The row that is shown at `row`, which is one of the grid's. For those who go over the rows by their numbers.
    #[doc(hidden)]
    #[inline]
    pub fn shown_row(&self, row: u16) -> &Row
        requires { row < length self.now.rows }
        ensures { result.now ≡ visible_at self.now row }
    {
        let row = usize::from(row);
        let offset = self.scrollback.offset;
        if row < offset {
            let first = self.scrollback.rows.len() - offset;
            kept_at(&self.scrollback.rows, first + row)
        } else {
            &self.rows[row - offset]
        }
    }

    /// The row that is drawn on at `row`, counted from 0 at the top.
    pub fn drawing_row(&self, row: u16) -> Option<&Row>
        ensures { option_copied result ≡ drawing_row_at self.now row }
    {
        let row = usize::from(row);
        if row < self.rows.len() {
            Some(&self.rows[row])
        } else {
            None
        }
    }

    /// The cell that is shown at a place.
    pub fn visible_cell(&self, pos: Pos) -> Option<&Cell>
        ensures { option_copied result ≡ cell_in (visible_row_at self.now pos.row) pos.col }
    {
        self.visible_row(pos.row)?.get(pos.col)
    }

    /// The cell that is drawn on at a place.
    pub fn drawing_cell(&self, pos: Pos) -> Option<&Cell>
        ensures { option_copied result ≡ cell_in (drawing_row_at self.now pos.row) pos.col }
    {
        self.drawing_row(pos.row)?.get(pos.col)
    }

    /// How many rows are kept at most.
    pub fn scrollback_capacity(&self) -> usize
        ensures { result ≡ self.now.kept.capacity }
    {
        self.scrollback.capacity
    }

    /// How many rows are kept.
    pub fn scrollback_len(&self) -> usize
        ensures { result ≡ length self.now.kept.rows }
    {
        self.scrollback.rows.len()
    }

    /// How many of the kept rows, from the newest back, are shown above the others.
    pub fn scrollback(&self) -> usize
        ensures { result ≡ self.now.kept.offset }
    {
        self.scrollback.offset
    }
}
