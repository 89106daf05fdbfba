//! The end of a row, and the difference of a whole row. If the row's flag changes, its last cell is drawn again.
ghost use Rattle.std.specs.Prelude.{◌≡◌, ◌+◌, ◌<◌, ◌≤◌, ◌^◌, length, is_ok, IsTrue};
ghost use Rattle.vt100_cells.specs.Cells.{AreSame, cell_at};
ghost use Rattle.vt100_cells.specs.Line.{span_of};
ghost use Rattle.row_drawing.specs.Drawing.{row_change_of, IsSettled};
ghost use Rattle.row_drawing.specs.RowWriter.{last_col_of, unflag, print_last, mend, owes_end, closing};
ghost use Rattle.row_drawing.specs.RowWriter.{row_difference};
ghost use Rattle.row_drawing.specs.Writes.{Writes, Wrote};

use crate::drawing::Drawing;
use crate::pen::Pen;
use vt100_cells::Cell;
use vt100_cells::line::{is_continuation_at, same_to};
use vt100_forms::position::Pos;
use vt100_forms::{GridError, TextRun};

impl<'a> Drawing<'a> {
    /// The column of the last cell, or of its first half.
    fn last_col(&self) -> u16
        ensures { result ≡ last_col_of (row_change_of self.now) }
    {
        let cols = self.cols();
        let last = cols.saturating_sub(1);
        if is_continuation_at(self.cells, usize::from(last)) {
            cols.saturating_sub(2)
        } else {
            last
        }
    }

    /// Whether the last cell must be drawn again: the row's flag changes, or the terminal may have lost it.
    fn owes_end(&self, pen: &Pen) -> bool
        ensures { result ≡ owes_end (row_change_of self.now) pen.now }
    {
        self.wrapped != self.was_wrapped || (self.wrapped && pen.lost)
    }

    /// Draws the last cell again, where the cursor is. If the row doesn't wrap, the cell is erased first, which resets
    /// the flag. These are 145 bytes at most.
    fn mend(&self, pen: &mut Pen, run: &mut TextRun, cell: &Cell)
        requires room { length run.old + 145 ≤ 192 }
        requires fits { pen.old.pos.col + span_of cell.now < 2 ^ 16 }
        ensures written { Wrote (mend (row_change_of self.now) cell.now) pen.old run.old pen.new run.new }
        ensures room { length run.new ≤ length run.old + 145 }
    {
        if self.wrapped {
            pen.print_last(run, cell);
            return;
        }
        pen.unflag(run, cell);
        pen.print_last(run, cell);
    }

    /// Corrects the row's flag, after its columns are drawn. To set it, the cursor is left past the last column: the
    /// next row's first character then wraps.
    pub(crate) fn closing(&self, pen: &mut Pen, contents: &mut String) -> Result<(), GridError>
        requires { 0 < length self.now.cells.now }
        ensures { Writes (closing (row_change_of self.now)) pen.old contents.old (is_ok result) pen.new
            contents.new }
    {
        if !self.owes_end(pen) {
            return Ok(());
        }
        let mut run = TextRun::new();
        let col = self.last_col();
        pen.goto(&mut run, Pos { row: self.row, col });
        self.mend(pen, &mut run, self.cell(col));
        run.move_to(contents)?;
        Ok(())
    }

    /// How many cells from the left the terminal shows already.
    fn same(&self) -> usize
        ensures within { result ≤ length self.now.cells.now }
        ensures same { AreSame (cell_at self.now.cells.now) (cell_at self.now.earlier.now) 0 result }
    {
        same_to(
            self.cells,
            self.earlier,
            0,
            self.cells.len().min(self.earlier.len()),
        )
    }

    /// Whether the terminal shows all cells already, if it shows the first `same`.
    fn shows_all(&self, same: usize) -> bool
        requires { AreSame (cell_at self.now.cells.now) (cell_at self.now.earlier.now) 0 same }
        ensures { IsTrue result → self.now.cells.now ≡ self.now.earlier.now }
    {
        same == self.cells.len() && same == self.earlier.len()
    }

    /// Whether nothing has to be written: no cell and no flag differs, and the pen has nothing pending. The terminal
    /// shows the first `same` cells.
    fn is_settled(&self, pen: &Pen, same: usize) -> bool
        requires { AreSame (cell_at self.now.cells.now) (cell_at self.now.earlier.now) 0 same }
        ensures { IsTrue result → IsSettled self.now pen.now }
    {
        self.wrapped == self.was_wrapped
            && (!self.above || self.was_above)
            && pen.erase.is_none()
            && !pen.lost
            && self.shows_all(same)
    }

    /// Draws those of `count` columns, from `start` on, that the terminal shows differently. Sets or resets the row's
    /// flag. A row that stays the same costs one comparison.
    ///
    /// Fails only if an allocation fails; `contents` may then have got some of the forms.
    pub fn difference(
        &self,
        pen: &mut Pen,
        contents: &mut String,
        count: u16,
    ) -> Result<(), GridError>
        requires starts_inside { self.now.start < length self.now.cells.now }
        requires ends_inside { self.now.start + count ≤ length self.now.cells.now }
        ensures { Writes (row_difference (row_change_of self.now) count) pen.old contents.old (is_ok result)
            pen.new contents.new }
    {
        let same = self.same();
        if self.is_settled(pen, same) {
            return Ok(());
        }
        self.redraw_behind(pen, contents, same, count)?;
        self.closing(pen, contents)
    }
}

impl Pen {
    /// Erases the last cell of a row, where the cursor is, and so resets the row's flag: 66 bytes at most. An empty
    /// cell is erased with its own attributes.
    fn unflag(&mut self, run: &mut TextRun, cell: &Cell)
        requires { length run.old + 66 ≤ 192 }
        ensures written { Wrote (unflag cell.now) self.old run.old self.new run.new }
        ensures room { length run.new ≤ length run.old + 66 }
    {
        if cell.has_contents() {
            self.erase(run, 1, true);
            return;
        }
        self.color(run, cell, None);
        self.erase(run, 1, true);
    }

    /// Prints the last cell of a row, if it has a text: 79 bytes at most. The cursor is then past the last column.
    fn print_last(&mut self, run: &mut TextRun, cell: &Cell)
        requires room { length run.old + 79 ≤ 192 }
        requires fits { self.old.pos.col + span_of cell.now < 2 ^ 16 }
        ensures written { Wrote (print_last cell.now) self.old run.old self.new run.new }
        ensures room { length run.new ≤ length run.old + 79 }
    {
        if !cell.has_contents() {
            return;
        }
        self.color(run, cell, None);
        self.print(run, cell, false);
    }
}
