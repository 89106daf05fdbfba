//! Drawing one column of a row on a terminal that shows an earlier one.
ghost use Rattle.std.specs.Prelude.{◌≡◌, ◌+◌, ◌<◌, ◌≤◌, ◌==◌, ◌&&◌, not, false, length};
ghost use Rattle.std.specs.Prelude.{is_ok};
ghost use Rattle.vt100_cells.specs.Cell.{has_text};
ghost use Rattle.vt100_cells.specs.Cells.{cell_at};
ghost use Rattle.vt100_cells.specs.Line.{put_unflags, wipe_unflags};
ghost use Rattle.row_drawing.specs.Drawing.{row_change_of};
ghost use Rattle.row_drawing.specs.RowWriter.{is_same, wraps, is_end, to_erase, flush, finish, arrive, draw, column};
ghost use Rattle.row_drawing.specs.Writes.{Writes, Wrote};

use crate::drawing::Drawing;
use crate::pen::{Erase, Pen, span};
use vt100_cells::Cell;
use vt100_cells::line::{at, is_continuation_at, is_same_at, is_wide_at};
use vt100_forms::attrs::Attrs;
use vt100_forms::position::Pos;
use vt100_forms::{GridError, TextRun};

impl<'a> Drawing<'a> {
    pub(crate) fn cols(&self) -> u16
        ensures { result ≡ length self.now.cells.now }
    {
        self.cells.len() as u16
    }

    /// The cell at `col`.
    #[inline(always)]
    pub(crate) fn cell(&self, col: u16) -> &'a Cell
        requires { col < length self.now.cells.now }
        ensures { result.now ≡ (row_change_of self.now).new col }
    {
        at(self.cells, usize::from(col))
    }

    /// Whether the terminal shows the cell already.
    #[inline(always)]
    pub(crate) fn is_same(&self, col: u16) -> bool
        requires { col < length self.now.cells.now }
        ensures { result ≡ is_same (row_change_of self.now) col }
    {
        let place = usize::from(col);
        if place < self.earlier.len() {
            is_same_at(self.cells, self.earlier, place)
        } else {
            let cell = self.cell(col);
            !cell.has_contents() && cell.is_default()
        }
    }

    /// Whether printing `columns` columns now would wrap from the row above into this one.
    pub(crate) fn wraps(&self, pen: &Pen, columns: u16) -> bool
        ensures { result ≡ wraps (row_change_of self.now) columns pen.now }
    {
        self.above
            && u32::from(pen.pos.row) + 1 == u32::from(self.row)
            && u32::from(self.cols()) < u32::from(pen.pos.col) + u32::from(columns)
    }

    /// Whether printing `columns` columns for column `col` reaches it by wrapping from the row above.
    fn is_wrapping(&self, pen: &Pen, columns: u16, col: u16) -> bool
        ensures { result ≡ (wraps (row_change_of self.now) columns pen.now && (col == 0)) }
    {
        self.wraps(pen, columns) && col == 0
    }

    /// Moves the cursor so that `columns` columns are printed from `col` on: 14 bytes at most.
    pub(crate) fn arrive(&self, pen: &mut Pen, run: &mut TextRun, col: u16, columns: u16)
        requires { length run.old + 14 ≤ 192 }
        ensures written { Wrote (arrive (row_change_of self.now) col columns) pen.old run.old pen.new run.new }
        ensures room { length run.new ≤ length run.old + 14 }
    {
        if self.is_wrapping(pen, columns, col) {
            pen.turn(self.row);
            return;
        }
        pen.goto(run, Pos { row: self.row, col });
    }

    /// Moves the cursor to the first of the columns that are to be erased, and sets their attributes: 72 bytes at most.
    fn to_erase(&self, pen: &mut Pen, run: &mut TextRun, erase: Erase)
        requires { length run.old + 72 ≤ 192 }
        ensures written { Wrote (to_erase (row_change_of self.now) erase) pen.old run.old pen.new run.new }
        ensures room { length run.new ≤ length run.old + 72 }
    {
        let erased = Cell::empty(erase.attrs);
        if self.is_wrapping(pen, 1, erase.from) {
            pen.turn(self.row);
            pen.space(run);
            pen.back(run);
            pen.color(run, &erased, None);
            return;
        }
        let pos = Pos {
            row: self.row,
            col: erase.from,
        };
        pen.goto(run, pos);
        pen.color(run, &erased, None);
    }

    /// Erases the pending columns before `col`, if the cell at `col` isn't erased with them: 80 bytes at most.
    fn flush(&self, pen: &mut Pen, run: &mut TextRun, col: u16)
        requires room { length run.old + 80 ≤ 192 }
        requires in_row { col < length self.now.cells.now }
        ensures written { Wrote (flush (row_change_of self.now) col) pen.old run.old pen.new run.new }
        ensures room { length run.new ≤ length run.old + 80 }
    {
        let Some(erase) = pen.erase else {
            return;
        };
        if !is_end(self.cell(col), erase.attrs) {
            return;
        }
        self.to_erase(pen, run, erase);
        pen.erase(
            run,
            col.saturating_sub(erase.from),
            self.loses_by_erase(erase.from, col),
        );
    }

    /// Erases the pending columns, to the end of the row.
    pub(crate) fn finish(&self, pen: &mut Pen, contents: &mut String) -> Result<(), GridError>
        ensures { Writes (finish (row_change_of self.now)) pen.old contents.old (is_ok result) pen.new
            contents.new }
    {
        let Some(erase) = pen.erase else {
            return Ok(());
        };
        let mut run = TextRun::new();
        self.to_erase(pen, &mut run, erase);
        pen.clear(&mut run);
        run.move_to(contents)?;
        Ok(())
    }

    /// Draws the cell at `col`, which differs from the terminal's: 93 bytes at most. An empty cell becomes pending, and
    /// is erased later.
    fn draw(&self, pen: &mut Pen, run: &mut TextRun, col: u16)
        requires room { length run.old + 93 ≤ 192 }
        requires in_row { col < length self.now.cells.now }
        requires other { is_same (row_change_of self.now) col ≡ false }
        ensures written { Wrote (draw (row_change_of self.now) col) pen.old run.old pen.new run.new }
        ensures room { length run.new ≤ length run.old + 93 }
    {
        let cell = self.cell(col);
        if cell.has_contents() {
            self.arrive(pen, run, col, span(cell));
            pen.color(run, cell, None);
            pen.print(run, cell, self.loses_by_print(col));
            return;
        }
        match pen.erase {
            None => pen.mark(col, cell.attrs()),
            Some(_) => {}
        }
    }

    /// Whether the cell at `col` is the second half of a wide character, which is drawn with the first half.
    #[inline]
    fn is_half(&self, col: u16) -> bool
        requires { col < length self.now.cells.now }
        ensures { result ≡ (((row_change_of self.now).new col).continuation && not (col == self.now.start)) }
    {
        self.cell(col).is_wide_continuation() && col != self.start
    }

    /// Draws one column, if it differs: 173 bytes at most. The second half of a wide character is drawn with the first.
    // A function of its own, since most columns stay: what those need is kept in registers.
    #[inline(never)]
    pub(crate) fn change(&self, pen: &mut Pen, run: &mut TextRun, col: u16)
        requires room { length run.old + 173 ≤ 192 }
        requires in_row { col < length self.now.cells.now }
        ensures { Wrote (column (row_change_of self.now) col) pen.old run.old pen.new run.new }
    {
        if self.is_half(col) {
            return;
        }
        self.flush(pen, run, col);
        if self.is_same(col) {
            return;
        }
        self.draw(pen, run, col);
    }
}

/// Which forms reset the row's flag.
impl<'a> Drawing<'a> {
    /// Whether erasing the columns from `from` up to `to` makes the terminal lose the row's flag.
    pub(crate) fn loses_by_erase(&self, from: u16, to: u16) -> bool
        ensures { result ≡ wipe_unflags (row_change_of self.now).cols (row_change_of self.now).old from to }
    {
        let to = usize::from(to);
        let cols = self.cells.len();
        usize::from(from) < to
            && (cols <= to || (to + 1 == cols && is_continuation_at(self.earlier, to)))
    }

    /// Whether printing the cell at `col` makes the terminal lose the row's flag.
    #[inline]
    pub(crate) fn loses_by_print(&self, col: u16) -> bool
        requires { col < length self.now.cells.now }
        ensures { result ≡ put_unflags (row_change_of self.now).cols (row_change_of self.now).old col
            ((row_change_of self.now).new col) }
    {
        let col = usize::from(col);
        at(self.cells, col).is_wide()
            && is_wide_at(self.earlier, col + 1)
            && col + 3 == self.cells.len()
    }
}

/// Whether a cell can't be erased together with columns before it that are erased with these attributes.
fn is_end(cell: &Cell, attrs: Attrs) -> bool
    ensures { result ≡ is_end cell.now attrs }
{
    cell.has_contents() || cell.attrs() != attrs
}
