//! The start of a row, and the redraw of a whole row.
ghost use Rattle.std.specs.Prelude.{◌≡◌, ◌+◌, ◌<◌, ◌≤◌, ◌^◌, length, is_ok};
ghost use Rattle.vt100_cells.specs.Cells.{AreSame, cell_at};
ghost use Rattle.row_drawing.specs.Drawing.{row_change_of};
ghost use Rattle.row_drawing.specs.RowWriter.{owes_flag, reprint, opening, row_redraw};
ghost use Rattle.row_drawing.specs.Writes.{Writes, Wrote};

use crate::drawing::Drawing;
use crate::pen::{Pen, span};
use vt100_cells::Cell;
use vt100_forms::{GridError, TextRun};

impl<'a> Drawing<'a> {
    /// Whether the first cell must be printed although it stays: the row above wraps, and has no flag yet.
    fn owes_flag(&self, pen: &Pen) -> bool
        requires { self.now.start < length self.now.cells.now }
        ensures { result ≡ owes_flag (row_change_of self.now) pen.now }
    {
        self.above
            && !self.was_above
            && self.is_same(self.start)
            && self.wraps(pen, span(self.cell(self.start)))
    }

    /// Prints a cell over itself, and moves back to its first column: 23 bytes at most. An empty one is printed as a
    /// space and erased.
    fn reprint(&self, pen: &mut Pen, run: &mut TextRun, cell: &Cell)
        requires room { length run.old + 23 ≤ 192 }
        requires fits { pen.old.pos.col + 2 < 2 ^ 16 }
        ensures written { Wrote (reprint (row_change_of self.now) cell.now) pen.old run.old pen.new run.new }
        ensures room { length run.new ≤ length run.old + 23 }
    {
        if !cell.has_contents() {
            pen.space(run);
            pen.back(run);
            pen.erase(run, 1, self.loses_by_erase(0, 1));
            return;
        }
        pen.print(run, cell, false);
        if cell.is_wide() {
            pen.back(run);
            pen.back(run);
            return;
        }
        pen.back(run);
    }

    /// Sets the flag of the row above, if it is missing and no other cell would set it.
    fn opening(&self, pen: &mut Pen, contents: &mut String) -> Result<(), GridError>
        requires { self.now.start < length self.now.cells.now }
        ensures { Writes (opening (row_change_of self.now)) pen.old contents.old (is_ok result) pen.new
            contents.new }
    {
        if !self.owes_flag(pen) {
            return Ok(());
        }
        let mut run = TextRun::new();
        let first = self.cell(self.start);
        pen.turn(self.row);
        pen.color(&mut run, first, None);
        self.reprint(pen, &mut run, first);
        run.move_to(contents)?;
        Ok(())
    }

    /// Draws `count` columns, from `start` on, over a row that has no flag.
    ///
    /// Fails only if an allocation fails; `contents` may then have got some of the forms.
    pub fn redraw(&self, pen: &mut Pen, contents: &mut String, count: u16) -> Result<(), GridError>
        requires starts_inside { self.now.start < length self.now.cells.now }
        requires ends_inside { self.now.start + count ≤ length self.now.cells.now }
        ensures { Writes (row_redraw (row_change_of self.now) count) pen.old contents.old (is_ok result)
            pen.new contents.new }
    {
        self.redraw_behind(pen, contents, 0, count)
    }

    /// Draws `count` columns, from `start` on, over a row that has no flag. The terminal shows the first `same` cells
    /// already.
    pub(crate) fn redraw_behind(
        &self,
        pen: &mut Pen,
        contents: &mut String,
        same: usize,
        count: u16,
    ) -> Result<(), GridError>
        requires starts_inside { self.now.start < length self.now.cells.now }
        requires ends_inside { self.now.start + count ≤ length self.now.cells.now }
        requires same { AreSame (cell_at self.now.cells.now) (cell_at self.now.earlier.now) 0 same }
        ensures { Writes (row_redraw (row_change_of self.now) count) pen.old contents.old (is_ok result)
            pen.new contents.new }
    {
        self.opening(pen, contents)?;
        self.columns(pen, contents, same, count)?;
        self.finish(pen, contents)
    }
}
