//! Several columns of a row: columns that need nothing are skipped, and texts in sequence are printed together.
ghost use Rattle.std.specs.Prelude.{ℕ, ◌≡◌, ◌+◌, ◌<◌, ◌≤◌, List, ◌++◌, length, is_ok};
ghost use Rattle.std.specs.Prelude.{IfSome, IsTrue};
ghost use Rattle.vt100_cells.specs.Cells.{AreSame, cell_at};
ghost use Rattle.row_drawing.specs.Drawing.{row_change_of, behind, AreQuiet, BeginsRun, GoesTo, IsAt, JoinsRun};
ghost use Rattle.row_drawing.specs.RowWriter.{columns};
ghost use Rattle.row_drawing.specs.Writes.{Writes};

use crate::drawing::Drawing;
use crate::pen::{Pen, span};
use vt100_cells::Cell;
use vt100_cells::line::{alike_to, same_to};
use vt100_forms::{CHAR_BYTES, GridError, TextRun};

/// How many bytes a move of the cursor, a change of attributes and a text of one character take at most.
const TEXT_BYTES: usize = 14 + 58 + CHAR_BYTES;

/// How many bytes the forms of one column take at most: an erasure, then a cell, with a move and a change before each.
const COLUMN_BYTES: usize = 14 + 58 + 8 + 14 + 58 + 21;

impl<'a> Drawing<'a> {
    /// The first column from `from` up to `to` for which something may have to be written. Skipped are columns that the
    /// terminal shows already, and those that are erased with the columns before them.
    fn quiet_to(&self, pen: &Pen, from: usize, to: usize) -> usize
        requires some { from ≤ to }
        requires in_row { to ≤ length self.now.cells.now }
        ensures within { from ≤ result × result ≤ to }
        ensures quiet { AreQuiet (row_change_of self.now) pen.now from result }
    {
        match pen.erase {
            Some(erase) => alike_to(self.cells, &Cell::empty(erase.attrs), from, to),
            None if to <= self.earlier.len() => same_to(self.cells, self.earlier, from, to),
            None if self.earlier.is_empty() => alike_to(self.cells, &Cell::new(), from, to),
            None => from,
        }
    }

    /// How many of `count` columns need no further forms, once the first `n` are drawn.
    fn after_quiet(&self, pen: &Pen, n: u16, count: u16) -> u16
        requires some { n ≤ count }
        requires in_row { self.now.start + count ≤ length self.now.cells.now }
        ensures within { n ≤ result × result ≤ count }
        ensures quiet { AreQuiet (row_change_of self.now) pen.now (self.now.start + n) (self.now.start + result) }
    {
        let start = usize::from(self.start);
        let to = self.quiet_to(pen, start + usize::from(n), start + usize::from(count));
        (to - start) as u16
    }

    /// How many of `count` columns need nothing, if the terminal shows the first `same` cells of the row already.
    fn same_columns(&self, pen: &Pen, same: usize, count: u16) -> u16
        requires { AreSame (cell_at self.now.cells.now) (cell_at self.now.earlier.now) 0 same }
        ensures within { result ≤ count }
        ensures quiet { AreQuiet (row_change_of self.now) pen.now self.now.start (self.now.start + result) }
    {
        let start = usize::from(self.start);
        match pen.erase {
            Some(_) => 0,
            None => same.saturating_sub(start).min(usize::from(count)) as u16,
        }
    }

    /// Draws `count` columns, from `start` on. The terminal shows the first `same` cells of the row already, and these
    /// aren't compared again.
    pub(crate) fn columns(
        &self,
        pen: &mut Pen,
        contents: &mut String,
        same: usize,
        count: u16,
    ) -> Result<(), GridError>
        requires in_row { self.now.start + count ≤ length self.now.cells.now }
        requires same { AreSame (cell_at self.now.cells.now) (cell_at self.now.earlier.now) 0 same }
        ensures { Writes (columns (row_change_of self.now) count) pen.old contents.old (is_ok result) pen.new
            contents.new }
    {
        // A cell with the terminal's current attributes.
        let mut like = None;
        let mut run = TextRun::new();
        let mut n = self.same_columns(pen, same, count);
        while n < count {
            let col = self.start + n;
            if self.begins_run(pen, col) {
                run.make_room(TEXT_BYTES, contents)?;
                n = self.texts(pen, &mut run, like, n, count);
                like = Some(self.cell(col));
                continue;
            }
            let quiet = self.after_quiet(pen, n, count);
            if quiet > n {
                n = quiet;
                continue;
            }
            run.make_room(COLUMN_BYTES, contents)?;
            self.change(pen, &mut run, col);
            like = None;
            n += 1;
        }
        run.move_to(contents)?;
        Ok(())
    }
}

/// Texts that are written together.
impl<'a> Drawing<'a> {
    /// Whether the cell at `col` can begin a run of texts: it has a text of at most four bytes, which differs and keeps
    /// the row's flag, and no column is pending.
    // The terminal's cell is compared first: LLVM then loads the start of a cell at once, and not byte by byte.
    #[inline(always)]
    fn begins_run(&self, pen: &Pen, col: u16) -> bool
        requires { col < length self.now.cells.now }
        ensures { IsTrue result → BeginsRun (row_change_of self.now) col pen.now }
    {
        !self.is_same(col)
            && self.cell(col).has_text_of_four()
            && pen.erase.is_none()
            && !self.loses_by_print(col)
    }

    /// Whether the cell at `col` can join a run of texts: it could begin one, the cursor is there, and its attributes
    /// are those of `like`.
    #[inline(always)]
    fn joins_run(&self, pen: &Pen, like: &Cell, col: u16) -> bool
        requires in_row { col < length self.now.cells.now }
        requires here { IsAt (row_change_of self.now) col pen.now }
        ensures { IsTrue result → JoinsRun (row_change_of self.now) col pen.now like.now.attrs }
    {
        self.begins_run(pen, col) && self.cell(col).has_attrs_of(like)
    }

    /// Appends to `run` the texts of columns from the `n`-th of `count` on, where the cursor is, and moves the pen over
    /// them. Returns the first column that was not taken.
    // Each cell is compared with the last one that was taken: LLVM keeps the parts of a cell that stays the same in
    // registers, and compares them one by one.
    fn gather(&self, pen: &mut Pen, run: &mut TextRun, like: &Cell, n: u16, count: u16) -> u16
        requires some { n ≤ count }
        requires in_row { self.now.start + count ≤ length self.now.cells.now }
        requires like { like.now.attrs ≡ pen.old.attrs }
        requires here { n < count → IsAt (row_change_of self.now) (self.now.start + n) pen.old }
        ensures within { n ≤ result × result ≤ count }
        ensures written { (t : List ℕ) → GoesTo (row_change_of self.now) n result pen.old (t ++ run.old) pen.new
            (t ++ run.new) }
        ensures attrs { pen.new.attrs ≡ pen.old.attrs }
    {
        let mut alike = like;
        let mut m = n;
        while m < count && run.has_room(CHAR_BYTES) {
            let col = self.start + m;
            if !self.joins_run(pen, alike, col) {
                break;
            }
            let cell = self.cell(col);
            cell.push_text(run);
            pen.pass(cell);
            alike = cell;
            m = behind(cell, m, count);
        }
        m
    }

    /// Appends to `run` the move to the `n`-th of `count` columns, its attributes and its text, and the texts after it
    /// that have the same attributes. Returns the first column that was not taken.
    // `like`, if given, is a cell with the terminal's current attributes.
    fn texts(
        &self,
        pen: &mut Pen,
        run: &mut TextRun,
        like: Option<&Cell>,
        n: u16,
        count: u16,
    ) -> u16
        requires some { n < count }
        requires in_row { self.now.start + count ≤ length self.now.cells.now }
        requires room { length run.old + 76 ≤ 192 }
        requires like { IfSome like (λ x. x.now.attrs ≡ pen.old.attrs) }
        requires begins { BeginsRun (row_change_of self.now) (self.now.start + n) pen.old }
        ensures within { n < result × result ≤ count }
        ensures written { (t : List ℕ) → GoesTo (row_change_of self.now) n result pen.old (t ++ run.old) pen.new
            (t ++ run.new) }
        ensures like { ((row_change_of self.now).new (self.now.start + n)).attrs ≡ pen.new.attrs }
    {
        let col = self.start + n;
        let cell = self.cell(col);
        self.arrive(pen, run, col, span(cell));
        pen.color(run, cell, like);
        cell.push_text(run);
        pen.pass(cell);
        self.gather(pen, run, cell, behind(cell, n, count), count)
    }
}

/// The column after the cell at the `n`-th of `count` columns. A wide cell takes its second half with it.
#[inline(always)]
fn behind(cell: &Cell, n: u16, count: u16) -> u16
    requires { n < count }
    ensures { result ≡ behind cell.now n count }
{
    if cell.is_wide() && n + 1 < count {
        n + 2
    } else {
        n + 1
    }
}
