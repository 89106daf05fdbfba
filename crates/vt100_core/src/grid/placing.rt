//! How a terminal's cursor comes to that of a grid.
ghost use Rattle.std.specs.Prelude.{◌≡◌, ◌-◌, ◌<◌, ◌≤◌, length, is_ok, replicate, IfSome, string_bytes};
ghost use Rattle.vt100_forms.specs.Form.{Lf};
ghost use Rattle.screen_drawing.specs.Cursor.{is_pen_at, arriving, end_col, end_cell, printed_with, row_with_end};
ghost use Rattle.screen_drawing.specs.Cursor.{wait_behind, wait_on_empty, replaced};
ghost use Rattle.vt100_core.specs.Picture.{grid_size};
ghost use Rattle.vt100_core.specs.Writers.{Appends, cursor_position_formatted};
ghost use Rattle.vt100_rows.specs.Picture.{lines_of};

use crate::grid::Grid;
use vt100_cells::line;
use vt100_forms::attrs::Attrs;
use vt100_forms::term::{
    Backspace, BufWrite, EraseChar, MoveFromTo, MoveTo, RestoreCursor, SaveCursor,
};
use vt100_forms::{GridError, Pos};
use vt100_rows::Cell;

impl Grid {
    /// Appends the forms that bring a terminal's cursor, which is at `prev_pos` or at an unknown place, to the
    /// grid's. The terminal shows the rows that are drawn on, and draws with `prev_attrs`, the default attributes if
    /// they aren't given; it does so afterwards.
    ///
    /// A cursor past the last column gets there by the last cell of its row, which is printed again; where that one has
    /// no text, by the last cell of the nearest row above that has one, and line feeds; where no row has one, by a
    /// space, which is erased again while the cursor is saved.
    ///
    /// It is refused only where the forms don't fit in the capacity of `contents` and there is no memory for more. Then
    /// a part of them may have been appended.
    pub fn write_cursor_position_formatted(
        &self,
        contents: &mut String,
        prev_pos: Option<Pos>,
        prev_attrs: Option<Attrs>,
    ) -> Result<(), GridError>
        ensures { Appends (cursor_position_formatted self.now prev_pos prev_attrs) contents.old
            (is_ok result) contents.new }
    {
        let prev_attrs = prev_attrs.unwrap_or(Attrs::new());
        if self.pos.col < self.size.cols() {
            return arrive(contents, prev_pos, self.pos);
        }
        if is_at(prev_pos, self.pos) {
            return Ok(());
        }
        match self.row_with_end() {
            Some(row) => {
                self.wait_behind(contents, prev_pos, prev_attrs, row)?;
                push_line_feeds(contents, self.pos.row - row)
            }
            None => self.wait_on_empty(contents, prev_pos, prev_attrs),
        }
    }
}

/// Where the cursor waits past the last column.
impl Grid {
    /// The column of a row's last cell, or of that one's first half.
    fn last_col(&self, row: u16) -> u16
        requires { row < length self.now.rows }
        ensures value { result ≡ end_col (grid_size self.now) (lines_of self.now.rows) row }
        ensures inside { result < self.now.width }
    {
        let cells = self.rows[usize::from(row)].cells();
        let col = self.size.cols() - 1;
        if line::at(cells, usize::from(col)).is_wide_continuation() {
            col.saturating_sub(1)
        } else {
            col
        }
    }

    /// A row's last cell, or its first half.
    fn last_cell(&self, row: u16) -> &Cell
        requires { row < length self.now.rows }
        ensures { result.now ≡ end_cell (grid_size self.now) (lines_of self.now.rows) row }
    {
        line::at(
            self.rows[usize::from(row)].cells(),
            usize::from(self.last_col(row)),
        )
    }

    /// The nearest row, from the cursor's on upwards, whose last cell has a text.
    fn row_with_end(&self) -> Option<u16>
        requires { self.now.row < length self.now.rows }
        ensures value { result ≡ row_with_end (grid_size self.now) (lines_of self.now.rows) self.now.row }
        ensures above { IfSome result (λ r. r ≤ self.now.row) }
    {
        let mut row = self.pos.row;
        while !self.last_cell(row).has_contents() {
            if row == 0 {
                return None;
            }
            row -= 1;
        }
        Some(row)
    }

    /// Makes the cursor wait at the end of this row, whose last cell has a text.
    fn wait_behind(
        &self,
        contents: &mut String,
        prev_pos: Option<Pos>,
        attrs: Attrs,
        row: u16,
    ) -> Result<(), GridError>
        requires { row < length self.now.rows }
        ensures { Appends (wait_behind (grid_size self.now) (lines_of self.now.rows) prev_pos attrs row)
            contents.old (is_ok result) contents.new }
    {
        let end = Pos {
            row,
            col: self.size.cols(),
        };
        if is_at(prev_pos, end) {
            return Ok(());
        }
        let pos = Pos {
            row,
            col: self.last_col(row),
        };
        arrive(contents, prev_pos, pos)?;
        print_with(contents, attrs, self.last_cell(row))
    }

    /// Makes the cursor wait at the end of its row, whose last cell is empty.
    fn wait_on_empty(
        &self,
        contents: &mut String,
        prev_pos: Option<Pos>,
        attrs: Attrs,
    ) -> Result<(), GridError>
        requires { self.now.row < length self.now.rows }
        ensures { Appends (wait_on_empty (grid_size self.now) prev_pos attrs self.now.row
            (lines_of self.now.rows self.now.row (self.now.width - 1)))
            contents.old (is_ok result) contents.new }
    {
        let pos = Pos {
            row: self.pos.row,
            col: self.size.cols() - 1,
        };
        arrive(contents, prev_pos, pos)?;
        contents.push(' ')?;
        replace_space(contents, attrs, self.end_attrs())
    }

    /// The attributes in the last column of the cursor's row.
    fn end_attrs(&self) -> Attrs
        requires { self.now.row < length self.now.rows }
        ensures { result ≡ (lines_of self.now.rows self.now.row (self.now.width - 1)).attrs }
    {
        let cells = self.rows[usize::from(self.pos.row)].cells();
        line::at(cells, usize::from(self.size.cols() - 1)).attrs()
    }
}

/// Brings the cursor to `pos`, from `prev_pos` if that is known.
fn arrive(contents: &mut String, prev_pos: Option<Pos>, pos: Pos) -> Result<(), GridError>
    ensures { Appends (arriving prev_pos pos) contents.old (is_ok result)
        contents.new }
{
    match prev_pos {
        Some(prev_pos) => MoveFromTo::new(prev_pos, pos).write_buf(contents),
        None => MoveTo::new(pos).write_buf(contents),
    }
}

/// Whether the cursor is known to be at `pos`.
fn is_at(prev_pos: Option<Pos>, pos: Pos) -> bool
    ensures { result ≡ is_pen_at prev_pos pos }
{
    match prev_pos {
        Some(prev_pos) => prev_pos == pos,
        None => false,
    }
}

/// Prints a cell with its own attributes.
fn print_with(contents: &mut String, attrs: Attrs, cell: &Cell) -> Result<(), GridError>
    ensures { Appends (printed_with attrs cell.now) contents.old (is_ok result)
        contents.new }
{
    cell.attrs().write_escape_code_diff(contents, &attrs)?;
    contents.push_str(cell.contents())?;
    attrs.write_escape_code_diff(contents, &cell.attrs())
}

/// Erases the space on which the cursor waits, with the attributes of the cell in its place.
fn replace_space(contents: &mut String, attrs: Attrs, own: Attrs) -> Result<(), GridError>
    ensures { Appends (replaced attrs own) contents.old (is_ok result) contents.new }
{
    own.write_escape_code_diff(contents, &attrs)?;
    SaveCursor.write_buf(contents)?;
    Backspace.write_buf(contents)?;
    EraseChar::new(1).write_buf(contents)?;
    RestoreCursor.write_buf(contents)?;
    attrs.write_escape_code_diff(contents, &own)
}

fn push_line_feeds(contents: &mut String, count: u16) -> Result<(), GridError>
    ensures { Appends (replicate count Lf) contents.old (is_ok result) contents.new }
{
    for _n in 0..count {
        contents.push('\n')?;
    }
    Ok(())
}
