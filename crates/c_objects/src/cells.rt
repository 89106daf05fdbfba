//! The cells of a row, copied into the caller's records.
ghost use Rattle.std.specs.Prelude.{◌≡◌, ◌≤◌, ◌<◌, map};
ghost use Rattle.vt100_cells.specs.Cells.{by_position};
ghost use Rattle.termview.specs.Standing.{view_size, shown_by};
ghost use Rattle.c_objects.specs.Cells.{ShowsCells, ViewHasCells};
ghost use Rattle.c_objects.specs.Codes.{IsRefusal};
ghost use Rattle.c_objects.specs.Looks.{cell_of};
ghost use Rattle.c_objects.specs.Texts.{with_prefix};

use crate::code::{NO_CELL, OK};
use crate::look::{set_cell, switch};
use crate::plain::CCell;
use termview::{UntilCleared, View};
use vt100::{Cell, Screen};

/// Copies as many of the cells as fit.
fn copy_cells(cells: &[Cell], to: &mut [CCell])
    ensures { to.new ≡ with_prefix (map cell_of cells.now) to.old }
{
    let n = cells.len().min(to.len());
    for i in 0..n {
        set_cell(&cells[i], &mut to[i]);
    }
}

/// Copies as many as fit of the cells of a row of a screen, in the screen's columns, and sets `count` to how many there
/// are and `wrapped` to whether the row's text goes on in the next row. Refused for a row outside the screen.
pub(crate) fn copy_screen_cells(
    screen: &Screen,
    row: u16,
    to: &mut [CCell],
    count: &mut usize,
    wrapped: &mut u8,
) -> i32
    ensures cells { ShowsCells screen.now row to.old to.new count.new wrapped.new result }
    ensures refused { IsRefusal result → (to.new ≡ to.old) × (count.new ≡ count.old) × (wrapped.new ≡ wrapped.old) }
{
    let cols = usize::from(screen.size().1.get());
    match screen.row_cells(row) {
        Some(cells) => {
            let shown = &cells[..cells.len().min(cols)];
            copy_cells(shown, to);
            *count = shown.len();
            *wrapped = switch(screen.row_wrapped(row));
            OK
        }
        None => NO_CELL,
    }
}

/// Sets `to` to the cell at a place inside a view.
fn set_view_cell(view: &View<UntilCleared>, row: u16, col: u16, to: &mut CCell)
    requires row { row < (view_size view.now).rows }
    requires col { col < (view_size view.now).cols }
    ensures { to.new ≡ cell_of ((shown_by view.now).cell row col) }
{
    match view.cell(row, col) {
        Some(cell) => set_cell(cell, to),
        None => unreachable!(),
    }
}

/// Copies as many of the first `cols` cells of a row of a view as fit.
fn copy_view_row(view: &View<UntilCleared>, row: u16, cols: u16, to: &mut [CCell])
    requires row { row < (view_size view.now).rows }
    requires cols { cols ≤ (view_size view.now).cols }
    ensures { to.new ≡ with_prefix (map cell_of (by_position cols ((shown_by view.now).cell row))) to.old }
{
    let n = usize::from(cols).min(to.len());
    for col in 0..n {
        set_view_cell(view, row, col as u16, &mut to[col]);
    }
}

/// Copies as many as fit of the cells of a row that a view shows, and sets `count` and `wrapped` as
/// `copy_screen_cells` does. Refused for a row outside the view.
pub(crate) fn copy_view_cells(
    view: &View<UntilCleared>,
    row: u16,
    to: &mut [CCell],
    count: &mut usize,
    wrapped: &mut u8,
) -> i32
    ensures cells { ViewHasCells row to.old to.new count.new wrapped.new view.now result }
    ensures refused { IsRefusal result → (to.new ≡ to.old) × (count.new ≡ count.old) × (wrapped.new ≡ wrapped.old) }
{
    let (rows, cols) = view.size();
    if row >= rows.get() {
        return NO_CELL;
    }
    copy_view_row(view, row, cols.get(), to);
    *count = usize::from(cols.get());
    *wrapped = switch(view.row_wrapped(row));
    OK
}
