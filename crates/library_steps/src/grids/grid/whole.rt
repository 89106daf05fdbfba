//! The invariants of every grid, which hold also after memory was refused.
ghost use Rattle.std.specs.Prelude.{IfOk, ◌<◌, length};
ghost use Rattle.vt100_core.specs.Grid.{IsAllocated};

use case_player::StepError;
use std::alloc::Global;
use vt100_core::{Grid, Pos, Scrollback, Size};

/// A new grid with its rows. Where they were refused memory, they are allocated the next time.
pub fn made(alloc: Global, size: Size, scrollback: Scrollback) -> Result<Grid, StepError>
    ensures { IfOk result (λ g. IsAllocated g) }
{
    let mut grid = Grid::new(alloc, size, scrollback);
    if grid.allocate_rows().is_ok() {
        return Ok(grid);
    }
    if grid.allocate_rows().is_err() {
        return Err(StepError::Wrong("rows are refused memory again"));
    }
    Err(refused_whole(&grid))
}

/// The grid has its rows, and its cursor and what it keeps are within their bounds.
pub fn is_whole(grid: &Grid) -> bool {
    let size = grid.size();
    has_rows(grid, size) && shows_wide_rows(grid, size.cols()) && fits(grid, size)
}

/// The error of a grid that was refused memory.
pub fn refused_whole(grid: &Grid) -> StepError {
    if is_whole(grid) {
        StepError::Memory
    } else {
        StepError::Wrong("the grid isn't whole")
    }
}

/// Whether as many rows are drawn on as the screen has, each with as many columns.
fn has_rows(grid: &Grid, size: Size) -> bool {
    let mut count = 0_u32;
    let mut is_even = true;
    for row in grid.drawing_rows() {
        is_even &= row.cols() == size.cols();
        count = count.saturating_add(1);
    }
    is_even && count == u32::from(size.rows())
}

/// Whether each row that is shown has at least this many columns.
fn shows_wide_rows(grid: &Grid, cols: u16) -> bool {
    let mut is_wide = true;
    for row in grid.visible_rows() {
        is_wide &= row.cols() >= cols;
    }
    is_wide
}

/// Whether the cursor, the rows that are kept and those that are shown are within their bounds.
fn fits(grid: &Grid, size: Size) -> bool {
    let (len, offset) = (grid.scrollback_len(), grid.scrollback());
    let Pos { row, col } = grid.pos();
    row < size.rows() && col <= size.cols() && len <= grid.scrollback_capacity() && offset <= len
}
