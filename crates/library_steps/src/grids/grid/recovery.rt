//! Grids that were refused memory.
ghost use Rattle.std.specs.Prelude.{◌<◌, length};
ghost use Rattle.vt100_core.specs.Grid.{IsAllocated};

use super::Counter;
use super::calls::{Call, make};
use super::whole::{is_whole, made};
use case_player::StepError;
use std::alloc::Global;
use vt100_core::{Grid, Scrollback};

/// The error of a grid that was refused memory in a call: `Memory` if its invariants hold, else a fault.
///
/// The grid is whole, and the call leaves it whole the next time. Once the grid is cleared, the call does to it what it
/// does to a new grid.
pub fn recovery(alloc: Global, grid: &mut Grid, call: Call<'_>) -> StepError
    requires { IsAllocated grid.old }
{
    if !is_whole(grid) || !is_made(grid, call) || !is_whole(grid) {
        return StepError::Wrong("the grid isn't whole, or the call is refused memory again");
    }
    grid.clear();
    grid.erase_all_scrollback(&mut ());
    match is_as_new(alloc, grid, call) {
        Ok(true) => StepError::Memory,
        Ok(false) => StepError::Wrong("a cleared grid isn't as a new one"),
        Err(error) => error,
    }
}

/// Whether a call is made, and not refused memory again.
fn is_made(grid: &mut Grid, call: Call<'_>) -> bool
    requires { IsAllocated grid.old }
    ensures { IsAllocated grid.new }
{
    make(grid, call, &mut Counter { rows: 0 }).is_ok()
}

/// Whether a call does to a cleared grid what it does to a new one.
fn is_as_new(alloc: Global, grid: &mut Grid, call: Call<'_>) -> Result<bool, StepError>
    requires { IsAllocated grid.old }
{
    let scrollback = match grid.scrollback_capacity() {
        0 => Scrollback::Disabled,
        capacity => Scrollback::Enabled { capacity },
    };
    let mut new = made(alloc, grid.size(), scrollback)?;
    let are_made = is_made(grid, call) && is_made(&mut new, call);
    Ok(are_made && grid.is_drawn_alike(&new) && grid.scrollback_len() == new.scrollback_len())
}
