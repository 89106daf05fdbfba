//! Moves of a grid's cursor.
ghost use Rattle.std.specs.Prelude.{◌<◌, length};
ghost use Rattle.vt100_core.specs.Grid.{IsAllocated};

use crate::words::{flag, pos};
use case_player::{StepError, Words};
use vt100_core::Grid;

/// Takes a step that moves the cursor.
pub fn move_cursor(grid: &mut Grid, name: &str, words: &Words)
    requires { IsAllocated grid.old }
{
    match name {
        "set_pos" => grid.set_pos(pos(words)),
        "save_cursor" => grid.save_cursor(),
        "restore_cursor" => grid.restore_cursor(),
        "set_scroll_region" => grid.set_scroll_region(words.place(), words.place()),
        "set_origin_mode" => grid.set_origin_mode(flag(words)),
        "row_inc_clamp" => grid.row_inc_clamp(words.place()),
        "row_dec_clamp" => grid.row_dec_clamp(words.place()),
        "row_set" => grid.row_set(words.place()),
        _ => move_columns(grid, name, words),
    }
}

fn move_columns(grid: &mut Grid, name: &str, words: &Words)
    requires { IsAllocated grid.old }
{
    match name {
        "col_inc" => col_inc(grid, words.place(), words),
        "col_inc_clamp" => grid.col_inc_clamp(words.place()),
        "col_dec" => grid.col_dec(words.place()),
        "col_tab" => grid.col_tab(),
        "col_set" => grid.col_set(words.place()),
        _ => words.fail(StepError::Unknown),
    }
}

fn col_inc(grid: &mut Grid, count: u16, words: &Words)
    requires { IsAllocated grid.old }
{
    if u32::from(grid.pos().col) + u32::from(count) > u32::from(grid.size().cols()) {
        return words.want("at most as many columns as are left");
    }
    grid.col_inc(count);
}
