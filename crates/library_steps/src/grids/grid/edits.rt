//! Edits of a grid that take no memory.
ghost use Rattle.std.specs.Prelude.{◌<◌, length};
ghost use Rattle.vt100_core.specs.Grid.{IsAllocated};

use super::Counter;
use super::moves::move_cursor;
use crate::words::attributes_or_default;
use case_player::Words;
use vt100_core::Grid;
use vt100_core::attrs::Attrs;

/// Takes a step that changes a grid and takes no memory.
pub fn edit(grid: &mut Grid, name: &str, words: &Words, gone: &mut Counter)
    requires { IsAllocated grid.old }
{
    match name {
        "insert_cells" => grid.insert_cells(words.place()),
        "delete_cells" => grid.delete_cells(words.place()),
        "insert_lines" => grid.insert_lines(words.place()),
        "delete_lines" => grid.delete_lines(words.place()),
        "scroll_down" => grid.scroll_down(words.place()),
        "row_dec_scroll" => grid.row_dec_scroll(words.place()),
        "erase_all_scrollback" => grid.erase_all_scrollback(gone),
        "clear" => grid.clear(),
        _ => erase(grid, name, words),
    }
}

fn erase(grid: &mut Grid, name: &str, words: &Words)
    requires { IsAllocated grid.old }
{
    let attrs = Attrs::new();
    match name {
        "erase_all" => grid.erase_all(attrs),
        "erase_all_forward" => grid.erase_all_forward(attrs),
        "erase_all_backward" => grid.erase_all_backward(attrs),
        "erase_row" => grid.erase_row(attrs),
        "erase_row_forward" => grid.erase_row_forward(attrs),
        "erase_row_backward" => grid.erase_row_backward(attrs),
        "erase_cells" => {
            let count = words.place();
            grid.erase_cells(count, attributes_or_default(words));
        }
        _ => move_cursor(grid, name, words),
    }
}
