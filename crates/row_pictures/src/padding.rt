//! The part of a row that is written in SVG.

ghost use Rattle.std.specs.Prelude.{◌≡◌, ◌<◌, ◌≤◌, length};
ghost use Rattle.row_pictures.specs.Unpadded.{has_ink, shows_at, unpadded as unpadded_of, unpadded_columns};

use crate::row::style_at;
use vt100_cells::Cell;

/// The cells of a row up to the last one that shows something. After it are only spaces on the picture's background.
pub fn unpadded(cells: &[Cell], cursor: Option<usize>) -> &[Cell]
    ensures { result.now ≡ unpadded_of cells.now cursor }
{
    &cells[..unpadded_end(cells, cursor)]
}

fn unpadded_end(cells: &[Cell], cursor: Option<usize>) -> usize
    ensures columns { result ≡ unpadded_columns cells.now cursor (length cells.now) }
    ensures bound { result ≤ length cells.now }
{
    let mut end = 0;
    for col in 0..cells.len() {
        if shows_at(cells, cursor, col) {
            end = col + 1;
        }
    }
    end
}

// Whether the cell in a column shows something.
fn shows_at(cells: &[Cell], cursor: Option<usize>, col: usize) -> bool
    requires { col < length cells.now }
    ensures { result ≡ shows_at cells.now cursor col }
{
    has_ink(&cells[col]) || style_at(cells, col, cursor).shows_on_spaces()
}

// Whether a cell has a text other than a space, or is the second column of one that has.
fn has_ink(cell: &Cell) -> bool
    ensures { result ≡ has_ink cell.now }
{
    (cell.has_contents() && cell.contents() != " ") || cell.is_wide_continuation()
}
