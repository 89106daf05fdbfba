//! Writing the text of a row.
ghost use Rattle.std.specs.Prelude.{◌≡◌, ◌≤◌, ℕ, List, length, encode_utf8_all};
ghost use Rattle.byte_streams.specs.Sent.{SendsText};
ghost use Rattle.vt100_cells.specs.Cells.{cell_at};
ghost use Rattle.vt100_rows.specs.Text.{cell_text, column_text, columns_text, line_text};

use byte_streams::{ByteSink, pump};
use std::io;
use vt100_cells::Cell;
use vt100_cells::line::at;

/// Writes the text of the cells, without the empty cells at their end. Each cell is written with a pump of its own. The
/// first failed write ends it.
pub(crate) fn write_cells<T: ByteSink>(cells: &[Cell], to: &mut T) -> io::Result<()>
    ensures { SendsText T.takes to.old (encode_utf8_all (line_text (cell_at cells.now) 0 (length cells.now))) result
        to.new }
{
    for col in 0..text_len(cells) {
        pump(cell_text(at(cells, col), col == 0).as_bytes(), to).1?;
    }
    Ok(())
}

/// How many cells there are up to the last one with text.
fn text_len(cells: &[Cell]) -> usize
    ensures text { columns_text (cell_at cells.now) 0 result ≡ line_text (cell_at cells.now) 0 (length cells.now) }
    ensures bound { result ≤ length cells.now }
{
    let mut len = cells.len();
    while len > 0 {
        if at(cells, len - 1).has_contents() {
            break;
        }
        len -= 1;
    }
    len
}

/// A cell's part of the row's text: its characters, or a space if it is empty. The second half of a wide character has
/// no text; as the first cell of all it is a space.
fn cell_text(cell: &Cell, is_first: bool) -> &str
    ensures { result.now ≡ encode_utf8_all (cell_text cell.now is_first) }
{
    if cell.has_contents() {
        cell.contents()
    } else if cell.is_wide_continuation() && !is_first {
        ""
    } else {
        " "
    }
}
