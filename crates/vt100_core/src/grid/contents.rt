//! The text that a grid shows.
ghost use Rattle.std.specs.Prelude.{◌≡◌, ◌+◌, ◌<◌, ◌≤◌, ◌^◌, ◌++◌, length, replicate, not, ◌==◌, IfOk, OnOk, OnErr};
ghost use Rattle.std.specs.Prelude.{encode_utf8_all, string_bytes, string_len, string_capacity};
ghost use Rattle.row_drawing.specs.Writes.{IsBegun};
ghost use Rattle.vt100_rows.specs.Text.{row_text, written_text};
ghost use Rattle.vt100_core.specs.Contents.{newlines_cut, text_lines};

use crate::grid::Grid;
use vt100_cells::line::at;
use vt100_forms::GridError;
use vt100_rows::Row;

impl Grid {
    /// Appends the text of the rows that are shown, in the screen's columns: without the empty columns at a row's end,
    /// and with a newline after each row that doesn't go on in the next. Then the newlines at the end of `contents`
    /// are removed, also those that it had before.
    ///
    /// It is refused only where what `contents` becomes doesn't fit in its capacity and there is no memory for more
    /// (`full`). Then a part of the text may have been appended.
    pub fn write_contents(&self, contents: &mut String) -> Result<(), GridError>
        ensures text { OnOk result (string_bytes contents.new
            ≡ newlines_cut (string_bytes contents.old
            ++ encode_utf8_all (text_lines self.now (length self.now.rows)))) }
        ensures begun { OnErr result (IsBegun (string_bytes contents.old)
            (encode_utf8_all (text_lines self.now (length self.now.rows))) (string_bytes contents.new)) }
        ensures full { OnErr result (string_capacity contents.old < length (newlines_cut (string_bytes contents.old
            ++ encode_utf8_all (text_lines self.now (length self.now.rows))))) }
    {
        let mut newlines = 0;
        let mut wrapping = false;
        for row in self.visible_rows() {
            newlines = write_row(contents, row, self.size.cols(), newlines, wrapping)?;
            wrapping = row.wrapped();
            if !wrapping {
                newlines += 1;
            }
        }
        trim_newlines(contents);
        Ok(())
    }
}

/// Appends the text of a row, and before it the pending newlines. Returns how many newlines are pending after it. Of
/// a row without text nothing is appended; if `wrapping` is set, one more newline is pending for it.
fn write_row(
    contents: &mut String,
    row: &Row,
    width: u16,
    newlines: usize,
    wrapping: bool,
) -> Result<usize, GridError>
    requires { newlines < 2 ^ 32 }
    ensures text { IfOk result (λ owed. string_bytes contents.new ++ replicate owed 10
        ≡ (string_bytes contents.old ++ replicate newlines 10)
        ++ encode_utf8_all (written_text row.now 0 width wrapping)) }
    ensures owed { IfOk result (λ owed. owed ≤ newlines + 1) }
    ensures begun { IsBegun (string_bytes contents.old)
        (replicate newlines 10 ++ encode_utf8_all (written_text row.now 0 width wrapping)) (string_bytes contents.new) }
    ensures shows { OnErr result (0 < length (row_text row.now 0 width)) }
    ensures full { OnErr result (string_capacity contents.old
        < string_len contents.old + newlines + length (encode_utf8_all (row_text row.now 0 width))) }
    ensures capacity { string_capacity contents.old ≤ string_capacity contents.new }
{
    if !shows_text(row, width) {
        return Ok(newlines + usize::from(wrapping));
    }
    push_newlines(contents, newlines)?;
    row.write_contents(contents, 0, width, false)?;
    Ok(0)
}

/// Whether a cell of the first `width` columns has a text.
fn shows_text(row: &Row, width: u16) -> bool
    ensures { result ≡ not (length (row_text row.now 0 width) == 0) }
{
    let cells = row.cells();
    for col in 0..cells.len().min(usize::from(width)) {
        if at(cells, col).has_contents() {
            return true;
        }
    }
    false
}

/// Appends `n` newlines.
fn push_newlines(contents: &mut String, n: usize) -> Result<(), GridError>
    ensures text { OnOk result (string_bytes contents.new ≡ string_bytes contents.old ++ replicate n 10) }
    ensures begun { OnErr result (IsBegun (string_bytes contents.old) (replicate n 10) (string_bytes contents.new)) }
    ensures full { OnErr result (string_capacity contents.old < string_len contents.old + n) }
    ensures capacity { string_capacity contents.old ≤ string_capacity contents.new }
{
    for _ in 0..n {
        contents.push('\n')?;
    }
    Ok(())
}

/// Removes the newlines at the end.
fn trim_newlines(text: &mut String)
    ensures { string_bytes text.new ≡ newlines_cut (string_bytes text.old) }
{
    while text.ends_with('\n') {
        text.pop();
    }
}
