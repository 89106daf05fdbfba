//! A row's text with its attributes.
ghost use Rattle.std.specs.Prelude.{◌≡◌, [], OnOk, IsOk};
ghost use Rattle.std.specs.Fmt.{WritesInCalls};
ghost use Rattle.vt100_rows.specs.Basic.{basic_text, attrs_after_row, basic_cell, attrs_after};

use crate::row::Row;
use std::fmt;
use vt100_cells::Cell;
use vt100_cells::line::{at, trimmed_len};
use vt100_forms::attrs::Attrs;

impl Row {
    /// Writes the text of the row with its attributes, up to the last cell that isn't a default cell: no control
    /// sequences but SGR, and none at its end. Default cells before it are spaces in the attributes that are set then,
    /// other empty cells spaces in their own.
    ///
    /// `current_attrs` are the attributes that are set before the text, and afterwards those that are set after it.
    /// The only error is the writer's, after which they are unspecified. There is no error if there is no text.
    pub fn write_contents_formatted_basic<W: fmt::Write>(
        &self,
        writer: &mut W,
        current_attrs: &mut Attrs,
    ) -> fmt::Result
        ensures text { OnOk result (WritesInCalls W.write_str_gives writer.old
            (basic_text self.now current_attrs.old) writer.new) }
        ensures attrs { OnOk result (current_attrs.new ≡ attrs_after_row self.now current_attrs.old) }
        ensures empty { basic_text self.now current_attrs.old ≡ [] → IsOk result }
    {
        let cells = self.cells();
        for col in 0..trimmed_len(cells) {
            write_cell(at(cells, col), writer, current_attrs)?;
        }
        Ok(())
    }
}

/// Writes what a cell shows.
#[inline]
fn write_cell<W: fmt::Write>(cell: &Cell, writer: &mut W, current_attrs: &mut Attrs) -> fmt::Result
    ensures text { OnOk result (WritesInCalls W.write_str_gives writer.old
        (basic_cell current_attrs.old cell.now) writer.new) }
    ensures attrs { OnOk result (current_attrs.new ≡ attrs_after current_attrs.old cell.now) }
    ensures empty { basic_cell current_attrs.old cell.now ≡ [] → IsOk result }
{
    if cell.is_wide_continuation() {
        return Ok(());
    }
    if cell.is_default() {
        return writer.write_char(' ');
    }
    let attrs = cell.attrs();
    attrs.write_escape_code_diff_fmt(writer, current_attrs)?;
    *current_attrs = attrs;
    if cell.has_contents() {
        writer.write_str(cell.contents())
    } else {
        writer.write_char(' ')
    }
}
