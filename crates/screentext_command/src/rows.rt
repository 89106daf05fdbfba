//! A row of cells as text.

ghost use Rattle.std.specs.Prelude.{◌≡◌, ◌++◌, ◌≤◌, OnOk, length, string_bytes};
ghost use Rattle.vt100_forms.specs.Attrs.{default_attrs};
ghost use Rattle.screentext_command.specs.Rows.{changed, colored_text, has_color, is_shown, plain_text, row_text};
ghost use Rattle.screentext_command.specs.Rows.{shown_columns, shows_on_blanks, text_of};

use std::alloc::AllocError;
use vt100_cells::Cell;
use vt100_forms::Color;
use vt100_forms::attrs::Attrs;

/// How the rows of a screen are written as text.
#[derive(Clone, Copy)]
pub(crate) struct Look {
    /// Whether a row that goes on in the next has no newline, and rows keep the spaces at their ends.
    pub(crate) joined: bool,
    /// Whether colours and other attributes are written, as SGR.
    pub(crate) colors: bool,
}

/// Appends the texts of the cells of a row, up to the last that shows anything.
///
/// With colours each change of the attributes is written, and the row ends with the default ones.
pub(crate) fn push_row_text(out: &mut String, cells: &[Cell], look: Look) -> Result<(), AllocError>
    ensures { OnOk result (string_bytes out.new ≡ string_bytes out.old ++ row_text look cells.now) }
{
    let end = row_end(cells, look);
    if look.colors {
        push_colored(out, &cells[..end])
    } else {
        push_plain(out, &cells[..end])
    }
}

// How many cells of a row are written.
fn row_end(cells: &[Cell], look: Look) -> usize
    ensures columns { result ≡ shown_columns look cells.now (length cells.now) }
    ensures bound { result ≤ length cells.now }
{
    let mut end = 0;
    for i in 0..cells.len() {
        if is_shown(&cells[i], look) {
            end = i + 1;
        }
    }
    end
}

// Whether a cell is more than a space at a row's end.
fn is_shown(cell: &Cell, look: Look) -> bool
    ensures { result ≡ is_shown look cell.now }
{
    (cell.has_contents() && (look.joined || cell.contents() != " "))
        || cell.is_wide_continuation()
        || (look.colors && shows_on_blanks(cell.attrs()))
}

// Whether a blank cell with these attributes looks other than an untouched one.
fn shows_on_blanks(attrs: Attrs) -> bool
    ensures { result ≡ shows_on_blanks attrs }
{
    has_color(attrs.bgcolor) || attrs.inverse() || attrs.underline()
}

fn has_color(color: Color) -> bool
    ensures { result ≡ has_color color }
{
    match color {
        Color::Default => false,
        Color::Idx(_) | Color::Rgb(..) => true,
    }
}

fn push_plain(out: &mut String, cells: &[Cell]) -> Result<(), AllocError>
    ensures { OnOk result (string_bytes out.new ≡ string_bytes out.old ++ plain_text cells.now) }
{
    for cell in cells {
        push_cell(out, cell)?;
    }
    Ok(())
}

fn push_colored(out: &mut String, cells: &[Cell]) -> Result<(), AllocError>
    ensures { OnOk result (string_bytes out.new ≡ string_bytes out.old ++ colored_text default_attrs cells.now) }
{
    let mut attrs = Attrs::new();
    for cell in cells {
        let next = cell.attrs();
        push_change(out, attrs, next)?;
        push_cell(out, cell)?;
        attrs = next;
    }
    push_change(out, attrs, Attrs::new())?;
    Ok(())
}

// Appends what takes a terminal from attributes to others.
fn push_change(out: &mut String, from: Attrs, to: Attrs) -> Result<(), AllocError>
    ensures { OnOk result (string_bytes out.new ≡ string_bytes out.old ++ changed from to) }
{
    match to.write_escape_code_diff_fmt(out, &from) {
        Ok(()) => Ok(()),
        Err(_) => Err(AllocError),
    }
}

// Appends the text of a cell: a space where it is empty, and nothing for the second column of a wide one.
fn push_cell(out: &mut String, cell: &Cell) -> Result<(), AllocError>
    ensures { OnOk result (string_bytes out.new ≡ string_bytes out.old ++ text_of cell.now) }
{
    if cell.has_contents() {
        out.push_str(cell.contents())
    } else if cell.is_wide_continuation() {
        Ok(())
    } else {
        out.push(' ')
    }
}
