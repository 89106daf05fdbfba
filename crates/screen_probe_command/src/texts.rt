//! The texts of a screen, a line each, and what differs from another one.

use crate::error::DumpError;
use std::alloc::AllocError;
use vt100::{Rows, Screen};

/// Appends what the screen writes of itself, in hexadecimal digits:
///
/// ```text
/// text NAME TEXT
/// row ROW TEXT
/// row_formatted ROW TEXT
/// ```
///
/// The names are those of the calls.
pub(crate) fn push_texts(out: &mut String, screen: &Screen) -> Result<(), DumpError> {
    push_shown(out, screen)?;
    push_modes(out, screen)?;
    let (_, cols) = screen.size();
    push_rows(out, "row", screen.rows(0, cols.get()))?;
    push_rows(out, "row_formatted", screen.rows_formatted(0, cols.get()))
}

fn push_shown(out: &mut String, screen: &Screen) -> Result<(), DumpError> {
    push_text(out, "text contents", &screen.contents()?)?;
    let formatted = screen.contents_formatted()?;
    push_text(out, "text contents_formatted", &formatted)?;
    let state = screen.state_formatted()?;
    push_text(out, "text state_formatted", &state)?;
    let basic = screen.contents_formatted_basic()?;
    push_text(out, "text contents_formatted_basic", &basic)
}

fn push_modes(out: &mut String, screen: &Screen) -> Result<(), DumpError> {
    let modes = screen.input_mode_formatted()?;
    push_text(out, "text input_mode_formatted", &modes)?;
    let attributes = screen.attributes_formatted()?;
    push_text(out, "text attributes_formatted", &attributes)?;
    let cursor = screen.cursor_state_formatted()?;
    push_text(out, "text cursor_state_formatted", &cursor)
}

/// Appends what differs from the screen `base`, in hexadecimal digits:
///
/// ```text
/// diff NAME TEXT
/// row_diff ROW TEXT
/// ```
pub(crate) fn push_diffs(
    out: &mut String,
    screen: &Screen,
    base: &Screen,
) -> Result<(), DumpError> {
    push_text(out, "diff state_diff", &screen.state_diff(base)?)?;
    push_text(out, "diff contents_diff", &screen.contents_diff(base)?)?;
    let modes = screen.input_mode_diff(base)?;
    push_text(out, "diff input_mode_diff", &modes)?;
    let (_, cols) = screen.size();
    push_rows(out, "row_diff", screen.rows_diff(base, 0, cols.get()))
}

/// A line for each text of a row: a name, the row's number, and the text in hexadecimal digits.
pub(crate) fn push_rows(out: &mut String, name: &str, texts: Rows<'_>) -> Result<(), DumpError> {
    let mut row = 0u64;
    for text in texts {
        write!(out, "{name} {row} ")?;
        push_hex(out, text?.as_bytes())?;
        out.push('\n')?;
        row = row.wrapping_add(1);
    }
    Ok(())
}

/// A line: a name, and a text in hexadecimal digits.
pub(crate) fn push_text(out: &mut String, name: &str, text: &str) -> Result<(), DumpError> {
    write!(out, "{name} ")?;
    push_hex(out, text.as_bytes())?;
    out.push('\n')?;
    Ok(())
}

/// Appends two hexadecimal digits for each byte.
pub(crate) fn push_hex(out: &mut String, bytes: &[u8]) -> Result<(), AllocError> {
    for byte in bytes {
        let byte = *byte;
        write!(out, "{byte:02x}")?;
    }
    Ok(())
}
