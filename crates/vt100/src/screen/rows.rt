//! A screen's rows, one by one.
ghost use Rattle.std.specs.Prelude.{◌≡◌, ◌+◌, ◌<◌, ◌^◌, length, false, None, string_bytes, encode_utf8_all};
ghost use Rattle.std.specs.Iterator.{item_count};
ghost use Rattle.vt100_forms.specs.Attrs.{default_attrs};
ghost use Rattle.vt100_forms.specs.Form.{bytes_of};
ghost use Rattle.vt100_rows.specs.Forms.{formatted, differing};
ghost use Rattle.vt100_rows.specs.Text.{row_text};
ghost use Rattle.vt100.specs.Rows.{each_row};
ghost use Rattle.vt100.specs.Texts.{Gives, YieldsText};

use crate::error::ScreenError;
use std::alloc::Global;
use std::marker::Model;
use vt100_core::attrs::Attrs;
use vt100_core::{Pos, Row, VisibleRows};

/// An iterator over the rows that are shown, from the top: it yields a text for each, as the call that created it
/// says. If there was no memory for a row's text, the item is that error, and the next item is the next row's.
#[derive(Debug, Drop)]
pub struct Rows<'a> {
    rows: VisibleRows<'a>,
    writing: Writing<'a>,
    start: u16,
    width: u16,
    // which row comes next, and whether the one above goes on in it
    row: u16,
    wrapping: bool,
    alloc: Global,
}

/// The rows as forms: those of [`rows_formatted`](crate::Screen::rows_formatted).
pub type RowsFormatted<'a> = Rows<'a>;

/// The rows as forms over earlier ones: those of [`rows_diff`](crate::Screen::rows_diff).
pub type RowsDiff<'a> = Rows<'a>;

/// What is written of each row.
#[derive(Debug, Drop)]
pub(super) enum Writing<'a> {
    /// Its text.
    Text,
    /// Forms that draw it on a row of default cells. Whether whole rows are asked for, which can go on in the next.
    Formatted(bool),
    /// Forms that draw it over an earlier one. The earlier rows.
    Diff(VisibleRows<'a>),
}

impl<'a> Model for Rows<'a> {
    ghost use Rattle.std.specs.Prelude.{List, ℕ, length, ◌+◌, ◌<◌, ◌^◌};
    ghost use Rattle.vt100.specs.Rows.{each_row};

    ghost Value = { List (List ℕ) };

    ghost view = { λ s. each_row s.writing s.wrapping s.start s.width s.row s.rows };

    ghost invariant = { λ s. s.row + length s.rows < 2 ^ 16 };
}

impl<'a> Rows<'a> {
    pub(super) fn new(
        alloc: Global,
        rows: VisibleRows<'a>,
        writing: Writing<'a>,
        start: u16,
        width: u16,
    ) -> Self
        requires { length rows < 2 ^ 16 }
        ensures { result ≡ each_row writing.entry false start width 0 rows.entry }
    {
        Rows {
            rows,
            writing,
            start,
            width,
            row: 0,
            wrapping: false,
            alloc,
        }
    }
}

impl<'a> Iterator for Rows<'a> {
    type Item = Result<String, ScreenError>;

    ghost next_gives = { YieldsText string_bytes };

    ghost remaining = { item_count (λ s. s) };

    fn next(&mut self) -> Option<Result<String, ScreenError>> {
        let row = self.rows.next()?;
        let (alloc, start, width, i) = (self.alloc, self.start, self.width, self.row);
        self.row += 1;
        match &mut self.writing {
            Writing::Text => Some(text_of(alloc, row, start, width)),
            Writing::Formatted(whole) => {
                let wrapping = self.wrapping;
                self.wrapping = *whole && row.wrapped();
                Some(formatted_of(alloc, row, start, width, i, wrapping))
            }
            Writing::Diff(prev_rows) => {
                let prev = prev_rows.next()?;
                Some(difference_of(alloc, row, prev, start, width, i))
            }
        }
    }
}

fn text_of(alloc: Global, row: &Row, start: u16, width: u16) -> Result<String, ScreenError>
    ensures { Gives (encode_utf8_all (row_text row.now start (start + width))) result }
{
    let mut contents = String::new(alloc);
    row.write_contents(&mut contents, start, width, false)?;
    Ok(contents)
}

fn formatted_of(
    alloc: Global,
    row: &Row,
    start: u16,
    width: u16,
    i: u16,
    wrapping: bool,
) -> Result<String, ScreenError>
    ensures { Gives (bytes_of (formatted row.now start width i wrapping None None).forms) result }
{
    let mut contents = String::new(alloc);
    row.write_contents_formatted(&mut contents, start, width, i, wrapping, None, None)?;
    Ok(contents)
}

/// Drawn from the row's column `start`, and with the default attributes.
fn difference_of(
    alloc: Global,
    row: &Row,
    prev: &Row,
    start: u16,
    width: u16,
    i: u16,
) -> Result<String, ScreenError>
    ensures { Gives (bytes_of (differing row.now prev.now start width i false false (record { row = i; col = start })
        default_attrs).forms) result }
{
    let mut contents = String::new(alloc);
    let pos = Pos { row: i, col: start };
    row.write_contents_diff(
        &mut contents,
        prev,
        start,
        width,
        i,
        false,
        false,
        pos,
        Attrs::new(),
    )?;
    Ok(contents)
}
