//! A row of cells in HTML.

ghost use Rattle.std.specs.Prelude.{◌≡◌, [], ◌++◌, OnOk, ◌<◌, ◌≤◌, length, true, false};
ghost use Rattle.picture_page.specs.Page.{Adds, escaped};
ghost use Rattle.picture_page.specs.Seen.{Draws};
ghost use Rattle.row_pictures.specs.Elements.{AddsSo};
ghost use Rattle.row_pictures.specs.Html.{IsHtmlRun, IsSpan, html_colors, span_head};
ghost use Rattle.row_pictures.specs.Runs.{AddsRuns};
ghost use Rattle.row_pictures.specs.Text.{row_text};

use crate::look::Look;
use crate::paint::Paint;
use crate::row::{is_wide_run, push_cells, run_end, style_at};
use crate::style::Style;
use picture_page::{Page, Rgb, Tag};
use std::alloc::AllocError;
use vt100_cells::Cell;

/// Appends a row of cells in HTML, as it is written in an element with the colours of the look. The cursor is shown in
/// its column, if it has one.
pub fn push_html_row(
    page: &mut Page,
    cells: &[Cell],
    cursor: Option<usize>,
    look: &Look,
) -> Result<(), AllocError>
    ensures adds { OnOk result (Adds page.old page.new (row_text cells.now)) }
    ensures seen { OnOk result (Draws page.old page.new true true (escaped (row_text cells.now))) }
    ensures runs { OnOk result (AddsRuns (IsHtmlRun look.now cells.now cursor) (length cells.now) page.old page.new) }
{
    let mut start = 0;
    while start < cells.len() {
        let end = run_end(cells, start, cursor);
        let style = style_at(cells, start, cursor);
        push_span(page, &cells[start..end], style, look)?;
        start = end;
    }
    Ok(())
}

// Appends a run of cells.
fn push_span(page: &mut Page, run: &[Cell], style: Style, look: &Look) -> Result<(), AllocError>
    ensures adds { OnOk result (Adds page.old page.new (row_text run.now)) }
    ensures seen { OnOk result (Draws page.old page.new true true (escaped (row_text run.now))) }
    ensures drawn { OnOk result (AddsSo (IsSpan look.now run.now style) page.old page.new) }
{
    let wide = is_wide_run(run);
    if style.is_same(Style::PLAIN) && !wide {
        return push_cells(page, run);
    }
    push_span_head(page, style, wide, look)?;
    push_cells(page, run)?;
    page.markup(Tag::SpanEnd)
}

fn push_span_head(page: &mut Page, style: Style, wide: bool, look: &Look) -> Result<(), AllocError>
    ensures adds { OnOk result (Adds page.old page.new []) }
    ensures seen { OnOk result (Draws page.old page.new true true []) }
    ensures bytes { OnOk result (page.new ≡ page.old ++ span_head look.now style wide) }
{
    let paint = Paint::of(style, look);
    page.markup(Tag::Span)?;
    push_html_colors(page, paint.fgcolor, paint.bgcolor)?;
    page.markup_if(style.bold, Tag::SpanBold)?;
    page.markup_if(style.italic, Tag::SpanItalic)?;
    page.markup_if(style.underline, Tag::SpanUnderline)?;
    page.markup_if(wide, Tag::SpanWide)?;
    page.markup(Tag::SpanText)
}

/// Appends two colours, of texts and of their backgrounds, as properties of a style.
pub fn push_html_colors(page: &mut Page, fgcolor: Rgb, bgcolor: Rgb) -> Result<(), AllocError>
    ensures adds { OnOk result (Adds page.old page.new []) }
    ensures seen { OnOk result (Draws page.old page.new false false []) }
    ensures bytes { OnOk result (page.new ≡ page.old ++ html_colors fgcolor bgcolor) }
{
    page.color(Tag::Color, fgcolor)?;
    page.color(Tag::Background, bgcolor)
}
