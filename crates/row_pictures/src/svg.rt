//! A row of cells in SVG.

ghost use Rattle.std.specs.Prelude.{◌≡◌, ◌⊎◌, [], ◌++◌, OnOk, ◌<◌, ◌≤◌, length, true, false};
ghost use Rattle.picture_page.specs.Page.{Adds, escaped};
ghost use Rattle.picture_page.specs.Seen.{Draws};
ghost use Rattle.row_pictures.specs.Drawn.{font_texts};
ghost use Rattle.row_pictures.specs.Elements.{AddsSo};
ghost use Rattle.row_pictures.specs.Paint.{cell_in};
ghost use Rattle.row_pictures.specs.Runs.{AreAlike, AreInPlace, KeepsWidth, ShareInk};
ghost use Rattle.row_pictures.specs.Runs.{first_ink as first_ink_of};
ghost use Rattle.row_pictures.specs.Svg.{AreSvgRuns, behind, drawn, letters, opacity_of, path};
ghost use Rattle.row_pictures.specs.Svg.{glyphs, pixels as pixels_of, rectangle};
ghost use Rattle.row_pictures.specs.Text.{row_text};
ghost use Rattle.row_pictures.specs.Unpadded.{unpadded as unpadded_of};

use crate::glyph::{Ink, push_glyph};
use crate::look::Look;
use crate::padding::unpadded;
use crate::paint::Paint;
use crate::row::{is_wide_run, push_cells, run_end, style_at};
use crate::style::Style;
use picture_page::{Page, Rgb, Tag};
use std::alloc::AllocError;
use vt100_cells::Cell;

/// How many pixels wide a column is.
pub const COL_WIDTH: u32 = 9;

/// How many pixels high a row is.
pub const ROW_HEIGHT: u32 = 18;

// How many pixels below the top of a row the baseline of its text is.
const BASELINE: u32 = 14;

/// Appends a row of cells in SVG, its top at 0, up to the last cell that shows something. The cursor is shown in its
/// column, if it has one.
pub fn push_svg_row(
    page: &mut Page,
    cells: &[Cell],
    cursor: Option<usize>,
    look: &Look,
) -> Result<(), AllocError>
    ensures adds { OnOk result (Adds page.old page.new (row_text (unpadded_of cells.now cursor))) }
    ensures seen { OnOk result (Draws page.old page.new true true
        (escaped (font_texts (unpadded_of cells.now cursor)))) }
    ensures runs { OnOk result (AddsSo (AreSvgRuns look.now cells.now cursor) page.old page.new) }
{
    let written = unpadded(cells, cursor);
    let mut start = 0;
    while start < written.len() {
        let end = svg_run_end(written, start, cursor);
        let style = style_at(written, start, cursor);
        push_run(page, &written[start..end], start, style, look)?;
        start = end;
    }
    Ok(())
}

// Where a run of cells ends that begins here. A character that isn't ASCII is alone: the font that has it may give it
// another width.
fn svg_run_end(cells: &[Cell], start: usize, cursor: Option<usize>) -> usize
    requires { start < length cells.now }
    ensures more { start < result }
    ensures within { result ≤ length cells.now }
    ensures alike { AreAlike cells.now cursor start result }
    ensures in_place { AreInPlace cells.now start result }
{
    let end = run_end(cells, start, cursor);
    let mut place = start + 1;
    while place < end && is_in_place(cells, start, place) {
        place += 1;
    }
    place
}

// Whether a cell is in its column, whatever font the run has that begins at another one.
fn is_in_place(cells: &[Cell], start: usize, col: usize) -> bool
    requires start { start < length cells.now }
    requires col { col < length cells.now }
    ensures { result ≡ true → (KeepsWidth (cell_in cells.now start) × KeepsWidth (cell_in cells.now col))
        ⊎ ((cell_in cells.now col).continuation ≡ true) }
{
    cells[col].is_wide_continuation() || (keeps_width(&cells[start]) && keeps_width(&cells[col]))
}

// Whether a cell has its own width in any font: it is drawn with rectangles, or its text is ASCII.
fn keeps_width(cell: &Cell) -> bool
    ensures { result ≡ true → KeepsWidth cell.now }
{
    Ink::of(cell) != Ink::Font || cell.contents().is_ascii()
}

// Appends a run of cells that begins in a column: its background, unless it is the background of the picture, and its
// text.
fn push_run(
    page: &mut Page,
    run: &[Cell],
    col: usize,
    style: Style,
    look: &Look,
) -> Result<(), AllocError>
    requires { ShareInk run.now }
    ensures adds { OnOk result (Adds page.old page.new (row_text run.now)) }
    ensures seen { OnOk result (Draws page.old page.new true true (escaped (font_texts run.now))) }
    ensures bytes { OnOk result (page.new ≡ page.old ++ drawn look.now run.now col style) }
{
    let paint = Paint::of(style, look);
    push_behind(page, run, col, paint.bgcolor, look)?;
    match first_ink(run) {
        Ink::Font => push_text(page, run, col, paint.fgcolor, style),
        Ink::Solid => push_path(page, run, col, paint.fgcolor, Ink::Solid),
        Ink::Shade(hundredths) => {
            push_path(page, run, col, paint.fgcolor, Ink::Shade(hundredths))
        }
    }
}

// What a run is drawn with.
fn first_ink(run: &[Cell]) -> Ink
    ensures { result ≡ first_ink_of run.now }
{
    match run.first() {
        Some(cell) => Ink::of(cell),
        None => Ink::Font,
    }
}

fn push_behind(
    page: &mut Page,
    run: &[Cell],
    col: usize,
    color: Rgb,
    look: &Look,
) -> Result<(), AllocError>
    ensures adds { OnOk result (Adds page.old page.new []) }
    ensures seen { OnOk result (Draws page.old page.new true true []) }
    ensures bytes { OnOk result (page.new
        ≡ page.old ++ behind look.now (pixels_of col) (pixels_of (length run.now)) color) }
{
    if color == look.theme.bgcolor {
        return Ok(());
    }
    push_rect(page, pixels(col), pixels(run.len()), ROW_HEIGHT, color)
}

// Appends a run as a text.
fn push_text(
    page: &mut Page,
    run: &[Cell],
    col: usize,
    color: Rgb,
    style: Style,
) -> Result<(), AllocError>
    ensures adds { OnOk result (Adds page.old page.new (row_text run.now)) }
    ensures seen { OnOk result (Draws page.old page.new true true (escaped (row_text run.now))) }
    ensures bytes { OnOk result (page.new ≡ page.old ++ letters col color style run.now) }
{
    let numbers = [
        (Tag::Text, pixels(col)),
        (Tag::Y, BASELINE),
        (Tag::Length, pixels(run.len())),
    ];
    page.numbers(&numbers)?;
    page.color(Tag::Fill, color)?;
    page.markup_if(style.bold, Tag::TextBold)?;
    page.markup_if(style.italic, Tag::TextItalic)?;
    page.markup_if(style.underline, Tag::TextUnderline)?;
    page.markup_if(is_wide_run(run), Tag::Stretched)?;
    page.markup(Tag::TextStart)?;
    push_cells(page, run)?;
    page.markup(Tag::TextEnd)
}

// Appends line drawing or block characters as a path, which is labelled with them.
fn push_path(
    page: &mut Page,
    run: &[Cell],
    col: usize,
    color: Rgb,
    ink: Ink,
) -> Result<(), AllocError>
    ensures adds { OnOk result (Adds page.old page.new (row_text run.now)) }
    ensures seen { OnOk result (Draws page.old page.new true true []) }
    ensures bytes { OnOk result (page.new ≡ page.old ++ path ink col color run.now) }
{
    page.color(Tag::Lines, color)?;
    push_opacity(page, ink)?;
    page.markup(Tag::LinesData)?;
    push_glyphs(page, run, col)?;
    page.markup(Tag::LinesLabel)?;
    push_cells(page, run)?;
    page.markup(Tag::Close)
}

// Appends how opaque rectangles are, unless they are wholly opaque.
fn push_opacity(page: &mut Page, ink: Ink) -> Result<(), AllocError>
    ensures adds { OnOk result (Adds page.old page.new []) }
    ensures seen { OnOk result (Draws page.old page.new false false []) }
    ensures bytes { OnOk result (page.new ≡ page.old ++ opacity_of ink) }
{
    match ink {
        Ink::Shade(opacity) => page.numbers(&[(Tag::Opacity, opacity)]),
        Ink::Font | Ink::Solid => Ok(()),
    }
}

// Appends the rectangles of cells from this column on.
fn push_glyphs(page: &mut Page, run: &[Cell], col: usize) -> Result<(), AllocError>
    ensures adds { OnOk result (Adds page.old page.new []) }
    ensures seen { OnOk result (Draws page.old page.new false false []) }
    ensures bytes { OnOk result (page.new ≡ page.old ++ glyphs col run.now (length run.now)) }
{
    let mut x = pixels(col);
    for cell in run {
        push_glyph(page, x, cell)?;
        x = x.saturating_add(COL_WIDTH);
    }
    Ok(())
}

// The pixels of this many columns.
fn pixels(cols: usize) -> u32
    ensures { result ≡ pixels_of cols }
{
    u32::try_from(cols)
        .unwrap_or(u32::MAX)
        .saturating_mul(COL_WIDTH)
}

/// Appends a rectangle whose top is at 0.
pub fn push_rect(
    page: &mut Page,
    x: u32,
    width: u32,
    height: u32,
    color: Rgb,
) -> Result<(), AllocError>
    ensures adds { OnOk result (Adds page.old page.new []) }
    ensures seen { OnOk result (Draws page.old page.new true true []) }
    ensures bytes { OnOk result (page.new ≡ page.old ++ rectangle x width height color) }
{
    let numbers = [(Tag::Rect, x), (Tag::Width, width), (Tag::Height, height)];
    page.numbers(&numbers)?;
    page.color(Tag::Fill, color)?;
    page.markup(Tag::Close)
}
