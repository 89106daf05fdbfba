//! Pictures of a screen, in HTML and SVG.

ghost use Rattle.std.specs.Prelude.{◌≡◌, ◌≤◌, ◌++◌, ◌+◌, ◌-◌, ◌^◌, [], codes, true, false, IfOk, OnOk};
ghost use Rattle.picture_page.specs.Page.{Adds, IsPage, IsSafe, Shows, escaped};
ghost use Rattle.picture_page.specs.Seen.{Draws, is_plain, seen};
ghost use Rattle.picture_page.specs.Tags.{tag_bytes};
ghost use Rattle.picture_page.specs.declared.tag.Tag.TheVariants.{Newline, PageFoot};
ghost use Rattle.row_pictures.specs.Elements.{AddsSo};
ghost use Rattle.screen_model.specs.Step.{kept_shown};
ghost use Rattle.recorded_screen.specs.Heads.{block_head, font_bytes, svg_head};
ghost use Rattle.recorded_screen.specs.Picture.{block_seen, cells_shown, cursor_shown, font_line, font_text};
ghost use Rattle.recorded_screen.specs.Picture.{front_seen};
ghost use Rattle.recorded_screen.specs.Picture.{kept_pictured, line_text, page_seen, rows_pictured, screen_text};
ghost use Rattle.recorded_screen.specs.Picture.{scrolled, svg_seen, written_line, written_text};
ghost use Rattle.recorded_screen.specs.Placed.{IsAround, IsBlock, IsHtmlLine, IsSvg, IsSvgLine};
ghost use Rattle.recorded_screen.specs.Titles.{page_head, page_title, title_line};

use crate::titles::{push_page_head, push_svg_title};
use row_pictures::{
    COL_WIDTH, Cell, Look, Page, ROW_HEIGHT, Tag, push_html_colors, push_html_row, push_rect,
    push_svg_row,
};
use std::alloc::{AllocError, Global};
use vt100::Screen;

/// A page in HTML that shows the screen: markup, and the texts of its cells, row by row, escaped. Its title is that of
/// `look`, or else `screentext`.
///
/// The newest kept rows come first, `history` at most. A picture has at most 65,535 rows. Afterwards the screen isn't
/// scrolled back. A failed screen gives the same error as refused memory.
pub fn html(
    alloc: Global,
    screen: &mut Screen,
    history: usize,
    look: &Look,
) -> Result<Vec<u8>, AllocError>
    ensures text { IfOk result (λ bytes. Shows bytes.items (screen_text history screen.old.state)) }
    ensures seen { IfOk result (λ bytes. seen bytes.items
        ≡ page_seen (page_title look.now) (escaped (screen_text history screen.old.state))) }
    ensures placed { IfOk result (λ bytes. IsAround (page_head look.now) (tag_bytes PageFoot) look.now history
        screen.old.state bytes.items) }
    ensures page { IfOk result (λ bytes. IsPage bytes.items) }
    ensures safe { IfOk result (λ bytes. IsSafe bytes.items) }
    ensures left { OnOk result (screen.new.state
        ≡ scrolled screen.old.state (kept_pictured history screen.old.state) (rows_pictured history screen.old.state)) }
{
    let mut page = Page::new(alloc);
    push_page_head(&mut page, look)?;
    push_block(&mut page, screen, history, look)?;
    page.markup(Tag::PageFoot)?;
    Ok(page.into_bytes())
}

/// A block in HTML that shows the screen: the part of the page of [`html`] that can be put into another page.
pub fn html_block(
    alloc: Global,
    screen: &mut Screen,
    history: usize,
    look: &Look,
) -> Result<Vec<u8>, AllocError>
    ensures text { IfOk result (λ bytes. Shows bytes.items (screen_text history screen.old.state)) }
    ensures seen { IfOk result (λ bytes. seen bytes.items
        ≡ block_seen (escaped (screen_text history screen.old.state)) ++ codes "\n") }
    ensures placed { IfOk result (λ bytes. IsAround [] (tag_bytes Newline) look.now history screen.old.state
        bytes.items) }
    ensures page { IfOk result (λ bytes. IsPage bytes.items) }
    ensures safe { IfOk result (λ bytes. IsSafe bytes.items) }
    ensures left { OnOk result (screen.new.state
        ≡ scrolled screen.old.state (kept_pictured history screen.old.state) (rows_pictured history screen.old.state)) }
{
    let mut page = Page::new(alloc);
    push_block(&mut page, screen, history, look)?;
    page.markup(Tag::Newline)?;
    Ok(page.into_bytes())
}

fn push_block(
    page: &mut Page,
    screen: &mut Screen,
    history: usize,
    look: &Look,
) -> Result<(), AllocError>
    ensures adds { OnOk result (Adds page.old page.new (screen_text history screen.old.state)) }
    ensures seen { OnOk result (Draws page.old page.new true true
        (block_seen (escaped (screen_text history screen.old.state)))) }
    ensures placed { OnOk result (AddsSo (IsBlock look.now history screen.old.state) page.old page.new) }
    ensures left { OnOk result (screen.new.state
        ≡ scrolled screen.old.state (kept_pictured history screen.old.state) (rows_pictured history screen.old.state)) }
{
    push_block_head(page, look)?;
    let count = kept_of(screen, history);
    for row in 0..rows_of(screen, count) {
        scroll_to(screen, count, row)?;
        push_html_line(page, screen, row.saturating_sub(count), look)?;
    }
    page.markup(Tag::BlockEnd)
}

/// How many kept rows come first.
pub(crate) fn kept_of(screen: &Screen, history: usize) -> u16
    ensures count { result ≡ kept_pictured history screen.now.state }
    ensures room { result + screen.now.state.shown.height ≤ 2 ^ 16 - 1 }
{
    let (rows, _) = screen.size();
    let room = u16::MAX - rows.get();
    let kept = history.min(screen.scrollback_len());
    match u16::try_from(kept) {
        Ok(kept) => kept.min(room),
        Err(_) => room,
    }
}

/// How many rows a picture has, where `count` kept ones come first.
pub(crate) fn rows_of(screen: &Screen, count: u16) -> u16
    requires { count + screen.now.state.shown.height ≤ 2 ^ 16 - 1 }
    ensures { result ≡ count + screen.now.state.shown.height }
{
    let (rows, _) = screen.size();
    count + rows.get()
}

// Scrolls back so that row `row` of a picture is shown, where `count` kept rows come first.
fn scroll_to(screen: &mut Screen, count: u16, row: u16) -> Result<(), AllocError>
    ensures { OnOk result (screen.new.state ≡ kept_shown (count - row) screen.old.state) }
{
    match screen.set_scrollback(usize::from(count.saturating_sub(row))) {
        Ok(()) => Ok(()),
        Err(_) => Err(AllocError),
    }
}

fn push_block_head(page: &mut Page, look: &Look) -> Result<(), AllocError>
    ensures adds { OnOk result (Adds page.old page.new []) }
    ensures seen { OnOk result (Draws page.old page.new true true (codes "\n")) }
    ensures bytes { OnOk result (page.new ≡ page.old ++ block_head look.now) }
{
    page.markup(Tag::Block)?;
    push_html_colors(page, look.theme.fgcolor, look.theme.bgcolor)?;
    push_font(page, look, Tag::BlockFont, Tag::BlockFontEnd)?;
    page.markup(Tag::BlockRows)
}

/// Appends the name of the font between two pieces of markup, if there is one. Neither begins or ends a tag.
pub fn push_font(page: &mut Page, look: &Look, before: Tag, after: Tag) -> Result<(), AllocError>
    requires before { is_plain (tag_bytes before) ≡ true }
    requires after { is_plain (tag_bytes after) ≡ true }
    ensures adds { OnOk result (Adds page.old page.new []) }
    ensures seen { OnOk result (Draws page.old page.new false false []) }
    ensures bytes { OnOk result (page.new ≡ page.old ++ font_bytes before after look.now) }
{
    let Some(font) = &look.font else {
        return Ok(());
    };
    page.markup(before)?;
    page.name(font.as_str())?;
    page.markup(after)
}

fn push_html_line(page: &mut Page, screen: &Screen, row: u16, look: &Look) -> Result<(), AllocError>
    ensures adds { OnOk result (Adds page.old page.new (line_text screen.now.state.shown row)) }
    ensures seen { OnOk result (Draws page.old page.new true true (escaped (line_text screen.now.state.shown row))) }
    ensures line { OnOk result (AddsSo (IsHtmlLine look.now screen.now.state row) page.old page.new) }
{
    let cells = cells_of(screen, row);
    push_html_row(page, cells, cursor_in(screen, row, look), look)?;
    page.end_row()
}

/// A picture in SVG that shows the screen: markup, and the texts of its cells, row by row, escaped. Its rows are those
/// of [`html`]. If `look` has a title, it is a `title` element.
///
/// Spaces at the end of a row that show nothing aren't written. A cell of one line drawing or block character is drawn
/// as a path, whose label is its text.
pub fn svg(
    alloc: Global,
    screen: &mut Screen,
    history: usize,
    look: &Look,
) -> Result<Vec<u8>, AllocError>
    ensures text { IfOk result (λ bytes. Shows bytes.items (written_text look.now history screen.old.state)) }
    ensures seen { IfOk result (λ bytes. seen bytes.items
        ≡ svg_seen (title_line look.now) (escaped (font_text look.now history screen.old.state))) }
    ensures placed { IfOk result (λ bytes. IsSvg look.now history screen.old.state bytes.items) }
    ensures page { IfOk result (λ bytes. IsPage bytes.items) }
    ensures safe { IfOk result (λ bytes. IsSafe bytes.items) }
    ensures left { OnOk result (screen.new.state
        ≡ scrolled screen.old.state (kept_pictured history screen.old.state) (rows_pictured history screen.old.state)) }
{
    let mut page = Page::new(alloc);
    let (_, cols) = screen.size();
    let count = kept_of(screen, history);
    let rows = rows_of(screen, count);
    push_svg_head(&mut page, rows, cols.get(), look)?;
    for row in 0..rows {
        scroll_to(screen, count, row)?;
        push_svg_line(&mut page, screen, row.saturating_sub(count), row, look)?;
    }
    page.markup(Tag::SvgFoot)?;
    Ok(page.into_bytes())
}

/// Appends the head of a picture in SVG of this many rows and columns, and its background.
pub(crate) fn push_svg_head(
    page: &mut Page,
    rows: u16,
    cols: u16,
    look: &Look,
) -> Result<(), AllocError>
    ensures adds { OnOk result (Adds page.old page.new []) }
    ensures seen { OnOk result (Draws page.old page.new true true (front_seen (title_line look.now))) }
    ensures bytes { OnOk result (page.new ≡ page.old ++ svg_head look.now rows cols) }
{
    let width = u32::from(cols) * COL_WIDTH;
    let height = u32::from(rows) * ROW_HEIGHT;
    page.markup(Tag::Svg)?;
    push_font(page, look, Tag::SvgFont, Tag::SvgFontEnd)?;
    page.markup(Tag::Monospace)?;
    let numbers = [
        (Tag::Width, width),
        (Tag::Height, height),
        (Tag::ViewBox, width),
        (Tag::Space, height),
    ];
    page.numbers(&numbers)?;
    page.markup(Tag::SvgRows)?;
    push_svg_title(page, look)?;
    push_rect(page, 0, width, height, look.theme.bgcolor)?;
    page.markup(Tag::Newline)
}

// Appends a row of the screen as a row of a picture.
fn push_svg_line(
    page: &mut Page,
    screen: &Screen,
    row: u16,
    place: u16,
    look: &Look,
) -> Result<(), AllocError>
    ensures adds { OnOk result (Adds page.old page.new (written_line look.now screen.now.state row)) }
    ensures seen { OnOk result (Draws page.old page.new true true (escaped (font_line look.now screen.now.state row))) }
    ensures line { OnOk result (AddsSo (IsSvgLine look.now screen.now.state row place) page.old page.new) }
{
    page.numbers(&[(Tag::Row, u32::from(place) * ROW_HEIGHT)])?;
    page.markup(Tag::RowCells)?;
    let cursor = cursor_in(screen, row, look);
    push_svg_row(page, cells_of(screen, row), cursor, look)?;
    page.markup(Tag::RowEnd)?;
    page.end_row()
}

/// The cells of a row of the screen. A kept row can be wider than the screen: what is beyond its width isn't shown.
pub fn cells_of(screen: &Screen, row: u16) -> &[Cell]
    ensures { result.now ≡ cells_shown screen.now.state.shown row }
{
    let (_, cols) = screen.size();
    let cols = usize::from(cols.get());
    match screen.row_cells(row) {
        Some(cells) if cells.len() > cols => &cells[..cols],
        Some(cells) => cells,
        None => &[],
    }
}

/// The column of a row in which the cursor is shown, if it is. One after the last column is shown in that column.
pub fn cursor_in(screen: &Screen, row: u16, look: &Look) -> Option<usize>
    ensures { result ≡ cursor_shown look.now screen.now.state row }
{
    let (cursor_row, cursor_col) = screen.cursor_position();
    let (_, cols) = screen.size();
    let shown_row = screen.scrollback().saturating_add(usize::from(cursor_row));
    if look.hides_cursor || screen.hide_cursor() || shown_row != usize::from(row) {
        return None;
    }
    Some(usize::from(cursor_col.min(cols.get() - 1)))
}
