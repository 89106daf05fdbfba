//! Cells of a row that are drawn alike, and their texts.

ghost use Rattle.std.specs.Prelude.{◌≡◌, ℕ, ◌<◌, ◌≤◌, ◌++◌, length, OnOk, true, false};
ghost use Rattle.std.specs.Prelude.{Option};
ghost use Rattle.picture_page.specs.Page.{Adds, escaped};
ghost use Rattle.row_pictures.specs.Drawn.{ink_of};
ghost use Rattle.row_pictures.specs.Paint.{cell_in, style_in};
ghost use Rattle.row_pictures.specs.Runs.{AreAlike, is_wide_run as is_wide_run_of};
ghost use Rattle.row_pictures.specs.Text.{cell_text, row_text, shown_character, shown_characters};

use crate::glyph::Ink;
use crate::style::Style;
use picture_page::Page;
use std::alloc::AllocError;
use vt100_cells::Cell;

/// Where a run of cells ends that begins here: cells that are drawn alike, or one wide character.
pub(crate) fn run_end(cells: &[Cell], start: usize, cursor: Option<usize>) -> usize
    requires { start < length cells.now }
    ensures more { start < result }
    ensures within { result ≤ length cells.now }
    ensures alike { AreAlike cells.now cursor start result }
{
    if cells[start].is_wide() {
        return wide_end(cells, start);
    }
    let mut end = start + 1;
    while end < cells.len() && are_alike(cells, start, end, cursor) {
        end += 1;
    }
    end
}

// Whether two cells are drawn alike. A wide character is like no other.
fn are_alike(cells: &[Cell], one: usize, other: usize, cursor: Option<usize>) -> bool
    requires one { one < length cells.now }
    requires other { other < length cells.now }
    ensures ink { result ≡ true → ink_of (cell_in cells.now other) ≡ ink_of (cell_in cells.now one) }
    ensures narrow { result ≡ true → (cell_in cells.now other).wide ≡ false }
    ensures style { result ≡ true → style_in cells.now cursor other ≡ style_in cells.now cursor one }
{
    if cells[other].is_wide() {
        return false;
    }
    style_at(cells, other, cursor).is_same(style_at(cells, one, cursor))
        && Ink::of(&cells[other]).is_same(Ink::of(&cells[one]))
}

// Where a wide character ends.
fn wide_end(cells: &[Cell], start: usize) -> usize
    requires within { start < length cells.now }
    requires wide { (cell_in cells.now start).wide ≡ true }
    ensures more { start < result }
    ensures within { result ≤ length cells.now }
    ensures alike { (cursor : Option ℕ) → AreAlike cells.now cursor start result }
{
    let next = start + 1;
    if next < cells.len() && cells[next].is_wide_continuation() {
        next + 1
    } else {
        next
    }
}

/// Whether a run is a wide character that has both of its columns.
pub(crate) fn is_wide_run(run: &[Cell]) -> bool
    ensures { result ≡ is_wide_run_of run.now }
{
    run.len() > 1 && run[0].is_wide()
}

/// How a cell is drawn. The cell under the cursor is inverse where it wouldn't be, and the other way round.
pub(crate) fn style_at(cells: &[Cell], col: usize, cursor: Option<usize>) -> Style
    requires { col < length cells.now }
    ensures { result ≡ style_in cells.now cursor col }
{
    let mut style = Style::of(&cells[col]);
    if cursor == Some(col) {
        style.inverse = !style.inverse;
    }
    style
}

/// Appends the texts of cells.
pub(crate) fn push_cells(page: &mut Page, cells: &[Cell]) -> Result<(), AllocError>
    ensures adds { OnOk result (Adds page.old page.new (row_text cells.now)) }
    ensures bytes { OnOk result (page.new ≡ page.old ++ escaped (row_text cells.now)) }
{
    for cell in cells {
        push_cell(page, cell)?;
    }
    Ok(())
}

// Appends the text of a cell: a space where it is empty, and nothing for the second column of a wide one.
fn push_cell(page: &mut Page, cell: &Cell) -> Result<(), AllocError>
    ensures adds { OnOk result (Adds page.old page.new (cell_text cell.now)) }
    ensures bytes { OnOk result (page.new ≡ page.old ++ escaped (cell_text cell.now)) }
{
    if cell.is_wide_continuation() {
        return Ok(());
    }
    if !cell.has_contents() {
        return page.character(' ');
    }
    push_characters(page, cell)
}

// Appends the characters of a cell.
fn push_characters(page: &mut Page, cell: &Cell) -> Result<(), AllocError>
    ensures adds { OnOk result (Adds page.old page.new (shown_characters cell.now.text)) }
    ensures bytes { OnOk result (page.new ≡ page.old ++ escaped (shown_characters cell.now.text)) }
{
    for c in cell.contents().chars() {
        page.character(shown(c))?;
    }
    Ok(())
}

// A character as pictures have it: XML doesn't allow U+FFFE and U+FFFF.
fn shown(c: char) -> char
    ensures { result ≡ shown_character c }
{
    match c {
        '\u{fffe}' | '\u{ffff}' => '\u{fffd}',
        c => c,
    }
}
