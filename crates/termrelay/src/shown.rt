//! Comparisons of what screens show.
ghost use Rattle.std.specs.Prelude.{◌≡◌, ℕ, ◌<◌, ◌≤◌, length, false};
ghost use Rattle.vt100_cells.specs.Cell.{cell_eq, default_cell};
ghost use Rattle.vt100_cells.specs.Cells.{AreSame, cell_at};
ghost use Rattle.vt100_core.specs.Picture.{grid_size};
ghost use Rattle.screen_model.specs.State.{IsState};
ghost use Rattle.screen_model.specs.Shown.{shown_state};
ghost use Rattle.vt100.specs.WriterLaws.{IsUnscrolled};
ghost use Rattle.termrelay.specs.Answers.{all_below, same_shown};
ghost use Rattle.termrelay.specs.Frame.{any_below, asks_for_emoji, is_unsure};

use vt100::{Cell, Screen};
use vt100_cells::line::same_to;

/// U+FE0F, the variation selector that asks for an emoji. A terminal may make its cell wide.
const EMOJI_SELECTOR: char = '\u{fe0f}';

/// Whether the cell's text has U+FE0F. Most texts have fewer bytes than that character.
fn asks_for_emoji(cell: &Cell) -> bool
    ensures { result ≡ asks_for_emoji cell.now }
{
    let text = cell.contents();
    text.len() >= EMOJI_SELECTOR.len_utf8() && text.chars().any(|c| c == EMOJI_SELECTOR)
}

/// The cells that are shown in a row of the screen, from its first column to its last.
fn cells_of(screen: &Screen, row: u16) -> &[Cell]
    requires state { IsState screen.now.state }
    requires inside { row < screen.now.state.shown.height }
    ensures count { length result.now ≡ screen.now.state.shown.width }
    ensures cells { AreSame (cell_at result.now) ((shown_state screen.now.state).cell row)
        0 screen.now.state.shown.width }
{
    let (_, cols) = screen.size();
    match screen.row_cells(row) {
        Some(cells) => &cells[..usize::from(cols.get())],
        None => &[],
    }
}

/// How many columns of a row that is shown are looked at: the cells to the right of them are default cells.
fn filled_cols(screen: &Screen, row: u16) -> usize
    requires state { IsState screen.now.state }
    requires inside { row < screen.now.state.shown.height }
    ensures { (k : ℕ) → result ≤ k → (shown_state screen.now.state).cell row k ≡ default_cell }
{
    usize::from(screen.row_filled(row))
}

/// Whether one of the cells asks for an emoji.
fn one_asks_for_emoji(cells: &[Cell]) -> bool
    ensures { result ≡ any_below (length cells.now) (λ k. asks_for_emoji (cell_at cells.now k)) }
{
    for cell in cells {
        if asks_for_emoji(cell) {
            return true;
        }
    }
    false
}

/// Whether one of a row's cells asks for an emoji.
fn is_row_unsure(screen: &Screen, row: u16) -> bool
    requires state { IsState screen.now.state }
    requires inside { row < screen.now.state.shown.height }
    ensures { result ≡ any_below screen.now.state.shown.width
        (λ k. asks_for_emoji ((shown_state screen.now.state).cell row k)) }
{
    let cells = cells_of(screen, row);
    let filled = filled_cols(screen, row).min(cells.len());
    one_asks_for_emoji(&cells[..filled])
}

/// Whether the screen is unsure: a cell has U+FE0F, about whose width terminals disagree.
pub(crate) fn is_unsure(screen: &Screen) -> bool
    requires { IsState screen.now.state }
    ensures { result ≡ is_unsure (grid_size screen.now.state.shown) (shown_state screen.now.state) }
{
    let (rows, _) = screen.size();
    for row in 0..rows.get() {
        if is_row_unsure(screen, row) {
            return true;
        }
    }
    false
}

/// Whether two rows of one width have the same cells. After the first `filled` cells they have.
fn are_same(cells: &[Cell], others: &[Cell], filled: usize) -> bool
    requires width { length cells.now ≡ length others.now }
    requires blank { AreSame (cell_at cells.now) (cell_at others.now) filled (length cells.now) }
    ensures { result ≡ all_below (length cells.now) (λ k. cell_eq (cell_at cells.now k) (cell_at others.now k)) }
{
    let end = filled.min(cells.len());
    same_to(cells, others, 0, end) == end
}

/// Whether two screens of one size show the same cells in a row.
fn has_same_cells(screen: &Screen, other: &Screen, row: u16) -> bool
    requires state { IsState screen.now.state }
    requires other_state { IsState other.now.state }
    requires size { grid_size screen.now.state.shown ≡ grid_size other.now.state.shown }
    requires inside { row < screen.now.state.shown.height }
    ensures { result ≡ all_below screen.now.state.shown.width (λ k. cell_eq
        ((shown_state screen.now.state).cell row k) ((shown_state other.now.state).cell row k)) }
{
    let (cells, filled) = (cells_of(screen, row), filled_cols(screen, row));
    let (others, other_filled) = (cells_of(other, row), filled_cols(other, row));
    are_same(cells, others, filled.max(other_filled))
}

/// Like [`is_row_unsure`], given a screen without U+FE0F: a row that equals its row there is skipped.
fn is_row_unsure_since(base: &Screen, now: &Screen, row: u16) -> bool
    requires base_state { IsState base.now.state }
    requires state { IsState now.now.state }
    requires size { grid_size base.now.state.shown ≡ grid_size now.now.state.shown }
    requires sure { is_unsure (grid_size now.now.state.shown) (shown_state base.now.state) ≡ false }
    requires inside { row < now.now.state.shown.height }
    ensures { result ≡ any_below now.now.state.shown.width
        (λ k. asks_for_emoji ((shown_state now.now.state).cell row k)) }
{
    if has_same_cells(base, now, row) {
        return false;
    }
    is_row_unsure(now, row)
}

/// Like [`is_unsure`], given an earlier screen without U+FE0F: rows that equal its rows are skipped.
pub(crate) fn is_unsure_since(base: &Screen, now: &Screen) -> bool
    requires base_state { IsState base.now.state }
    requires state { IsState now.now.state }
    requires size { grid_size base.now.state.shown ≡ grid_size now.now.state.shown }
    requires sure { is_unsure (grid_size now.now.state.shown) (shown_state base.now.state) ≡ false }
    ensures { result ≡ is_unsure (grid_size now.now.state.shown) (shown_state now.now.state) }
{
    let (rows, _) = now.size();
    for row in 0..rows.get() {
        if is_row_unsure_since(base, now, row) {
            return true;
        }
    }
    false
}

/// Whether two screens of one size show the same. The comparison stops at the first difference.
pub(crate) fn same_shown(screen: &Screen, other: &Screen) -> bool
    requires unscrolled { IsUnscrolled screen.now.state }
    requires other_unscrolled { IsUnscrolled other.now.state }
    requires size { grid_size screen.now.state.shown ≡ grid_size other.now.state.shown }
    ensures { result ≡ same_shown (grid_size screen.now.state.shown) (shown_state screen.now.state)
        (shown_state other.now.state) }
{
    screen.shows_same(other)
}
