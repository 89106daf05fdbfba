//! Edits of the cells of one line.
ghost use Rattle.std.specs.Prelude.{◌≡◌, ℕ, ◌+◌, ◌-◌, ◌*◌, ◌<◌, ◌≤◌, ◌==◌, List, length, Some, true, false, not, ◌&&◌};
ghost use Rattle.std.specs.Prelude.{slice_set, All, slice_index, IsTrue, replicate};
ghost use Rattle.vt100_cells.specs.Cell.{CellView, IsCell, has_text, is_filled, drawn_columns, cell_of, empty_cell};
ghost use Rattle.vt100_cells.specs.Cell.{cell_eq};
ghost use Rattle.vt100_cells.specs.Line.{IsPaired, span_of, update, put, put_unflags, base_col, pair_wiped, wiped};
ghost use Rattle.vt100_cells.specs.Line.{wipe_unflags, cut, opened, closed, left_cleared, right_cleared, shifted_right};
ghost use Rattle.vt100_cells.specs.Line.{mended, shifted_left};
ghost use Rattle.vt100_cells.specs.Cells.{AreSame, cell_at, by_position, last_cell, inserted_cells, trimmed_len};

mod packed;

use crate::cell::{Cell, is_same};
use crate::cell_text::START_BYTES;
pub use packed::{put_printable, put_run, run_end};
use vt100_forms::attrs::Attrs;

/// The cell at column `i`.
#[inline]
pub fn at(cells: &[Cell], i: usize) -> &Cell
    requires { i < length cells.now }
    ensures { result.now ≡ cell_at cells.now i }
{
    &cells[i]
}

/// Whether a wide character begins at column `i`; past the end none does.
#[inline]
pub fn is_wide_at(cells: &[Cell], i: usize) -> bool
    ensures { result ≡ (cell_at cells.now i).wide }
{
    if i < cells.len() {
        at(cells, i).is_wide()
    } else {
        false
    }
}

/// Whether column `i` is the second one of a wide character; past the end no column is.
#[inline]
pub fn is_continuation_at(cells: &[Cell], i: usize) -> bool
    ensures { result ≡ (cell_at cells.now i).continuation }
{
    if i < cells.len() {
        at(cells, i).is_wide_continuation()
    } else {
        false
    }
}

/// Whether the same cell is at column `i` of both lines.
#[inline(always)]
pub fn is_same_at(cells: &[Cell], others: &[Cell], i: usize) -> bool
    requires in_line { i < length cells.now }
    requires in_other { i < length others.now }
    ensures { result ≡ cell_eq (cell_at cells.now i) (cell_at others.now i) }
{
    is_same(at(cells, i), at(others, i))
}

/// Whether the eight cells from column `i` on are found to be the same in both lines: the starts of their texts are
/// compared, which is all of a short text, and longer ones are left to [`is_same_at`].
// One branch for eight cells: so a line costs little more than the reading of it.
#[inline(always)]
fn have_same_eight(cells: &[Cell], others: &[Cell], i: usize) -> bool
    requires in_line { i + 8 ≤ length cells.now }
    requires in_other { i + 8 ≤ length others.now }
    ensures { IsTrue result → AreSame (cell_at cells.now) (cell_at others.now) i (i + 8) }
{
    let mut same = true;
    let mut longest = 0;
    for k in 0..8 {
        let cell = at(cells, i + k);
        same &= cell.has_start_of(at(others, i + k));
        longest |= cell.text().len();
    }
    same & (longest < START_BYTES + 1)
}

/// The first column from `from` on at which the lines differ, or `to` if there is no such column before it.
pub fn same_to(cells: &[Cell], others: &[Cell], from: usize, to: usize) -> usize
    requires some { from ≤ to }
    requires in_line { to ≤ length cells.now }
    requires in_other { to ≤ length others.now }
    ensures within { from ≤ result × result ≤ to }
    ensures same { AreSame (cell_at cells.now) (cell_at others.now) from result }
    ensures differs { result < to → cell_eq (cell_at cells.now result) (cell_at others.now result) ≡ false }
{
    let mut n = from;
    while to - n >= 8 && have_same_eight(cells, others, n) {
        n += 8;
    }
    while n < to && is_same_at(cells, others, n) {
        n += 1;
    }
    n
}

/// Whether the two cells from column `i` on are found to be like `cell`: the starts of the texts are compared, which is
/// all of a short text.
// Its length is checked last: otherwise LLVM would keep it apart, and put the 16 bytes together for each comparison.
#[inline(always)]
fn is_alike_pair(cells: &[Cell], cell: &Cell, i: usize) -> bool
    requires in_line { i + 2 ≤ length cells.now }
    ensures { IsTrue result → AreSame (cell_at cells.now) (λ _. cell.now) i (i + 2) }
{
    let (first, second) = (at(cells, i), at(cells, i + 1));
    (cell.has_start_of(first) & cell.has_start_of(second)) && cell.text().fits_start()
}

/// The first column from `from` on at which a cell other than `cell` is, or `to` if there is no such column before
/// it.
pub fn alike_to(cells: &[Cell], cell: &Cell, from: usize, to: usize) -> usize
    requires some { from ≤ to }
    requires in_line { to ≤ length cells.now }
    ensures within { from ≤ result × result ≤ to }
    ensures alike { AreSame (cell_at cells.now) (λ _. cell.now) from result }
    ensures differs { result < to → cell_eq cell.now (cell_at cells.now result) ≡ false }
{
    let mut n = from;
    while to - n >= 2 && is_alike_pair(cells, cell, n) {
        n += 2;
    }
    while n < to && is_same(cell, at(cells, n)) {
        n += 1;
    }
    n
}

/// Writes `cell` at column `i`, if the line goes that far.
#[inline]
fn put_within(cells: &mut [Cell], i: usize, cell: Cell)
    ensures { cells.new ≡ slice_set cells.old i cell }
{
    if i < cells.len() {
        cells[i] = cell;
    }
}

/// Whether the last cell shows something.
pub fn ends_filled(cells: &[Cell]) -> bool
    ensures { result ≡ is_filled (last_cell cells.now) }
{
    if cells.is_empty() {
        return false;
    }
    let last = at(cells, cells.len() - 1);
    last.has_contents() || last.is_wide_continuation()
}

/// Empties the cell at column `i`, which keeps its attributes.
#[inline(always)]
fn clear_at(cells: &mut [Cell], i: usize)
    requires { i < length cells.old }
    ensures { cells.new ≡ slice_set cells.old i (empty_cell (cell_at cells.old i).attrs) }
{
    cells[i].clear();
}

/// Empties the cell directly left of column `i` if it is wide.
#[inline]
fn clear_left(cells: &mut [Cell], i: usize)
    requires { i < length cells.old }
    ensures { cells.new ≡ by_position (length cells.old) (left_cleared (cell_at cells.old) i) }
{
    if i == 0 {
        return;
    }
    if at(cells, i - 1).is_wide() {
        clear_at(cells, i - 1);
    }
}

/// Empties the cell at column `e` if it is the second half of a wide character.
fn clear_right(cells: &mut [Cell], e: usize)
    ensures { cells.new ≡ by_position (length cells.old) (right_cleared (cell_at cells.old) e) }
{
    if is_continuation_at(cells, e) {
        clear_at(cells, e);
    }
}

/// Empties each column, with these attributes.
// A default cell is zeros, and LLVM makes `memset` of them.
pub fn clear(cells: &mut [Cell], attrs: Attrs)
    ensures { cells.new ≡ replicate (length cells.old) (empty_cell attrs) }
{
    if attrs == Attrs::new() {
        cells.fill(Cell::new());
    } else {
        fill(cells, Cell::empty(attrs));
    }
}

/// Puts `cell` at each column.
// A copy of the whole cell is two stores; where LLVM sees that the cell is built from its parts, it is seven or more.
#[inline(never)]
fn fill(cells: &mut [Cell], cell: Cell)
    ensures { cells.new ≡ replicate (length cells.old) cell }
{
    cells.fill(cell);
}

/// Empties the columns from `s` up to `e`, with these attributes, and the halves of wide characters that are left.
#[inline(always)]
pub fn wipe(cells: &mut [Cell], s: usize, e: usize, attrs: Attrs)
    requires some { s < e }
    requires in_row { e ≤ length cells.old }
    requires paired { IsPaired (cell_at cells.old) }
    ensures { cells.new ≡ by_position (length cells.old) (wiped (cell_at cells.old) s e attrs) }
{
    clear_left(cells, s);
    clear_right(cells, e);
    clear(&mut cells[s..e], attrs);
}

/// Whether erasing the columns from `s` up to `e` empties the last one.
pub fn wipes_end(cells: &[Cell], s: usize, e: usize) -> bool
    requires { e ≤ length cells.now }
    ensures { result ≡ wipe_unflags (length cells.now) (cell_at cells.now) s e }
{
    s < e && (e >= cells.len() || (e + 1 == cells.len() && at(cells, e).is_wide_continuation()))
}

/// Puts `cell` at column `i`, with the drawing attributes, over what is there.
#[inline(always)]
pub fn put(cells: &mut [Cell], i: usize, cell: Cell, attrs: Attrs)
    requires in_row { i + span_of cell ≤ length cells.old }
    ensures { cells.new ≡ by_position (length cells.old) (put (cell_at cells.old) i cell attrs) }
{
    let was_wide = at(cells, i).is_wide();
    let next_was_wide = is_wide_at(cells, i + 1);
    clear_left(cells, i);
    cells[i] = cell;
    if cell.is_wide() {
        cells[i + 1] = Cell::continuation();
        if next_was_wide {
            put_within(cells, i + 2, Cell::empty(attrs));
        }
    } else if was_wide {
        put_within(cells, i + 1, Cell::of_char(' ', 1, attrs));
    }
}

/// Whether a cell of two columns, put at column `i`, empties the last one.
#[inline]
pub fn puts_end(cells: &[Cell], i: usize, cell: Cell) -> bool
    requires { i < length cells.now }
    ensures value { result ≡ put_unflags (length cells.now) (cell_at cells.now) i cell }
    ensures valid { IsCell cell }
{
    cell.is_wide() && is_wide_at(cells, i + 1) && i + 3 == cells.len()
}

/// The column of the cell that a zero-width character joins, where the cursor is at `col`.
pub fn base_col(cells: &[Cell], col: usize) -> usize
    requires some { 0 < col }
    requires in_row { col ≤ length cells.now }
    requires paired { IsPaired (cell_at cells.now) }
    ensures { result ≡ base_col (cell_at cells.now) col }
{
    if at(cells, col - 1).is_wide_continuation() {
        col - 2
    } else {
        col - 1
    }
}

/// Empties both halves of the wide character at column `i`, if one is there. Returns whether the last cell shows
/// something then.
pub fn clear_pair(cells: &mut [Cell], i: usize) -> bool
    requires in_row { i < length cells.old }
    requires paired { IsPaired (cell_at cells.old) }
    ensures cells { cells.new ≡ by_position (length cells.old) (pair_wiped (cell_at cells.old) i) }
    ensures filled { result ≡ is_filled (last_cell cells.new) }
{
    if at(cells, i).is_wide() {
        clear_at(cells, i);
        clear_at(cells, i + 1);
    } else if at(cells, i).is_wide_continuation() {
        clear_at(cells, i - 1);
        clear_at(cells, i);
    }
    ends_filled(cells)
}

/// Inserts `count` default cells at column `i`. The cells from there on move to the right, and those that fall off
/// the end are gone.
fn shift_right(cells: &mut [Cell], i: usize, count: usize)
    requires { i + count ≤ length cells.old }
    ensures { cells.new ≡ by_position (length cells.old) (shifted_right (cell_at cells.old) i count) }
{
    cells[i..].rotate_right(count);
    cells[i..i + count].fill(Cell::new());
}

/// Empties a wide character whose second half has fallen off the end.
pub fn clear_cut_half(cells: &mut [Cell])
    ensures { cells.new ≡ by_position (length cells.old) (cut (length cells.old) (cell_at cells.old)) }
{
    let n = cells.len();
    if n == 0 {
        return;
    }
    if at(cells, n - 1).is_wide() {
        clear_at(cells, n - 1);
    }
}

/// Puts the second half of a wide character at column `i`, and nothing at `j`, where it had gone.
fn mend_pair(cells: &mut [Cell], i: usize, j: usize)
    ensures { cells.new ≡ by_position (length cells.old) (mended (cell_at cells.old) i j) }
{
    put_within(cells, j, Cell::new());
    put_within(cells, i, Cell::continuation());
}

/// Inserts `count` default cells at column `i`, as many as fit, and keeps wide characters whole.
pub fn insert(cells: &mut [Cell], i: usize, count: usize)
    requires { i ≤ length cells.old }
    ensures { cells.new ≡ inserted_cells cells.old i count }
{
    let n = count.min(cells.len() - i);
    if n > 0 {
        insert_some(cells, i, n);
    }
}

/// Inserts `n` default cells at column `i`, and keeps wide characters whole.
fn insert_some(cells: &mut [Cell], i: usize, n: usize)
    requires in_row { i + n ≤ length cells.old }
    requires some { 0 < n }
    ensures { cells.new ≡ by_position (length cells.old) (cut (length cells.old) (opened (cell_at cells.old) i n)) }
{
    let splits_pair = at(cells, i).is_wide_continuation();
    shift_right(cells, i, n);
    if splits_pair {
        mend_pair(cells, i, i + n);
    }
    clear_cut_half(cells);
}

/// Removes `n` cells at column `s`. The cells right of them move to the left, and default cells follow.
fn shift_left(cells: &mut [Cell], s: usize, n: usize)
    requires { s + n ≤ length cells.old }
    ensures { cells.new ≡ by_position (length cells.old) (shifted_left (length cells.old) (cell_at cells.old) s n) }
{
    cells[s..s + n].fill(Cell::new());
    cells[s..].rotate_left(n);
}

/// Removes `n` cells at column `s`, and empties the halves of wide characters that are left.
pub fn remove(cells: &mut [Cell], s: usize, n: usize)
    requires in_row { s + n ≤ length cells.old }
    requires some { 0 < n }
    requires paired { IsPaired (cell_at cells.old) }
    ensures { cells.new ≡ by_position (length cells.old) (closed (length cells.old) (cell_at cells.old) s n) }
{
    clear_left(cells, s);
    clear_right(cells, s + n);
    shift_left(cells, s, n);
}

/// How many cells there are up to the last that isn't a default cell.
pub fn trimmed_len(cells: &[Cell]) -> usize
    ensures value { result ≡ trimmed_len cells.now }
    ensures bound { result ≤ length cells.now }
{
    let mut n = cells.len();
    while n > 0 {
        if !at(cells, n - 1).is_default() {
            break;
        }
        n -= 1;
    }
    n
}
