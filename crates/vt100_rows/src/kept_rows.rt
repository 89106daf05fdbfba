//! The rows that are kept, the oldest first.
ghost use Rattle.std.specs.Prelude.{◌≡◌, ℕ, ◌+◌, ◌-◌, ◌<◌, ◌≤◌, ◌++◌, length, take, drop, map, slice_range, vec_len};
ghost use Rattle.std.specs.Prelude.{vec_capacity, IsOk, OnOk, IfOk};
ghost use Rattle.vt100_cells.specs.Cell.{default_cell};
ghost use Rattle.vt100_rows.specs.Row.{IsRow, blank_row, grown, resized_row, trimmed};
ghost use Rattle.vt100_rows.specs.Sheet.{row_at, rows_by_position, IsSheet, changed_between};
ghost use Rattle.vt100_rows.specs.Sink.{TakesAll};

use crate::row::Row;
use crate::row_sink::RowSink;
use crate::sheet::Sheet;
use std::alloc::Global;
use std::collections::VecDeque;
use vt100_cells::Cell;
use vt100_forms::GridError;

/// The kept row at `j`, counted from the oldest.
#[inline]
pub fn kept_at(rows: &VecDeque<Row>, j: usize) -> &Row
    requires { j < length rows.now.items }
    ensures { result.now ≡ row_at rows.now.items j }
{
    &rows[j]
}

/// Removes the oldest `n` rows, and gives them to the sink.
pub fn drop_oldest<S: RowSink>(rows: &mut VecDeque<Row>, n: usize, sink: &mut S)
    requires { n ≤ length rows.old.items }
    ensures kept { rows.new.items ≡ drop n rows.old.items }
    ensures sink { TakesAll S.takes sink.old (take n rows.old.items) sink.new }
{
    for _i in 0..n {
        let row = rows.pop_front().unwrap();
        sink.row(&row);
    }
}

/// Copies the rows from `first` up to `end`, without the default cells at their ends, to the end of the kept ones, and
/// empties them.
#[inline(always)]
pub fn keep_rows(
    kept: &mut VecDeque<Row>,
    rows: &mut Sheet,
    first: usize,
    end: usize,
    width: u16,
) -> Result<(), GridError>
    requires in_part { first ≤ end }
    requires in_rows { end ≤ length rows.old }
    requires sheet { IsSheet (length rows.old) width rows.old }
    requires each_kept { (j : ℕ) → j < length kept.old.items → IsRow (row_at kept.old.items j) }
    ensures kept { OnOk result (kept.new.items ≡ kept.old.items ++ map trimmed (slice_range rows.old first end)) }
    ensures rows { OnOk result (rows.new ≡ rows_by_position (length rows.old)
        (changed_between (λ v. blank_row width) rows.old first end)) }

    // Also where memory ran out, which it does only where a row is kept.
    ensures size { length rows.new ≡ length rows.old }
    ensures sheet { IsSheet (length rows.old) width rows.new }
    ensures each_kept { (j : ℕ) → j < length kept.new.items → IsRow (row_at kept.new.items j) }
    ensures count { length kept.new.items ≤ length kept.old.items + (end - first) }
    ensures none { end ≤ first → IsOk result }
{
    for r in first..end {
        let row = rows[r].trimmed()?;
        kept.push_back(row)?;
        rows[r].reset();
    }
    Ok(())
}

/// Makes the kept rows from `first` up to `end` at least `width` columns wide.
#[inline(always)]
pub fn widen(
    rows: &mut VecDeque<Row>,
    first: usize,
    end: usize,
    width: u16,
) -> Result<(), GridError>
    requires in_part { first ≤ end }
    requires in_rows { end ≤ length rows.old.items }
    requires each { (j : ℕ) → j < length rows.old.items → IsRow (row_at rows.old.items j) }
    ensures rows { OnOk result (rows.new.items ≡ rows_by_position (length rows.old.items)
        (changed_between (λ v. grown v width default_cell) rows.old.items first end)) }

    // Also where memory ran out, which it does only where one of them is narrower.
    ensures each { (j : ℕ) → j < length rows.new.items → IsRow (row_at rows.new.items j) }
    ensures count { length rows.new.items ≡ length rows.old.items }
    ensures wide { ((j : ℕ) → first ≤ j → j < end → width ≤ length (row_at rows.old.items j).cells) → IsOk result }
{
    for j in first..end {
        rows[j].grow(width, Cell::new())?;
    }
    Ok(())
}

/// Equal rows.
pub fn clone_kept(alloc: Global, rows: &VecDeque<Row>) -> Result<VecDeque<Row>, GridError>
    ensures { IfOk result (λ v. v.items ≡ rows.now.items) }
{
    let mut copy = VecDeque::with_capacity(alloc, rows.len())?;
    for j in 0..rows.len() {
        copy.push_back(kept_at(rows, j).clone()?)?;
    }
    Ok(copy)
}

/// Gives the newest `n` rows `width` columns.
pub fn resize_newest(rows: &mut VecDeque<Row>, n: usize, width: u16) -> Result<(), GridError>
    requires in_rows { n ≤ length rows.old.items }
    requires each { (j : ℕ) → j < length rows.old.items → IsRow (row_at rows.old.items j) }
    ensures rows { OnOk result (rows.new.items ≡ take (length rows.old.items - n) rows.old.items
        ++ map (λ v. resized_row v width default_cell) (drop (length rows.old.items - n) rows.old.items)) }

    // Also where memory ran out, which it does only where a row gets other columns.
    ensures each { (j : ℕ) → j < length rows.new.items → IsRow (row_at rows.new.items j) }
    ensures count { length rows.new.items ≡ length rows.old.items }
    ensures none { n ≡ 0 → IsOk result }
{
    for j in rows.len() - n..rows.len() {
        rows[j].resize(width, Cell::new())?;
    }
    Ok(())
}

/// Moves the newest `n` rows to the end of others, where there is room for them.
pub fn take_newest(kept: &mut VecDeque<Row>, n: usize, rows: &mut Vec<Row>)
    requires in_kept { n ≤ length kept.old.items }
    requires room { vec_len rows.old + n ≤ vec_capacity rows.old }
    ensures rows { rows.new.items ≡ rows.old.items ++ drop (length kept.old.items - n) kept.old.items }
    ensures len { vec_len rows.new ≡ vec_len rows.old + n }
    ensures kept { kept.new.items ≡ take (length kept.old.items - n) kept.old.items }
{
    kept.rotate_right(n);
    for _i in 0..n {
        rows.push_reserved(kept.pop_front().unwrap());
    }
}
