//! Rows that come back at the top of a sheet.
ghost use Rattle.std.specs.Prelude.{◌≡◌, ℕ, ◌+◌, ◌-◌, ◌^◌, ◌<◌, ◌≤◌, ◌++◌, List, length, take, drop, map, replicate};
ghost use Rattle.std.specs.Prelude.{vec_len, vec_capacity, IsOk, OnOk, OnErr};
ghost use Rattle.std.specs.List.{range_with_len};
ghost use Rattle.vt100_cells.specs.Cell.{default_cell};
ghost use Rattle.vt100_rows.specs.Row.{RowView, IsRow, blank_row, resized_row};
ghost use Rattle.vt100_rows.specs.Sheet.{row_at};

use crate::kept_rows::{resize_newest, take_newest};
use crate::row::Row;
use crate::sheet::Sheet;
use crate::sheet::edit::turn_numbers;
use std::collections::VecDeque;
use vt100_forms::GridError;

impl Sheet {
    /// Puts `down` rows above the others and `below` blank ones under them. The newest kept rows come back, each with
    /// `width` columns, and blank ones above them where too few were kept.
    pub fn bring_back(
        &mut self,
        kept: &mut VecDeque<Row>,
        down: usize,
        below: usize,
        width: u16,
    ) -> Result<(), GridError>
        requires few { length self.old + (down + below) < 2 ^ 16 }
        requires each { (j : ℕ) → j < length kept.old.items → IsRow (row_at kept.old.items j) }
        ensures rows { OnOk result (self.new ≡ (replicate (down - length kept.old.items) (blank_row width)
            ++ map (λ v. resized_row v width default_cell) (drop (length kept.old.items - down) kept.old.items))
            ++ self.old ++ replicate below (blank_row width)) }
        ensures kept { OnOk result (kept.new.items ≡ take (length kept.old.items - down) kept.old.items) }

        // Where memory ran out, which it does only where rows are put.
        ensures same { OnErr result (self.new ≡ self.old) }
        ensures each { OnErr result ((j : ℕ) → j < length kept.new.items → IsRow (row_at kept.new.items j)) }
        ensures count { OnErr result (length kept.new.items ≡ length kept.old.items) }
        ensures none { down + below ≡ 0 → IsOk result }
    {
        let come = down.min(kept.len());
        resize_newest(kept, come, width)?;
        self.rows.reserve(below + down)?;
        self.order.reserve(below + down)?;
        push_blank(&mut self.rows, below + (down - come), width)?;
        take_newest(kept, come, &mut self.rows);
        push_numbers(&mut self.order, self.rows.len());
        let len = self.order.len();
        turn_numbers(&mut self.order, 0, len, len - down);
        Ok(())
    }
}

/// Puts `n` blank rows at the end, where there is room for them. Where there isn't memory for their cells nothing
/// changes.
fn push_blank(rows: &mut Vec<Row>, n: usize, width: u16) -> Result<(), GridError>
    requires room { vec_len rows.old + n ≤ vec_capacity rows.old }
    ensures rows { OnOk result (rows.new.items ≡ rows.old.items ++ replicate n (blank_row width)) }
    ensures len { OnOk result (vec_len rows.new ≡ vec_len rows.old + n) }
    ensures capacity { vec_capacity rows.new ≡ vec_capacity rows.old }
    ensures same { OnErr result (rows.new.items ≡ rows.old.items) }
    ensures none { n ≡ 0 → IsOk result }
{
    let alloc = *rows.allocator();
    let len = rows.len();
    for _i in 0..n {
        match Row::new(alloc, width) {
            Ok(row) => rows.push_reserved(row),
            Err(error) => {
                rows.truncate(len);
                return Err(error);
            }
        }
    }
    Ok(())
}

/// Puts the numbers of the rows from the one after the last up to `len` at the end, where there is room for them.
fn push_numbers(order: &mut Vec<u16>, len: usize)
    requires more { vec_len order.old ≤ len }
    requires few { len < 2 ^ 16 }
    requires room { len ≤ vec_capacity order.old }
    ensures { order.new.items ≡ order.old.items
        ++ range_with_len (length order.old.items) (len - length order.old.items) }
{
    for k in order.len()..len {
        order.push_reserved(k as u16);
    }
}
