//! Another size of a sheet.
ghost use Rattle.std.specs.Prelude.{◌≡◌, ℕ, ◌+◌, ◌<◌, ◌≤◌, length, min, take, IsOk, OnOk, OnErr};
ghost use Rattle.vt100_cells.specs.Cell.{default_cell};
ghost use Rattle.vt100_rows.specs.Row.{RowView, truncated, grown, resized_row};
ghost use Rattle.vt100_rows.specs.Sheet.{row_at, rows_by_position, IsSheet, changed_between, first_rows};
ghost use Rattle.vt100_rows.specs.SheetFields.{IsOrder, number_at, in_order};

use crate::row::Row;
use crate::sheet::Sheet;
use vt100_cells::Cell;
use vt100_forms::GridError;

impl Sheet {
    /// Keeps the first `height` rows alone; the last of them isn't wrapped any more.
    pub fn keep_first(&mut self, height: u16)
        requires { 0 < height }
        ensures { self.new ≡ rows_by_position (min height (length self.old)) (first_rows self.old height) }
    {
        let height = usize::from(height);
        self.cut(height);
        if height <= self.len() {
            self[height - 1].wrap(false);
        }
    }

    /// Keeps the first `height` rows alone.
    fn cut(&mut self, height: usize)
        ensures { self.new ≡ take height self.old }
    {
        settle(&mut self.rows, &mut self.order);
        self.rows.truncate(height);
        self.order.truncate(height);
    }

    /// Gives every row `to` columns, where they have `from`. If there isn't memory for that each has `from` columns
    /// again; that can be only where the rows become wider.
    pub fn resize(&mut self, from: u16, to: u16) -> Result<(), GridError>
        requires sheet { IsSheet (length self.old) from self.old }
        ensures size { length self.new ≡ length self.old }
        ensures rows { OnOk result (self.new ≡ rows_by_position (length self.old)
            (λ r. resized_row (row_at self.old r) to default_cell)) }
        ensures sheet { OnErr result (IsSheet (length self.old) from self.new) }
        ensures narrower { to ≤ from → IsOk result }
    {
        if to < from {
            self.narrow(self.len(), to);
            Ok(())
        } else {
            self.widen(from, to)
        }
    }

    /// Gives every row `to` columns, where they have `from`, which isn't more than `to`. If there isn't memory for that
    /// each has `from` columns again.
    fn widen(&mut self, from: u16, to: u16) -> Result<(), GridError>
        requires sheet { IsSheet (length self.old) from self.old }
        requires wider { from ≤ to }
        ensures size { length self.new ≡ length self.old }
        ensures rows { OnOk result (self.new ≡ rows_by_position (length self.old)
            (λ r. grown (row_at self.old r) to default_cell)) }
        ensures sheet { OnErr result (IsSheet (length self.old) from self.new) }
        ensures same { to ≤ from → IsOk result }
    {
        for r in 0..self.len() {
            if let Err(error) = self[r].grow(to, Cell::new()) {
                self.narrow(r, from);
                return Err(error);
            }
        }
        Ok(())
    }

    /// Cuts the rows before `end` after `width` columns.
    fn narrow(&mut self, end: usize, width: u16)
        requires { end ≤ length self.old }
        ensures { self.new ≡ rows_by_position (length self.old)
            (changed_between (λ v. truncated v width) self.old 0 end) }
    {
        for r in 0..end {
            self[r].truncate(width);
        }
    }
}

/// Moves the rows in memory until each is at its place, and the numbers with them.
fn settle(rows: &mut [Row], order: &mut [u16])
    requires { IsOrder (length rows.old) order.old }
    ensures same { in_order rows.new order.new ≡ in_order rows.old order.old }
    ensures settled { (r : ℕ) → r < length order.old → number_at order.new r ≡ r }
{
    for r in 0..order.len() {
        settle_place(rows, order, r);
    }
}

/// The same until the row at `place` is there. A row that is at its place stays there.
fn settle_place(rows: &mut [Row], order: &mut [u16], place: usize)
    requires order { IsOrder (length rows.old) order.old }
    requires in_order { place < length order.old }
    ensures order { IsOrder (length rows.old) order.new }
    ensures same { in_order rows.new order.new ≡ in_order rows.old order.old }
    ensures settled { number_at order.new place ≡ place }
    ensures others { (r : ℕ) → r < length order.old → number_at order.old r ≡ r → number_at order.new r ≡ r }
{
    'cycle: while usize::from(order[place]) != place {
        let number = usize::from(order[place]);
        rows.swap(number, usize::from(order[number]));
        order.swap(place, number);
    }
}
