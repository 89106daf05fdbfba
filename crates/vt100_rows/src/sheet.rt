//! The rows of a screen.
ghost use Rattle.std.specs.Prelude.{◌≡◌, ℕ, ◌<◌, ◌^◌, ◌++◌, ◌∷◌, ◌==◌, [], length, replicate, true, false, OnOk, OnErr};
ghost use Rattle.std.specs.Prelude.{IfOk, slice_get};
ghost use Rattle.std.specs.Borrow.{sem};
ghost use Rattle.std.specs.Option.{option_copied};
ghost use Rattle.vt100_rows.specs.Row.{RowView, blank_row};
ghost use Rattle.vt100_rows.specs.Sheet.{row_at};

mod back;
mod copy;
mod edit;
mod resize;

use crate::row::Row;
use crate::size::Size;
use std::alloc::Global;
use std::marker::Model;
use std::ops::{Index, IndexMut};
use vt100_forms::GridError;

/// The rows of a screen, from the top. There are at most 65,536 of them.
// Rows that move keep their memory: only their numbers move, two bytes a row.
#[derive(Debug, Drop)]
pub struct Sheet {
    rows: Vec<Row>,

    // Which of `rows` is at each place. Each of them has one.
    order: Vec<u16>,
}

impl Model for Sheet {
    ghost use Rattle.std.specs.Prelude.{List};
    ghost use Rattle.vt100_rows.specs.Row.{RowView};

    ghost Value = { List RowView };

    ghost use Rattle.vt100_rows.specs.SheetFields.{sheet_of, IsSheetFields};

    ghost view = { sheet_of };

    ghost invariant = { IsSheetFields };
}

impl Sheet {
    /// No rows.
    pub fn new(alloc: Global) -> Self
        ensures { result ≡ [] }
    {
        Sheet {
            rows: Vec::new(alloc),
            order: Vec::new(alloc),
        }
    }

    /// No rows, with memory for so many.
    pub fn with_capacity(alloc: Global, len: usize) -> Result<Self, GridError>
        ensures { IfOk result (λ s. s ≡ []) }
    {
        let rows = Vec::with_capacity(alloc, len)?;
        let order = Vec::with_capacity(alloc, len)?;
        Ok(Sheet { rows, order })
    }

    /// As many blank rows as a screen of this size has.
    pub fn blank(alloc: Global, size: Size) -> Result<Self, GridError>
        ensures { IfOk result (λ s. s ≡ replicate size.rows.value (blank_row size.cols.value)) }
    {
        let mut sheet = Sheet::with_capacity(alloc, usize::from(size.rows()))?;
        for _row in 0..size.rows() {
            sheet.push(Row::new(alloc, size.cols())?)?;
        }
        Ok(sheet)
    }

    /// Puts a row under the others. If there isn't memory for it nothing changes.
    pub fn push(&mut self, row: Row) -> Result<(), GridError>
        requires { length self.old < 2 ^ 16 }
        ensures pushed { OnOk result (self.new ≡ self.old ++ row ∷ []) }
        ensures same { OnErr result (self.new ≡ self.old) }
    {
        let number = self.rows.len() as u16;
        self.rows.reserve(1)?;
        self.order.reserve(1)?;
        self.rows.push_reserved(row);
        self.order.push_reserved(number);
        Ok(())
    }

    /// The memory that the rows are taken from.
    pub fn allocator(&self) -> Global {
        *self.rows.allocator()
    }

    /// How many rows there are.
    #[inline]
    pub fn len(&self) -> usize
        ensures { result ≡ length self.now }
    {
        self.order.len()
    }

    /// The row at `r`, counted from 0 at the top.
    #[inline]
    pub fn get(&self, r: usize) -> Option<&Row>
        ensures { option_copied result ≡ slice_get self.now r }
    {
        if r < self.len() { Some(&self[r]) } else { None }
    }

    /// Whether there is no row.
    pub fn is_empty(&self) -> bool
        ensures { result ≡ (length self.now == 0) }
    {
        self.order.is_empty()
    }
}

impl Index<usize> for Sheet {
    type Output = Row;

    ghost can_index = { λ s r. r < length s };

    ghost index_gives = { λ s r row. row ≡ row_at s r };

    #[inline]
    fn index(&self, r: usize) -> &Row {
        &self.rows[usize::from(self.order[r])]
    }
}

impl IndexMut<usize> for Sheet {
    ghost use Rattle.vt100_rows.specs.SheetLends.{lends_row};

    #[inline]
    fn index_mut(&mut self, r: usize) -> &mut Row
        requires { r < length self.old }
        ensures* writes_back { sem 𝓛 (lends_row self.entry r result) }
        ensures value { result.now ≡ row_at self.old r }
    {
        &mut self.rows[usize::from(self.order[r])]
    }
}
