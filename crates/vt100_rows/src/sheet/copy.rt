//! Copies and comparisons of sheets.
ghost use Rattle.std.specs.Prelude.{◌≡◌, ◌↔◌, IsTrue, IfOk};
ghost use Rattle.vt100_rows.specs.Sheet.{HaveSameWidths};

use crate::row::Row;
use crate::sheet::Sheet;
use std::alloc::Global;
use vt100_forms::GridError;

impl Sheet {
    /// Equal rows.
    pub fn clone(&self) -> Result<Self, GridError>
        ensures { IfOk result (λ s. s ≡ self.now) }
    {
        let rows = clone_rows(*self.rows.allocator(), &self.rows)?;
        let order = self.order.clone()?;
        Ok(Sheet { rows, order })
    }

    /// Makes each row equal to the one in its place of another sheet. The rows keep their memory and take none.
    pub fn copy_from(&mut self, other: &Self)
        requires { HaveSameWidths self.old other.now }
        ensures { self.new ≡ other.now }
    {
        for r in 0..self.len() {
            self[r].copy_from(&other[r]);
        }
    }

    /// Whether each row is equal to the one in its place of another sheet. It stops at the first difference.
    pub fn is_same(&self, other: &Self) -> bool
        requires { HaveSameWidths self.now other.now }
        ensures { IsTrue result ↔ self.now ≡ other.now }
    {
        for r in 0..self.len() {
            if !self[r].is_same(&other[r]) {
                return false;
            }
        }
        true
    }
}

/// Equal rows.
fn clone_rows(alloc: Global, rows: &[Row]) -> Result<Vec<Row>, GridError>
    ensures { IfOk result (λ v. v.items ≡ rows.now) }
{
    let mut copy = Vec::with_capacity(alloc, rows.len())?;
    for row in rows {
        copy.push(row.clone()?)?;
    }
    Ok(copy)
}
