//! Erasing, and cells that come in and go.
ghost use Rattle.std.specs.Prelude.{◌≡◌, ℕ, ◌+◌, ◌-◌, ◌<◌, ◌≤◌, ◌==◌, min, true, false, if◌then◌else◌};

use crate::grid::Grid;
use std::ops::Range;
use vt100_cells::PackedAttrs;
use vt100_forms::attrs::Attrs;

impl Grid {
    ghost use Rattle.vt100_core.specs.Grid.{GridView, IsAllocated};
    ghost use Rattle.vt100_core.specs.Erase.{all_erased, all_erased_forward, all_erased_backward, row_erased};
    ghost use Rattle.vt100_core.specs.Erase.{columns_erased, columns_to_cursor, cells_inserted, cells_deleted};

    /// Empties every row, with these attributes (ED 2).
    pub fn erase_all(&mut self, attrs: Attrs)
        requires { IsAllocated self.old }
        ensures grid { self.new ≡ all_erased self.old attrs }
        ensures allocated { IsAllocated self.new }
    {
        self.rows.clear_all(attrs);
    }

    /// Empties the cursor's row from the cursor on, and every row below it (ED 0).
    pub fn erase_all_forward(&mut self, attrs: Attrs)
        requires { IsAllocated self.old }
        ensures grid { self.new ≡ all_erased_forward self.old attrs }
        ensures allocated { IsAllocated self.new }
    {
        let row = usize::from(self.pos.row);
        self.rows
            .erase_forward(row, self.pos.col, self.size.cols(), attrs);
    }

    /// Empties every row above the cursor's, and its row up to the cursor (ED 1).
    pub fn erase_all_backward(&mut self, attrs: Attrs)
        requires { IsAllocated self.old }
        ensures grid { self.new ≡ all_erased_backward self.old attrs }
        ensures allocated { IsAllocated self.new }
    {
        let row = usize::from(self.pos.row);
        let end = self.pos.col.min(self.size.cols() - 1) + 1;
        self.rows.erase_backward(row, end, attrs);
    }

    /// Empties the cursor's row, with these attributes (EL 2).
    pub fn erase_row(&mut self, attrs: Attrs)
        requires { IsAllocated self.old }
        ensures grid { self.new ≡ row_erased self.old attrs }
        ensures allocated { IsAllocated self.new }
    {
        self.rows[usize::from(self.pos.row)].clear(attrs);
    }

    /// Empties the cursor's row from the cursor on (EL 0). Where the cursor is past the last column nothing is erased.
    #[inline(always)]
    pub fn erase_row_forward(&mut self, attrs: Attrs)
        requires { IsAllocated self.old }
        ensures grid { self.new ≡ columns_erased self.old self.old.col self.old.width attrs }
        ensures allocated { IsAllocated self.new }
    {
        self.erase_columns(self.pos.col..self.size.cols(), attrs);
    }

    /// Empties the cursor's row from the cursor on, as [`erase_row_forward`](Self::erase_row_forward) does. Mostly the
    /// attributes are the default ones, and then none is looked at.
    // A function of its own, since the erasing of a row is inlined twice here.
    #[doc(hidden)]
    #[inline(never)]
    pub fn erase_forward(&mut self, attrs: &PackedAttrs)
        requires { IsAllocated self.old }
        ensures grid { self.new ≡ columns_erased self.old self.old.col self.old.width attrs.now }
        ensures allocated { IsAllocated self.new }
    {
        if attrs.is_default() {
            self.erase_row_forward(Attrs::new());
        } else {
            self.erase_row_forward(attrs.attrs());
        }
    }

    /// Empties the cursor's row up to the cursor and at it (EL 1).
    pub fn erase_row_backward(&mut self, attrs: Attrs)
        requires { IsAllocated self.old }
        ensures grid { self.new ≡ columns_erased self.old 0 (columns_to_cursor self.old) attrs }
        ensures allocated { IsAllocated self.new }
    {
        let end = self.pos.col.min(self.size.cols() - 1) + 1;
        self.erase_columns(0..end, attrs);
    }

    /// Empties columns of the cursor's row.
    #[inline(always)]
    fn erase_columns(&mut self, range: Range<u16>, attrs: Attrs)
        requires allocated { IsAllocated self.old }
        requires in_row { range.end ≤ self.old.width }
        ensures grid { self.new ≡ columns_erased self.old range.start range.end attrs }
        ensures allocated { IsAllocated self.new }
    {
        self.rows[usize::from(self.pos.row)].erase_range(range, attrs);
    }

    /// Inserts default cells at the cursor (ICH). What falls off the row's end is gone.
    pub fn insert_cells(&mut self, count: u16)
        requires { IsAllocated self.old }
        ensures grid { self.new ≡ cells_inserted self.old count }
        ensures allocated { IsAllocated self.new }
    {
        self.rows[usize::from(self.pos.row)].insert(self.pos.col, count);
    }

    /// Removes cells at the cursor (DCH). Default cells follow at the row's end.
    pub fn delete_cells(&mut self, count: u16)
        requires { IsAllocated self.old }
        ensures grid { self.new ≡ cells_deleted self.old count }
        ensures allocated { IsAllocated self.new }
    {
        let end = self.pos.col.saturating_add(count).min(self.size.cols());
        self.rows[usize::from(self.pos.row)].remove(self.pos.col..end);
    }

    /// Empties cells from the cursor on, with these attributes (ECH).
    pub fn erase_cells(&mut self, count: u16, attrs: Attrs)
        requires { IsAllocated self.old }
        ensures grid { self.new ≡ columns_erased self.old self.old.col (min (self.old.col + count) self.old.width)
            attrs }
        ensures allocated { IsAllocated self.new }
    {
        let end = self.pos.col.saturating_add(count).min(self.size.cols());
        self.erase_columns(self.pos.col..end, attrs);
    }
}
