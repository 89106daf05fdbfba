//! The cursor, the scroll region and origin mode.
ghost use Rattle.std.specs.Prelude.{◌≡◌, ℕ, ◌+◌, ◌-◌, ◌<◌, ◌≤◌, ◌==◌, min, true, false, if◌then◌else◌};

use crate::grid::Grid;
use vt100_forms::Pos;

impl Grid {
    ghost use Rattle.vt100_core.specs.Grid.{GridView, IsAllocated, is_in_region};
    ghost use Rattle.vt100_core.specs.Cursor.{cursor_at, with_origin, cursor_saved, cursor_restored, with_region};
    ghost use Rattle.vt100_core.specs.Cursor.{moved_rows_down, moved_rows_up, tab_stop};

    /// The cursor. Its column equals the number of columns if the next character wraps first.
    pub fn pos(&self) -> Pos
        ensures { result ≡ record { row = self.now.row; col = self.now.col } }
    {
        self.pos
    }

    /// Moves the cursor to a place, which in origin mode is counted from the scroll region's top and kept in the region
    /// (CUP).
    pub fn set_pos(&mut self, pos: Pos)
        requires { IsAllocated self.old }
        ensures grid { self.new ≡ cursor_at self.old pos.row pos.col }
        ensures allocated { IsAllocated self.new }
    {
        let row = if self.origin_mode {
            pos.row
                .saturating_add(self.scroll_top)
                .min(self.scroll_bottom)
        } else {
            pos.row.min(self.size.rows() - 1)
        };
        let col = pos.col.min(self.size.cols() - 1);
        self.pos = Pos { row, col };
    }

    /// Saves the cursor and origin mode (DECSC).
    pub fn save_cursor(&mut self)
        requires { IsAllocated self.old }
        ensures grid { self.new ≡ cursor_saved self.old }
        ensures allocated { IsAllocated self.new }
    {
        self.saved_pos = self.pos;
        self.saved_origin_mode = self.origin_mode;
    }

    /// Restores the cursor and origin mode that were saved last (DECRC).
    pub fn restore_cursor(&mut self)
        requires { IsAllocated self.old }
        ensures grid { self.new ≡ cursor_restored self.old }
        ensures allocated { IsAllocated self.new }
    {
        self.pos = self.saved_pos;
        self.origin_mode = self.saved_origin_mode;
    }

    /// Sets the scroll region, which is the whole screen unless it has two rows or more, and moves the cursor to its
    /// first cell (DECSTBM). Rows are counted from 0.
    pub fn set_scroll_region(&mut self, top: u16, bottom: u16)
        requires { IsAllocated self.old }
        ensures grid { self.new ≡ with_region self.old top bottom }
        ensures allocated { IsAllocated self.new }
    {
        let last_row = self.size.rows() - 1;
        let bottom = bottom.min(last_row);
        if top < bottom {
            self.scroll_top = top;
            self.scroll_bottom = bottom;
            self.pos = Pos { row: top, col: 0 };
        } else {
            self.scroll_top = 0;
            self.scroll_bottom = last_row;
            self.pos = Pos { row: 0, col: 0 };
        }
    }

    pub(crate) fn in_scroll_region(&self) -> bool
        ensures { result ≡ is_in_region self.now }
    {
        self.pos.row >= self.scroll_top && self.pos.row <= self.scroll_bottom
    }

    /// Sets whether places are counted from the scroll region's top, and moves the cursor to the first one (DECOM).
    pub fn set_origin_mode(&mut self, mode: bool)
        requires { IsAllocated self.old }
        ensures grid { self.new ≡ with_origin self.old mode }
        ensures allocated { IsAllocated self.new }
    {
        self.origin_mode = mode;
        self.set_pos(Pos { row: 0, col: 0 });
    }

    /// Moves the cursor down, within the scroll region if it is there (CUD).
    pub fn row_inc_clamp(&mut self, count: u16)
        requires { IsAllocated self.old }
        ensures grid { self.new ≡ moved_rows_down self.old count }
        ensures allocated { IsAllocated self.new }
    {
        let last_row = if self.in_scroll_region() {
            self.scroll_bottom
        } else {
            self.size.rows() - 1
        };
        self.pos.row = self.pos.row.saturating_add(count).min(last_row);
    }

    /// Moves the cursor up, within the scroll region if it is there (CUU).
    pub fn row_dec_clamp(&mut self, count: u16)
        requires { IsAllocated self.old }
        ensures grid { self.new ≡ moved_rows_up self.old count }
        ensures allocated { IsAllocated self.new }
    {
        self.pos.row = self.pos.row.saturating_sub(count).max(self.first_row());
    }

    /// The row above which the cursor doesn't move: the scroll region's first if it is there, else the screen's.
    pub(crate) fn first_row(&self) -> u16
        ensures { result ≡ (if is_in_region self.now then self.now.top else 0) }
    {
        if self.in_scroll_region() {
            self.scroll_top
        } else {
            0
        }
    }

    /// Moves the cursor to a row, or to the last one (VPA).
    pub fn row_set(&mut self, i: u16)
        requires { IsAllocated self.old }
        ensures grid { self.new ≡ record self.old { row = min i (self.old.height - 1) } }
        ensures allocated { IsAllocated self.new }
    {
        self.pos.row = i.min(self.size.rows() - 1);
    }

    /// Moves the cursor to the right, at most past the last column.
    pub fn col_inc(&mut self, count: u16)
        requires allocated { IsAllocated self.old }
        requires fits { self.old.col + count ≤ self.old.width }
        ensures grid { self.new ≡ record self.old { col = self.old.col + count } }
        ensures allocated { IsAllocated self.new }
    {
        self.pos.col += count;
    }

    /// Moves the cursor to the right, at most to the last column (CUF).
    pub fn col_inc_clamp(&mut self, count: u16)
        requires { IsAllocated self.old }
        ensures grid { self.new ≡ record self.old { col = min (self.old.col + count) (self.old.width - 1) } }
        ensures allocated { IsAllocated self.new }
    {
        self.pos.col = self.pos.col.saturating_add(count).min(self.size.cols() - 1);
    }

    /// Moves the cursor to the left (CUB).
    pub fn col_dec(&mut self, count: u16)
        requires { IsAllocated self.old }
        ensures grid { self.new ≡ record self.old { col = self.old.col - count } }
        ensures allocated { IsAllocated self.new }
    {
        self.pos.col = self.pos.col.saturating_sub(count);
    }

    /// Moves the cursor to the next tab stop, one every eight columns, or to the last column (HT).
    pub fn col_tab(&mut self)
        requires { IsAllocated self.old }
        ensures grid { self.new ≡ record self.old { col = tab_stop self.old } }
        ensures allocated { IsAllocated self.new }
    {
        let stop = (self.pos.col / 8 * 8).saturating_add(8);
        self.pos.col = stop.min(self.size.cols() - 1);
    }

    /// Moves the cursor to a column, or to the last one (CHA).
    pub fn col_set(&mut self, i: u16)
        requires { IsAllocated self.old }
        ensures grid { self.new ≡ record self.old { col = min i (self.old.width - 1) } }
        ensures allocated { IsAllocated self.new }
    {
        self.pos.col = i.min(self.size.cols() - 1);
    }
}
