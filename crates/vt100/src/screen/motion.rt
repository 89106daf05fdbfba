//! Control sequences that move the cursor.
ghost use Rattle.std.specs.Prelude.{◌-◌, true, false};
ghost use Rattle.vt100.specs.Tries.{Changes};
ghost use Rattle.screen_model.specs.Step.{cursor_up, cursor_down, moved_left, moved_right, line_below, line_above};
ghost use Rattle.screen_model.specs.Step.{at_column, at_row, at_place, in_region};

use crate::callbacks::Callbacks;
use crate::screen::WrappedScreen;
use vt100_core::Pos;

impl<CB: Callbacks> WrappedScreen<CB> {
    /// Moves the cursor up, within the scroll region if it is there (CUU).
    pub fn cuu(&mut self, offset: u16)
        ensures { Changes (cursor_up offset) self.old self.new }
    {
        if !self.screen.failed {
            self.screen.grid.row_dec_clamp(offset);
        }
    }

    /// Moves the cursor down, within the scroll region if it is there (CUD).
    pub fn cud(&mut self, offset: u16)
        ensures { Changes (cursor_down offset) self.old self.new }
    {
        if !self.screen.failed {
            self.screen.grid.row_inc_clamp(offset);
        }
    }

    /// Moves the cursor to the right, at most to the last column (CUF).
    pub fn cuf(&mut self, offset: u16)
        ensures { Changes (moved_right offset) self.old self.new }
    {
        if !self.screen.failed {
            self.screen.grid.col_inc_clamp(offset);
        }
    }

    /// Moves the cursor to the left (CUB).
    pub fn cub(&mut self, offset: u16)
        ensures { Changes (moved_left offset) self.old self.new }
    {
        if !self.screen.failed {
            self.screen.grid.col_dec(offset);
        }
    }

    /// Moves the cursor down and to the first column (CNL).
    pub fn cnl(&mut self, offset: u16)
        ensures { Changes (line_below offset) self.old self.new }
    {
        if !self.screen.failed {
            self.screen.grid.col_set(0);
            self.screen.grid.row_inc_clamp(offset);
        }
    }

    /// Moves the cursor up and to the first column (CPL).
    pub fn cpl(&mut self, offset: u16)
        ensures { Changes (line_above offset) self.old self.new }
    {
        if !self.screen.failed {
            self.screen.grid.col_set(0);
            self.screen.grid.row_dec_clamp(offset);
        }
    }

    /// Moves the cursor to a column, or to the last one (CHA). Columns are counted from 1, and 0 counts as 1.
    pub fn cha(&mut self, col: u16)
        ensures { Changes (at_column (col - 1)) self.old self.new }
    {
        if !self.screen.failed {
            self.screen.grid.col_set(col.saturating_sub(1));
        }
    }

    /// Moves the cursor to a column, or to the last one, as [`cha`](Self::cha) does (HPA).
    pub(crate) fn hpa(&mut self, col: u16)
        ensures { Changes (at_column (col - 1)) self.old self.new }
    {
        self.cha(col);
    }

    /// Moves the cursor to a row, or to the last one (VPA). Rows are counted from 1, and 0 counts as 1.
    pub fn vpa(&mut self, row: u16)
        ensures { Changes (at_row (row - 1)) self.old self.new }
    {
        if !self.screen.failed {
            self.screen.grid.row_set(row.saturating_sub(1));
        }
    }

    /// Moves the cursor to a row and a column, counted from 1, where 0 counts as 1 (CUP). In origin mode rows are
    /// counted from the scroll region's top, and the cursor stays in the region.
    pub fn cup(&mut self, pos: (u16, u16))
        ensures { Changes (at_place (pos.0 - 1) (pos.1 - 1)) self.old self.new }
    {
        if !self.screen.failed {
            let (row, col) = pos;
            self.screen.grid.set_pos(Pos {
                row: row.saturating_sub(1),
                col: col.saturating_sub(1),
            });
        }
    }

    /// Sets the scroll region, which is the whole screen unless it has two rows or more, and moves the cursor to its
    /// first cell (DECSTBM). Rows are counted from 1, and 0 counts as 1.
    pub fn decstbm(&mut self, rows: (u16, u16))
        ensures { Changes (in_region (rows.0 - 1) (rows.1 - 1)) self.old self.new }
    {
        if !self.screen.failed {
            let (top, bottom) = rows;
            self.screen
                .grid
                .set_scroll_region(top.saturating_sub(1), bottom.saturating_sub(1));
        }
    }
}
