//! Lines that come in and go in the scroll region, with nothing kept.
ghost use Rattle.std.specs.Prelude.{◌≡◌, ℕ, ◌+◌, ◌-◌, ◌<◌, ◌≤◌, ◌==◌, min, true, false, if◌then◌else◌};

use crate::grid::Grid;

impl Grid {
    ghost use Rattle.vt100_core.specs.Grid.{GridView, IsAllocated, is_in_region};
    ghost use Rattle.vt100_core.specs.Lines.{lines_opened, lines_closed, lines_inserted, lines_deleted};
    ghost use Rattle.vt100_core.specs.Lines.{scrolled_down, fed_up};

    /// Inserts blank lines at the cursor's row, if it is in the scroll region (IL). Lines that this pushes out of the
    /// region are gone.
    pub fn insert_lines(&mut self, count: u16)
        requires { IsAllocated self.old }
        ensures grid { self.new ≡ lines_inserted self.old count }
        ensures allocated { IsAllocated self.new }
    {
        if count > 0 && self.in_scroll_region() {
            self.open_lines_at(self.pos.row, count);
        }
    }

    /// Removes lines at the cursor's row, if it is in the scroll region; blank ones follow at the region's end (DL).
    pub fn delete_lines(&mut self, count: u16)
        requires { IsAllocated self.old }
        ensures grid { self.new ≡ lines_deleted self.old count }
        ensures allocated { IsAllocated self.new }
    {
        if self.in_scroll_region() {
            self.close_lines_at(self.pos.row, count);
        }
    }

    /// Removes lines at a row of the scroll region, as many as there are down to its end, where blank ones follow.
    pub(crate) fn close_lines_at(&mut self, first: u16, count: u16)
        requires allocated { IsAllocated self.old }
        requires in_region { first ≤ self.old.bottom }
        ensures grid { self.new ≡ lines_closed self.old first count }
        ensures allocated { IsAllocated self.new }
    {
        let first = usize::from(first);
        let end = usize::from(self.scroll_bottom) + 1;
        let n = usize::from(count).min(end - first);
        self.rows.move_up(first, end, n);
    }

    /// Moves the lines of the scroll region down; blank ones come in at its top (SD).
    pub fn scroll_down(&mut self, count: u16)
        requires { IsAllocated self.old }
        ensures grid { self.new ≡ scrolled_down self.old count }
        ensures allocated { IsAllocated self.new }
    {
        if count > 0 {
            self.open_lines_at(self.scroll_top, count);
        }
    }

    /// Inserts blank lines at a row of the scroll region, as many as there are down to its end.
    fn open_lines_at(&mut self, first: u16, count: u16)
        requires allocated { IsAllocated self.old }
        requires in_region { first ≤ self.old.bottom }
        ensures grid { self.new ≡ lines_opened self.old first count }
        ensures allocated { IsAllocated self.new }
    {
        let first = usize::from(first);
        let end = usize::from(self.scroll_bottom) + 1;
        let n = usize::from(count).min(end - first);
        self.rows.open_lines(first, end, n);
    }

    /// Moves the cursor up. At the scroll region's top, and at the screen's, the region scrolls down instead (RI).
    pub fn row_dec_scroll(&mut self, count: u16)
        requires { IsAllocated self.old }
        ensures grid { self.new ≡ fed_up self.old count }
        ensures allocated { IsAllocated self.new }
    {
        let room = self.pos.row - self.first_row();
        self.row_dec_clamp(count);
        self.scroll_down(count.saturating_sub(room));
    }
}
