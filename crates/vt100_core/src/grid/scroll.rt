//! Scrolling up, and the rows that leave the screen.
ghost use Rattle.std.specs.Prelude.{◌≡◌, ℕ, ◌+◌, ◌-◌, ◌<◌, ◌≤◌, ◌==◌, length, min, true, false, ◌&&◌, IsOk, OnOk, IfOk};
ghost use Rattle.std.specs.Prelude.{if◌then◌else◌};
ghost use Rattle.vt100_rows.specs.Sink.{TakesAll};

use crate::grid::Grid;
use vt100_forms::GridError;
use vt100_rows::RowSink;
use vt100_rows::kept_rows::drop_oldest;

impl Grid {
    ghost use Rattle.vt100_core.specs.Grid.{GridView, IsAllocated, IsShownWide, SameLimits, is_in_region, with_row};
    ghost use Rattle.vt100_rows.specs.Sheet.{row_at};
    ghost use Rattle.vt100_rows.specs.Row.{with_wrap};
    ghost use Rattle.vt100_core.specs.Scroll.{ScrollsTo, ScrollsNoneOff, scrolled_up, fed, rows_past_bottom};
    ghost use Rattle.vt100_core.specs.Scroll.{made_to_fit, scrollback_erased, scrollback_shown};

    /// Moves the lines of the scroll region up; blank ones come in at its bottom (SU). Where the region begins at the
    /// screen's first row, the rows that leave it are kept, as many as the capacity allows. The sink is given those
    /// that leave for good: the oldest kept ones, and those that are never kept.
    ///
    /// Only a call that keeps a row can be refused: none on a grid that keeps no rows, and none by which no row
    /// leaves the screen at its top. After a refusal the sink has been given these rows, the grid is still valid, and
    /// what it shows is unspecified.
    #[tactic(auto, unfolding(crate::specs::Scroll::scrolled_up))]
    pub fn scroll_up<S: RowSink>(&mut self, count: u16, sink: &mut S) -> Result<(), GridError>
        requires { IsAllocated self.old }
        ensures { ScrollsTo S.takes sink.old sink.new self.old self.new result (scrolled_up self.old count) }
    {
        let first = self.scroll_top;
        let end = usize::from(self.scroll_bottom) + 1;
        let n = usize::from(count).min(end - usize::from(first));
        if n == 0 {
            return Ok(());
        }
        if first > 0 {
            self.close_lines_at(first, count);
        } else if self.scrollback.enabled {
            self.scrollback.scroll_off(
                &mut self.rows,
                end,
                n,
                self.size.rows(),
                self.size.cols(),
                sink,
            )?;
        } else {
            self.rows.give_first(n, sink);
            self.close_lines_at(first, count);
        }
        Ok(())
    }

    /// Gives the kept rows to the sink, the oldest first, and keeps none of them (ED 3).
    pub fn erase_all_scrollback<S: RowSink>(&mut self, sink: &mut S)
        requires { IsAllocated self.old }
        ensures grid { self.new ≡ scrollback_erased self.old }
        ensures sink { TakesAll S.takes sink.old self.old.kept.rows sink.new }
        ensures allocated { IsAllocated self.new }
    {
        let n = self.scrollback.rows.len();
        drop_oldest(&mut self.scrollback.rows, n, sink);
        self.scrollback.unbounded_len = 0;
        self.scrollback.offset = 0;
    }

    /// Shows the newest `rows` of the kept rows above the others, or all of them if there are fewer. Those that the
    /// screen shows are made at least as wide as it.
    ///
    /// Only a call that makes a row wider can be refused. After a refusal the grid is still valid, and what it shows
    /// is unspecified.
    pub fn set_scrollback(&mut self, rows: usize) -> Result<(), GridError>
        requires { IsAllocated self.old }
        ensures grid { OnOk result (self.new ≡ scrollback_shown self.old rows) }
        ensures limits { SameLimits self.old self.new }
        ensures hidden { rows ≡ 0 → IsOk result }
        ensures wide { IsShownWide (record (self.old.kept) { offset = min rows (length self.old.kept.rows) })
            self.old.height self.old.width
            → IsOk result }
        ensures allocated { IsAllocated self.new }
    {
        let offset = rows.min(self.scrollback.rows.len());
        self.scrollback
            .show(offset, self.size.rows(), self.size.cols())?;
        Ok(())
    }

    /// Moves the cursor down. In the scroll region it stops at the region's last row, and the region scrolls up by the
    /// rows that are left (IND). The call returns their number. It is refused as [`scroll_up`](Self::scroll_up) is.
    #[tactic(auto, unfolding(crate::specs::Scroll::fed))]
    pub fn row_inc_scroll<S: RowSink>(&mut self, count: u16, sink: &mut S) -> Result<u16, GridError>
        requires { IsAllocated self.old }
        ensures grid { OnOk result (self.new ≡ (fed self.old count).grid) }
        ensures sink { TakesAll S.takes sink.old (fed self.old count).sunk sink.new }
        ensures lines { IfOk result (λ n. n ≡ rows_past_bottom self.old count) }
        ensures limits { SameLimits self.old self.new }
        ensures keeps_none { self.old.kept.capacity ≡ 0 → IsOk result }
        ensures stays { ScrollsNoneOff self.old (fed self.old count).grid → IsOk result }
        ensures allocated { IsAllocated self.new }
    {
        if !self.in_scroll_region() {
            self.row_inc_clamp(count);
            return Ok(0);
        }
        let lines = self
            .pos
            .row
            .saturating_add(count)
            .saturating_sub(self.scroll_bottom);
        self.row_inc_clamp(count);
        if lines == 0 {
            return Ok(0);
        }
        self.scroll_up(lines, sink)?;
        Ok(lines)
    }

    /// Moves the cursor to the start of the next row if fewer than `width` columns are left, and scrolls as
    /// [`row_inc_scroll`](Self::row_inc_scroll) does. The row that it left is marked as wrapped if `wrap` is set, it
    /// shows something in its last column, and it is now directly above the cursor; else it isn't wrapped any more.
    ///
    /// Only a call that scrolls can be refused. [`scroll_up`](Self::scroll_up) says when, and what holds then.
    #[tactic(auto, unfolding(crate::specs::Scroll::wrapped_on))]
    pub fn col_wrap<S: RowSink>(
        &mut self,
        width: u16,
        wrap: bool,
        sink: &mut S,
    ) -> Result<(), GridError>
        requires allocated { IsAllocated self.old }
        requires fits { width ≤ self.old.width }
        ensures { ScrollsTo S.takes sink.old sink.new self.old self.new result (made_to_fit self.old width wrap) }
    {
        if self.pos.col <= self.size.cols() - width {
            return Ok(());
        }
        let row = self.pos.row;
        let scrolls = row == self.scroll_bottom;
        self.pos.col = 0;
        self.row_inc_scroll(1, sink)?;
        if scrolls {
            // On a screen of one row the row that the cursor left is gone.
            if row > 0 {
                self.wrap_row(row - 1, wrap);
            }
            return Ok(());
        }
        self.wrap_row(row, wrap);
        Ok(())
    }

    /// Sets whether a row is wrapped: it is if `wrap` is set, it shows something in its last column and it is
    /// directly above the cursor.
    fn wrap_row(&mut self, row: u16, wrap: bool)
        requires { row < length self.old.rows }
        ensures grid { self.new ≡ with_row self.old row
            (with_wrap (row_at self.old.rows row) (wrap && ((row + 1) == self.old.row))) }
        ensures allocated { IsAllocated self.new }
    {
        let wraps = wrap && row + 1 == self.pos.row;
        self.rows[usize::from(row)].wrap(wraps);
    }
}
