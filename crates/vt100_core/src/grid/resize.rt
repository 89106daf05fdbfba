//! Another size of the screen.
ghost use Rattle.std.specs.Prelude.{◌≡◌, ℕ, ◌+◌, ◌-◌, ◌<◌, ◌≤◌, ◌==◌, length, IsOk, OnOk, OnErr, ◌⊎◌};
ghost use Rattle.vt100_rows.specs.Sink.{TakesAll};

use crate::grid::Grid;
use std::num::NonZeroU16;
use vt100_forms::GridError;
use vt100_rows::{RowSink, Size};

impl Grid {
    ghost use Rattle.vt100_core.specs.Grid.{GridView, IsGrid, IsAllocated, SameKeeping};
    ghost use Rattle.vt100_core.specs.Resize.{KeepsNoMore, whole_screen, shortened, with_width, resized};

    /// Gives the screen another size. The scroll region becomes the whole screen, and no kept row is shown.
    ///
    /// Of a lower screen the rows below the cursor go first, and the sink isn't given them; then rows scroll off at its
    /// top, as [`scroll_up`](Self::scroll_up) says. On a higher one as many rows come back at the top as have scrolled
    /// off, at most those that are added, and blank where they weren't kept; blank ones follow at the bottom. The
    /// cursors go with their rows, and stay on the screen. A row of another width isn't wrapped any more. The same
    /// size changes nothing.
    ///
    /// Only a call that makes the screen wider or higher, or keeps one more row, can be refused. After a refusal the
    /// grid is still valid, its capacity is the same, and the sink has been given the rows that leave for good. Its
    /// height and its width are each the old or the new one, and what it shows is unspecified.
    #[tactic(auto, unfolding(crate::specs::Resize::resized, crate::specs::Scroll::scrolled_up))]
    pub fn set_size<S: RowSink>(&mut self, size: Size, sink: &mut S) -> Result<(), GridError>
        ensures grid { OnOk result (self.new ≡ (resized self.old size.rows.value size.cols.value).grid) }
        ensures sink { TakesAll S.takes sink.old (resized self.old size.rows.value size.cols.value).sunk sink.new }
        ensures height { OnErr result ((self.new.height ≡ self.old.height) ⊎ (self.new.height ≡ size.rows.value)) }
        ensures width { OnErr result ((self.new.width ≡ self.old.width) ⊎ (self.new.width ≡ size.cols.value)) }
        ensures keeping { SameKeeping self.old.kept self.new.kept }
        ensures same { size.rows.value ≡ self.old.height → size.cols.value ≡ self.old.width → IsOk result }
        ensures smaller { size.rows.value ≤ self.old.height → size.cols.value ≤ self.old.width
            → KeepsNoMore self.old size.rows.value → IsOk result }
        ensures valid { IsGrid self.old }
        ensures allocated { IsAllocated self.old → IsAllocated self.new }
    {
        if size == self.size {
            return Ok(());
        }
        self.show_whole_screen();
        if size.rows < self.size.rows {
            let under = self.size.rows() - 1 - self.pos.row;
            let up = (self.size.rows() - size.rows()).saturating_sub(under);
            if up > 0 {
                self.scroll_up(up, sink)?;
            }
            self.shorten(up, size.rows);
            self.set_width(size.cols)?;
        } else {
            self.set_width(size.cols)?;
            self.lengthen(size.rows)?;
        }
        Ok(())
    }

    /// Makes the scroll region the whole screen, and shows no kept row.
    fn show_whole_screen(&mut self)
        ensures { self.new ≡ whole_screen self.old }
    {
        self.scroll_top = 0;
        self.scroll_bottom = self.size.rows() - 1;
        self.scrollback.offset = 0;
    }

    /// Keeps the first rows alone, after `up` others have scrolled off.
    fn shorten(&mut self, up: u16, rows: NonZeroU16)
        requires lower { rows.value < self.old.height }
        requires above { self.old.row - up < rows.value }
        requires whole { self.old.top ≡ 0 }
        requires hidden { self.old.kept.offset ≡ 0 }
        ensures { self.new ≡ shortened self.old up rows.value }
    {
        self.rows.keep_first(rows.get());
        let last_row = rows.get() - 1;
        self.pos.row = self.pos.row.saturating_sub(up);
        self.saved_pos.row = self.saved_pos.row.saturating_sub(up).min(last_row);
        self.scroll_bottom = last_row;
        self.size.rows = rows;
    }

    /// Gives every row `cols` columns. If there isn't memory for that, they have as many as before.
    fn set_width(&mut self, cols: NonZeroU16) -> Result<(), GridError>
        requires hidden { self.old.kept.offset ≡ 0 }
        ensures grid { OnOk result (self.new ≡ with_width self.old cols.value) }
        ensures count { length self.new.rows ≡ length self.old.rows }
        ensures height { self.new.height ≡ self.old.height }
        ensures width { OnErr result (self.new.width ≡ self.old.width) }
        ensures kept { self.new.kept ≡ self.old.kept }
        ensures narrower { cols.value ≤ self.old.width → IsOk result }
    {
        self.rows.resize(self.size.cols(), cols.get())?;
        let last_col = cols.get() - 1;
        self.pos.col = self.pos.col.min(last_col);
        self.saved_pos.col = self.saved_pos.col.min(last_col);
        self.size.cols = cols;
        Ok(())
    }
}
