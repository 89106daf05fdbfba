//! A higher screen.
ghost use Rattle.std.specs.Prelude.{◌≡◌, ℕ, ◌+◌, ◌-◌, ◌<◌, ◌≤◌, IsOk, OnOk, OnErr};

use crate::grid::Grid;
use std::num::NonZeroU16;
use vt100_forms::GridError;

impl Grid {
    ghost use Rattle.vt100_core.specs.Grid.{GridView, SameKeeping};
    ghost use Rattle.vt100_core.specs.Resize.{lengthened};

    /// Brings back rows at the top and adds blank ones at the bottom, until there are `rows`. As many come back as
    /// scrolled off, but at most as many as are added, and blank ones in place of those that weren't kept. The
    /// cursors go with their rows.
    pub(crate) fn lengthen(&mut self, rows: NonZeroU16) -> Result<(), GridError>
        requires higher { self.old.height ≤ rows.value }
        requires whole { self.old.top ≡ 0 }
        requires hidden { self.old.kept.offset ≡ 0 }
        ensures grid { OnOk result (self.new ≡ lengthened self.old rows.value) }
        ensures rows { OnErr result (self.new.rows ≡ self.old.rows) }
        ensures height { OnErr result (self.new.height ≡ self.old.height) }
        ensures width { self.new.width ≡ self.old.width }
        ensures keeping { SameKeeping self.old.kept self.new.kept }
        ensures same { rows.value ≡ self.old.height → IsOk result }
    {
        let added = usize::from(rows.get() - self.size.rows());
        let down = self.scrollback.unbounded_len.min(added);
        if !self.rows.is_empty() {
            self.rows.bring_back(
                &mut self.scrollback.rows,
                down,
                added - down,
                self.size.cols(),
            )?;
        }
        self.scrollback.unbounded_len -= down;
        let lines = down as u16;
        self.pos.row += lines;
        self.saved_pos.row += lines;
        self.scroll_bottom = rows.get() - 1;
        self.size.rows = rows;
        Ok(())
    }
}
