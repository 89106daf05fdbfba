//! The rows that left the screen at its top.
ghost use Rattle.std.specs.Prelude.{◌≡◌, ◌-◌, ◌<◌, ◌≤◌, ◌==◌, length, min, take, IsOk, OnOk, OnErr, true};
ghost use Rattle.vt100_rows.specs.Row.{blank_row};
ghost use Rattle.vt100_rows.specs.Sheet.{rows_by_position, IsSheet, changed_between};
ghost use Rattle.vt100_rows.specs.Sink.{TakesAll};

use std::collections::VecDeque;
use vt100_forms::GridError;
use vt100_rows::kept_rows::{drop_oldest, keep_rows, widen};
use vt100_rows::{Row, RowSink, Sheet};

/// Whether a grid keeps rows that scroll off at its top, and how many at most.
#[derive(Clone, Copy, Debug)]
pub enum Scrollback {
    /// No row is kept.
    Disabled,
    /// The newest rows are kept, at most `capacity` of them.
    Enabled { capacity: usize },
}

/// The rows that a grid keeps, the oldest first.
#[derive(Debug, Drop)]
pub(crate) struct ScrollbackState {
    pub(crate) enabled: bool,
    pub(crate) rows: VecDeque<Row>,
    pub(crate) capacity: usize,
    pub(crate) offset: usize,

    /// How many rows would be kept if the capacity were unlimited.
    pub(crate) unbounded_len: usize,
}

impl ScrollbackState {
    ghost use Rattle.vt100_core.specs.Grid.{IsKept, IsShownWide, SameKeeping};
    ghost use Rattle.vt100_core.specs.KeptFields.{kept_of};
    ghost use Rattle.vt100_core.specs.Scroll.{kept_after, pushed_out, widened};
    ghost use Rattle.vt100_rows.specs.Sheet.{moved_up};

    /// Takes the first `n` rows in, and leaves blank rows in place of those that it keeps. What this pushes out goes to
    /// the sink. None of the kept rows is shown then.
    #[inline(always)]
    pub(crate) fn push_off<S: RowSink>(
        &mut self,
        rows: &mut Sheet,
        n: usize,
        width: u16,
        sink: &mut S,
    ) -> Result<(), GridError>
        requires enabled { self.old.enabled ≡ true }
        requires valid { IsKept (kept_of self.old) }
        requires in_rows { n ≤ length rows.old }
        requires sheet { IsSheet (length rows.old) width rows.old }
        ensures kept { OnOk result (kept_of self.new
            ≡ record (kept_after (kept_of self.old) (take n rows.old)) { offset = 0 }) }
        ensures rows { OnOk result (rows.new ≡ rows_by_position (length rows.old)
            (changed_between (λ v. blank_row width) rows.old (n - min n self.old.capacity) n)) }

        // Also where memory ran out, which it does only where rows are kept.
        ensures sink { TakesAll S.takes sink.old (pushed_out (kept_of self.old) (take n rows.old)) sink.new }
        ensures valid { IsKept (kept_of self.new) }
        ensures hidden { self.new.offset ≡ 0 }
        ensures size { length rows.new ≡ length rows.old }
        ensures sheet { IsSheet (length rows.old) width rows.new }
        ensures same { SameKeeping (kept_of self.old) (kept_of self.new) }
        ensures none { self.old.capacity ≡ 0 → IsOk result }
    {
        self.offset = 0;
        self.unbounded_len = self.unbounded_len.saturating_add(n);
        let fits = n.min(self.capacity);
        let room = self.capacity - self.rows.len();
        drop_oldest(&mut self.rows, fits.saturating_sub(room), sink);
        rows.give_first(n - fits, sink);
        keep_rows(&mut self.rows, rows, n - fits, n, width)?;
        Ok(())
    }

    /// Shows the newest `offset` of the kept rows, and makes those that a screen of this height shows as wide as it.
    #[inline(always)]
    pub(crate) fn show(&mut self, offset: usize, height: u16, width: u16) -> Result<(), GridError>
        requires valid { IsKept (kept_of self.old) }
        requires some { offset ≤ length self.old.rows.items }
        ensures kept { OnOk result (kept_of self.new
            ≡ widened (record (kept_of self.old) { offset = offset }) height width) }

        // Also where memory ran out, which it does only where a row that is to be shown is narrower: then none is
        // shown.
        ensures valid { IsKept (kept_of self.new) }
        ensures hidden { OnErr result (self.new.offset ≡ 0) }
        ensures same { SameKeeping (kept_of self.old) (kept_of self.new) }
        ensures wide { IsShownWide (record (kept_of self.old) { offset = offset }) height width → IsOk result }
    {
        self.offset = 0;
        let first = self.rows.len() - offset;
        let end = self
            .rows
            .len()
            .min(first.saturating_add(usize::from(height)));
        widen(&mut self.rows, first, end, width)?;
        self.offset = offset;
        Ok(())
    }

    /// Moves the rows up to `end` up by `n`. The first `n` of them are kept, and what is shown stays.
    #[inline(always)]
    pub(crate) fn scroll_off<S: RowSink>(
        &mut self,
        rows: &mut Sheet,
        end: usize,
        n: usize,
        height: u16,
        width: u16,
        sink: &mut S,
    ) -> Result<(), GridError>
        requires enabled { self.old.enabled ≡ true }
        requires valid { IsKept (kept_of self.old) }
        requires some { 0 < end }
        requires in_part { n ≤ end }
        requires in_rows { end ≤ length rows.old }
        requires sheet { IsSheet (length rows.old) width rows.old }
        ensures kept { OnOk result (kept_of self.new
            ≡ widened (kept_after (kept_of self.old) (take n rows.old)) height width) }
        ensures rows { OnOk result (rows.new ≡ rows_by_position (length rows.old) (moved_up rows.old 0 end n width)) }

        // Also where memory ran out, which it does only where rows are kept: then no kept row is shown.
        ensures sink { TakesAll S.takes sink.old (pushed_out (kept_of self.old) (take n rows.old)) sink.new }
        ensures valid { IsKept (kept_of self.new) }
        ensures hidden { OnErr result (self.new.offset ≡ 0) }
        ensures size { length rows.new ≡ length rows.old }
        ensures sheet { IsSheet (length rows.old) width rows.new }
        ensures same { SameKeeping (kept_of self.old) (kept_of self.new) }
        ensures none { self.old.capacity ≡ 0 → IsOk result }
    {
        if self.capacity == 0 {
            self.unbounded_len = self.unbounded_len.saturating_add(n);
            rows.give_first(n, sink);
            rows.move_up(0, end, n);
            return Ok(());
        }
        let shown = self.offset;
        self.push_off(rows, n, width, sink)?;
        rows.move_up(0, end, n);
        let offset = if shown == 0 {
            0
        } else {
            shown.saturating_add(n).min(self.rows.len())
        };
        self.show(offset, height, width)?;
        Ok(())
    }
}
