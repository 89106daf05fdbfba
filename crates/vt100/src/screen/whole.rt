//! Calls on a whole screen.
ghost use Rattle.std.specs.Prelude.{◌≡◌, min, length, OnErr, IfOk, IsOk, Err, true, false};
ghost use Rattle.vt100_core.specs.Grid.{IsShownWide, IsAllocated, allocated, new_grid};
ghost use Rattle.vt100_core.specs.declared.scrollback.Scrollback.TheVariants.{Enabled};
ghost use Rattle.screen_model.specs.Step.{kept_shown, kept_dropped, resized_to, sheets_resized, made_anew, quietly};
ghost use Rattle.vt100.specs.Tries.{Tries, TriesAlone, Resizes, TakesNone, SameBounds, Stops, alive, unless_failed};
ghost use Rattle.vt100.specs.declared.error.ScreenError.TheVariants.{Memory};

use crate::callbacks::Callbacks;
use crate::error::ScreenError;
use crate::screen::modes::Modes;
use crate::screen::reported::resize_both;
use crate::screen::{Screen, WrappedScreen, note_failure};
use std::num::NonZeroU16;
use vt100_cells::PackedAttrs;
use vt100_core::attrs::Attrs;
use vt100_core::{CursorStyle, Grid, Scrollback, Size};

impl Screen {
    /// Gives the screen another size, and reports the rows that leave it to no callbacks. A synchronized update of the
    /// program ends. The same size changes nothing else.
    ///
    /// Only a call that makes the screen wider or higher, or keeps one more row, can be refused. It then returns
    /// [`ScreenError::Memory`], the screen has failed, and the call has stopped at the sheet whose allocation failed.
    /// The size of that sheet is unspecified; the main sheet comes first. On a failed screen the call does nothing
    /// and returns [`ScreenError::Failed`].
    pub fn set_size(&mut self, rows: NonZeroU16, cols: NonZeroU16) -> Result<(), ScreenError>
        ensures tries { TriesAlone (λ s. (resized_to rows.value cols.value s).state) self.old result self.new }
        ensures stops { result ≡ Err Memory → Stops rows.value cols.value self.old.state self.new.state }
        ensures same { self.old.failed ≡ false → rows.value ≡ self.old.state.shown.height
            → cols.value ≡ self.old.state.shown.width → IsOk result }
        ensures smaller { self.old.failed ≡ false → TakesNone rows.value cols.value self.old.state → IsOk result }
    {
        self.resize(&mut (), Size { rows, cols })
    }

    /// Gives both sheets another size, reports the rows that leave them, and ends the program's update.
    fn resize<CB: Callbacks>(&mut self, callbacks: &mut CB, size: Size) -> Result<(), ScreenError>
        ensures resizes { Resizes CB.scrolls (resized_to size.rows.value size.cols.value) size.rows.value
            size.cols.value self.old callbacks.old result self.new callbacks.new }
        ensures smaller { self.old.failed ≡ false → TakesNone size.rows.value size.cols.value self.old.state
            → IsOk result }
    {
        self.resize_sheets(callbacks, size)?;
        self.synchronized_update = false;
        Ok(())
    }

    /// Gives both sheets another size, the main one first, and reports the rows that leave them.
    fn resize_sheets<CB: Callbacks>(
        &mut self,
        callbacks: &mut CB,
        size: Size,
    ) -> Result<(), ScreenError>
        ensures resizes { Resizes CB.scrolls (sheets_resized size.rows.value size.cols.value) size.rows.value
            size.cols.value self.old callbacks.old result self.new callbacks.new }
        ensures smaller { self.old.failed ≡ false → TakesNone size.rows.value size.cols.value self.old.state
            → IsOk result }
    {
        if self.failed {
            return Err(ScreenError::Failed);
        }
        if self.alternate_screen {
            let resized = resize_both(&mut self.other_grid, &mut self.grid, callbacks, size);
            return note_failure(&mut self.failed, resized);
        }
        let resized = resize_both(&mut self.grid, &mut self.other_grid, callbacks, size);
        note_failure(&mut self.failed, resized)
    }

    /// Shows the newest `rows` of the kept rows above the others, or all of them if there are fewer. What the screen
    /// then reports, and what [`cell`](Self::cell) and the texts show, is read there.
    ///
    /// If an allocation fails, the call returns [`ScreenError::Memory`], and the screen has failed, but keeps its
    /// size. Only a call that makes a kept row wider can be refused. On a failed screen the call does nothing and
    /// returns [`ScreenError::Failed`].
    pub fn set_scrollback(&mut self, rows: usize) -> Result<(), ScreenError>
        ensures tries { TriesAlone (kept_shown rows) self.old result self.new }
        ensures bounds { SameBounds self.old.state self.new.state }
        ensures hidden { self.old.failed ≡ false → rows ≡ 0 → IsOk result }
        ensures wide { self.old.failed ≡ false
            → IsShownWide (record (self.old.state.shown.kept) {
              offset =
                  min rows (length self.old.state.shown.kept.rows);
            }) self.old.state.shown.height
            self.old.state.shown.width → IsOk result }
    {
        if self.failed {
            return Err(ScreenError::Failed);
        }
        note_failure(&mut self.failed, self.grid.set_scrollback(rows))?;
        Ok(())
    }

    /// Removes the kept rows of the shown sheet, and reports them to no callbacks.
    pub fn clear_scrollback(&mut self)
        ensures { self.new ≡ unless_failed kept_dropped self.old }
    {
        if !self.failed {
            self.grid.erase_all_scrollback(&mut ());
        }
    }

    /// Resets everything to the initial state, at the size and the capacity of the main sheet, whose rows are reused.
    fn renew(&mut self)
        requires { self.old.failed ≡ false }
        ensures { self.new ≡ alive (made_anew self.old.state) }
    {
        self.exit_alternate_grid();
        renew_sheet(&mut self.grid);
        self.other_grid = Grid::new(self.alloc, self.grid.size(), Scrollback::Disabled);
        self.attrs = PackedAttrs::new();
        self.saved_attrs = Attrs::new();
        self.hide_cursor = false;
        self.modes = Modes::default();
        self.synchronized_update = false;
        self.cursor_style = CursorStyle::Default;
        self.last_char = None;
    }

    /// An equal screen, also of one that has failed.
    pub fn clone(&self) -> Result<Screen, ScreenError>
        ensures screen { IfOk result (λ screen. screen ≡ self.now) }
        ensures memory { OnErr result (result ≡ Err Memory) }
    {
        let grid = self.grid.clone()?;
        let other_grid = self.other_grid.clone()?;
        Ok(Screen {
            grid,
            other_grid,
            alternate_screen: self.alternate_screen,
            attrs: self.attrs,
            saved_attrs: self.saved_attrs,
            hide_cursor: self.hide_cursor,
            modes: self.modes,
            synchronized_update: self.synchronized_update,
            cursor_style: self.cursor_style,
            last_char: self.last_char,
            alloc: self.alloc,
            failed: self.failed,
        })
    }
}

/// Resets a sheet that keeps rows to its initial state. Its rows are reused.
fn renew_sheet(grid: &mut Grid)
    requires drawn { IsAllocated grid.old }
    requires keeps { grid.old.kept.keeps ≡ true }
    ensures sheet { grid.new ≡ allocated (new_grid grid.old.height grid.old.width (Enabled grid.old.kept.capacity)) }
    ensures drawn { IsAllocated grid.new }
{
    prove!(grid.is_allocated());
    grid.clear();
    grid.erase_all_scrollback(&mut ());
}

impl<CB: Callbacks> WrappedScreen<CB> {
    /// Resets everything to the initial state, at this size and capacity (RIS). No row is reported to the callbacks.
    ///
    /// No memory is allocated: the main sheet's rows are reused. On a failed screen the call does nothing and returns
    /// [`ScreenError::Failed`].
    // Never inlined, so that the frequent escape sequences need no stack.
    #[inline(never)]
    pub fn ris(&mut self) -> Result<(), ScreenError>
        ensures tries { Tries CB.scrolls (λ s. quietly (made_anew s)) self.old.screen self.old.callbacks result
            self.new.screen self.new.callbacks }
        ensures live { self.old.screen.failed ≡ false → IsOk result }
        ensures bounds { OnErr result (SameBounds self.old.screen.state self.new.screen.state) }
    {
        if self.screen.failed {
            return Err(ScreenError::Failed);
        }
        self.screen.renew();
        Ok(())
    }

    /// Gives the screen another size, and reports the rows that leave it: those of the main sheet first. A
    /// synchronized update of the program ends. The same size changes nothing else.
    ///
    /// Only a call that makes the screen wider or higher, or keeps one more row, can be refused. It has then stopped
    /// at the sheet whose allocation failed, and the size of that sheet is unspecified.
    pub fn set_size_with_cb(
        &mut self,
        rows: NonZeroU16,
        cols: NonZeroU16,
    ) -> Result<(), ScreenError>
        ensures resizes { Resizes CB.scrolls (resized_to rows.value cols.value) rows.value cols.value self.old.screen
            self.old.callbacks result self.new.screen self.new.callbacks }
        ensures smaller { self.old.screen.failed ≡ false → TakesNone rows.value cols.value self.old.screen.state
            → IsOk result }
    {
        self.screen.resize(&mut self.callbacks, Size { rows, cols })
    }
}
