//! Control sequences by which cells and lines come in, go or are emptied.
ghost use Rattle.std.specs.Prelude.{true, false};
ghost use Rattle.vt100.specs.Tries.{Changes, Counts};
ghost use Rattle.screen_model.specs.Step.{cells_added, cells_taken, cells_erased, lines_added, lines_taken};
ghost use Rattle.screen_model.specs.Step.{region_down};
ghost use Rattle.screen_model.specs.Effect.{display_erased, line_erased};

use crate::callbacks::Callbacks;
use crate::screen::WrappedScreen;
use crate::screen::reported::{Reporter, erase_kept};

impl<CB: Callbacks> WrappedScreen<CB> {
    /// Inserts default cells at the cursor; what falls off the row's end is gone (ICH).
    #[tactic(auto, using(crate::proofs::ProperScreens::drawn_rules))]
    pub fn ich(&mut self, count: u16)
        ensures { Changes (cells_added count) self.old self.new }
    {
        if !self.screen.failed {
            self.screen.grid.insert_cells(count);
        }
    }

    /// Removes cells at the cursor; default ones follow at the row's end (DCH).
    #[tactic(auto, using(crate::proofs::ProperScreens::drawn_rules))]
    pub fn dch(&mut self, count: u16)
        ensures { Changes (cells_taken count) self.old self.new }
    {
        if !self.screen.failed {
            self.screen.grid.delete_cells(count);
        }
    }

    /// Empties cells from the cursor on, with the drawing attributes (ECH).
    #[tactic(auto, using(crate::proofs::ProperScreens::drawn_rules))]
    pub fn ech(&mut self, count: u16)
        ensures { Changes (cells_erased count) self.old self.new }
    {
        if !self.screen.failed {
            let attrs = self.screen.attrs.attrs();
            self.screen.grid.erase_cells(count, attrs);
        }
    }

    /// Inserts blank lines at the cursor's row, if it is in the scroll region (IL).
    #[tactic(auto, using(crate::proofs::ProperScreens::drawn_rules))]
    pub fn il(&mut self, count: u16)
        ensures { Changes (lines_added count) self.old self.new }
    {
        if !self.screen.failed {
            self.screen.grid.insert_lines(count);
        }
    }

    /// Removes lines at the cursor's row, if it is in the scroll region; blank ones follow at its end (DL).
    #[tactic(auto, using(crate::proofs::ProperScreens::drawn_rules))]
    pub fn dl(&mut self, count: u16)
        ensures { Changes (lines_taken count) self.old self.new }
    {
        if !self.screen.failed {
            self.screen.grid.delete_lines(count);
        }
    }

    /// Moves the lines of the scroll region down; blank ones come in at its top (SD).
    #[tactic(auto, using(crate::proofs::ProperScreens::drawn_rules))]
    pub fn sd(&mut self, count: u16)
        ensures { Changes (region_down count) self.old self.new }
    {
        if !self.screen.failed {
            self.screen.grid.scroll_down(count);
        }
    }

    /// Empties the screen from the cursor on (0), up to the cursor and at it (1), or whole (2), with the drawing
    /// attributes; or removes the kept rows, and reports them to the callbacks (3) (ED). Returns how many sequences
    /// were unhandled: 1 at another number.
    #[tactic(auto, using(crate::proofs::ProperScreens::drawn_rules))]
    pub fn ed(&mut self, mode: u16) -> usize
        ensures { Counts CB.scrolls (display_erased mode) self.old.screen self.old.callbacks result self.new.screen
            self.new.callbacks }
    {
        if self.screen.failed {
            return 0;
        }
        let attrs = self.screen.attrs.attrs();
        match mode {
            0 => self.screen.grid.erase_all_forward(attrs),
            1 => self.screen.grid.erase_all_backward(attrs),
            2 => self.screen.grid.erase_all(attrs),
            3 => {
                let mut reporter = Reporter {
                    callbacks: &mut self.callbacks,
                    alternate_screen: self.screen.alternate_screen,
                };
                erase_kept(&mut self.screen.grid, &mut reporter);
            }
            _ => return 1,
        }
        0
    }

    /// Empties what [`ed`](Self::ed) empties (DECSED), since no cell is protected from being erased. Returns how many
    /// sequences were unhandled, as `ed` does.
    pub fn decsed(&mut self, mode: u16) -> usize
        ensures { Counts CB.scrolls (display_erased mode) self.old.screen self.old.callbacks result self.new.screen
            self.new.callbacks }
    {
        self.ed(mode)
    }

    /// Empties the cursor's row from the cursor on (0), up to the cursor and at it (1), or whole (2), with the drawing
    /// attributes (EL). Returns how many sequences were unhandled: 1 at another number.
    #[tactic(auto, using(crate::proofs::ProperScreens::drawn_rules))]
    #[inline(always)]
    pub fn el(&mut self, mode: u16) -> usize
        ensures { Counts CB.scrolls (line_erased mode) self.old.screen self.old.callbacks result self.new.screen
            self.new.callbacks }
    {
        if self.screen.failed {
            return 0;
        }
        match mode {
            0 => self.screen.grid.erase_forward(&self.screen.attrs),
            1 => self
                .screen
                .grid
                .erase_row_backward(self.screen.attrs.attrs()),
            2 => self.screen.grid.erase_row(self.screen.attrs.attrs()),
            _ => return 1,
        }
        0
    }

    /// Empties what [`el`](Self::el) empties (DECSEL), since no cell is protected from being erased. Returns how many
    /// sequences were unhandled, as `el` does.
    pub fn decsel(&mut self, mode: u16) -> usize
        ensures { Counts CB.scrolls (line_erased mode) self.old.screen self.old.callbacks result self.new.screen
            self.new.callbacks }
    {
        self.el(mode)
    }
}
