//! Controls and escape sequences.
ghost use Rattle.std.specs.Prelude.{◌-◌, true, false};
ghost use Rattle.vt100.specs.Tries.{Changes};
ghost use Rattle.screen_model.specs.Step.{moved_left, tabbed, at_column, saved, restored, with_keypad, line_fed_back};

use crate::callbacks::Callbacks;
use crate::screen::WrappedScreen;

impl<CB: Callbacks> WrappedScreen<CB> {
    /// Moves the cursor one column to the left (BS).
    pub fn bs(&mut self)
        ensures { Changes (moved_left 1) self.old self.new }
    {
        if !self.screen.failed {
            self.screen.grid.col_dec(1);
        }
    }

    /// Moves the cursor to the next tab stop, one every eight columns, or to the last column (HT).
    pub fn tab(&mut self)
        ensures { Changes tabbed self.old self.new }
    {
        if !self.screen.failed {
            self.screen.grid.col_tab();
        }
    }

    /// Moves the cursor to the first column (CR).
    pub fn cr(&mut self)
        ensures { Changes (at_column 0) self.old self.new }
    {
        if !self.screen.failed {
            self.screen.grid.col_set(0);
        }
    }

    /// Saves the cursor, origin mode and the drawing attributes (DECSC).
    pub fn decsc(&mut self)
        ensures { Changes saved self.old self.new }
    {
        if !self.screen.failed {
            self.screen.save_cursor();
        }
    }

    /// Restores the cursor, origin mode and the drawing attributes that were saved last (DECRC).
    pub fn decrc(&mut self)
        ensures { Changes restored self.old self.new }
    {
        if !self.screen.failed {
            self.screen.restore_cursor();
        }
    }

    /// Sets application keypad mode (DECKPAM).
    pub fn deckpam(&mut self)
        ensures { Changes (with_keypad true) self.old self.new }
    {
        if !self.screen.failed {
            self.screen.modes.application_keypad = true;
        }
    }

    /// Resets application keypad mode (DECKPNM).
    pub fn deckpnm(&mut self)
        ensures { Changes (with_keypad false) self.old self.new }
    {
        if !self.screen.failed {
            self.screen.modes.application_keypad = false;
        }
    }

    /// Moves the cursor a row up. At the scroll region's top, and at the screen's, the region scrolls down instead
    /// (RI).
    // Never inlined, so that the frequent escape sequences need no stack.
    #[inline(never)]
    pub fn ri(&mut self)
        ensures { Changes line_fed_back self.old self.new }
    {
        if !self.screen.failed {
            self.screen.grid.row_dec_scroll(1);
        }
    }
}
