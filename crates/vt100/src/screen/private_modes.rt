//! Private modes (DECSET, DECRST; xterm's control sequences), and the two sheets.
ghost use Rattle.std.specs.Prelude.{◌≡◌, OnOk, OnErr, IfOk, Err, is_some, true, false};
ghost use Rattle.screen_model.specs.Step.{alternate_shown, alternate_cleared, main_shown, saved, restored};
ghost use Rattle.screen_model.specs.PrivateModes.{modes_set, modes_reset, row_of, row_state, set_rows, reset_rows};
ghost use Rattle.screen_model.specs.PrivateModes.{mouse_reset, encoding_reset};
ghost use Rattle.vt100.specs.Memory.{modes_may_allocate, shows_alternate, is_unused};
ghost use Rattle.vt100.specs.Tries.{TriesParts, Counts, SameBounds, alive};
ghost use Rattle.vt100.specs.declared.error.ScreenError.TheVariants.{Memory};

use crate::callbacks::Callbacks;
use crate::error::ScreenError;
use crate::screen::{Screen, WrappedScreen, note_failure};
use vt100_cells::PackedAttrs;
use vt100_core::{MouseProtocolEncoding, MouseProtocolMode};
use vte_core::Params;

impl<CB: Callbacks> WrappedScreen<CB> {
    /// Sets private modes (DECSET): 1, 6, 9, 25, 47, 1000, 1002, 1003, 1005, 1006, 1049, 2004, 2026, each in a group of
    /// its own. Returns how many groups were unhandled: those of other numbers, and those of more than one number.
    ///
    /// It is refused for memory only if it shows the alternate sheet for the first time (clause `allocates`).
    pub fn decset(&mut self, params: &Params) -> Result<usize, ScreenError>
        ensures tries { TriesParts CB.scrolls (modes_set params.now) self.old.screen self.old.callbacks result
            self.new.screen self.new.callbacks }
        ensures bounds { SameBounds self.old.screen.state self.new.screen.state }
        ensures allocates { result ≡ Err Memory → modes_may_allocate params.now self.old.screen.state ≡ true }
    {
        if self.screen.failed {
            return Err(ScreenError::Failed);
        }
        let mut unhandled = 0;
        let mut groups = params.iter();
        while let Some(group) = groups.next() {
            if !self.screen.set_private_mode(group)? {
                unhandled += 1;
            }
        }
        Ok(unhandled)
    }

    /// Resets private modes (DECRST), the same ones. Returns how many groups were unhandled.
    pub fn decrst(&mut self, params: &Params) -> usize
        ensures { Counts CB.scrolls (modes_reset params.now) self.old.screen self.old.callbacks result
            self.new.screen self.new.callbacks }
    {
        if self.screen.failed {
            return 0;
        }
        let mut unhandled = 0;
        let mut groups = params.iter();
        while let Some(group) = groups.next() {
            if !self.screen.clear_private_mode(group) {
                unhandled += 1;
            }
        }
        unhandled
    }
}

impl Screen {
    /// Sets the mode that a group names. Returns whether it names one.
    fn set_private_mode(&mut self, group: &[u16]) -> Result<bool, ScreenError>
        requires { self.old.failed ≡ false }
        ensures screen { OnOk result (self.new ≡ alive (row_state (row_of set_rows group.now) self.old.state)) }
        ensures known { IfOk result (λ known. known ≡ is_some (row_of set_rows group.now)) }
        ensures memory { OnErr result ((result ≡ Err Memory) × (self.new.failed ≡ true)) }
        ensures bounds { SameBounds self.old.state self.new.state }
        ensures shows { OnErr result (shows_alternate group.now ≡ true) }
        ensures unused { OnErr result (is_unused self.old.state ≡ true) }
    {
        match group {
            [1] => self.modes.application_cursor = true,
            [6] => self.grid.set_origin_mode(true),
            [9] => self.modes.mouse_protocol_mode = MouseProtocolMode::Press,
            [25] => self.hide_cursor = false,
            [47] => self.enter_alternate_grid()?,
            [1000] => self.modes.mouse_protocol_mode = MouseProtocolMode::PressRelease,
            [1002] => self.modes.mouse_protocol_mode = MouseProtocolMode::ButtonMotion,
            [1003] => self.modes.mouse_protocol_mode = MouseProtocolMode::AnyMotion,
            [1005] => self.modes.mouse_protocol_encoding = MouseProtocolEncoding::Utf8,
            [1006] => self.modes.mouse_protocol_encoding = MouseProtocolEncoding::Sgr,
            [1049] => {
                self.save_cursor();
                self.clear_alternate_grid();
                self.enter_alternate_grid()?;
            }
            [2004] => self.modes.bracketed_paste = true,
            [2026] => self.synchronized_update = true,
            _ => return Ok(false),
        }
        Ok(true)
    }

    /// Resets the mode that a group names. Returns whether it names one.
    fn clear_private_mode(&mut self, group: &[u16]) -> bool
        requires { self.old.failed ≡ false }
        ensures screen { self.new ≡ alive (row_state (row_of reset_rows group.now) self.old.state) }
        ensures known { result ≡ is_some (row_of reset_rows group.now) }
    {
        match group {
            [1] => self.modes.application_cursor = false,
            [6] => self.grid.set_origin_mode(false),
            [9] => self.clear_mouse_mode(MouseProtocolMode::Press),
            [25] => self.hide_cursor = true,
            [47] => self.exit_alternate_grid(),
            [1000] => self.clear_mouse_mode(MouseProtocolMode::PressRelease),
            [1002] => self.clear_mouse_mode(MouseProtocolMode::ButtonMotion),
            [1003] => self.clear_mouse_mode(MouseProtocolMode::AnyMotion),
            [1005] => self.clear_mouse_encoding(MouseProtocolEncoding::Utf8),
            [1006] => self.clear_mouse_encoding(MouseProtocolEncoding::Sgr),
            [1049] => {
                self.exit_alternate_grid();
                self.restore_cursor();
            }
            [2004] => self.modes.bracketed_paste = false,
            [2026] => self.synchronized_update = false,
            _ => return false,
        }
        true
    }

    /// Resets a mode of the mouse, if it is the current one.
    fn clear_mouse_mode(&mut self, mode: MouseProtocolMode)
        ensures { self.new ≡ record self.old { state = mouse_reset mode self.old.state } }
    {
        if self.modes.mouse_protocol_mode == mode {
            self.modes.mouse_protocol_mode = MouseProtocolMode::None;
        }
    }

    /// Resets an encoding of the mouse, if it is the current one.
    fn clear_mouse_encoding(&mut self, encoding: MouseProtocolEncoding)
        ensures { self.new ≡ record self.old { state = encoding_reset encoding self.old.state } }
    {
        if self.modes.mouse_protocol_encoding == encoding {
            self.modes.mouse_protocol_encoding = MouseProtocolEncoding::Default;
        }
    }

    /// Saves the cursor, origin mode and the drawing attributes.
    pub(super) fn save_cursor(&mut self)
        ensures { self.new ≡ record self.old { state = saved self.old.state } }
    {
        self.grid.save_cursor();
        self.saved_attrs = self.attrs.attrs();
    }

    /// Restores what was saved last.
    pub(super) fn restore_cursor(&mut self)
        ensures { self.new ≡ record self.old { state = restored self.old.state } }
    {
        self.grid.restore_cursor();
        self.attrs = PackedAttrs::of(self.saved_attrs);
    }

    /// Makes the alternate sheet blank, shown or not.
    fn clear_alternate_grid(&mut self)
        ensures { self.new ≡ record self.old { state = alternate_cleared self.old.state } }
    {
        if self.alternate_screen {
            self.grid.clear();
        } else {
            self.other_grid.clear();
        }
    }

    /// Shows the alternate sheet, which gets its rows the first time.
    fn enter_alternate_grid(&mut self) -> Result<(), ScreenError>
        requires { self.old.failed ≡ false }
        ensures screen { OnOk result (self.new ≡ alive (alternate_shown self.old.state)) }
        ensures memory { OnErr result ((result ≡ Err Memory) × (self.new.failed ≡ true)) }
        ensures bounds { SameBounds self.old.state self.new.state }
        ensures unused { OnErr result (is_unused self.old.state ≡ true) }
    {
        note_failure(&mut self.failed, self.grid.set_scrollback(0))?;
        note_failure(&mut self.failed, self.other_grid.allocate_rows())?;
        if !self.alternate_screen {
            std::mem::swap(&mut self.grid, &mut self.other_grid);
            self.alternate_screen = true;
        }
        Ok(())
    }

    /// Shows the main sheet.
    pub(crate) fn exit_alternate_grid(&mut self)
        ensures { self.new ≡ record self.old { state = main_shown self.old.state } }
    {
        if self.alternate_screen {
            std::mem::swap(&mut self.grid, &mut self.other_grid);
            self.alternate_screen = false;
        }
    }
}
