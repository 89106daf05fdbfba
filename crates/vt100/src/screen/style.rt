//! The control sequence for how the cursor looks.
ghost use Rattle.vt100.specs.Tries.{Counts};
ghost use Rattle.screen_model.specs.Effect.{styled};

use crate::callbacks::Callbacks;
use crate::screen::WrappedScreen;
use vt100_core::CursorStyle;

impl<CB: Callbacks> WrappedScreen<CB> {
    /// Sets how the cursor looks (DECSCUSR). Returns how many sequences were unhandled: 1 for a style past 6.
    pub(crate) fn decscusr(&mut self, style: u16) -> usize
        ensures { Counts CB.scrolls (styled style) self.old.screen self.old.callbacks result self.new.screen
            self.new.callbacks }
    {
        if self.screen.failed {
            return 0;
        }
        self.screen.cursor_style = match style {
            0 => CursorStyle::Default,
            1 => CursorStyle::BlinkBlock,
            2 => CursorStyle::SteadyBlock,
            3 => CursorStyle::BlinkUnderline,
            4 => CursorStyle::SteadyUnderline,
            5 => CursorStyle::BlinkVerticalBar,
            6 => CursorStyle::SteadyVerticalBar,
            _ => return 1,
        };
        0
    }
}
