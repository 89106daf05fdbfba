//! What each call does to a picture.
ghost use Rattle.std.specs.Prelude.{◌≡◌};
ghost use Rattle.termview.specs.Picture.{term_of_picture, Becomes};
ghost use Rattle.termview.specs.Step.{view_step, line_of};

use crate::picture::Picture;
use vte_types::attr::Attr;
use vte_types::call::Call;
use vte_types::clear::{ClearMode, LineClearMode};
use vte_types::handler::Handler;

/// The calls that a screen's writers cause have their usual effect. Every other call does nothing.
impl Handler for Picture {
    ghost step = { λ p call q. Becomes p q (view_step p.size call (term_of_picture p)) };

    #[tactic(auto, unfolding(crate::specs::Step::view_step))]
    #[inline(always)]
    fn call(&mut self, call: Call<'_>) {
        match call {
            Call::Input(c) => self.input(c),
            Call::Backspace => self.backspace(),
            Call::CarriageReturn => self.carriage_return(),
            Call::Linefeed => self.linefeed(),
            Call::Goto(line, col) => self.goto(row_at(line), col),
            Call::MoveForward(cols) => self.move_forward(cols),
            Call::EraseChars(count) => self.erase_chars(count),
            Call::ClearLine(LineClearMode::Right) => self.erase_right(),
            Call::ClearScreen(ClearMode::Below) => self.erase_below(),
            Call::SaveCursorPosition => self.save_cursor(),
            Call::RestoreCursorPosition => self.restore_cursor(),
            Call::SetKeypadApplicationMode => self.set_keypad(true),
            Call::UnsetKeypadApplicationMode => self.set_keypad(false),
            Call::SetCursorStyle(style) => self.set_style(style),
            Call::SetPrivateMode(mode) => self.set_private_mode(mode.raw()),
            Call::UnsetPrivateMode(mode) => self.reset_private_mode(mode.raw()),
            Call::TerminalAttribute(attr) => self.set_attribute(attr),
            _ => {}
        }
    }

    // The calls that occur most often in frames don't go through `call`.
    #[tactic(auto, unfolding(crate::specs::Step::view_step))]
    fn input(&mut self, c: char) {
        self.input(c);
    }

    fn input_str(&mut self, text: &str) {
        let mut rest = text;
        while !rest.is_empty() {
            rest = self.input_some(rest);
        }
    }

    fn input_ascii(&mut self, text: &str) {
        self.input_run::<u8, 1>(text.as_bytes());
    }

    #[tactic(auto, unfolding(crate::specs::Step::view_step))]
    fn goto(&mut self, line: i32, col: usize) {
        self.goto(row_at(line), col);
    }

    #[tactic(auto, unfolding(crate::specs::Step::view_step))]
    #[inline(always)]
    fn terminal_attribute(&mut self, attr: Attr) {
        self.set_attribute(attr);
    }

    #[tactic(auto, unfolding(crate::specs::Step::view_step))]
    fn carriage_return(&mut self) {
        self.carriage_return();
    }

    #[tactic(auto, unfolding(crate::specs::Step::view_step))]
    fn linefeed(&mut self) {
        self.linefeed();
    }

    #[tactic(auto, unfolding(crate::specs::Step::view_step))]
    fn move_forward(&mut self, cols: usize) {
        self.move_forward(cols);
    }

    #[tactic(auto, unfolding(crate::specs::Step::view_step))]
    fn erase_chars(&mut self, count: usize) {
        self.erase_chars(count);
    }

    #[tactic(auto, unfolding(crate::specs::Step::view_step))]
    fn clear_line(&mut self, mode: LineClearMode) {
        match mode {
            LineClearMode::Right => self.erase_right(),
            _ => {}
        }
    }
}

/// The row of a line, counted from 0. A negative line counts as line 0.
fn row_at(line: i32) -> usize
    ensures { result ≡ line_of line }
{
    line.max(0) as usize
}
