//! Modes, and the cursor's style.
ghost use Rattle.std.specs.Prelude.{◌≡◌, true, false};
ghost use Rattle.termview.specs.Step.{mode_set, mode_reset, mouse_reset};
ghost use Rattle.termview.specs.Step.{encoding_reset, with_style, style_of, style_by};
ghost use Rattle.termview.specs.Step.{with_attr, with_keypad};
ghost use Rattle.termview.specs.Picture.{term_of_picture, Becomes};

use crate::attributes::set_attribute;
use crate::picture::Picture;
use vt100_forms::{CursorStyle, MouseProtocolEncoding, MouseProtocolMode};
use vte_types::attr::Attr;
use vte_types::cursor::{CursorShape, CursorStyle as AnsiCursorStyle};

impl Picture {
    /// Sets the private mode with this number (DECSET).
    pub(crate) fn set_private_mode(&mut self, number: u16)
        ensures { Becomes self.old self.new (mode_set number (term_of_picture self.old)) }
    {
        match number {
            1 => self.application_cursor = true,
            9 => self.mouse_protocol_mode = MouseProtocolMode::Press,
            25 => self.hide_cursor = false,
            1000 => self.mouse_protocol_mode = MouseProtocolMode::PressRelease,
            1002 => self.mouse_protocol_mode = MouseProtocolMode::ButtonMotion,
            1003 => self.mouse_protocol_mode = MouseProtocolMode::AnyMotion,
            1005 => self.mouse_protocol_encoding = MouseProtocolEncoding::Utf8,
            1006 => self.mouse_protocol_encoding = MouseProtocolEncoding::Sgr,
            2004 => self.bracketed_paste = true,
            _ => {}
        }
    }

    /// Resets the private mode with this number (DECRST).
    pub(crate) fn reset_private_mode(&mut self, number: u16)
        ensures { Becomes self.old self.new (mode_reset number (term_of_picture self.old)) }
    {
        match number {
            1 => self.application_cursor = false,
            9 => self.reset_mouse_mode(MouseProtocolMode::Press),
            25 => self.hide_cursor = true,
            1000 => self.reset_mouse_mode(MouseProtocolMode::PressRelease),
            1002 => self.reset_mouse_mode(MouseProtocolMode::ButtonMotion),
            1003 => self.reset_mouse_mode(MouseProtocolMode::AnyMotion),
            1005 => self.reset_mouse_encoding(MouseProtocolEncoding::Utf8),
            1006 => self.reset_mouse_encoding(MouseProtocolEncoding::Sgr),
            2004 => self.bracketed_paste = false,
            _ => {}
        }
    }

    /// Sets whether the keypad sends application sequences (DECKPAM) or numbers (DECKPNM).
    pub(crate) fn set_keypad(&mut self, application: bool)
        ensures { Becomes self.old self.new (with_keypad application (term_of_picture self.old)) }
    {
        self.application_keypad = application;
    }

    /// Changes one drawing attribute (SGR).
    #[inline(always)]
    pub(crate) fn set_attribute(&mut self, attr: Attr)
        ensures { Becomes self.old self.new (record (term_of_picture self.old)
            { attrs = with_attr attr self.old.attrs }) }
    {
        set_attribute(&mut self.attrs, attr);
    }

    /// Resets a mouse mode, if it is the current one.
    fn reset_mouse_mode(&mut self, mode: MouseProtocolMode)
        ensures { Becomes self.old self.new (mouse_reset mode (term_of_picture self.old)) }
    {
        if self.mouse_protocol_mode == mode {
            self.mouse_protocol_mode = MouseProtocolMode::None;
        }
    }

    /// Resets a mouse encoding, if it is the current one.
    fn reset_mouse_encoding(&mut self, encoding: MouseProtocolEncoding)
        ensures { Becomes self.old self.new (encoding_reset encoding (term_of_picture self.old)) }
    {
        if self.mouse_protocol_encoding == encoding {
            self.mouse_protocol_encoding = MouseProtocolEncoding::Default;
        }
    }

    /// Sets the cursor's style (DECSCUSR); `None` sets the default one. A style that a `vt100` screen doesn't have
    /// changes nothing.
    pub(crate) fn set_style(&mut self, style: Option<AnsiCursorStyle>)
        ensures { Becomes self.old self.new (with_style (style_of style) (term_of_picture self.old)) }
    {
        match style {
            None => self.cursor_style = CursorStyle::Default,
            Some(style) => {
                if let Some(style) = cursor_style(style.shape, style.blinking) {
                    self.cursor_style = style;
                }
            }
        }
    }
}

/// The style with this shape, if a `vt100` screen has it.
fn cursor_style(shape: CursorShape, blinking: bool) -> Option<CursorStyle>
    ensures { result ≡ style_by shape blinking }
{
    match (shape, blinking) {
        (CursorShape::Block, true) => Some(CursorStyle::BlinkBlock),
        (CursorShape::Block, false) => Some(CursorStyle::SteadyBlock),
        (CursorShape::Underline, true) => Some(CursorStyle::BlinkUnderline),
        (CursorShape::Underline, false) => Some(CursorStyle::SteadyUnderline),
        (CursorShape::Beam, true) => Some(CursorStyle::BlinkVerticalBar),
        (CursorShape::Beam, false) => Some(CursorStyle::SteadyVerticalBar),
        (CursorShape::HollowBlock | CursorShape::Hidden, _) => None,
    }
}
