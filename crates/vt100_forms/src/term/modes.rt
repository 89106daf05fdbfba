//! Escape sequences that set the terminal's modes, hide the cursor and set its style (the VT100's and xterm's).
ghost use Rattle.std.specs.Prelude.{◌≡◌, List, [], ◌∷◌};
ghost use Rattle.vt100_forms.specs.Form.{Form, bytes_of};
ghost use Rattle.vt100_forms.specs.Form.{mouse_number, encoding_number, style_number, mode_change};

use super::{BufWrite, FormText};
use itoa::Buffer;
use std::marker::Model;

/// Hides the cursor, or shows it (DECTCEM).
#[derive(Debug, Default, Drop)]
pub struct HideCursor {
    state: bool,
}

impl Model for HideCursor {
    ghost use Rattle.vt100_forms.specs.Form.{Form};

    ghost Value = { Form };

    ghost view = { λ m. Form.HideCursor m.state };
}

impl HideCursor {
    /// Hides the cursor if `state` is true, else shows it.
    pub fn new(state: bool) -> Self
        ensures { result ≡ Form.HideCursor state }
    {
        HideCursor { state }
    }
}

impl BufWrite for HideCursor {
    ghost forms = { λ m. m ∷ [] };

    fn as_text<'a>(&self, _room: &'a mut FormText) -> &'a str {
        if self.state { "\x1b[?25l" } else { "\x1b[?25h" }
    }
}

/// Sets the keypad's application mode (DECKPAM), or its numeric mode (DECKPNM).
#[derive(Debug, Default, Drop)]
pub struct ApplicationKeypad {
    state: bool,
}

impl Model for ApplicationKeypad {
    ghost use Rattle.vt100_forms.specs.Form.{Form};

    ghost Value = { Form };

    ghost view = { λ m. Form.Keypad m.state };
}

impl ApplicationKeypad {
    /// Sets the application mode if `state` is true, else the numeric one.
    pub fn new(state: bool) -> Self
        ensures { result ≡ Form.Keypad state }
    {
        ApplicationKeypad { state }
    }
}

impl BufWrite for ApplicationKeypad {
    ghost forms = { λ m. m ∷ [] };

    fn as_text<'a>(&self, _room: &'a mut FormText) -> &'a str {
        if self.state { "\x1b=" } else { "\x1b>" }
    }
}

/// Sets or resets the application mode of the cursor keys (DECCKM).
#[derive(Debug, Default, Drop)]
pub struct ApplicationCursor {
    state: bool,
}

impl Model for ApplicationCursor {
    ghost use Rattle.vt100_forms.specs.Form.{Form};

    ghost Value = { Form };

    ghost view = { λ m. Form.CursorKeys m.state };
}

impl ApplicationCursor {
    /// Sets the application mode if `state` is true, else resets it.
    pub fn new(state: bool) -> Self
        ensures { result ≡ Form.CursorKeys state }
    {
        ApplicationCursor { state }
    }
}

impl BufWrite for ApplicationCursor {
    ghost forms = { λ m. m ∷ [] };

    fn as_text<'a>(&self, _room: &'a mut FormText) -> &'a str {
        if self.state { "\x1b[?1h" } else { "\x1b[?1l" }
    }
}

/// Sets or resets bracketed paste (xterm's mode 2004).
#[derive(Debug, Default, Drop)]
pub struct BracketedPaste {
    state: bool,
}

impl Model for BracketedPaste {
    ghost use Rattle.vt100_forms.specs.Form.{Form};

    ghost Value = { Form };

    ghost view = { λ m. Form.Paste m.state };
}

impl BracketedPaste {
    /// Sets bracketed paste if `state` is true, else resets it.
    pub fn new(state: bool) -> Self
        ensures { result ≡ Form.Paste state }
    {
        BracketedPaste { state }
    }
}

impl BufWrite for BracketedPaste {
    ghost forms = { λ m. m ∷ [] };

    fn as_text<'a>(&self, _room: &'a mut FormText) -> &'a str {
        if self.state {
            "\x1b[?2004h"
        } else {
            "\x1b[?2004l"
        }
    }
}

/// Changes which mouse events are reported (xterm's modes 9, 1000, 1002 and 1003). For no events it resets the earlier
/// mode. It has no bytes if nothing changes.
#[derive(Debug, Default, Drop)]
pub struct MouseProtocolMode {
    mode: crate::MouseProtocolMode,
    prev: crate::MouseProtocolMode,
}

impl Model for MouseProtocolMode {
    ghost use Rattle.vt100_forms.specs.Form.{Form};

    ghost Value = { Form };

    ghost view = { λ m. Form.Mouse m.mode m.prev };
}

impl MouseProtocolMode {
    /// A change to `mode` from `prev`, which the terminal has.
    pub fn new(mode: crate::MouseProtocolMode, prev: crate::MouseProtocolMode) -> Self
        ensures { result ≡ Form.Mouse mode prev }
    {
        MouseProtocolMode { mode, prev }
    }
}

impl BufWrite for MouseProtocolMode {
    ghost forms = { λ m. m ∷ [] };

    fn as_text<'a>(&self, room: &'a mut FormText) -> &'a str {
        mode_change(room, mouse_number(self.mode), mouse_number(self.prev))
    }
}

fn mouse_number(mode: crate::MouseProtocolMode) -> u16
    ensures { result ≡ mouse_number mode }
{
    match mode {
        crate::MouseProtocolMode::None => 0,
        crate::MouseProtocolMode::Press => 9,
        crate::MouseProtocolMode::PressRelease => 1000,
        crate::MouseProtocolMode::ButtonMotion => 1002,
        crate::MouseProtocolMode::AnyMotion => 1003,
    }
}

/// Changes the encoding of mouse reports (xterm's modes 1005 and 1006). For the default it resets the earlier one. It
/// has no bytes if nothing changes.
#[derive(Debug, Default, Drop)]
pub struct MouseProtocolEncoding {
    encoding: crate::MouseProtocolEncoding,
    prev: crate::MouseProtocolEncoding,
}

impl Model for MouseProtocolEncoding {
    ghost use Rattle.vt100_forms.specs.Form.{Form};

    ghost Value = { Form };

    ghost view = { λ m. Form.Encoding m.encoding m.prev };
}

impl MouseProtocolEncoding {
    /// A change to `encoding` from `prev`, which the terminal has.
    pub fn new(encoding: crate::MouseProtocolEncoding, prev: crate::MouseProtocolEncoding) -> Self
        ensures { result ≡ Form.Encoding encoding prev }
    {
        MouseProtocolEncoding { encoding, prev }
    }
}

impl BufWrite for MouseProtocolEncoding {
    ghost forms = { λ m. m ∷ [] };

    fn as_text<'a>(&self, room: &'a mut FormText) -> &'a str {
        mode_change(
            room,
            encoding_number(self.encoding),
            encoding_number(self.prev),
        )
    }
}

fn encoding_number(encoding: crate::MouseProtocolEncoding) -> u16
    ensures { result ≡ encoding_number encoding }
{
    match encoding {
        crate::MouseProtocolEncoding::Default => 0,
        crate::MouseProtocolEncoding::Utf8 => 1005,
        crate::MouseProtocolEncoding::Sgr => 1006,
    }
}

// Changes one private mode to another; 0 is the default.
fn mode_change(room: &mut FormText, to: u16, from: u16) -> &str
    requires { room.old.bytes ≡ [] }
    ensures { result.now ≡ mode_change to from }
{
    if to == from {
        return "";
    }
    room.push_str("\x1b[?");
    if to == 0 {
        room.push_str(Buffer::new().format(from));
        room.push_str("l");
    } else {
        room.push_str(Buffer::new().format(to));
        room.push_str("h");
    }
    room.as_str()
}

/// Sets the cursor's style (DECSCUSR). It has no bytes if nothing changes.
#[derive(Debug, Default, Drop)]
pub struct CursorStyle {
    style: crate::CursorStyle,
    prev: crate::CursorStyle,
}

impl Model for CursorStyle {
    ghost use Rattle.vt100_forms.specs.Form.{Form};

    ghost Value = { Form };

    ghost view = { λ m. Form.Style m.style m.prev };
}

impl CursorStyle {
    /// A change to `style` from `prev`, which the terminal has.
    pub fn new(style: crate::CursorStyle, prev: crate::CursorStyle) -> Self
        ensures { result ≡ Form.Style style prev }
    {
        CursorStyle { style, prev }
    }
}

impl BufWrite for CursorStyle {
    ghost forms = { λ m. m ∷ [] };

    fn as_text<'a>(&self, room: &'a mut FormText) -> &'a str {
        if self.style == self.prev {
            return "";
        }
        let mut number = Buffer::new();
        room.push_str("\x1b[");
        room.push_str(number.format(u32::from(style_number(self.style))));
        room.push_str(" q");
        room.as_str()
    }
}

fn style_number(style: crate::CursorStyle) -> u8
    ensures { result ≡ style_number style }
{
    match style {
        crate::CursorStyle::Default => 0,
        crate::CursorStyle::BlinkBlock => 1,
        crate::CursorStyle::SteadyBlock => 2,
        crate::CursorStyle::BlinkUnderline => 3,
        crate::CursorStyle::SteadyUnderline => 4,
        crate::CursorStyle::BlinkVerticalBar => 5,
        crate::CursorStyle::SteadyVerticalBar => 6,
    }
}
