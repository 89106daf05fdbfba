//! The modes of the keys, of pasting and of the mouse.
use vt100_core::{MouseProtocolEncoding, MouseProtocolMode};

/// The modes that a program sets for the keys, for pasting and for the mouse.
#[derive(Clone, Copy, Debug, Default, Eq, PartialEq)]
pub(super) struct Modes {
    /// Whether the keypad sends application sequences.
    pub(super) application_keypad: bool,
    /// Whether the cursor keys do.
    pub(super) application_cursor: bool,
    /// Whether a paste comes between marks.
    pub(super) bracketed_paste: bool,
    /// Which events of the mouse are reported to the program.
    pub(super) mouse_protocol_mode: MouseProtocolMode,
    /// How they are reported.
    pub(super) mouse_protocol_encoding: MouseProtocolEncoding,
}
