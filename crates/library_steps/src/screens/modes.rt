//! The words of a terminal's modes.
use case_player::Words;
use vt100_forms::{CursorStyle, MouseProtocolEncoding, MouseProtocolMode};

const MOUSE_MODES: &[(&str, MouseProtocolMode)] = &[
    ("none", MouseProtocolMode::None),
    ("press", MouseProtocolMode::Press),
    ("press_release", MouseProtocolMode::PressRelease),
    ("button_motion", MouseProtocolMode::ButtonMotion),
    ("any_motion", MouseProtocolMode::AnyMotion),
];

/// A mouse mode.
pub fn mouse_mode(words: &Words) -> MouseProtocolMode {
    words.one_of(
        MOUSE_MODES,
        "a mouse mode, as any_motion",
        MouseProtocolMode::None,
    )
}

const MOUSE_ENCODINGS: &[(&str, MouseProtocolEncoding)] = &[
    ("default", MouseProtocolEncoding::Default),
    ("utf8", MouseProtocolEncoding::Utf8),
    ("sgr", MouseProtocolEncoding::Sgr),
];

/// An encoding of the mouse's reports.
pub fn mouse_encoding(words: &Words) -> MouseProtocolEncoding {
    words.one_of(
        MOUSE_ENCODINGS,
        "default, utf8 or sgr",
        MouseProtocolEncoding::Default,
    )
}

const CURSOR_STYLES: &[(&str, CursorStyle)] = &[
    ("default", CursorStyle::Default),
    ("blink_block", CursorStyle::BlinkBlock),
    ("steady_block", CursorStyle::SteadyBlock),
    ("blink_underline", CursorStyle::BlinkUnderline),
    ("steady_underline", CursorStyle::SteadyUnderline),
    ("blink_vertical_bar", CursorStyle::BlinkVerticalBar),
    ("steady_vertical_bar", CursorStyle::SteadyVerticalBar),
];

/// A style of the cursor.
pub fn cursor_style(words: &Words) -> CursorStyle {
    words.one_of(
        CURSOR_STYLES,
        "a cursor's style, as steady_block",
        CursorStyle::Default,
    )
}
