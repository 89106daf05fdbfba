//! What a screen is like, in words and numbers.
use crate::checks::check;
use case_player::{Answer, StepError, Words};
use vt100::{Color, CursorStyle, MouseProtocolEncoding, MouseProtocolMode, Screen};

/// Rows and columns, the cursor's row and column, how many rows are kept, how many at most, and how many are shown.
type Places = ((u16, u16), (u16, u16), [usize; 3]);

/// A screen's places.
pub fn places(screen: &Screen) -> Places {
    let (rows, cols) = screen.size();
    let kept = [
        screen.scrollback_len(),
        screen.scrollback_capacity(),
        screen.scrollback(),
    ];
    ((rows.get(), cols.get()), screen.cursor_position(), kept)
}

/// The alternate sheet, the keypad's and the cursor keys' application mode, the hidden cursor and bracketed paste;
/// bold, dim, italic, underlined and inverse; whether it has failed, and whether it is live.
pub fn switches(screen: &Screen) -> [bool; 12] {
    [
        screen.alternate_screen(),
        screen.application_keypad(),
        screen.application_cursor(),
        screen.hide_cursor(),
        screen.bracketed_paste(),
        screen.bold(),
        screen.dim(),
        screen.italic(),
        screen.underline(),
        screen.inverse(),
        screen.failed(),
        screen.is_live(),
    ]
}

/// The mouse's mode and encoding, the cursor's style, and both colours.
type Choices = (
    MouseProtocolMode,
    MouseProtocolEncoding,
    CursorStyle,
    Color,
    Color,
);

/// The choices of a screen.
pub fn choices(screen: &Screen) -> Choices {
    (
        screen.mouse_protocol_mode(),
        screen.mouse_protocol_encoding(),
        screen.cursor_style(),
        screen.fgcolor(),
        screen.bgcolor(),
    )
}

/// Appends a screen's state.
pub fn tell_state(answer: &mut Answer, screen: &Screen, words: &Words) {
    let (size, cursor, kept) = places(screen);
    match words.word() {
        "size" => answer.debug(&size),
        "cursor" => answer.debug(&cursor),
        "kept" => answer.debug(&kept),
        "failed" => answer.display(&screen.failed()),
        "alternate_screen" => answer.display(&screen.alternate_screen()),
        "updating" => answer.display(&screen.synchronized_update()),
        _ => words.want("size, cursor, kept, failed, alternate_screen or updating"),
    }
}

/// A screen has this size, and its main sheet this capacity. The alternate sheet's is 0.
pub fn check_bounds(screen: &Screen, size: (u16, u16), capacity: usize) -> Result<(), StepError> {
    let (size_then, _, [_, capacity_then, _]) = places(screen);
    let capacity = if screen.alternate_screen() {
        0
    } else {
        capacity
    };
    check(
        size_then == size && capacity_then == capacity,
        "bytes that were refused have changed the screen's size or its capacity",
    )
}
