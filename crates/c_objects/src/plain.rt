//! Structs that C reads; `bindings/include/jeihpal.h` has the same.

/// A colour. Its kind is 0 for the terminal's own, 1 for a numbered one, and 2 for red, green and blue.
#[repr(C)]
#[derive(Clone, Copy)]
pub struct CColor {
    /// The kind: 0, 1 or 2.
    pub kind: u8,
    /// Red, or the number; else 0.
    pub red_or_index: u8,
    /// Green; else 0.
    pub green: u8,
    /// Blue; else 0.
    pub blue: u8,
}

/// A cell: its text, how many columns it takes, its attributes and its colours.
#[repr(C)]
#[derive(Clone, Copy)]
pub struct CCell {
    /// The text as UTF-8, padded with zeros.
    pub text: [u8; 32],
    /// How many bytes the text has.
    pub length: u8,
    /// How many columns the cell takes: 1 or 2, and 0 for the second half of a wide one.
    pub width: u8,
    /// Bits: 1 bold, 2 dim, 4 italic, 8 underlined, 16 inverse.
    pub attributes: u8,
    /// 0.
    pub reserved: u8,
    /// The text's colour.
    pub foreground: CColor,
    /// The background's colour.
    pub background: CColor,
}

/// How the next character is drawn. A switch is 0 or 1.
#[repr(C)]
#[derive(Clone, Copy)]
pub struct CDrawing {
    /// The text's colour.
    pub foreground: CColor,
    /// The background's colour.
    pub background: CColor,
    /// Whether it is bold.
    pub bold: u8,
    /// Whether it is dim.
    pub dim: u8,
    /// Whether it is in italics.
    pub italic: u8,
    /// Whether it is underlined.
    pub underlined: u8,
    /// Whether foreground and background are swapped.
    pub inverse: u8,
}

/// Size, cursor and modes. A switch is 0 or 1.
#[repr(C)]
#[derive(Clone, Copy)]
pub struct CLook {
    /// How many rows have scrolled off the top and are kept.
    pub kept: usize,
    /// How many of the kept rows are shown, above the others.
    pub scrolled: usize,
    /// The number of rows.
    pub rows: u16,
    /// The number of columns.
    pub cols: u16,
    /// The cursor's row, from 0.
    pub row: u16,
    /// The cursor's column, from 0; `cols` if the next character would wrap.
    pub col: u16,
    /// Whether the cursor is hidden.
    pub hidden: u8,
    /// The cursor's style: the number of DECSCUSR, 0 to 6.
    pub style: u8,
    /// Which mouse events are reported: 0 none, 1 to 4 xterm's modes 9, 1000, 1002 and 1003.
    pub mouse: u8,
    /// The encoding of mouse reports: 0 the default, 1 UTF-8 (1005), 2 decimal numbers (1006).
    pub encoding: u8,
    /// Whether the keypad sends application sequences.
    pub keypad: u8,
    /// Whether the cursor keys send application sequences.
    pub cursor_keys: u8,
    /// Whether pasted text is bracketed (private mode 2004).
    pub paste: u8,
    /// Whether the alternate screen is shown; 0 for a view.
    pub alternate: u8,
    /// Whether the program is in a synchronized update of its own; 0 for a view.
    pub updating: u8,
    /// Whether the screen has failed; 0 for a view.
    pub failed: u8,
}

/// A request of the program, beyond drawing.
#[repr(C)]
#[derive(Clone, Copy)]
pub struct CRequest {
    /// How many bytes of text the request has.
    pub length: usize,
    /// How many of these, at the start, are letters of clipboards.
    pub letters: usize,
    /// How many requests weren't queued so far.
    pub dropped: usize,
    /// The rows that are asked for; 0 if the request isn't for a size.
    pub rows: u16,
    /// The columns that are asked for; 0 if the request isn't for a size.
    pub cols: u16,
    /// The kind of the request; 0 if none is waiting.
    pub kind: u8,
}

/// What a recording says about itself.
#[repr(C)]
#[derive(Clone, Copy)]
pub struct CRecording {
    /// How many events there are.
    pub events: usize,
    /// Microseconds from the beginning to the last event.
    pub length: u64,
    /// The line of the first fault, from 1, or its byte, from 0; 0 if there is no fault.
    pub place: u64,
    /// The number of rows at first; 0 where the recording doesn't say it.
    pub rows: u16,
    /// The number of columns at first; 0 where the recording doesn't say it.
    pub cols: u16,
    /// The kind: 1 asciicast, 2 typescript, 3 ttyrec, 4 raw.
    pub kind: u8,
    /// The first fault: 0 none, 1 a line of an asciicast, 2 a byte of a ttyrec, 3 a line of a timing file.
    pub fault: u8,
}

/// An event of a recording.
#[repr(C)]
#[derive(Clone, Copy)]
pub struct CEvent {
    /// Microseconds since the beginning.
    pub time: u64,
    /// How many bytes of text the event has.
    pub length: usize,
    /// The rows of another size, else 0.
    pub rows: u16,
    /// The columns of another size, else 0.
    pub cols: u16,
    /// What the event does: 1 output, 2 another size, 3 a marker.
    pub kind: u8,
}
