//! What a parser reports to its performer.

use crate::params::Params;

/// An event of a byte stream, as a value. Each variant is a method of [`Perform`](crate::Perform).
#[derive(Clone, Copy)]
pub enum Event<'a> {
    /// A character of ground text that isn't a control.
    Print(char),
    /// A control: 0x00 to 0x1F, and U+0080 to U+009F as one byte. It is never ESC.
    Execute(u8),
    /// The header of a device control string.
    Hook {
        params: &'a Params,
        intermediates: &'a [u8],
        ignore: bool,
        action: char,
    },
    /// A byte of a device control string's data.
    Put(u8),
    /// The end of a device control string.
    Unhook,
    /// An operating system command.
    OscDispatch {
        params: &'a [&'a [u8]],
        bell_terminated: bool,
    },
    /// A control sequence.
    CsiDispatch {
        params: &'a Params,
        intermediates: &'a [u8],
        ignore: bool,
        action: char,
    },
    /// An escape sequence.
    EscDispatch {
        intermediates: &'a [u8],
        ignore: bool,
        byte: u8,
    },
}
