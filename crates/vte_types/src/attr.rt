//! Drawing attributes.
use crate::color::Color;

/// A change of the drawing attributes: one of SGR's numbers.
#[derive(Clone, Copy, PartialEq, Eq, Debug)]
pub enum Attr {
    /// SGR 0: all attributes are reset.
    Reset,
    /// SGR 1: bold.
    Bold,
    /// SGR 2: dim.
    Dim,
    /// SGR 3: italic.
    Italic,
    /// SGR 4: underlined.
    Underline,
    /// SGR 4:2: underlined twice.
    DoubleUnderline,
    /// SGR 4:3: underlined with a wave.
    Undercurl,
    /// SGR 4:4: underlined with dots.
    DottedUnderline,
    /// SGR 4:5: underlined with dashes.
    DashedUnderline,
    /// SGR 5: blinks slowly.
    BlinkSlow,
    /// SGR 6: blinks fast.
    BlinkFast,
    /// SGR 7: foreground and background are swapped.
    Reverse,
    /// SGR 8: hidden.
    Hidden,
    /// SGR 9: crossed out.
    Strike,
    /// SGR 21: no longer bold, as on the Linux console. In ECMA-48 it means underlined twice.
    CancelBold,
    /// SGR 22: neither bold nor dim.
    CancelBoldDim,
    /// SGR 23: not italic.
    CancelItalic,
    /// SGR 24 and 4:0: not underlined.
    CancelUnderline,
    /// SGR 25: doesn't blink.
    CancelBlink,
    /// SGR 27: foreground and background aren't swapped.
    CancelReverse,
    /// SGR 28: not hidden.
    CancelHidden,
    /// SGR 29: not crossed out.
    CancelStrike,
    /// SGR 30 to 39 and 90 to 97: the text's colour.
    Foreground(Color),
    /// SGR 40 to 49 and 100 to 107: the background's colour.
    Background(Color),
    /// SGR 58: the underline's colour. SGR 59: the text's colour again, as `None`.
    UnderlineColor(Option<Color>),
}
