//! Colours.
ghost use Rattle.std.specs.Prelude.{◌≡◌};
ghost use Rattle.vte_types.specs.Color.{bright_of, dim_of, DimUndoesBright, BrightUndoesDim};

use crate::rgb::Rgb;

/// A colour with a name. Its number (`as u16`) is its index in a palette. 0 to 15 are the colours of SGR 30 to 37 and
/// 90 to 97. From 256 on are those that OSC 10 to 12 set, and the dim ones.
#[derive(Clone, Copy, PartialEq, Eq, Debug)]
pub enum NamedColor {
    /// 0: SGR 30 and 40.
    Black = 0,
    /// 1: SGR 31 and 41.
    Red,
    /// 2: SGR 32 and 42.
    Green,
    /// 3: SGR 33 and 43.
    Yellow,
    /// 4: SGR 34 and 44.
    Blue,
    /// 5: SGR 35 and 45.
    Magenta,
    /// 6: SGR 36 and 46.
    Cyan,
    /// 7: SGR 37 and 47.
    White,
    /// 8: SGR 90 and 100.
    BrightBlack,
    /// 9: SGR 91 and 101.
    BrightRed,
    /// 10: SGR 92 and 102.
    BrightGreen,
    /// 11: SGR 93 and 103.
    BrightYellow,
    /// 12: SGR 94 and 104.
    BrightBlue,
    /// 13: SGR 95 and 105.
    BrightMagenta,
    /// 14: SGR 96 and 106.
    BrightCyan,
    /// 15: SGR 97 and 107.
    BrightWhite,
    /// 256: the text's own colour, SGR 39 and OSC 10.
    Foreground = 256,
    /// 257: the background's own colour, SGR 49 and OSC 11.
    Background,
    /// 258: the cursor's own colour, OSC 12.
    Cursor,
    /// 259: black for dim text.
    DimBlack,
    /// 260: red for dim text.
    DimRed,
    /// 261: green for dim text.
    DimGreen,
    /// 262: yellow for dim text.
    DimYellow,
    /// 263: blue for dim text.
    DimBlue,
    /// 264: magenta for dim text.
    DimMagenta,
    /// 265: cyan for dim text.
    DimCyan,
    /// 266: white for dim text.
    DimWhite,
    /// 267: the text's own colour for bold text.
    BrightForeground,
    /// 268: the text's own colour for dim text.
    DimForeground,
}

/// The numbers of the colours that SGR names.
const _: () = prove!(
    NamedColor::Black as u16 == 0
        && NamedColor::Red as u16 == 1
        && NamedColor::Green as u16 == 2
        && NamedColor::Yellow as u16 == 3
        && NamedColor::Blue as u16 == 4
        && NamedColor::Magenta as u16 == 5
        && NamedColor::Cyan as u16 == 6
        && NamedColor::White as u16 == 7
        && NamedColor::BrightBlack as u16 == 8
        && NamedColor::BrightRed as u16 == 9
        && NamedColor::BrightGreen as u16 == 10
        && NamedColor::BrightYellow as u16 == 11
        && NamedColor::BrightBlue as u16 == 12
        && NamedColor::BrightMagenta as u16 == 13
        && NamedColor::BrightCyan as u16 == 14
        && NamedColor::BrightWhite as u16 == 15
);

/// The numbers of the colours that OSC 10 to 12 set, and of the dim ones.
const _: () = prove!(
    NamedColor::Foreground as u16 == 256
        && NamedColor::Background as u16 == 257
        && NamedColor::Cursor as u16 == 258
        && NamedColor::DimBlack as u16 == 259
        && NamedColor::DimRed as u16 == 260
        && NamedColor::DimGreen as u16 == 261
        && NamedColor::DimYellow as u16 == 262
        && NamedColor::DimBlue as u16 == 263
        && NamedColor::DimMagenta as u16 == 264
        && NamedColor::DimCyan as u16 == 265
        && NamedColor::DimWhite as u16 == 266
        && NamedColor::BrightForeground as u16 == 267
        && NamedColor::DimForeground as u16 == 268
);

impl NamedColor {
    /// The next brighter colour: bright for normal, normal for dim. A colour without one stays.
    pub fn to_bright(self) -> Self
        ensures { result ≡ bright_of self }
    {
        match self {
            NamedColor::Foreground => NamedColor::BrightForeground,
            NamedColor::Black => NamedColor::BrightBlack,
            NamedColor::Red => NamedColor::BrightRed,
            NamedColor::Green => NamedColor::BrightGreen,
            NamedColor::Yellow => NamedColor::BrightYellow,
            NamedColor::Blue => NamedColor::BrightBlue,
            NamedColor::Magenta => NamedColor::BrightMagenta,
            NamedColor::Cyan => NamedColor::BrightCyan,
            NamedColor::White => NamedColor::BrightWhite,
            NamedColor::DimForeground => NamedColor::Foreground,
            NamedColor::DimBlack => NamedColor::Black,
            NamedColor::DimRed => NamedColor::Red,
            NamedColor::DimGreen => NamedColor::Green,
            NamedColor::DimYellow => NamedColor::Yellow,
            NamedColor::DimBlue => NamedColor::Blue,
            NamedColor::DimMagenta => NamedColor::Magenta,
            NamedColor::DimCyan => NamedColor::Cyan,
            NamedColor::DimWhite => NamedColor::White,
            kept => kept,
        }
    }

    /// The next dimmer colour: dim for normal, normal for bright. A colour without one stays.
    pub fn to_dim(self) -> Self
        ensures { result ≡ dim_of self }
    {
        match self {
            NamedColor::Black => NamedColor::DimBlack,
            NamedColor::Red => NamedColor::DimRed,
            NamedColor::Green => NamedColor::DimGreen,
            NamedColor::Yellow => NamedColor::DimYellow,
            NamedColor::Blue => NamedColor::DimBlue,
            NamedColor::Magenta => NamedColor::DimMagenta,
            NamedColor::Cyan => NamedColor::DimCyan,
            NamedColor::White => NamedColor::DimWhite,
            NamedColor::Foreground => NamedColor::DimForeground,
            NamedColor::BrightBlack => NamedColor::Black,
            NamedColor::BrightRed => NamedColor::Red,
            NamedColor::BrightGreen => NamedColor::Green,
            NamedColor::BrightYellow => NamedColor::Yellow,
            NamedColor::BrightBlue => NamedColor::Blue,
            NamedColor::BrightMagenta => NamedColor::Magenta,
            NamedColor::BrightCyan => NamedColor::Cyan,
            NamedColor::BrightWhite => NamedColor::White,
            NamedColor::BrightForeground => NamedColor::Foreground,
            kept => kept,
        }
    }
}

/// `to_dim` undoes `to_bright` on every colour that isn't bright, and `to_bright` undoes `to_dim` on every one that
/// isn't dim.
pub fn bright_and_dim_undo_each_other()
    ensures dim { DimUndoesBright }
    ensures bright { BrightUndoesDim }
{}

/// A colour.
#[derive(Clone, Copy, PartialEq, Eq, Debug)]
pub enum Color {
    /// A colour with a name: SGR 30 to 37, 39 to 47, 49, 90 to 97 and 100 to 107.
    Named(NamedColor),
    /// Red, green and blue: SGR 38, 48 and 58 with 2.
    Spec(Rgb),
    /// An index in the palette of 256 colours: SGR 38, 48 and 58 with 5.
    Indexed(u8),
}
