//! The colour of a cell, as the cell holds it.
ghost use Rattle.std.specs.Prelude.{◌≡◌};
ghost use Rattle.vt100_forms.specs.Attrs.{color_eq};

use std::marker::Model;
use vt100_forms::Color;

/// Which colour it is.
#[derive(Clone, Copy, Debug, Eq, PartialEq)]
pub(crate) enum ColorKind {
    /// The terminal's own.
    Default,
    /// A numbered one.
    Idx,
    /// One of red, green and blue.
    Rgb,
}

/// A colour in four bytes, all of which are compared.
#[derive(Clone, Copy, Debug)]
pub(crate) struct CellColor {
    kind: ColorKind,
    // The number of a numbered colour, or red. Parts that a kind doesn't have are 0, so that equal colours have equal
    // fields.
    first: u8,
    green: u8,
    blue: u8,
}

impl Model for CellColor {
    ghost use Rattle.vt100_forms.specs.declared.attrs.Color.{Color};

    ghost Value = { Color };

    ghost use Rattle.vt100_cells.specs.ColorFields.{color_of, IsColor, parts_of, parts_of-color_of};

    ghost view = { color_of };

    ghost invariant = { IsColor };

    ghost inverse = { parts_of };

    ghost inverse_ok = { parts_of-color_of };
}

impl CellColor {
    #[inline]
    pub(crate) fn new(color: Color) -> Self
        ensures { result ≡ color }
    {
        let (kind, first, green, blue) = match color {
            Color::Default => (ColorKind::Default, 0, 0, 0),
            Color::Idx(i) => (ColorKind::Idx, i, 0, 0),
            Color::Rgb(r, g, b) => (ColorKind::Rgb, r, g, b),
        };
        CellColor {
            kind,
            first,
            green,
            blue,
        }
    }

    #[inline]
    pub(crate) fn color(self) -> Color
        ensures { result ≡ self }
    {
        match self.kind {
            ColorKind::Default => Color::Default,
            ColorKind::Idx => Color::Idx(self.first),
            ColorKind::Rgb => Color::Rgb(self.first, self.green, self.blue),
        }
    }

    /// Whether the colours are the same.
    #[inline(always)]
    pub(crate) fn is_same(&self, other: &Self) -> bool
        ensures { result ≡ color_eq self.now other.now }
    {
        (self.kind == other.kind)
            & (self.first == other.first)
            & (self.green == other.green)
            & (self.blue == other.blue)
    }

    /// Whether it is the terminal's own. Then all four bytes are 0.
    #[inline(always)]
    pub(crate) fn is_default(&self) -> bool
        ensures { result ≡ color_eq self.now Color.Default }
    {
        (self.kind == ColorKind::Default) & (self.first == 0) & (self.green == 0) & (self.blue == 0)
    }
}
