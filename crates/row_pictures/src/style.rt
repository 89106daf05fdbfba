//! How cells are drawn.

ghost use Rattle.std.specs.Prelude.{◌≡◌, true};
ghost use Rattle.row_pictures.specs.Paint.{style_of};
ghost use Rattle.row_pictures.specs.Unpadded.{has_color as has_color_of, shows_on_spaces};

use vt100_cells::Cell;
use vt100_forms::Color;

/// How a cell is drawn.
#[derive(Clone, Copy, PartialEq, Eq)]
pub struct Style {
    /// The colour of the text.
    pub fgcolor: Color,
    /// The colour of its background.
    pub bgcolor: Color,
    /// Bold.
    pub bold: bool,
    /// Dim.
    pub dim: bool,
    /// Italic.
    pub italic: bool,
    /// Underlined.
    pub underline: bool,
    /// The two colours are swapped.
    pub inverse: bool,
}

impl Style {
    /// How an untouched cell is drawn.
    pub const PLAIN: Style = Style {
        fgcolor: Color::Default,
        bgcolor: Color::Default,
        bold: false,
        dim: false,
        italic: false,
        underline: false,
        inverse: false,
    };

    /// How this cell is drawn.
    pub fn of(cell: &Cell) -> Self
        ensures { result ≡ style_of cell.now }
    {
        Style {
            fgcolor: cell.fgcolor(),
            bgcolor: cell.bgcolor(),
            bold: cell.bold(),
            dim: cell.dim(),
            italic: cell.italic(),
            underline: cell.underline(),
            inverse: cell.inverse(),
        }
    }

    /// Whether a space in it shows: it has a background colour, or is inverse or underlined.
    pub(crate) fn shows_on_spaces(self) -> bool
        ensures { result ≡ shows_on_spaces self }
    {
        has_color(self.bgcolor) || self.inverse || self.underline
    }

    /// Whether it is the same as another one.
    pub(crate) fn is_same(self, other: Style) -> bool
        ensures { result ≡ true → self ≡ other }
    {
        self == other
    }
}

fn has_color(color: Color) -> bool
    ensures { result ≡ has_color_of color }
{
    match color {
        Color::Default => false,
        Color::Idx(_) | Color::Rgb(..) => true,
    }
}
