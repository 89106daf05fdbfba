//! Drawing attributes (SGR).
ghost use Rattle.std.specs.Prelude.{◌≡◌};
ghost use Rattle.termview.specs.Step.{with_attr, color_of, named_color};

use vt100_cells::PackedAttrs;
use vt100_forms::attrs::Color;
use vte_types::attr::Attr;
use vte_types::color::{Color as AnsiColor, NamedColor};

/// Changes one attribute. Attributes and colours that a `vt100` screen doesn't have change nothing.
#[inline(always)]
pub(crate) fn set_attribute(attrs: &mut PackedAttrs, attr: Attr)
    ensures { attrs.new ≡ with_attr attr attrs.old }
{
    match attr {
        Attr::Reset => *attrs = PackedAttrs::new(),
        Attr::Bold => attrs.set_bold(),
        Attr::Dim => attrs.set_dim(),
        Attr::CancelBoldDim => attrs.set_normal_intensity(),
        Attr::Italic => attrs.set_italic(true),
        Attr::CancelItalic => attrs.set_italic(false),
        Attr::Underline => attrs.set_underline(true),
        Attr::CancelUnderline => attrs.set_underline(false),
        Attr::Reverse => attrs.set_inverse(true),
        Attr::CancelReverse => attrs.set_inverse(false),
        Attr::Foreground(color) => {
            if let Some(color) = color_of(color) {
                attrs.set_fgcolor(color);
            }
        }
        Attr::Background(color) => {
            if let Some(color) = color_of(color) {
                attrs.set_bgcolor(color);
            }
        }
        _ => {}
    }
}

/// The colour as a `vt100` screen has it, if it does.
#[inline(always)]
fn color_of(color: AnsiColor) -> Option<Color>
    ensures { result ≡ color_of color }
{
    match color {
        AnsiColor::Named(named) => named_color(named),
        AnsiColor::Spec(rgb) => Some(Color::Rgb(rgb.r, rgb.g, rgb.b)),
        AnsiColor::Indexed(index) => Some(Color::Idx(index)),
    }
}

/// The number of one of the 16 named colours, or the terminal's default colour; no other name has a colour.
#[inline(always)]
fn named_color(named: NamedColor) -> Option<Color>
    ensures { result ≡ named_color named }
{
    let index = match named {
        NamedColor::Black => 0,
        NamedColor::Red => 1,
        NamedColor::Green => 2,
        NamedColor::Yellow => 3,
        NamedColor::Blue => 4,
        NamedColor::Magenta => 5,
        NamedColor::Cyan => 6,
        NamedColor::White => 7,
        NamedColor::BrightBlack => 8,
        NamedColor::BrightRed => 9,
        NamedColor::BrightGreen => 10,
        NamedColor::BrightYellow => 11,
        NamedColor::BrightBlue => 12,
        NamedColor::BrightMagenta => 13,
        NamedColor::BrightCyan => 14,
        NamedColor::BrightWhite => 15,
        NamedColor::Foreground | NamedColor::Background => return Some(Color::Default),
        _ => return None,
    };
    Some(Color::Idx(index))
}
