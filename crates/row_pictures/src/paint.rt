//! The colours of cells as red, green and blue.

ghost use Rattle.std.specs.Prelude.{◌≡◌, ◌+◌, ◌/◌, ◌%◌};
ghost use Rattle.row_pictures.specs.Paint.{back_color, between as between_of, bright, brightened as brightened_of};
ghost use Rattle.row_pictures.specs.Paint.{level as level_of};
ghost use Rattle.row_pictures.specs.Paint.{numbered as numbered_of, painted as painted_of, text_color};

use crate::look::Look;
use crate::style::Style;
use crate::theme::Theme;
use picture_page::Rgb;
use vt100_forms::Color;

// How much red, green or blue the steps of the colour cube have.
const LEVELS: [u8; 6] = [0, 95, 135, 175, 215, 255];

/// The colours of a text and of its background.
#[derive(Clone, Copy)]
pub(crate) struct Paint {
    pub(crate) fgcolor: Rgb,
    pub(crate) bgcolor: Rgb,
}

impl Paint {
    /// The colours of a style. Inverse ones are swapped, and a dim text is halfway to its background.
    pub(crate) fn of(style: Style, look: &Look) -> Self
        ensures text { result.fgcolor ≡ text_color look.now style }
        ensures back { result.bgcolor ≡ back_color look.now style }
    {
        let theme = look.theme;
        let bright = is_bright(look) && style.bold;
        let mut fgcolor = painted(brightened(style.fgcolor, bright), theme.fgcolor, theme);
        let mut bgcolor = painted(style.bgcolor, theme.bgcolor, theme);
        if style.inverse {
            (fgcolor, bgcolor) = (bgcolor, fgcolor);
        }
        if style.dim {
            fgcolor = between(fgcolor, bgcolor);
        }
        Paint { fgcolor, bgcolor }
    }
}

// Whether bold texts in the first eight colours have the bright ones: where the look doesn't say it, the theme does.
fn is_bright(look: &Look) -> bool
    ensures { result ≡ bright look.now.theme look.now.bold_is_bright }
{
    look.bold_is_bright.unwrap_or(look.theme.bold_is_bright)
}

// The bright one of the first eight colours, if it is wanted.
fn brightened(color: Color, bright: bool) -> Color
    ensures { result ≡ brightened_of bright color }
{
    match color {
        Color::Idx(index) if bright && index < 8 => Color::Idx(index + 8),
        color => color,
    }
}

fn painted(color: Color, default: Rgb, theme: Theme) -> Rgb
    ensures { result ≡ painted_of theme default color }
{
    match color {
        Color::Default => default,
        Color::Idx(index) => numbered(index, theme),
        Color::Rgb(red, green, blue) => Rgb { red, green, blue },
    }
}

// One of 256 colours: sixteen of the theme, and xterm's cube of six steps a side and 24 greys.
fn numbered(index: u8, theme: Theme) -> Rgb
    ensures { result ≡ numbered_of theme index }
{
    if index < 16 {
        return theme.colors[usize::from(index)];
    }
    if index < 232 {
        let place = index - 16;
        return Rgb {
            red: level(place / 36),
            green: level(place / 6),
            blue: level(place),
        };
    }
    let grey = (index - 232).saturating_mul(10).saturating_add(8);
    Rgb {
        red: grey,
        green: grey,
        blue: grey,
    }
}

fn level(step: u8) -> u8
    ensures { result ≡ level_of (step % 6) }
{
    LEVELS[usize::from(step % 6)]
}

fn between(one: Rgb, other: Rgb) -> Rgb
    ensures { result ≡ between_of one other }
{
    Rgb {
        red: mean(one.red, other.red),
        green: mean(one.green, other.green),
        blue: mean(one.blue, other.blue),
    }
}

fn mean(one: u8, other: u8) -> u8
    ensures { result ≡ one / 2 + other / 2 }
{
    one / 2 + other / 2
}
