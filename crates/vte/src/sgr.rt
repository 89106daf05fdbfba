//! SGR: the attributes that groups of numbers ask for (ECMA-48 8.3.117; colours by ITU-T T.416).
ghost use Rattle.std.specs.Prelude.{◌≡◌, ◌≤◌, ℕ, List, length, ◌∷◌, [], ◌++◌, map, MatchOption, option_to_list};
ghost use Rattle.std.specs.Prelude.{◌+◌, ◌<◌, ◌≢◌, Some, drop};
ghost use Rattle.std.specs.Option.{option_map};
ghost use Rattle.vte_types.specs.Call.{Calls, terminal_attribute};
ghost use Rattle.vte_types.specs.Lookup.{lookup};
ghost use Rattle.vte_types.specs.declared.attr.Attr.TheVariants as said;
ghost use Rattle.vte_types.specs.declared.color.Color.TheVariants.{Named};
ghost use Rattle.vte.specs.Sgr.{singles, rgb_color, indexed_color, group_color, colored, target_of};
ghost use Rattle.vte.specs.Sgr.{first, attributes, nothing, selector, underline_of, group_attr, awaited};
ghost use Rattle.vte.specs.SgrSteps.{SetsFirst};
ghost use Rattle.vte_core.specs.Store.{each_alone};

use vte_core::{Params, ParamsIter};
use vte_types::attr::Attr;
use vte_types::color::{Color, NamedColor};
use vte_types::handler::Handler;
use vte_types::rgb::Rgb;

/// The normal colour of SGR 30 + n and 40 + n.
fn normal(number: u16) -> NamedColor
    requires { number < 8 }
    ensures text { lookup (30 + number) singles ≡ Some (said.Foreground (Named result)) }
    ensures ground { lookup (40 + number) singles ≡ Some (said.Background (Named result)) }
{
    match number {
        0 => NamedColor::Black,
        1 => NamedColor::Red,
        2 => NamedColor::Green,
        3 => NamedColor::Yellow,
        4 => NamedColor::Blue,
        5 => NamedColor::Magenta,
        6 => NamedColor::Cyan,
        _ => NamedColor::White,
    }
}

/// The bright colour of SGR 90 + n and 100 + n.
fn bright(number: u16) -> NamedColor
    requires { number < 8 }
    ensures text { lookup (90 + number) singles ≡ Some (said.Foreground (Named result)) }
    ensures ground { lookup (100 + number) singles ≡ Some (said.Background (Named result)) }
{
    match number {
        0 => NamedColor::BrightBlack,
        1 => NamedColor::BrightRed,
        2 => NamedColor::BrightGreen,
        3 => NamedColor::BrightYellow,
        4 => NamedColor::BrightBlue,
        5 => NamedColor::BrightMagenta,
        6 => NamedColor::BrightCyan,
        _ => NamedColor::BrightWhite,
    }
}

/// Makes the call of a group of one number, if that sets an attribute by itself. The numbers that are frequent in most
/// streams are compared first, since a jump by a table is often mispredicted.
#[inline(always)]
fn set_single<H: Handler>(handler: &mut H, code: u16)
    ensures { Calls H.step handler.old (map terminal_attribute (option_to_list (lookup code singles))) handler.new }
{
    match code {
        0 => handler.terminal_attribute(Attr::Reset),
        30..=37 => set_foreground(handler, normal(code - 30)),
        40..=47 => set_background(handler, normal(code - 40)),
        39 => set_foreground(handler, NamedColor::Foreground),
        _ => set_any_single(handler, code),
    }
}

/// Makes the call of any group of one number, if that sets an attribute by itself, by the whole table.
// It isn't inlined, so that the frequent numbers need no stack for its calls.
#[inline(never)]
fn set_any_single<H: Handler>(handler: &mut H, code: u16)
    ensures { Calls H.step handler.old (map terminal_attribute (option_to_list (lookup code singles))) handler.new }
{
    match code {
        0 => handler.terminal_attribute(Attr::Reset),
        1 => handler.terminal_attribute(Attr::Bold),
        2 => handler.terminal_attribute(Attr::Dim),
        3 => handler.terminal_attribute(Attr::Italic),
        4 => handler.terminal_attribute(Attr::Underline),
        5 => handler.terminal_attribute(Attr::BlinkSlow),
        6 => handler.terminal_attribute(Attr::BlinkFast),
        7 => handler.terminal_attribute(Attr::Reverse),
        8 => handler.terminal_attribute(Attr::Hidden),
        9 => handler.terminal_attribute(Attr::Strike),
        21 => handler.terminal_attribute(Attr::CancelBold),
        22 => handler.terminal_attribute(Attr::CancelBoldDim),
        23 => handler.terminal_attribute(Attr::CancelItalic),
        24 => handler.terminal_attribute(Attr::CancelUnderline),
        25 => handler.terminal_attribute(Attr::CancelBlink),
        27 => handler.terminal_attribute(Attr::CancelReverse),
        28 => handler.terminal_attribute(Attr::CancelHidden),
        29 => handler.terminal_attribute(Attr::CancelStrike),
        30..=37 => set_foreground(handler, normal(code - 30)),
        39 => set_foreground(handler, NamedColor::Foreground),
        40..=47 => set_background(handler, normal(code - 40)),
        49 => set_background(handler, NamedColor::Background),
        59 => handler.terminal_attribute(Attr::UnderlineColor(None)),
        90..=97 => set_foreground(handler, bright(code - 90)),
        100..=107 => set_background(handler, bright(code - 100)),
        _ => {}
    }
}

/// Makes the call that sets the text's colour to a named one.
#[inline(always)]
fn set_foreground<H: Handler>(handler: &mut H, color: NamedColor)
    ensures { H.step handler.old (terminal_attribute (said.Foreground (Named color))) handler.new }
{
    handler.terminal_attribute(Attr::Foreground(Color::Named(color)));
}

/// Makes the call that sets the background's colour to a named one.
#[inline(always)]
fn set_background<H: Handler>(handler: &mut H, color: NamedColor)
    ensures { H.step handler.old (terminal_attribute (said.Background (Named color))) handler.new }
{
    handler.terminal_attribute(Attr::Background(Color::Named(color)));
}

/// A colour by red, green and blue, each at most 255; else `None`.
fn rgb(r: u16, g: u16, b: u16) -> Option<Color>
    ensures { result ≡ rgb_color r g b }
{
    if r < 256 && g < 256 && b < 256 {
        Some(Color::Spec(Rgb {
            r: r as u8,
            g: g as u8,
            b: b as u8,
        }))
    } else {
        None
    }
}

/// The colour of the palette with this index, at most 255; else `None`.
fn indexed(i: u16) -> Option<Color>
    ensures { result ≡ indexed_color i }
{
    if i < 256 {
        Some(Color::Indexed(i as u8))
    } else {
        None
    }
}

/// The colour whose numbers are in one group, after its 38, 48 or 58.
fn color_in_group(numbers: &[u16]) -> Option<Color>
    ensures { result ≡ group_color numbers.now }
{
    match numbers {
        [2, _, r, g, b, ..] => rgb(*r, *g, *b),
        [2, r, g, b] => rgb(*r, *g, *b),
        [5, i] | [5, i, _] | [5, i, _, _] | [5, _, i, _, _, ..] => indexed(*i),
        _ => None,
    }
}

/// What a colour is set for.
#[derive(Clone, Copy)]
pub enum Target {
    /// SGR 38: the text.
    Foreground,
    /// SGR 48: the background.
    Background,
    /// SGR 58: the underline.
    Underline,
}

/// The attribute that sets a colour.
fn in_color(target: Target, color: Color) -> Attr
    ensures { result ≡ colored target color }
{
    match target {
        Target::Foreground => Attr::Foreground(color),
        Target::Background => Attr::Background(color),
        Target::Underline => Attr::UnderlineColor(Some(color)),
    }
}

/// Which attribute SGR 38, 48 or 58 sets.
fn target_for(code: u16) -> Option<Target>
    ensures { result ≡ target_of code }
{
    match code {
        38 => Some(Target::Foreground),
        48 => Some(Target::Background),
        58 => Some(Target::Underline),
        _ => None,
    }
}

/// The underline of SGR 4 with a style's number.
fn underline(style: u16) -> Attr
    ensures { result ≡ underline_of style [] }
{
    match style {
        0 => Attr::CancelUnderline,
        2 => Attr::DoubleUnderline,
        3 => Attr::Undercurl,
        4 => Attr::DottedUnderline,
        5 => Attr::DashedUnderline,
        _ => Attr::Underline,
    }
}

/// The first number of the next group.
pub fn next_number(groups: &mut ParamsIter<'_>) -> Option<u16>
    ensures { MatchOption result ((groups.old ≡ []) × (groups.new ≡ [])) (λ n. (g : List ℕ)
        × (groups.old ≡ g ∷ groups.new) × (n ≡ first g)) }
{
    match groups.next()? {
        [] => Some(0),
        [number, ..] => Some(*number),
    }
}

/// The colour whose numbers are groups of their own, after 38, 48 or 58.
fn color_in_groups(groups: &mut ParamsIter<'_>) -> Option<Color>
    ensures gives { (t : Target) → attributes (selector t) groups.old
        ≡ option_to_list (option_map (colored t) result) ++ attributes nothing groups.new }
    ensures shorter { length groups.new ≤ length groups.old }
{
    match next_number(groups)? {
        2 => {
            let red = next_number(groups)?;
            if red > 255 {
                return None;
            }
            let green = next_number(groups)?;
            if green > 255 {
                return None;
            }
            let blue = next_number(groups)?;
            rgb(red, green, blue)
        }
        5 => {
            let index = next_number(groups)?;
            indexed(index)
        }
        _ => None,
    }
}

/// Makes the call of a group of one number. A colour also takes the groups after it that hold its numbers.
#[inline(always)]
fn set_code<H: Handler>(handler: &mut H, code: u16, groups: &mut ParamsIter<'_>)
    ensures calls { SetsFirst H.step (code ∷ []) handler.old groups.old handler.new groups.new }
    ensures shorter { length groups.new ≤ length groups.old }
{
    match code {
        38 => {
            if let Some(color) = color_in_groups(groups) {
                handler.terminal_attribute(Attr::Foreground(color));
            }
        }
        48 => {
            if let Some(color) = color_in_groups(groups) {
                handler.terminal_attribute(Attr::Background(color));
            }
        }
        58 => {
            if let Some(color) = color_in_groups(groups) {
                handler.terminal_attribute(Attr::UnderlineColor(Some(color)));
            }
        }
        _ => set_single(handler, code),
    }
}

/// The attribute that a group sets that isn't of one number.
fn attribute(group: &[u16]) -> Option<Attr>
    requires { length group.now ≢ 1 }
    ensures gives { result ≡ group_attr group.now }
    ensures ends { awaited group.now ≡ nothing }
{
    match group {
        [] => None,
        [4, style] => Some(underline(*style)),
        [4, ..] => Some(Attr::Underline),
        [code, numbers @ ..] => Some(in_color(target_for(*code)?, color_in_group(numbers)?)),
    }
}

/// Makes the calls of groups.
// It isn't inlined, since each call of `sgr` would get a copy of it.
#[inline(never)]
fn set_groups<H: Handler>(handler: &mut H, params: &Params)
    ensures { Calls H.step handler.old (map terminal_attribute (attributes nothing params.now)) handler.new }
{
    let mut groups = params.iter();
    while let Some(group) = groups.next() {
        match group {
            [code] => set_code(handler, *code, &mut groups),
            _ => {
                if let Some(attr) = attribute(group) {
                    handler.terminal_attribute(attr);
                }
            }
        }
    }
}

/// The colour whose numbers follow 38, 48 or 58, each in a group of its own, and how many of them are read.
#[inline(always)]
fn color_in_numbers(numbers: &[u16]) -> (Option<Color>, usize)
    ensures gives { (t : Target) → attributes (selector t) (each_alone numbers.now)
        ≡ option_to_list (option_map (colored t) result.0)
        ++ attributes nothing (each_alone (drop result.1 numbers.now)) }
    ensures within { result.1 ≤ length numbers.now }
{
    match numbers {
        [5, i, ..] => (indexed(*i), 2),
        [2, r, g, b, ..] if *r < 256 && *g < 256 => (rgb(*r, *g, *b), 4),
        [2, r, _, ..] if *r < 256 => (None, 3),
        [2, _, ..] => (None, 2),
        [_, ..] => (None, 1),
        [] => (None, 0),
    }
}

/// Makes the call of a number in a group of its own. A colour also takes the numbers after it. Returns how many of
/// those it takes. The numbers that are frequent in most streams are compared here, and any other by the table.
#[inline(always)]
fn set_number<H: Handler>(handler: &mut H, code: u16, others: &[u16]) -> usize
    ensures calls { SetsFirst H.step (code ∷ []) handler.old (each_alone others.now) handler.new
        (each_alone (drop result others.now)) }
    ensures within { result ≤ length others.now }
{
    match code {
        38 => {
            let (color, len) = color_in_numbers(others);
            if let Some(color) = color {
                handler.terminal_attribute(Attr::Foreground(color));
            }
            len
        }
        48 => {
            let (color, len) = color_in_numbers(others);
            if let Some(color) = color {
                handler.terminal_attribute(Attr::Background(color));
            }
            len
        }
        58 => {
            let (color, len) = color_in_numbers(others);
            if let Some(color) = color {
                handler.terminal_attribute(Attr::UnderlineColor(Some(color)));
            }
            len
        }
        _ => {
            set_single(handler, code);
            0
        }
    }
}

/// Makes the calls of groups of one number each.
// It isn't inlined, since each call of `sgr` would get a copy of it.
#[inline(never)]
fn set_numbers<H: Handler>(handler: &mut H, numbers: &[u16])
    ensures { Calls H.step handler.old (map terminal_attribute (attributes nothing (each_alone numbers.now)))
        handler.new }
{
    let mut rest = numbers;
    while let [code, others @ ..] = rest {
        let len = set_number(handler, *code, others);
        rest = &others[len..];
    }
}

/// Makes the calls of an SGR sequence.
#[inline(always)]
pub fn sgr<H: Handler>(handler: &mut H, params: &Params)
    ensures { Calls H.step handler.old (map terminal_attribute (attributes nothing params.now)) handler.new }
{
    match params.numbers() {
        Some(numbers) => set_numbers(handler, numbers),
        None => set_groups(handler, params),
    }
}
