//! SGR: the drawing attributes (ECMA-48 8.3.117; colours by ITU-T T.416).
ghost use Rattle.std.specs.Prelude.{◌≡◌, ◌≢◌, ◌≤◌, ◌∷◌, [], Bool, false, length, drop, ok_or, IfOk};
ghost use Rattle.std.specs.Int.{is_in_range};
ghost use Rattle.vte_core.specs.Store.{each_alone};
ghost use Rattle.vt100_forms.specs.declared.attrs.Attrs.{Attrs};
ghost use Rattle.screen_model.specs.Sgr.{value, value_at, rgb, separate_color, code_row, read_on, read_groups};
ghost use Rattle.screen_model.specs.Sgr.{sgr_read};
ghost use Rattle.screen_model.specs.Effect.{attributes_read};
ghost use Rattle.vt100.specs.SgrReading.{read_of, group_led, color_led, code_applied, number_led, color_asked};
ghost use Rattle.vt100.specs.SgrReading.{unhandled_of};
ghost use Rattle.vt100.specs.Tries.{Counts};
ghost use Rattle.vt100.specs.declared.screen.sgr.End.TheVariants.{Value};

use crate::callbacks::Callbacks;
use crate::screen::WrappedScreen;
use vt100_cells::PackedAttrs;
use vt100_core::Color;
use vte_core::{Params, ParamsIter};

impl<CB: Callbacks> WrappedScreen<CB> {
    /// Changes the drawing attributes (SGR): 0 to 4, 7, 22 to 24, 27, the colours of 30 to 49, 90 to 97 and 100 to 107,
    /// those of 38 and 48 in one group or in groups of their own. Without any group the attributes become the default
    /// ones. A value past 255, or one that is missing, ends the reading; so does a kind of colour that is neither 2 nor
    /// 5. Returns how many groups were unhandled: such a kind, and any other group.
    // Most sequences are these. If this and text aren't inlined, coloured text takes 8 % more instructions.
    #[inline(always)]
    pub fn sgr(&mut self, params: &Params) -> usize
        ensures { Counts CB.scrolls (attributes_read params.now) self.old.screen self.old.callbacks result
            self.new.screen self.new.callbacks }
    {
        if self.screen.failed {
            return 0;
        }
        read_sgr(&mut self.screen.attrs, params)
    }
}

/// Reads all groups; without any the attributes become the default ones. Returns how many were unhandled.
#[inline(always)]
fn read_sgr(attrs: &mut PackedAttrs, params: &Params) -> usize
    ensures { read_of attrs.new result ≡ sgr_read params.now attrs.old }
{
    match params.numbers() {
        Some([code]) => read_alone(attrs, *code),
        _ => read_several(attrs, params),
    }
}

/// Reads a number that is the only group. Most sequences have one.
#[inline(never)]
fn read_alone(attrs: &mut PackedAttrs, code: u16) -> usize
    ensures { read_of attrs.new result ≡ sgr_read ((code ∷ []) ∷ []) attrs.old }
{
    match read_number(attrs, code, &[]) {
        Ok((unhandled, _)) => unhandled,
        Err(End::Value) => 0,
        Err(End::Kind) => 1,
    }
}

/// Reads all groups, as `read_sgr` does.
#[inline(never)]
fn read_several(attrs: &mut PackedAttrs, params: &Params) -> usize
    ensures { read_of attrs.new result ≡ sgr_read params.now attrs.old }
{
    match params.numbers() {
        Some([]) => {
            *attrs = PackedAttrs::new();
            0
        }
        Some(numbers) => read_numbers(attrs, numbers),
        None => read_groups(attrs, params),
    }
}

/// Why the reading ends before the last group.
#[derive(Clone, Copy)]
pub(super) enum End {
    /// A value is past 255, missing, or in a group with others.
    Value,
    /// A kind of colour is neither 2 nor 5.
    Kind,
}

/// Reads groups, from the first one on. Returns how many were unhandled.
fn read_groups(attrs: &mut PackedAttrs, params: &Params) -> usize
    ensures { read_of attrs.new result ≡ read_groups params.now 0 attrs.old }
{
    let mut unhandled = 0;
    let mut groups = params.iter();
    while let Some(group) = groups.next() {
        match read_group(attrs, group, &mut groups) {
            Ok(true) => {}
            Ok(false) => unhandled += 1,
            Err(End::Value) => return unhandled,
            Err(End::Kind) => return unhandled + 1,
        }
    }
    unhandled
}

/// Reads a group, and of those after it the ones that a colour in groups of its own takes. Returns whether it is
/// handled.
fn read_group(
    attrs: &mut PackedAttrs,
    group: &[u16],
    groups: &mut ParamsIter<'_>,
) -> Result<bool, End>
    ensures reads { read_groups (group.now ∷ groups.old) 0 attrs.old ≡ group_led result attrs.new groups.new }
    ensures shorter { length groups.new ≤ length groups.old }
{
    match group {
        [38] => attrs.set_fgcolor(color_in_groups(groups)?),
        [48] => attrs.set_bgcolor(color_in_groups(groups)?),
        [code] => return Ok(read_code(attrs, *code) == 0),
        [38, 2, r, g, b] => attrs.set_fgcolor(rgb(*r, *g, *b)?),
        [38, 5, i] => attrs.set_fgcolor(Color::Idx(value(*i)?)),
        [48, 2, r, g, b] => attrs.set_bgcolor(rgb(*r, *g, *b)?),
        [48, 5, i] => attrs.set_bgcolor(Color::Idx(value(*i)?)),
        _ => return Ok(false),
    }
    Ok(true)
}

/// Reads groups of one number each, as `read_groups` does.
fn read_numbers(attrs: &mut PackedAttrs, numbers: &[u16]) -> usize
    ensures { read_of attrs.new result ≡ read_groups (each_alone numbers.now) 0 attrs.old }
{
    let mut unhandled = 0;
    let mut rest = numbers;
    while let [code, others @ ..] = rest {
        match read_number(attrs, *code, others) {
            Ok((more, len)) => {
                unhandled += more;
                rest = &others[len..];
            }
            Err(End::Value) => return unhandled,
            Err(End::Kind) => return unhandled + 1,
        }
    }
    unhandled
}

/// Reads a number, and of those after it the ones that a colour takes. Returns how many groups are unhandled, and how
/// many numbers it takes.
#[inline(always)]
fn read_number(attrs: &mut PackedAttrs, code: u16, others: &[u16]) -> Result<(usize, usize), End>
    ensures reads { read_groups ((code ∷ []) ∷ each_alone others.now) 0 attrs.old
        ≡ number_led result attrs.new others.now }
    ensures few { IfOk result (λ x. x.0 ≤ 1) }
    ensures within { IfOk result (λ x. x.1 ≤ length others.now) }
{
    match code {
        38 => {
            let (color, len) = color_in_numbers(others)?;
            attrs.set_fgcolor(color);
            Ok((0, len))
        }
        48 => {
            let (color, len) = color_in_numbers(others)?;
            attrs.set_bgcolor(color);
            Ok((0, len))
        }
        _ => Ok((read_code(attrs, code), 0)),
    }
}

/// The colour at the start, its kind and its values, and how many numbers they are.
#[inline(always)]
fn color_in_numbers(numbers: &[u16]) -> Result<(Color, usize), End>
    ensures asks { (t : Bool) → separate_color t (each_alone numbers.now) ≡ color_asked t result }
    ensures within { IfOk result (λ x. x.1 ≤ length numbers.now) }
{
    match numbers {
        [kind, first, rest @ ..] => match (*kind, rest) {
            (5, _) => Ok((Color::Idx(value(*first)?), 2)),
            (2, [green, blue, ..]) => Ok((rgb(*first, *green, *blue)?, 4)),
            (2, _) => Err(End::Value),
            _ => Err(End::Kind),
        },
        [] | [2 | 5] => Err(End::Value),
        _ => Err(End::Kind),
    }
}

/// What a group of one number does, but for 38 and 48. Returns how many groups are unhandled. Comparisons distinguish
/// the most frequent numbers: a jump through a table costs more where its target changes.
// It isn't inlined, so that its two callers share it.
#[inline(never)]
fn read_code(attrs: &mut PackedAttrs, code: u16) -> usize
    ensures unhandled { result ≡ unhandled_of (code_row code) }
    ensures few { result ≤ 1 }
    ensures attrs { attrs.new ≡ code_applied (code_row code) attrs.old }
{
    match code {
        0 => *attrs = PackedAttrs::new(),
        1 => attrs.set_bold(),
        30..=37 => attrs.set_fgcolor(Color::Idx((code - 30) as u8)),
        _ => return read_any_code(attrs, code),
    }
    0
}

/// What any group of one number does, but for 38 and 48, by the whole table. Returns how many groups are unhandled.
// It isn't inlined, so that no jump through a table comes before the frequent numbers.
#[inline(never)]
fn read_any_code(attrs: &mut PackedAttrs, code: u16) -> usize
    ensures unhandled { result ≡ unhandled_of (code_row code) }
    ensures few { result ≤ 1 }
    ensures attrs { attrs.new ≡ code_applied (code_row code) attrs.old }
{
    match code {
        0 => *attrs = PackedAttrs::new(),
        1 => attrs.set_bold(),
        2 => attrs.set_dim(),
        3 => attrs.set_italic(true),
        4 => attrs.set_underline(true),
        7 => attrs.set_inverse(true),
        22 => attrs.set_normal_intensity(),
        23 => attrs.set_italic(false),
        24 => attrs.set_underline(false),
        27 => attrs.set_inverse(false),
        30..=37 => attrs.set_fgcolor(Color::Idx((code - 30) as u8)),
        39 => attrs.set_fgcolor(Color::Default),
        40..=47 => attrs.set_bgcolor(Color::Idx((code - 40) as u8)),
        49 => attrs.set_bgcolor(Color::Default),
        90..=97 => attrs.set_fgcolor(Color::Idx((code - 82) as u8)),
        100..=107 => attrs.set_bgcolor(Color::Idx((code - 92) as u8)),
        _ => return 1,
    }
    0
}

/// A colour in groups of its own: its kind, and its values.
fn color_in_groups(groups: &mut ParamsIter<'_>) -> Result<Color, End>
    ensures reads { (t : Bool) (a : Attrs) → read_on (read_groups groups.old) a (separate_color t groups.old)
        ≡ color_led t result a groups.new }
    ensures shorter { length groups.new ≤ length groups.old }
{
    match groups.next() {
        None => Err(End::Value),
        Some([2]) => rgb_in_groups(groups),
        Some([5]) => Ok(Color::Idx(next_value(groups)?)),
        Some(_) => Err(End::Kind),
    }
}

/// Red, green and blue in groups of their own.
fn rgb_in_groups(groups: &mut ParamsIter<'_>) -> Result<Color, End>
    ensures color { result
        ≡ ok_or (rgb (value_at groups.old 0) (value_at groups.old 1) (value_at groups.old 2)) Value }
    ensures rest { IfOk result (λ x. groups.new ≡ drop 3 groups.old) }
    ensures shorter { length groups.new ≤ length groups.old }
{
    let red = next_value(groups)?;
    let green = next_value(groups)?;
    let blue = next_value(groups)?;
    Ok(Color::Rgb(red, green, blue))
}

/// A value in a group of its own.
fn next_value(groups: &mut ParamsIter<'_>) -> Result<u8, End>
    ensures value { result ≡ ok_or (value_at groups.old 0) Value }
    ensures rest { groups.new ≡ drop 1 groups.old }
{
    match groups.next() {
        Some([number]) => value(*number),
        _ => Err(End::Value),
    }
}

fn rgb(red: u16, green: u16, blue: u16) -> Result<Color, End>
    ensures { result ≡ ok_or (rgb (value red) (value green) (value blue)) Value }
{
    Ok(Color::Rgb(value(red)?, value(green)?, value(blue)?))
}

fn value(number: u16) -> Result<u8, End>
    ensures { result ≡ ok_or (value number) Value }
{
    if number > 0xFF {
        return Err(End::Value);
    }
    Ok(number as u8)
}
