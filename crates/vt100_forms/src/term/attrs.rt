//! Escape sequences that set attributes (SGR: ECMA-48, and xterm's for colours).
ghost use Rattle.std.specs.Prelude.{◌≡◌, ◌≤◌, ◌<◌, ◌+◌, ◌*◌, length, List, [], ◌∷◌, ◌++◌};
ghost use Rattle.vt100_forms.specs.Form.{Form, bytes_of};
ghost use Rattle.vt100_forms.specs.Form.{changed_color, changed_intensity, changed_flag, color_part, flag_part};
ghost use Rattle.vt100_forms.specs.Form.{further_numbers};
ghost use Rattle.arrayvec.specs.ArrayVec.{array_vec_len};

use super::{BufWrite, FormText, Intensity, push_number};
use crate::attrs;
use crate::attrs::Color;
use crate::error::GridError;
use crate::text_run::TextRun;
use arrayvec::ArrayVec;
use std::marker::Model;

/// Sets the default attributes (SGR).
#[derive(Debug, Default, Drop)]
pub struct ClearAttrs;

impl BufWrite for ClearAttrs {
    ghost forms = { λ _. Form.ClearAttrs ∷ [] };

    fn as_text<'a>(&self, _room: &'a mut FormText) -> &'a str {
        "\x1b[m"
    }
}

/// Sets the attributes that its methods name (SGR). It has no bytes if none is named.
#[derive(Debug, Default, Drop)]
pub struct Attrs {
    fgcolor: Option<Color>,
    bgcolor: Option<Color>,
    intensity: Option<Intensity>,
    italic: Option<bool>,
    underline: Option<bool>,
    inverse: Option<bool>,
}

impl Model for Attrs {
    ghost use Rattle.vt100_forms.specs.Form.{Change};

    ghost Value = { Change };

    ghost view = { λ a. record {
      fgcolor = a.fgcolor;
      bgcolor = a.bgcolor;
      intensity = a.intensity;
      italic = a.italic;
      underline = a.underline;
      inverse = a.inverse;
    } };
}

impl Attrs {
    ghost use Rattle.vt100_forms.specs.Form.{changed_attrs, sgr_numbers};

    /// Names the foreground colour to set (SGR 30 to 37, 90 to 97, 38 and 39).
    pub fn fgcolor(mut self, fgcolor: Color) -> Self
        ensures { result ≡ record self { fgcolor = Some fgcolor } }
    {
        self.fgcolor = Some(fgcolor);
        self
    }

    /// Names the background colour to set (SGR 40 to 47, 100 to 107, 48 and 49).
    pub fn bgcolor(mut self, bgcolor: Color) -> Self
        ensures { result ≡ record self { bgcolor = Some bgcolor } }
    {
        self.bgcolor = Some(bgcolor);
        self
    }

    /// Names the intensity to set (SGR 1, 2 and 22).
    pub fn intensity(mut self, intensity: Intensity) -> Self
        ensures { result ≡ record self { intensity = Some intensity } }
    {
        self.intensity = Some(intensity);
        self
    }

    /// Sets italic, or resets it (SGR 3 and 23).
    pub fn italic(mut self, italic: bool) -> Self
        ensures { result ≡ record self { italic = Some italic } }
    {
        self.italic = Some(italic);
        self
    }

    /// Sets underlining, or resets it (SGR 4 and 24).
    pub fn underline(mut self, underline: bool) -> Self
        ensures { result ≡ record self { underline = Some underline } }
    {
        self.underline = Some(underline);
        self
    }

    /// Sets inverse, or resets it (SGR 7 and 27).
    pub fn inverse(mut self, inverse: bool) -> Self
        ensures { result ≡ record self { inverse = Some inverse } }
    {
        self.inverse = Some(inverse);
        self
    }

    // The attributes of `new` that differ from those of `old`.
    #[inline(always)]
    pub(crate) fn of_change(old: &attrs::Attrs, new: &attrs::Attrs) -> Self
        ensures { result ≡ changed_attrs old.now new.now }
    {
        Attrs {
            fgcolor: changed_color(old.fgcolor, new.fgcolor),
            bgcolor: changed_color(old.bgcolor, new.bgcolor),
            intensity: changed_intensity(old.intensity(), new.intensity()),
            italic: changed_flag(old.italic(), new.italic()),
            underline: changed_flag(old.underline(), new.underline()),
            inverse: changed_flag(old.inverse(), new.inverse()),
        }
    }

    // Appends the SGR parameters.
    #[inline(always)]
    fn push_numbers(&self, numbers: &mut Numbers)
        requires { array_vec_len numbers.old ≡ 0 }
        ensures { numbers.new.items ≡ numbers.old.items ++ sgr_numbers self.now }
    {
        push_color(numbers, 30, self.fgcolor);
        push_color(numbers, 40, self.bgcolor);
        if let Some(intensity) = self.intensity {
            numbers.push(match intensity {
                Intensity::Normal => 22,
                Intensity::Bold => 1,
                Intensity::Dim => 2,
            });
        }
        push_flag(numbers, 3, 23, self.italic);
        push_flag(numbers, 4, 24, self.underline);
        push_flag(numbers, 7, 27, self.inverse);
    }
}

fn changed_color(old: Color, new: Color) -> Option<Color>
    ensures { result ≡ changed_color old new }
{
    if new == old { None } else { Some(new) }
}

fn changed_intensity(old: Intensity, new: Intensity) -> Option<Intensity>
    ensures { result ≡ changed_intensity old new }
{
    if new == old { None } else { Some(new) }
}

fn changed_flag(old: bool, new: bool) -> Option<bool>
    ensures { result ≡ changed_flag old new }
{
    if new == old { None } else { Some(new) }
}

// At most five for each colour and one for each of the others.
type Numbers = ArrayVec<u8, 14>;

// The parameters of a colour; `base` is 30 for the foreground, 40 for the background.
fn push_color(numbers: &mut Numbers, base: u8, color: Option<Color>)
    requires room { array_vec_len numbers.old ≤ 9 }
    requires base { base ≤ 40 }
    ensures items { numbers.new.items ≡ numbers.old.items ++ color_part base color }
    ensures len { array_vec_len numbers.new ≤ array_vec_len numbers.old + 5 }
{
    match color {
        None => {}
        Some(Color::Default) => numbers.push(base + 9),
        Some(Color::Idx(i)) => {
            if i < 8 {
                numbers.push(base + i);
            } else if i < 16 {
                numbers.push(base + 52 + i);
            } else {
                numbers.push(base + 8);
                numbers.push(5);
                numbers.push(i);
            }
        }
        Some(Color::Rgb(r, g, b)) => {
            numbers.push(base + 8);
            numbers.push(2);
            numbers.push(r);
            numbers.push(g);
            numbers.push(b);
        }
    }
}

fn push_flag(numbers: &mut Numbers, on: u8, off: u8, flag: Option<bool>)
    requires { array_vec_len numbers.old < 14 }
    ensures items { numbers.new.items ≡ numbers.old.items ++ flag_part on off flag }
    ensures len { array_vec_len numbers.new ≤ array_vec_len numbers.old + 1 }
{
    match flag {
        None => {}
        Some(true) => numbers.push(on),
        Some(false) => numbers.push(off),
    }
}

impl Attrs {
    /// Appends the escape sequence's bytes to `run`.
    // Inlined, like `of_change`: so what differs needn't be kept before it is written.
    #[inline(always)]
    pub(crate) fn push_to(&self, run: &mut TextRun)
        requires { length run.old + 58 ≤ 192 }
        ensures bytes { run.new ≡ run.old ++ bytes_of (Form.Sgr self.now ∷ []) }
        ensures len { length run.new ≤ length run.old + 58 }
    {
        let mut numbers = Numbers::new();
        self.push_numbers(&mut numbers);
        let [first, rest @ ..] = numbers.as_slice() else {
            return;
        };
        run.push_ascii(b'\x1b');
        run.push_ascii(b'[');
        push_number(run, u32::from(*first));
        push_further(run, rest);
        run.push_ascii(b'm');
    }
}

impl BufWrite for Attrs {
    ghost forms = { λ a. Form.Sgr a ∷ [] };

    fn as_text<'a>(&self, room: &'a mut FormText) -> &'a str {
        let mut run = TextRun::new();
        self.push_to(&mut run);
        room.push_str(run.as_str());
        room.as_str()
    }

    fn write_buf(&self, buf: &mut String) -> Result<(), GridError> {
        let mut run = TextRun::new();
        self.push_to(&mut run);
        run.move_to(buf)?;
        Ok(())
    }
}

fn push_further(run: &mut TextRun, numbers: &[u8])
    requires { length run.old + 4 * length numbers.now ≤ 192 }
    ensures bytes { run.new ≡ run.old ++ further_numbers numbers.now }
    ensures len { length run.new ≤ length run.old + 4 * length numbers.now }
{
    for n in numbers {
        run.push_ascii(b';');
        push_number(run, u32::from(*n));
    }
}
