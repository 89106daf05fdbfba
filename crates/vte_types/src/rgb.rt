//! Colours by red, green and blue.
ghost use Rattle.std.specs.Prelude.{◌≡◌, Some};
ghost use Rattle.vte_types.specs.Rgb.{DisplayIsRead, six_digits};

use crate::hex;
use std::fmt;
use std::ops::{Add, Sub};
use std::str::FromStr;

/// A colour by red, green and blue, each from 0 to 255.
#[derive(Clone, Copy, PartialEq, Eq, Debug)]
pub struct Rgb {
    /// Red.
    pub r: u8,
    /// Green.
    pub g: u8,
    /// Blue.
    pub b: u8,
}

/// Adds each part; a sum over 255 is 255.
impl Add for Rgb {
    ghost use Rattle.vte_types.specs.Rgb.{rgb_sum};

    type Output = Rgb;

    ghost add_gives = { λ x y z. z ≡ rgb_sum x y };

    fn add(self, rhs: Rgb) -> Rgb {
        Rgb {
            r: self.r.saturating_add(rhs.r),
            g: self.g.saturating_add(rhs.g),
            b: self.b.saturating_add(rhs.b),
        }
    }
}

/// Subtracts each part; a difference below 0 is 0.
impl Sub for Rgb {
    ghost use Rattle.vte_types.specs.Rgb.{rgb_difference};

    type Output = Rgb;

    ghost sub_gives = { λ x y z. z ≡ rgb_difference x y };

    fn sub(self, rhs: Rgb) -> Rgb {
        Rgb {
            r: self.r.saturating_sub(rhs.r),
            g: self.g.saturating_sub(rhs.g),
            b: self.b.saturating_sub(rhs.b),
        }
    }
}

/// Writes `#` and two hexadecimal digits a part, in lower case, as `#0a0b0c`.
impl fmt::Display for Rgb {
    ghost use Rattle.vte_types.specs.Rgb.{rgb_text};

    ghost output = { λ x. Some (rgb_text x) };

    fn fmt<W: fmt::Write>(&self, f: &mut fmt::Formatter<W>) -> fmt::Result {
        let Rgb { r, g, b } = *self;
        write!(f, "#{r:02x}{g:02x}{b:02x}")
    }
}

/// Reads `#` or `0x`, and six hexadecimal digits.
impl FromStr for Rgb {
    ghost use Rattle.vte_types.specs.Rgb.{rgb_read};

    type Err = ();

    ghost from_str_gives = { λ text result. result ≡ rgb_read text };

    fn from_str(s: &str) -> Result<Self, ()> {
        match s.as_bytes() {
            [b'#', digits @ ..] | [b'0', b'x', digits @ ..] => of_digits(digits).ok_or(()),
            _ => Err(()),
        }
    }
}

/// The colour that six hexadecimal digits write.
fn of_digits(digits: &[u8]) -> Option<Rgb>
    ensures { result ≡ six_digits digits.now }
{
    if digits.len() != 6 {
        return None;
    }
    Some(Rgb {
        r: hex::number(&digits[0..2])? as u8,
        g: hex::number(&digits[2..4])? as u8,
        b: hex::number(&digits[4..6])? as u8,
    })
}

/// Reading a displayed colour gives the same colour.
pub fn display_is_read()
    ensures { DisplayIsRead }
{}
