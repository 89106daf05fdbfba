//! Colours and numbers that are written as text.
ghost use Rattle.std.specs.Prelude.{◌≡◌, ◌==◌, ◌<◌, ◌≤◌, ◌+◌, ◌-◌, ◌*◌, ◌&&◌, length, nat_lt, Some, None};
ghost use Rattle.std.specs.Prelude.{if◌then◌else◌};
ghost use Rattle.std.specs.Char.{is_ascii_digit};
ghost use Rattle.std.specs.List.{slice_split};
ghost use Rattle.vte.specs.Osc.{color_of_text, hash_color, color_of_thirds, leading, three_parts, scaled};
ghost use Rattle.vte.specs.Osc.{byte_number};

use crate::split::split_first;
use vte_types::hex;
use vte_types::rgb::Rgb;

/// The colour that a text names, as in X11; `None` for other texts. It is `#` and 3, 6, 9 or 12 hexadecimal digits, or
/// `rgb:` and three parts of 1 to 4 digits, with `/` between them.
pub fn parse_color(text: &[u8]) -> Option<Rgb>
    ensures { result ≡ color_of_text text.now }
{
    match text {
        [b'#', digits @ ..] => hash_color(digits),
        [b'r', b'g', b'b', b':', parts @ ..] => three_scaled(parts),
        _ => None,
    }
}

/// The colour of the digits after `#`.
fn hash_color(digits: &[u8]) -> Option<Rgb>
    ensures { result ≡ hash_color digits.now }
{
    match digits.len() {
        3 => thirds(1, digits),
        6 => thirds(2, digits),
        9 => thirds(3, digits),
        12 => thirds(4, digits),
        _ => None,
    }
}

/// The colour of three parts of `third` digits each: the first two digits of each count.
fn thirds(third: usize, digits: &[u8]) -> Option<Rgb>
    requires few { (0 < third) × (third ≤ 4) }
    requires whole { length digits.now ≡ 3 * third }
    ensures { result ≡ color_of_thirds third digits.now }
{
    let r = leading_byte(&digits[0..third])?;
    let g = leading_byte(&digits[third..2 * third])?;
    let b = leading_byte(&digits[2 * third..3 * third])?;
    Some(Rgb { r, g, b })
}

/// The value of the first two of 1 to 4 digits; of one digit, 16 times its value.
fn leading_byte(digits: &[u8]) -> Option<u8>
    requires some { 0 < length digits.now }
    requires few { length digits.now ≤ 4 }
    ensures { result ≡ leading digits.now }
{
    hex::number(digits)?;
    match digits {
        [one] => Some((hex::number(&[*one])? * 16) as u8),
        _ => Some(hex::number(&digits[0..2])? as u8),
    }
}

/// The colour of three parts with `/` between.
fn three_scaled(text: &[u8]) -> Option<Rgb>
    ensures { result ≡ three_parts (slice_split (λ c. c == 47) text.now) }
{
    let (red, rest) = split_first(text, b'/');
    let (green, rest) = split_first(rest?, b'/');
    let (blue, rest) = split_first(rest?, b'/');
    if let Some(_more) = rest {
        return None;
    }
    let r = scale(red)?;
    let g = scale(green)?;
    let b = scale(blue)?;
    Some(Rgb { r, g, b })
}

/// The value of 1 to 4 digits, scaled so that the greatest is 255, and rounded down.
fn scale(digits: &[u8]) -> Option<u8>
    ensures { result ≡ scaled digits.now }
{
    let greatest = match digits.len() {
        1 => 0xF,
        2 => 0xFF,
        3 => 0xFFF,
        4 => 0xFFFF,
        _ => return None,
    };
    let number = hex::number(digits)?;
    Some((255 * u32::from(number) / greatest) as u8)
}

/// The number from 0 to 255 that decimal digits write; `None` for other texts.
pub fn parse_number(digits: &[u8]) -> Option<u8>
    ensures { result ≡ byte_number digits.now }
{
    if digits.is_empty() {
        return None;
    }
    let mut number = 0;
    let mut rest = digits;
    while let Some((digit, after)) = rest.split_first() {
        rest = after;
        number = one_more(number, *digit)?;
    }
    Some(number)
}

/// A number with one more decimal digit.
fn one_more(number: u8, digit: u8) -> Option<u8>
    ensures { result ≡ (if is_ascii_digit digit && nat_lt (number * 10 + (digit - 48)) 256
        then Some (number * 10 + (digit - 48)) else None) }
{
    if !digit.is_ascii_digit() {
        return None;
    }
    number.checked_mul(10)?.checked_add(digit - b'0')
}
