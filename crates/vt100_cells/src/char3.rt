//! A character of at most three bytes, as the text of a cell holds it.
ghost use Rattle.std.specs.Prelude.{◌≡◌, ◌+◌, ◌<◌, ◌≤◌, ◌∷◌, ◌⊎◌, IfSome, IsTrue, length, slice_index, chars};
ghost use Rattle.std.specs.Char.{IsScalar};
ghost use Rattle.vt100_cells.specs.Cell.{IsWide};
ghost use Rattle.vt100_cells.specs.Narrow.{IsNarrow};
ghost use Rattle.vt100_cells.specs.Char3Fields.{BeginsPrintable, BeginsTwoBytes, BeginsThreeBytes, first_char};

use printable::is_printable_byte;
use std::marker::Model;
use std::str;

/// How many bytes such a character has at most.
pub(crate) const CHAR3_BYTES: usize = 3;

/// A character of at most three bytes of UTF-8, as the text of a cell holds it. For rows alone.
#[doc(hidden)]
#[derive(Clone, Copy, Debug)]
pub struct Char3 {
    // In this order, which is that of a cell's text, all are copied at once.
    pub(crate) len: u8,
    // The bytes past `len` are 0.
    pub(crate) bytes: [u8; CHAR3_BYTES],
}

impl Model for Char3 {
    ghost use Rattle.std.specs.Prelude.{ℕ};

    ghost Value = { ℕ };

    ghost use Rattle.vt100_cells.specs.Char3Fields.{char_of, IsChar3, char3_of, char3_of-char_of};

    ghost view = { char_of };

    ghost invariant = { IsChar3 };

    ghost inverse = { char3_of };

    ghost inverse_ok = { char3_of-char_of };
}

impl Default for Char3 {
    ghost is_default = { λ c. c ≡ 32 };

    fn default() -> Self {
        Char3 {
            len: 1,
            bytes: [b' ', 0, 0],
        }
    }
}

/// The wide character at the start of a text, and what follows it. Only characters of the common scripts are found.
#[inline(always)]
pub(crate) fn split_common_wide(text: &str) -> Option<(Char3, &str)>
    ensures parts { IfSome result (λ p. chars text.now ≡ p.0 ∷ chars p.1.now) }
    ensures shorter { IfSome result (λ p. length p.1.now < length text.now) }
    ensures wide { IfSome result (λ p. IsWide p.0) }
    ensures above { IfSome result (λ p. 0x3000 ≤ p.0) }
    ensures below { IfSome result (λ p. p.0 < 0xFFFD) }
{
    if begins_common_wide(text) {
        Some(split_three_bytes(text))
    } else {
        None
    }
}

/// The character of one column at the start of a text, and what follows it. Only printable ASCII and characters of the
/// common scripts are found.
#[inline(always)]
pub(crate) fn split_common_narrow(text: &str) -> Option<(Char3, &str)>
    ensures parts { IfSome result (λ p. chars text.now ≡ p.0 ∷ chars p.1.now) }
    ensures shorter { IfSome result (λ p. length p.1.now < length text.now) }
    ensures narrow { IfSome result (λ p. IsNarrow p.0) }
    ensures apart { IfSome result (λ p. (p.0 < 0x80) ⊎ (0xA0 ≤ p.0)) }
    ensures below { IfSome result (λ p. p.0 < 0xFFFD) }
{
    if begins_past_two_bytes(text) {
        if begins_three_bytes(text) && is_common_of_three_bytes(text) {
            Some(split_three_bytes(text))
        } else {
            None
        }
    } else if begins_two_bytes(text) {
        if is_common_of_two_bytes(text) {
            Some(split_two_bytes(text))
        } else {
            None
        }
    } else if begins_printable(text) {
        Some(split_printable(text))
    } else {
        None
    }
}

/// Whether a text begins with a byte above those that characters of one byte or two begin with.
// One comparison separates these, so that the tests for a number of bytes needn't.
#[inline(always)]
fn begins_past_two_bytes(text: &str) -> bool {
    matches!(text.as_bytes(), [0xE0..=0xFF, ..])
}

/// Whether a text begins with a printable character of ASCII.
#[inline(always)]
fn begins_printable(text: &str) -> bool
    ensures { IsTrue result → BeginsPrintable text.now }
{
    matches!(text.as_bytes(), [first, ..] if is_printable_byte(*first))
}

/// Whether a text begins with a character of two bytes.
#[inline(always)]
fn begins_two_bytes(text: &str) -> bool
    ensures { IsTrue result → BeginsTwoBytes text.now }
{
    matches!(text.as_bytes(), [0xC0..=0xDF, ..])
}

/// Whether a text begins with a character of three bytes.
#[inline(always)]
fn begins_three_bytes(text: &str) -> bool
    ensures { IsTrue result → BeginsThreeBytes text.now }
{
    matches!(text.as_bytes(), [0xE0..=0xEF, ..])
}

/// Whether a text begins with a wide character of three bytes, of a common script.
// Nearly always its first byte decides whether it does.
#[inline(always)]
fn begins_common_wide(text: &str) -> bool
    ensures begins { IsTrue result → BeginsThreeBytes text.now }
    ensures wide { IsTrue result → IsWide (first_char text.now) }
    ensures above { IsTrue result → 0x3000 ≤ first_char text.now }
    ensures below { IsTrue result → first_char text.now < 0xFFFD }
{
    match text.as_bytes() {
        [0xE4..=0xE9 | 0xEB | 0xEC, ..] => true,
        _ => {
            may_begin_wide(text) && begins_three_bytes(text) && is_common_wide(code_of_three(text))
        }
    }
}

/// Whether a text begins with a byte that some wide characters of three bytes begin with, and others not.
#[inline(always)]
fn may_begin_wide(text: &str) -> bool {
    matches!(text.as_bytes(), [0xE3 | 0xEA | 0xED | 0xEF, ..])
}

/// Whether a character of three bytes is of a common wide script.
#[inline(always)]
fn is_common_wide(code: u32) -> bool
    ensures wide { IsTrue result → IsWide code }
    ensures above { IsTrue result → 0x3000 ≤ code }
    ensures below { IsTrue result → code < 0xFFFD }
{
    matches!(
        code,
        0x3000..=0x3029
            | 0x3030..=0x303E
            | 0x3041..=0x3096
            | 0x309B..=0x30FF
            | 0x3250..=0x9FFF
            | 0xAC00..=0xD7A3
            | 0xFF01..=0xFF60
    )
}

/// Whether the character of two bytes at the start of a text is of a common script of one column.
// Nearly always the first byte decides. Of those that begin with 0xCC and 0xCD many combine.
#[inline(always)]
fn is_common_of_two_bytes(text: &str) -> bool
    requires { BeginsTwoBytes text.now }
    ensures narrow { IsTrue result → IsNarrow (first_char text.now) }
    ensures above { IsTrue result → 0xA0 ≤ first_char text.now }
    ensures below { IsTrue result → first_char text.now < 0xFFFD }
{
    match text.as_bytes()[0] {
        0xCC | 0xCD => is_common_two(code_of_two(text)),
        0xC3..=0xD1 => true,
        _ => is_common_two(code_of_two(text)),
    }
}

/// Whether the character of three bytes at the start of a text is of a common script of one column.
// The first two bytes identify boxes, blocks and what is drawn with them, and the first most wide characters.
#[inline(always)]
fn is_common_of_three_bytes(text: &str) -> bool
    requires { BeginsThreeBytes text.now }
    ensures narrow { IsTrue result → IsNarrow (first_char text.now) }
    ensures above { IsTrue result → 0xA0 ≤ first_char text.now }
    ensures below { IsTrue result → first_char text.now < 0xFFFD }
{
    let bytes = text.as_bytes();
    match bytes[0] {
        0xE2 if matches!(bytes[1], 0x94..=0x96) => true,
        0xE3..=0xED => false,
        _ => is_common_three(code_of_three(text)),
    }
}

/// Whether a character of two bytes is of a common script of one column.
#[inline(always)]
fn is_common_two(code: u32) -> bool
    ensures narrow { IsTrue result → IsNarrow code }
    ensures above { IsTrue result → 0xA0 ≤ code }
    ensures below { IsTrue result → code < 0x800 }
{
    matches!(code, 0xA0..=0xAC | 0xAE..=0x2FF | 0x370..=0x482 | 0x48A..=0x590)
}

/// Whether a character of three bytes is of a common script of one column.
// Braille is checked first, since whole rows of graphs consist of it.
#[inline(always)]
fn is_common_three(code: u32) -> bool
    ensures narrow { IsTrue result → IsNarrow code }
    ensures above { IsTrue result → 0xA0 ≤ code }
    ensures below { IsTrue result → code < 0xFFFD }
{
    matches!(code, 0x2800..=0x28FF)
        || matches!(
        code,
        0x1E00..=0x1FFF
            | 0x2010..=0x2027
            | 0x2190..=0x2319
            | 0x2500..=0x25FC
            | 0xE000..=0xF8FF
    )
}

/// The code of the character of two bytes at the start of a text.
#[inline(always)]
fn code_of_two(text: &str) -> u32
    requires { BeginsTwoBytes text.now }
    ensures { result ≡ first_char text.now }
{
    let bytes = text.as_bytes();
    u32::from(bytes[0]) * 64 + u32::from(bytes[1]) - 0x3080
}

/// The code of the character of three bytes at the start of a text.
#[inline(always)]
fn code_of_three(text: &str) -> u32
    requires { BeginsThreeBytes text.now }
    ensures { result ≡ first_char text.now }
{
    let bytes = text.as_bytes();
    u32::from(bytes[0]) * 4096 + u32::from(bytes[1]) * 64 + u32::from(bytes[2]) - 0xE_2080
}

/// The character of ASCII at the start of a text, and what follows it.
#[inline(always)]
fn split_printable(text: &str) -> (Char3, &str)
    requires { BeginsPrintable text.now }
    ensures parts { chars text.now ≡ result.0 ∷ chars result.1.now }
    ensures shorter { length result.1.now < length text.now }
    ensures narrow { IsNarrow result.0 }
    ensures below { result.0 < 0x80 }
{
    let bytes = text.as_bytes();
    let c = Char3 {
        len: 1,
        bytes: [bytes[0], 0, 0],
    };
    (c, unsafe { str::from_utf8_unchecked(&bytes[1..]) })
}

/// The character of two bytes at the start of a text, and what follows it.
#[inline(always)]
fn split_two_bytes(text: &str) -> (Char3, &str)
    requires { BeginsTwoBytes text.now }
    ensures parts { chars text.now ≡ result.0 ∷ chars result.1.now }
    ensures shorter { length result.1.now < length text.now }
{
    let bytes = text.as_bytes();
    let c = Char3 {
        len: 2,
        bytes: [bytes[0], bytes[1], 0],
    };
    (c, unsafe { str::from_utf8_unchecked(&bytes[2..]) })
}

/// The character of three bytes at the start of a text, and what follows it.
#[inline(always)]
fn split_three_bytes(text: &str) -> (Char3, &str)
    requires { BeginsThreeBytes text.now }
    ensures parts { chars text.now ≡ result.0 ∷ chars result.1.now }
    ensures shorter { length result.1.now < length text.now }
{
    let bytes = text.as_bytes();
    let c = Char3 {
        len: 3,
        bytes: [bytes[0], bytes[1], bytes[2]],
    };
    (c, unsafe { str::from_utf8_unchecked(&bytes[3..]) })
}
