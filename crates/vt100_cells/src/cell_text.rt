//! The text of a cell, which lies in the cell itself.
ghost use Rattle.std.specs.Prelude.{◌≡◌, ℕ, ◌+◌, ◌-◌, ◌<◌, ◌≤◌, ◌==◌, List, [], ◌∷◌, ◌++◌, length, IsTrue};
ghost use Rattle.std.specs.Prelude.{encode_utf8_all, chars, slice_set, slice_index, nat_eq, nat_lt, not, true, false};
ghost use Rattle.std.specs.Prelude.{◌&&◌, take, IsUtf8};
ghost use Rattle.std.specs.Char.{IsScalar};
ghost use Rattle.unicode_width.specs.Width.{str_width};
ghost use Rattle.vt100_cells.specs.Cell.{text_eq};

use crate::char3::Char3;
use std::marker::Model;
use std::str;
use unicode_width::UnicodeWidthStr;
use vt100_forms::CHAR_BYTES;

/// How many bytes a text has at most: 17, and a character of 4.
const CONTENT_BYTES: usize = 21;

/// How many of them are compared first. Most texts have at most this many.
pub(crate) const START_BYTES: usize = 5;

/// A text with this many bytes takes no further character.
const FULL_BYTES: usize = 18;

/// A UTF-8 text of at most 21 bytes.
#[derive(Clone, Copy, Debug)]
pub(crate) struct CellText {
    // Before the bytes: so the length, the first bytes and what else a cell has lie in 16 bytes.
    len: u8,
    // The bytes past `len` are 0, so that equal texts have equal fields.
    bytes: [u8; CONTENT_BYTES],
}

impl Model for CellText {
    ghost use Rattle.std.specs.Prelude.{List, ℕ};

    ghost Value = { List ℕ };

    ghost use Rattle.vt100_cells.specs.CellFields.{text_of, IsText, fields_of, fields_of-text_of};

    ghost view = { text_of };

    ghost invariant = { IsText };

    ghost inverse = { fields_of };

    ghost inverse_ok = { fields_of-text_of };
}

impl CellText {
    ghost use Rattle.vt100_cells.specs.Cell.{text_with, has_room, is_widened_by};
    ghost use Rattle.vt100_cells.specs.CellFields.{start_eq, fits_start};

    /// Whether the texts have the same length and the same first bytes. Texts that have no others are the same then.
    #[inline(always)]
    pub(crate) fn has_start_of(&self, other: &Self) -> bool
        ensures value { result ≡ start_eq self.now other.now }
        ensures whole { start_eq self.now other.now ≡ true → fits_start self.now ≡ true → self.now ≡ other.now }
    {
        (self.len == other.len) & have_same_start(&self.bytes, &other.bytes)
    }

    /// Whether texts with the same start are the same.
    #[inline(always)]
    pub(crate) fn has_rest_of(&self, other: &Self) -> bool
        ensures { start_eq self.now other.now ≡ true → result ≡ text_eq self.now other.now }
    {
        self.fits_start() || have_same_rest(&self.bytes, &other.bytes)
    }

    /// Whether the first bytes are the whole text.
    #[inline(always)]
    pub(crate) fn fits_start(&self) -> bool
        ensures { result ≡ fits_start self.now }
    {
        usize::from(self.len) < START_BYTES + 1
    }

    pub(crate) const fn new() -> Self
        ensures { result ≡ [] }
    {
        CellText {
            bytes: [0; CONTENT_BYTES],
            len: 0,
        }
    }

    /// A text of one character.
    #[inline]
    pub(crate) fn of_char(c: char) -> Self
        ensures { result ≡ c ∷ [] }
    {
        if c.is_ascii() {
            return CellText::of_ascii(c as u8);
        }
        let mut text = CellText::new();
        text.push(c);
        text
    }

    #[inline]
    fn of_ascii(c: u8) -> Self
        requires { c < 128 }
        ensures { result ≡ c ∷ [] }
    {
        let mut bytes = [0; CONTENT_BYTES];
        bytes[0] = c;
        CellText { bytes, len: 1 }
    }

    /// Puts the ASCII character `c` in place of a space.
    #[inline]
    pub(crate) fn replace_by_ascii(&mut self, c: u8)
        requires space { self.old ≡ 32 ∷ [] }
        requires ascii { c < 128 }
        ensures { self.new ≡ c ∷ [] }
    {
        self.bytes[0] = c;
    }

    /// Puts the wide character `c` in place of an ideographic space.
    #[inline]
    pub(crate) fn replace_by_wide(&mut self, c: char)
        requires space { self.old ≡ 0x3000 ∷ [] }
        ensures { self.new ≡ c ∷ [] }
    {
        let code = c as u32;
        if code >= 0x800 && code < 0x1_0000 {
            // Three bytes, as the space has. Nearly all wide characters are such.
            self.bytes[0] = (0xE0 + code / 4096) as u8;
            self.bytes[1] = (0x80 + code / 64 % 64) as u8;
            self.bytes[2] = (0x80 + code % 64) as u8;
        } else {
            *self = CellText::of_char(c);
        }
    }

    /// Puts the character `c` in place of a space.
    #[inline(always)]
    pub(crate) fn replace_space(&mut self, c: char)
        requires space { self.old ≡ 32 ∷ [] }
        ensures { self.new ≡ c ∷ [] }
    {
        let code = c as u32;
        if code < 0x80 {
            self.bytes[0] = code as u8;
        } else if code < 0x800 {
            self.bytes[0] = (0xC0 + code / 64) as u8;
            self.bytes[1] = (0x80 + code % 64) as u8;
            self.len = 2;
        } else if code < 0x1_0000 {
            self.bytes[0] = (0xE0 + code / 4096) as u8;
            self.bytes[1] = (0x80 + code / 64 % 64) as u8;
            self.bytes[2] = (0x80 + code % 64) as u8;
            self.len = 3;
        } else {
            *self = CellText::of_char(c);
        }
    }

    /// Puts the character `c` in place of another one of at most three bytes.
    #[inline(always)]
    pub(crate) fn replace_by_char3(&mut self, c: Char3)
        requires three { length (encode_utf8_all self.old) ≤ 3 }
        ensures text { self.new ≡ c ∷ [] }
        ensures character { IsScalar c }
    {
        self.len = c.len;
        self.bytes[0] = c.bytes[0];
        self.bytes[1] = c.bytes[1];
        self.bytes[2] = c.bytes[2];
    }

    pub(crate) fn is_empty(&self) -> bool
        ensures { result ≡ (length self.now == 0) }
    {
        self.len == 0
    }

    /// How many bytes the text has.
    #[inline(always)]
    pub(crate) fn len(&self) -> usize
        ensures { result ≡ length (encode_utf8_all self.now) }
    {
        usize::from(self.len)
    }

    /// The first four bytes, of which those past the text are 0.
    #[inline(always)]
    pub(crate) fn first_bytes(&self) -> &[u8]
        ensures size { length result.now ≡ 4 }
        ensures text { let bs = encode_utf8_all self.now in length bs ≤ 4 → take (length bs) result.now ≡ bs }
        ensures utf8 { IsUtf8 (encode_utf8_all self.now) }
    {
        &self.bytes[..CHAR_BYTES]
    }

    pub(crate) fn has_room(&self) -> bool
        ensures { result ≡ has_room self.now }
    {
        usize::from(self.len) < FULL_BYTES
    }

    pub(crate) fn as_str(&self) -> &str
        ensures bytes { result.now ≡ encode_utf8_all self.now }
        ensures characters { chars result.now ≡ self.now }
    {
        let n = self.len as usize;
        unsafe { str::from_utf8_unchecked(&self.bytes[..n]) }
    }

    /// Whether U+FE0F, just put on, makes this a text of two columns.
    pub(crate) fn is_widened_by(&self, c: char) -> bool
        ensures { result ≡ ((c == 0xFE0F) && nat_lt 1 (str_width false self.now)) }
    {
        c == '\u{FE0F}' && self.as_str().width() > 1
    }

    /// Puts a character on, after a space where there is no text yet.
    pub(crate) fn join(&mut self, c: char)
        requires { has_room self.old ≡ true }
        ensures { self.new ≡ text_with self.old c }
    {
        if self.is_empty() {
            self.push(' ');
        }
        self.push(c);
    }

    /// Puts a character at the end.
    #[inline]
    pub(crate) fn push(&mut self, c: char)
        requires { has_room self.old ≡ true }
        ensures { self.new ≡ self.old ++ c ∷ [] }
    {
        let start = self.len as usize;
        let code = c as u32;
        if code >= 0x80 && code < 0x800 {
            // Two bytes, as the accents have.
            let pair = [(0xC0 + code / 64) as u8, (0x80 + code % 64) as u8];
            copy_up_to_four(&mut self.bytes[start..start + 2], &pair);
            self.len = (start + 2) as u8;
            return;
        }
        let mut buffer = [0; 4];
        let encoded = c.encode_utf8(&mut buffer);
        let end = start + encoded.len();
        copy_up_to_four(&mut self.bytes[start..end], encoded.as_bytes());
        self.len = end as u8;
    }
}

/// Whether two texts have the same first bytes, with no early exit.
#[inline(always)]
fn have_same_start(bytes: &[u8; CONTENT_BYTES], others: &[u8; CONTENT_BYTES]) -> bool
    ensures { result ≡ text_eq (take 5 bytes.now) (take 5 others.now) }
{
    let mut same = true;
    for i in 0..START_BYTES {
        same &= bytes[i] == others[i];
    }
    same
}

/// Whether two texts with the same first bytes are the same, with no early exit.
#[inline(always)]
fn have_same_rest(bytes: &[u8; CONTENT_BYTES], others: &[u8; CONTENT_BYTES]) -> bool
    ensures { text_eq (take 5 bytes.now) (take 5 others.now) ≡ true → result ≡ text_eq bytes.now others.now }
{
    let mut same = true;
    for i in START_BYTES..CONTENT_BYTES {
        same &= bytes[i] == others[i];
    }
    same
}

/// Copies at most four bytes.
// A copy of so few bytes, but of no fixed number, would be a call of `memcpy`.
#[inline]
fn copy_up_to_four(to: &mut [u8], from: &[u8])
    requires same { length to.old ≡ length from.now }
    requires few { length from.now ≤ 4 }
    ensures { to.new ≡ from.now }
{
    copy_byte(to, from, 0);
    copy_byte(to, from, 1);
    copy_byte(to, from, 2);
    copy_byte(to, from, 3);
}

/// Copies the byte at position `i`, if there is one.
#[inline]
fn copy_byte(to: &mut [u8], from: &[u8], i: usize)
    requires { length to.old ≡ length from.now }
    ensures value { to.new ≡ slice_set to.old i (slice_index from.now i) }
    ensures len { length to.new ≡ length to.old }
{
    if i < from.len() {
        to[i] = from[i];
    }
}
