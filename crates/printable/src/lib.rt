//! Printable ASCII: the characters from the space, 0x20, to the tilde, 0x7E.
//!
//! Each of them takes one byte and one column.
#![tactic(auto)]

ghost use Rattle.std.specs.Prelude.{◌≡◌, ◌≤◌, ◌<◌, ◌↔◌, length, take, get_or, All, IsTrue};
ghost use Rattle.printable.specs.Printable.{IsPrintable};

pub mod thresholds;

use crate::thresholds::{BLOCK_LEN, FIRST_LEN};

/// Whether a character is printable ASCII.
#[inline(always)]
pub fn is_printable(c: char) -> bool
    ensures { IsTrue result ↔ IsPrintable c }
{
    matches!(c, ' '..='~')
}

/// Whether a byte is printable ASCII.
#[inline(always)]
pub fn is_printable_byte(byte: u8) -> bool
    ensures { IsTrue result ↔ IsPrintable byte }
{
    matches!(byte, b' '..=b'~')
}

/// How many bytes at the start are printable ASCII. Many texts end within the first few, which are looked at one by
/// one.
#[inline(always)]
pub fn printable_len(bytes: &[u8]) -> usize
    ensures within { result ≤ length bytes.now }
    ensures printable { All IsPrintable (take result bytes.now) }
    ensures whole { result < length bytes.now → IsPrintable (get_or bytes.now result 0) → ⊥ }
{
    let mut len = 0;
    if bytes.len() >= FIRST_LEN {
        len = first_len(bytes);
        if len < FIRST_LEN {
            return len;
        }
        len += blocks_len(&bytes[FIRST_LEN..]);
    }
    while len < bytes.len() && is_printable_byte(bytes[len]) {
        len += 1;
    }
    len
}

/// How many bytes at the start are printable ASCII, of the first eight.
// The number of bytes is known, so that each is read without a test of its index.
#[inline(always)]
fn first_len(bytes: &[u8]) -> usize
    requires { 8 ≤ length bytes.now }
    ensures within { result ≤ 8 }
    ensures printable { All IsPrintable (take result bytes.now) }
    ensures whole { result < 8 → IsPrintable (get_or bytes.now result 0) → ⊥ }
{
    let block = &bytes[..FIRST_LEN];
    let mut len = 0;
    while len < FIRST_LEN {
        if !is_printable_byte(block[len]) {
            return len;
        }
        len += 1;
    }
    FIRST_LEN
}

/// How many bytes at the start lie in whole blocks of printable ASCII.
#[inline(always)]
fn blocks_len(bytes: &[u8]) -> usize
    ensures within { result ≤ length bytes.now }
    ensures printable { All IsPrintable (take result bytes.now) }
{
    let mut len = 0;
    while bytes.len() - len >= BLOCK_LEN && are_printable(&bytes[len..len + BLOCK_LEN]) {
        len += BLOCK_LEN;
    }
    len
}

/// Whether each of the bytes is printable ASCII.
// Without a jump, so that many bytes are compared at once.
#[inline(always)]
fn are_printable(bytes: &[u8]) -> bool
    ensures { IsTrue result → All IsPrintable bytes.now }
{
    let mut are_printable = true;
    for byte in bytes {
        are_printable &= (*byte >= 0x20) & (*byte < 0x7F);
    }
    are_printable
}
