//! The marks of synchronized updates.
ghost use Rattle.std.specs.Prelude.{◌≡◌, ◌≤◌, ◌<◌, ◌+◌, ℕ, length, MatchOption, true, false};
ghost use Rattle.vte.specs.Marks.{NoneFrom, IsLast, IsFirstFrom, is_found_at};

use memchr::{memchr, memrchr};

/// The start of an update: `CSI ? 2026 h`.
pub const START: [u8; 8] = [0x1b, b'[', b'?', b'2', b'0', b'2', b'6', b'h'];

/// The end of an update: `CSI ? 2026 l`.
pub const END: [u8; 8] = [0x1b, b'[', b'?', b'2', b'0', b'2', b'6', b'l'];

/// The index in a mark of its `?`, which is rarer in a stream than the ESC before it.
const SOUGHT: usize = 2;

/// The index of the last mark in `text` that begins at `from` or later. Only places around a `?` are compared.
pub fn last_mark(text: &[u8], mark: &[u8; 8], from: usize) -> Option<usize>
    requires { from ≤ length text.now }
    ensures { MatchOption result (NoneFrom mark.now text.now from)
        (λ i. (from ≤ i) × IsLast mark.now text.now i) }
{
    let mut end = text.len();
    while let Some(at) = memrchr(mark[SOUGHT], &text[from..end]) {
        end = from + at;
        if let Some(found) = mark_around(text, mark, from, end) {
            return Some(found);
        }
    }
    None
}

/// The index of the first mark in `text` that begins at `from` or later. Only places around a `?` are compared.
pub fn first_mark(text: &[u8], mark: &[u8; 8], from: usize) -> Option<usize>
    requires { from ≤ length text.now }
    ensures { MatchOption result (NoneFrom mark.now text.now from) (IsFirstFrom mark.now text.now from) }
{
    let mut next = from;
    while let Some(at) = memchr(mark[SOUGHT], &text[next..]) {
        let sought = next + at;
        if let Some(found) = mark_around(text, mark, from, sought) {
            return Some(found);
        }
        next = sought + 1;
    }
    None
}

/// The index of the mark whose `?` has the index `sought`, if it is there and begins at `from` or later.
fn mark_around(text: &[u8], mark: &[u8; 8], from: usize, sought: usize) -> Option<usize>
    requires { sought < length text.now }
    ensures { MatchOption result ((k : ℕ) → from ≤ k → k + 2 ≡ sought → is_found_at mark.now text.now k ≡ false)
        (λ i. (from ≤ i) × (i + 2 ≡ sought) × (is_found_at mark.now text.now i ≡ true)) }
{
    if sought < SOUGHT || sought - SOUGHT < from {
        return None;
    }
    let start = sought - SOUGHT;
    if text[start..].starts_with(mark) {
        Some(start)
    } else {
        None
    }
}
