//! The lines of a file.

ghost use Rattle.std.specs.Prelude.{◌≡◌, ◌<◌, ◌==◌, length, map, IfOk};
ghost use Rattle.std.specs.List.{before_first, list_all};
ghost use Rattle.std.specs.Char.{is_ascii_whitespace};
ghost use Rattle.recordings.specs.Lines.{first_line as first_line_in, lines_in, unmarked as unmarked_text};

use std::alloc::{AllocError, Global};

/// A text without the byte order mark that some editors put before it.
pub(crate) fn unmarked(text: &[u8]) -> &[u8]
    ensures { result.now ≡ unmarked_text text.now }
{
    match text.strip_prefix(&[0xEF, 0xBB, 0xBF]) {
        Some(rest) => rest,
        None => text,
    }
}

/// The parts between the newlines.
pub(crate) fn lines_of(alloc: Global, text: &[u8]) -> Result<Vec<&[u8]>, AllocError>
    ensures lines { IfOk result (λ lines. map (λ x. x.now) lines.items ≡ lines_in text.now) }
    ensures some { IfOk result (λ lines. 0 < length lines.items) }
{
    text.split(|b| *b == b'\n').collect(alloc)
}

/// What comes before the first newline.
pub(crate) fn first_line(text: &[u8]) -> &[u8]
    ensures { result.now ≡ first_line_in text.now }
{
    before(b'\n', text)
}

/// What comes before the first byte of this value, or all.
pub(crate) fn before(end: u8, text: &[u8]) -> &[u8]
    ensures { result.now ≡ before_first (λ b. b == end) text.now }
{
    match text.iter().position(|b| *b == end) {
        Some(at) => &text[..at],
        None => text,
    }
}

/// Whether a line has nothing but white space.
pub(crate) fn is_blank(line: &[u8]) -> bool
    ensures { result ≡ list_all is_ascii_whitespace line.now }
{
    for b in line {
        if !b.is_ascii_whitespace() {
            return false;
        }
    }
    true
}
