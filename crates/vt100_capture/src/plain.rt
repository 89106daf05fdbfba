//! The plain text of a capture.
ghost use Rattle.std.specs.Prelude.{◌≡◌, ℕ, ◌+◌, ◌-◌, ◌<◌, ◌≤◌, ◌++◌, map, length};
ghost use Rattle.std.specs.Iterator.{YieldsFirstBy, YieldsFirstRef, item_count};
ghost use Rattle.vt100_capture.specs.Plain.{plain_pieces, some_piece};

use std::marker::Model;

/// An iterator over the plain pieces of a capture.
#[derive(Drop)]
pub struct BasicFormattedToPlain<'a> {
    indexed: BasicFormattedToPlainIndexed<'a>,
}

impl<'a> Model for BasicFormattedToPlain<'a> {
    ghost use Rattle.std.specs.Prelude.{List, ℕ, map};

    ghost Value = { List (List ℕ) };

    ghost view = { λ s. map (λ x. x.1) s.indexed };
}

impl<'a> Iterator for BasicFormattedToPlain<'a> {
    type Item = &'a str;

    ghost next_gives = { YieldsFirstRef (λ s. s) };

    ghost remaining = { item_count (λ s. s) };

    fn next(&mut self) -> Option<&'a str> {
        let (_, piece) = self.indexed.next()?;
        Some(piece)
    }
}

/// An iterator over the plain pieces of a capture, each with its index in the capture, in bytes.
#[derive(Drop)]
pub struct BasicFormattedToPlainIndexed<'a> {
    /// The part of the capture that isn't read yet.
    capture: &'a str,
    /// The index at which it begins, in bytes.
    index: usize,
}

impl<'a> Model for BasicFormattedToPlainIndexed<'a> {
    ghost use Rattle.std.specs.Prelude.{List, ℕ, ◌+◌, ◌<◌, ◌^◌, length};
    ghost use Rattle.vt100_capture.specs.Plain.{plain_pieces};

    ghost Value = { List (ℕ × List ℕ) };

    ghost view = { λ s. plain_pieces s.index s.capture.now };

    ghost invariant = { λ s. s.index + length s.capture.now < 2 ^ 64 };
}

impl<'a> Iterator for BasicFormattedToPlainIndexed<'a> {
    /// The index of the piece in the capture, in bytes, and the piece.
    type Item = (usize, &'a str);

    ghost next_gives = { YieldsFirstBy (λ x. (x.0, x.1.now)) (λ s. s) };

    ghost remaining = { item_count (λ s. s) };

    fn next(&mut self) -> Option<(usize, &'a str)> {
        while !self.capture.is_empty() {
            let index = self.index;
            let (piece, others) = split_piece(self.capture);
            self.index = index + (self.capture.len() - others.len());
            self.capture = others;
            if !piece.is_empty() {
                return Some((index, piece));
            }
        }
        None
    }
}

/// The plain text before the first control sequence, and the text after that sequence.
fn split_piece(capture: &str) -> (&str, &str)
    ensures within { length result.1.now ≤ length capture.now }
    ensures less { 0 < length capture.now → length result.1.now < length capture.now }
    ensures pieces { (i : ℕ) → plain_pieces i capture.now
        ≡ some_piece i result.0.now ++ plain_pieces (i + (length capture.now - length result.1.now)) result.1.now }
{
    let Some((before, after)) = capture.split_once('\x1b') else {
        return (capture, "");
    };
    match after.split_once('m') {
        Some((_, others)) => (before, others),
        None => (before, ""),
    }
}

/// Iterates over the plain text of a capture, in pieces. A piece is as long as possible, and lies outside the control
/// sequences. A control sequence goes from ESC to the next `m`, or to the end.
pub fn basic_formatted_to_plain(capture: &str) -> BasicFormattedToPlain<'_>
    ensures { result ≡ map (λ x. x.1) (plain_pieces 0 capture.now) }
{
    BasicFormattedToPlain {
        indexed: basic_formatted_to_plain_indexed(capture),
    }
}

/// Like [`basic_formatted_to_plain`], but each piece comes with its index in `capture`, in bytes.
pub fn basic_formatted_to_plain_indexed(capture: &str) -> BasicFormattedToPlainIndexed<'_>
    ensures { result ≡ plain_pieces 0 capture.now }
{
    BasicFormattedToPlainIndexed { capture, index: 0 }
}
