//! The rows of a capture.
ghost use Rattle.std.specs.Prelude.{◌≡◌, ◌≤◌, [], ◌∷◌, length, take, drop, MatchOption, ⊤};
ghost use Rattle.std.specs.Iterator.{YieldsFirstRef, item_count};
ghost use Rattle.std.specs.Str.{IsCharBoundary};
ghost use Rattle.vt100_capture.specs.Rows.{capture_rows};

use std::marker::Model;
use vt100_cells::columns;

/// An iterator over the rows of a capture.
#[derive(Drop)]
pub struct BasicFormattedRows<'a> {
    /// The part of the capture that isn't read yet; `None` after the last row.
    capture: Option<&'a str>,
    width: u16,
}

impl<'a> Model for BasicFormattedRows<'a> {
    ghost use Rattle.std.specs.Prelude.{List, ℕ};
    ghost use Rattle.vt100_capture.specs.Rows.{rows_left};

    ghost Value = { List (List ℕ) };

    ghost view = { λ s. rows_left s.width s.capture };
}

impl<'a> Iterator for BasicFormattedRows<'a> {
    type Item = &'a str;

    ghost next_gives = { YieldsFirstRef (λ s. s) };

    ghost remaining = { item_count (λ s. s) };

    fn next(&mut self) -> Option<&'a str> {
        let capture = self.capture?;
        match row_end(capture, self.width) {
            Some((end, next)) => {
                self.capture = Some(&capture[next..]);
                Some(&capture[..end])
            }
            None => {
                self.capture = None;
                Some(capture)
            }
        }
    }
}

/// The indices at which the first row ends and the next begins. `None` if the whole capture is one row.
fn row_end(capture: &str, width: u16) -> Option<(usize, usize)>
    ensures rows { MatchOption result (capture_rows width capture.now ≡ capture.now ∷ [])
        (λ p. capture_rows width capture.now ≡ take p.0 capture.now ∷ capture_rows width (drop p.1 capture.now)) }
    ensures cut { MatchOption result ⊤ (λ p. IsCharBoundary capture.now p.0 × IsCharBoundary capture.now p.1) }
{
    let mut inside = false;
    let mut taken = 0u32;
    for (i, c) in capture.char_indices() {
        if inside {
            inside = c != 'm';
        } else if c == '\x1b' {
            inside = true;
        } else if c == '\n' {
            return Some((i, i + 1));
        } else {
            let columns = u32::from(columns(c).unwrap_or(1));
            if columns > 0 && taken > 0 && taken + columns > u32::from(width) {
                return Some((i, i));
            }
            taken += columns;
        }
    }
    None
}

/// Iterates over the rows of a capture, for a screen of `screen_width` columns. A row ends at a newline, which isn't
/// part of it. It also ends before a character that would pass the width, unless the row has no column yet. Control
/// sequences, from ESC to the next `m`, are part of rows, and take no columns. An empty capture is one empty row.
///
/// A character takes as many columns as Unicode says, at most two, and one if Unicode says nothing.
pub fn basic_formatted_rows(capture: &str, screen_width: u16) -> BasicFormattedRows<'_>
    ensures { result ≡ capture_rows screen_width capture.now }
{
    BasicFormattedRows {
        capture: Some(capture),
        width: screen_width,
    }
}
