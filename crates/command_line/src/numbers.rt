//! Numbers among the arguments.

ghost use Rattle.std.specs.Prelude.{◌≡◌, ◌&&◌, nat_le, length};
ghost use Rattle.std.specs.Option.{option_map};
ghost use Rattle.std.specs.Str.{all_ascii_digits};
ghost use Rattle.command_line.specs.Numbers.{size_in, count_of};

use std::num::NonZeroU16;

/// A number of rows or columns: 1 to 5 ASCII digits whose value is 1 to 65,535.
pub fn parse_size(word: &str) -> Option<NonZeroU16>
    ensures { option_map (λ n. n.value) result ≡ size_in word.now }
{
    if !is_number(word, 5) {
        return None;
    }
    match word.parse::<u16>() {
        Ok(value) => NonZeroU16::new(value),
        Err(_) => None,
    }
}

/// A count: 1 to 9 ASCII digits.
pub fn parse_count(word: &str) -> Option<usize>
    ensures { result ≡ count_of word.now }
{
    if !is_number(word, 9) {
        return None;
    }
    match word.parse::<usize>() {
        Ok(value) => Some(value),
        Err(_) => None,
    }
}

// Whether the word has at most `digits` bytes, all of them ASCII digits.
fn is_number(word: &str, digits: usize) -> bool
    ensures { result ≡ (nat_le (length word.now) digits && all_ascii_digits word.now) }
{
    if word.len() > digits {
        return false;
    }
    for b in word.as_bytes() {
        if !b.is_ascii_digit() {
            return false;
        }
    }
    true
}
