//! Lists cut at a byte.
ghost use Rattle.std.specs.Prelude.{◌≡◌, ◌==◌, ◌<◌, ◌∷◌, IfSome, length, option_map};
ghost use Rattle.std.specs.List.{slice_split};
ghost use Rattle.vte.specs.Split.{parts_after};

use memchr::memchr;

/// The text before the first such byte, and the text after it. Without such a byte: the whole text, and `None`.
pub fn split_first(text: &[u8], byte: u8) -> (&[u8], Option<&[u8]>)
    ensures parts { slice_split (λ c. c == byte) text.now ≡ result.0.now
        ∷ parts_after byte (option_map (λ t. t.now) result.1) }
    ensures shorter { IfSome result.1 (λ t. length t.now < length text.now) }
{
    match memchr(byte, text) {
        Some(at) => (&text[..at], Some(&text[at + 1..])),
        None => (text, None),
    }
}
