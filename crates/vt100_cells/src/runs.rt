//! Runs of characters at the start of a text, which are printed at once.
ghost use Rattle.std.specs.Prelude.{◌≡◌, ◌⊎◌, ◌<◌, ◌≤◌, ◌+◌, ◌++◌, ◌∷◌, [], IfSome, IsTrue, All, length, map};
ghost use Rattle.std.specs.Str.{chars};
ghost use Rattle.vt100_cells.specs.Runs.{IsShown};

use crate::cell::Glyph;
use crate::char3::{Char3, split_common_narrow, split_common_wide};
use crate::width::columns;
use arrayvec::ArrayVec;

/// How many characters a run has at most: half of a row of 80 columns, or all its wide ones. Each run gets new room
/// for them. `docs/SPEED.md` has what room for 32 and for 64 costs and gains, by `./speed --texts`.
#[doc(hidden)]
pub const RUN_LEN: usize = 40;

/// This many characters of ASCII end a run, since they are printed faster in a run of their own. Fewer would cut the
/// lines of `Cyrillic` and `tree`, by which `./speed --texts` measures it, at a comma and at spaces.
const ASCII_LEN: usize = 8;

/// A form of characters that can be taken from a text. For screens alone.
#[doc(hidden)]
pub trait TextGlyph: Glyph + Default {
    /// The character at the start of a text, if it is shown in `count` columns, and what follows it.
    fn split(text: &str, count: u16) -> Option<(Self, &str)>
        ensures parts { IfSome result (λ p. chars text.now ≡ Self.code p.0 ∷ chars p.1.now) }
        ensures shorter { IfSome result (λ p. length p.1.now < length text.now) }
        ensures drawn { IfSome result (λ p. Self.Takes count p.0) }
        ensures shown { IfSome result (λ p. IsShown (Self.code p.0)) };
}

/// Only printable ASCII and characters of the common scripts are found.
impl TextGlyph for Char3 {
    #[inline(always)]
    fn split(text: &str, count: u16) -> Option<(Char3, &str)> {
        match count {
            1 => split_common_narrow(text),
            2 => split_common_wide(text),
            _ => None,
        }
    }
}

/// Any character is found.
impl TextGlyph for char {
    #[inline(always)]
    fn split(text: &str, count: u16) -> Option<(char, &str)> {
        let mut chars = text.chars();
        match chars.next() {
            Some(c) if is_shown(c) && columns(c) == Some(count) => Some((c, chars.as_str())),
            _ => None,
        }
    }
}

/// Takes the characters of `COLUMNS` columns each at the start of a text into an empty run, as many as it holds, and
/// returns what is left. `ASCII_LEN` characters of ASCII are left.
#[doc(hidden)]
#[inline(always)]
pub fn take_run<'a, G: TextGlyph, const COLUMNS: usize>(
    text: &'a str,
    run: &mut ArrayVec<G, RUN_LEN>,
) -> &'a str
    requires columns { (COLUMNS ≡ 1) ⊎ (COLUMNS ≡ 2) }
    requires empty { run.old.items ≡ [] }
    ensures parts { chars text.now ≡ map G.code run.new.items ++ chars result.now }
    ensures shorter { length result.now + length run.new.items ≤ length text.now }
    ensures drawn { All (G.Takes COLUMNS) run.new.items }
    ensures shown { All IsShown (map G.code run.new.items) }
{
    let mut rest = text;
    while !run.is_full() && !(COLUMNS == 1 && begins_ascii_run(rest)) {
        match G::split(rest, COLUMNS as u16) {
            Some((glyph, left)) => {
                run.push(glyph);
                rest = left;
            }
            None => break,
        }
    }
    rest
}

/// Whether a text begins with `ASCII_LEN` characters of ASCII.
#[inline(always)]
fn begins_ascii_run(text: &str) -> bool {
    let bytes = text.as_bytes();
    // Nearly always the first byte decides.
    if bytes.len() < ASCII_LEN || !bytes[0].is_ascii() {
        return false;
    }
    let mut are_ascii = true;
    for byte in &bytes[1..ASCII_LEN] {
        are_ascii &= byte.is_ascii();
    }
    are_ascii
}

/// Whether a character is neither a control of C1 nor U+FFFD.
#[inline(always)]
fn is_shown(c: char) -> bool
    ensures { IsTrue result → IsShown c }
{
    !matches!(c, '\u{FFFD}' | '\u{80}'..='\u{9F}')
}
