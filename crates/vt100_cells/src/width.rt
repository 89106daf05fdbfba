//! How many columns a character takes.
ghost use Rattle.std.specs.Prelude.{◌≡◌};
ghost use Rattle.vt100_cells.specs.Cell.{drawn_columns};

use unicode_width::UnicodeWidthChar;

/// How many columns `c` takes on a screen: 0 where it joins the character before it, 1 or 2.
///
/// This is its width by Unicode (UAX #11, as the crate `unicode_width` reads it), but at most 2, and 1 where Unicode
/// gives none. `None` for the control characters below U+0100, which are not drawn.
#[inline(always)]
pub fn columns(c: char) -> Option<u16>
    ensures { result ≡ drawn_columns c }
{
    // Printable ASCII, the accents that join a letter, and the scripts and symbols that most other characters are of,
    // need no look-up.
    match c {
        ' '..='~'
        | '\u{A0}'..='\u{AC}'
        | '\u{AE}'..='\u{2FF}'
        | '\u{370}'..='\u{482}'
        | '\u{48A}'..='\u{590}'
        | '\u{1E00}'..='\u{1FFF}'
        | '\u{2010}'..='\u{2027}'
        | '\u{2190}'..='\u{2319}'
        | '\u{2500}'..='\u{25FC}'
        | '\u{2800}'..='\u{28FF}'
        | '\u{E000}'..='\u{F8FF}' => Some(1),
        '\u{300}'..='\u{337}' | '\u{339}'..='\u{36F}' => Some(0),
        '\u{4E00}'..='\u{9FFF}'
        | '\u{AC00}'..='\u{D7A3}'
        | '\u{3041}'..='\u{3096}'
        | '\u{30A0}'..='\u{30FF}' => Some(2),
        _ => match c.width() {
            Some(width) => Some(width.min(2) as u16),
            None if c < '\u{100}' => None,
            None => Some(1),
        },
    }
}
