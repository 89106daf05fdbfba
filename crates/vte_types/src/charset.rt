//! Character sets.
ghost use Rattle.std.specs.Prelude.{◌≡◌};
ghost use Rattle.vte_types.specs.Charset.{drawn, mapped};

/// One of the four character sets that a terminal has at hand (ECMA-35).
#[derive(Clone, Copy, PartialEq, Eq, Debug)]
pub enum CharsetIndex {
    /// The initial set. `ESC (` designates it, SI selects it.
    G0,
    /// `ESC )` designates it, SO selects it.
    G1,
    /// `ESC *` designates it.
    G2,
    /// `ESC +` designates it.
    G3,
}

/// A character set.
#[derive(Clone, Copy, PartialEq, Eq, Debug)]
pub enum StandardCharset {
    /// Final byte `B`: ASCII.
    Ascii,
    /// Final byte `0`: DEC's special graphics, lines and symbols in place of `_` to `~`.
    SpecialCharacterAndLineDrawing,
}

impl StandardCharset {
    /// The character that is drawn for `c` in this set.
    pub fn map(self, c: char) -> char
        ensures { result ≡ mapped self c }
    {
        match self {
            StandardCharset::Ascii => c,
            StandardCharset::SpecialCharacterAndLineDrawing => line_drawing(c),
        }
    }
}

/// The line or symbol of DEC's special graphics for a character; others stay.
fn line_drawing(c: char) -> char
    ensures { result ≡ drawn c }
{
    match c {
        '_' => ' ',
        '`' => '◆',
        'a' => '▒',
        'b' => '\u{2409}',
        'c' => '\u{240C}',
        'd' => '\u{240D}',
        'e' => '\u{240A}',
        'f' => '°',
        'g' => '±',
        'h' => '\u{2424}',
        'i' => '\u{240B}',
        'j' => '┘',
        'k' => '┐',
        'l' => '┌',
        'm' => '└',
        'n' => '┼',
        'o' => '⎺',
        'p' => '⎻',
        'q' => '─',
        'r' => '⎼',
        's' => '⎽',
        't' => '├',
        'u' => '┤',
        'v' => '┴',
        'w' => '┬',
        'x' => '│',
        'y' => '≤',
        'z' => '≥',
        '{' => 'π',
        '|' => '≠',
        '}' => '£',
        '~' => '·',
        _ => c,
    }
}
