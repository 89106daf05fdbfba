//! The colours and attributes with which a character is drawn.
ghost use Rattle.std.specs.Prelude.{◌≡◌, ◌<◌, ◌≤◌, ◌+◌, ◌++◌, [], length, IsOk, OnOk, OnErr, is_ok, if◌then◌else◌};
ghost use Rattle.std.specs.Prelude.{string_bytes, string_len, string_capacity};

use crate::error::GridError;
use crate::term;
use crate::term::Intensity;
use crate::text_run::TextRun;
use std::fmt;

/// A foreground or background colour.
#[derive(Clone, Copy, Debug, Default, Eq, PartialEq)]
pub enum Color {
    /// The terminal's own.
    #[default]
    Default,
    /// One of the terminal's 256 numbered colours.
    Idx(u8),
    /// Red, green and blue.
    Rgb(u8, u8, u8),
}

const TEXT_MODE_INTENSITY: u8 = 0b0000_0011;

const TEXT_MODE_BOLD: u8 = 0b0000_0001;

const TEXT_MODE_DIM: u8 = 0b0000_0010;

const TEXT_MODE_ITALIC: u8 = 0b0000_0100;

const TEXT_MODE_UNDERLINE: u8 = 0b0000_1000;

const TEXT_MODE_INVERSE: u8 = 0b0001_0000;

/// The attributes with which a character is drawn. The bits of `mode` are 1 for bold, 2 for dim, 4 for italic, 8 for
/// underlined and 16 for inverse. If both 1 and 2 are set, the character is bold.
#[derive(Clone, Copy, Debug, Eq, PartialEq)]
pub struct Attrs {
    /// Of the character itself.
    pub fgcolor: Color,
    /// Of the background.
    pub bgcolor: Color,
    /// The bits that the type's doc lists.
    pub mode: u8,
}

impl Default for Attrs {
    ghost use Rattle.vt100_forms.specs.Attrs.{default_attrs};

    ghost is_default = { λ a. a ≡ default_attrs };

    fn default() -> Self {
        Self::new()
    }
}

impl Attrs {
    ghost use Rattle.vt100_forms.specs.Form.{bytes_of, change, intensity_of};
    ghost use Rattle.vt100_forms.specs.Writer.{HandsOver};
    ghost use Rattle.vt100_forms.specs.Attrs.{default_attrs, is_bold, is_dim, is_italic, is_underlined, is_inverse};
    ghost use Rattle.vt100_forms.specs.Attrs.{with_bold, with_dim, with_normal_intensity, with_italic, with_underline};
    ghost use Rattle.vt100_forms.specs.Attrs.{with_inverse};

    /// The default colours, and no mode.
    pub const fn new() -> Self
        ensures { result ≡ default_attrs }
    {
        Self {
            fgcolor: Color::Default,
            bgcolor: Color::Default,
            mode: 0,
        }
    }

    /// Whether the bit for bold is set.
    pub fn bold(&self) -> bool
        ensures { result ≡ is_bold self.now }
    {
        self.mode & TEXT_MODE_BOLD != 0
    }

    /// Whether the bit for dim is set.
    pub fn dim(&self) -> bool
        ensures { result ≡ is_dim self.now }
    {
        self.mode & TEXT_MODE_DIM != 0
    }

    /// Sets bold, and resets dim.
    pub fn set_bold(&mut self)
        ensures { self.new ≡ with_bold self.old }
    {
        self.mode &= !TEXT_MODE_INTENSITY;
        self.mode |= TEXT_MODE_BOLD;
    }

    /// Sets dim, and resets bold.
    pub fn set_dim(&mut self)
        ensures { self.new ≡ with_dim self.old }
    {
        self.mode &= !TEXT_MODE_INTENSITY;
        self.mode |= TEXT_MODE_DIM;
    }

    /// Resets bold and dim.
    pub fn set_normal_intensity(&mut self)
        ensures { self.new ≡ with_normal_intensity self.old }
    {
        self.mode &= !TEXT_MODE_INTENSITY;
    }

    /// Whether the bit for italic is set.
    pub fn italic(&self) -> bool
        ensures { result ≡ is_italic self.now }
    {
        self.mode & TEXT_MODE_ITALIC != 0
    }

    /// Sets italic, or resets it.
    pub fn set_italic(&mut self, italic: bool)
        ensures { self.new ≡ with_italic italic self.old }
    {
        if italic {
            self.mode |= TEXT_MODE_ITALIC;
        } else {
            self.mode &= !TEXT_MODE_ITALIC;
        }
    }

    /// Whether the bit for underlined is set.
    pub fn underline(&self) -> bool
        ensures { result ≡ is_underlined self.now }
    {
        self.mode & TEXT_MODE_UNDERLINE != 0
    }

    /// Sets underlined, or resets it.
    pub fn set_underline(&mut self, underline: bool)
        ensures { self.new ≡ with_underline underline self.old }
    {
        if underline {
            self.mode |= TEXT_MODE_UNDERLINE;
        } else {
            self.mode &= !TEXT_MODE_UNDERLINE;
        }
    }

    /// Whether foreground and background are swapped.
    pub fn inverse(&self) -> bool
        ensures { result ≡ is_inverse self.now }
    {
        self.mode & TEXT_MODE_INVERSE != 0
    }

    /// Sets inverse, or resets it.
    pub fn set_inverse(&mut self, inverse: bool)
        ensures { self.new ≡ with_inverse inverse self.old }
    {
        if inverse {
            self.mode |= TEXT_MODE_INVERSE;
        } else {
            self.mode &= !TEXT_MODE_INVERSE;
        }
    }

    pub(crate) fn intensity(&self) -> Intensity
        ensures { result ≡ intensity_of self.now }
    {
        if self.bold() {
            Intensity::Bold
        } else if self.dim() {
            Intensity::Dim
        } else {
            Intensity::Normal
        }
    }

    /// Appends the escape sequence (SGR) that takes a terminal from the attributes `other` to these. It appends nothing
    /// if they are equal. It clears all attributes if these are the default ones, and else sets what differs. Fails
    /// only if an allocation fails; `contents` is then unchanged.
    pub fn write_escape_code_diff(
        &self,
        contents: &mut String,
        other: &Self,
    ) -> Result<(), GridError>
        ensures bytes { string_bytes contents.new ≡
            (if is_ok result then string_bytes contents.old ++ bytes_of (change other.now self.now)
            else string_bytes contents.old) }
        ensures full { OnErr result
            (string_capacity contents.old < string_len contents.old + length (bytes_of (change other.now self.now))) }
        ensures capacity { string_capacity contents.old ≤ string_capacity contents.new }
    {
        let mut run = TextRun::new();
        self.push_escape_code_diff(&mut run, other);
        run.move_to(contents)?;
        Ok(())
    }

    /// Appends to `run` the bytes that take a terminal from the attributes `other` to these. They are 48 at most, but
    /// the run must have room for 58.
    #[doc(hidden)]
    #[inline(always)]
    pub fn push_escape_code_diff(&self, run: &mut TextRun, other: &Self)
        requires { length run.old + 58 ≤ 192 }
        ensures bytes { run.new ≡ run.old ++ bytes_of (change other.now self.now) }
        ensures len { length run.new ≤ length run.old + 58 }
    {
        if *self == *other {
            return;
        }
        if *self == Self::default() {
            run.push_ascii(b'\x1b');
            run.push_ascii(b'[');
            run.push_ascii(b'm');
        } else {
            term::Attrs::of_change(other, self).push_to(run);
        }
    }

    /// Writes the escape sequence that takes a terminal from the attributes `other` to these. `writer` gets it in one
    /// call, or in no call if it is empty. The only error is that call's.
    pub fn write_escape_code_diff_fmt<W: fmt::Write>(
        &self,
        writer: &mut W,
        other: &Self,
    ) -> fmt::Result
        ensures written { OnOk result
            (HandsOver W.write_str_gives writer.old (bytes_of (change other.now self.now)) writer.new) }
        ensures empty { bytes_of (change other.now self.now) ≡ [] → IsOk result }
    {
        let mut run = TextRun::new();
        self.push_escape_code_diff(&mut run, other);
        let text = run.as_str();
        if text.is_empty() {
            return Ok(());
        }
        writer.write_str(text)
    }
}
