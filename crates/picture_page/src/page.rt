//! A picture as it is written: markup, digits and texts, and nothing else.

ghost use Rattle.std.specs.Prelude.{◌≡◌, ◌∷◌, [], ◌%◌, ◌++◌, OnOk, decimal, encode_utf8, if◌then◌else◌, length};
ghost use Rattle.std.specs.Option.{option_map};
ghost use Rattle.picture_page.specs.Bytes.{color_bytes, hexadecimal, numbers_bytes};
ghost use Rattle.picture_page.specs.Page.{Adds, IsPage, IsSafe, digit_byte, escaped, reference as reference_of};
ghost use Rattle.picture_page.specs.Tags.{tag_bytes};

use crate::tag::Tag;
use itoa::Buffer;
use std::alloc::{AllocError, Global};
use std::marker::Model;

/// Red, green and blue.
#[derive(Clone, Copy, PartialEq, Eq)]
pub struct Rgb {
    /// Red.
    pub red: u8,
    /// Green.
    pub green: u8,
    /// Blue.
    pub blue: u8,
}

/// The bytes of a picture. Whatever calls built it, they are pieces of markup, digits and escaped texts.
#[derive(Drop)]
pub struct Page {
    bytes: Vec<u8>,
}

impl Model for Page {
    ghost use Rattle.std.specs.Prelude.{List, ℕ};
    ghost use Rattle.picture_page.specs.Page.{IsPage};

    ghost Value = { List ℕ };

    ghost view = { λ p. p.bytes.items };

    ghost invariant = { λ p. IsPage p.bytes.items };
}

impl Page {
    /// An empty page.
    pub fn new(alloc: Global) -> Self
        ensures { result ≡ [] }
    {
        Page {
            bytes: Vec::new(alloc),
        }
    }

    /// The page that has these bytes.
    pub fn of_bytes(bytes: Vec<u8>) -> Self
        requires { IsPage bytes.items }
        ensures { result ≡ bytes.items }
    {
        Page { bytes }
    }

    /// Appends a piece of markup.
    pub fn markup(&mut self, tag: Tag) -> Result<(), AllocError>
        ensures adds { OnOk result (Adds self.old self.new []) }
        ensures bytes { OnOk result (self.new ≡ self.old ++ tag_bytes tag) }
    {
        self.bytes.extend_from_slice(tag.bytes())?;
        Ok(())
    }

    /// Appends a piece of markup if `on`.
    pub fn markup_if(&mut self, on: bool, tag: Tag) -> Result<(), AllocError>
        ensures adds { OnOk result (Adds self.old self.new []) }
        ensures bytes { OnOk result (self.new ≡ self.old ++ (if on then tag_bytes tag else [])) }
    {
        if on { self.markup(tag) } else { Ok(()) }
    }

    /// Appends the newline that ends a row of cells.
    pub fn end_row(&mut self) -> Result<(), AllocError>
        ensures adds { OnOk result (Adds self.old self.new (10 ∷ [])) }
        ensures bytes { OnOk result (self.new ≡ self.old ++ 10 ∷ []) }
    {
        self.bytes.push(b'\n')?;
        Ok(())
    }

    /// Appends a digit. The value is taken modulo 16.
    pub fn digit(&mut self, value: u8) -> Result<(), AllocError>
        ensures adds { OnOk result (Adds self.old self.new []) }
        ensures bytes { OnOk result (self.new ≡ self.old ++ digit_byte (value % 16) ∷ []) }
    {
        self.bytes.push(digit_of(value))?;
        Ok(())
    }

    /// Appends a number, in decimal.
    pub fn number(&mut self, number: u32) -> Result<(), AllocError>
        ensures adds { OnOk result (Adds self.old self.new []) }
        ensures bytes { OnOk result (self.new ≡ self.old ++ decimal number) }
    {
        let mut digits = Buffer::new();
        self.bytes
            .extend_from_slice(digits.format(number).as_bytes())?;
        Ok(())
    }

    /// Appends pieces of markup, each with the number that follows it.
    pub fn numbers(&mut self, numbers: &[(Tag, u32)]) -> Result<(), AllocError>
        ensures adds { OnOk result (Adds self.old self.new []) }
        ensures bytes { OnOk result (self.new ≡ self.old ++ numbers_bytes numbers.now) }
    {
        for (tag, number) in numbers {
            self.markup_number(*tag, *number)?;
        }
        Ok(())
    }

    // Appends a piece of markup and the number that follows it.
    fn markup_number(&mut self, tag: Tag, number: u32) -> Result<(), AllocError>
        ensures adds { OnOk result (Adds self.old self.new []) }
        ensures bytes { OnOk result (self.new ≡ self.old ++ (tag_bytes tag ++ decimal number)) }
    {
        self.markup(tag)?;
        self.number(number)
    }

    /// Appends a piece of markup and a colour, as six digits.
    pub fn color(&mut self, tag: Tag, color: Rgb) -> Result<(), AllocError>
        ensures adds { OnOk result (Adds self.old self.new []) }
        ensures bytes { OnOk result (self.new ≡ self.old ++ (tag_bytes tag ++ color_bytes color)) }
    {
        self.markup(tag)?;
        self.hexadecimal(color.red)?;
        self.hexadecimal(color.green)?;
        self.hexadecimal(color.blue)
    }

    // Appends two digits of base 16.
    fn hexadecimal(&mut self, value: u8) -> Result<(), AllocError>
        ensures adds { OnOk result (Adds self.old self.new []) }
        ensures bytes { OnOk result (self.new ≡ self.old ++ hexadecimal value) }
    {
        self.digit(value / 16)?;
        self.digit(value % 16)
    }

    /// Appends a name that isn't a text of the screen, such as that of a font, escaped.
    pub fn name(&mut self, name: &str) -> Result<(), AllocError>
        ensures adds { OnOk result (Adds self.old self.new []) }
        ensures bytes { OnOk result (self.new ≡ self.old ++ escaped name.now) }
    {
        for byte in name.as_bytes() {
            self.name_byte(*byte)?;
        }
        Ok(())
    }

    // Appends a byte of a name, escaped.
    fn name_byte(&mut self, byte: u8) -> Result<(), AllocError>
        ensures adds { OnOk result (Adds self.old self.new []) }
        ensures bytes { OnOk result (self.new ≡ self.old ++ escaped (byte ∷ [])) }
    {
        match reference(byte) {
            Some(text) => {
                self.bytes.extend_from_slice(text)?;
                Ok(())
            }
            None => {
                self.bytes.push(byte)?;
                Ok(())
            }
        }
    }

    /// Appends a text of the screen, escaped.
    pub fn text(&mut self, text: &str) -> Result<(), AllocError>
        ensures adds { OnOk result (Adds self.old self.new text.now) }
        ensures bytes { OnOk result (self.new ≡ self.old ++ escaped text.now) }
    {
        for byte in text.as_bytes() {
            self.text_byte(*byte)?;
        }
        Ok(())
    }

    // Appends a byte of a text, escaped.
    fn text_byte(&mut self, byte: u8) -> Result<(), AllocError>
        ensures adds { OnOk result (Adds self.old self.new (byte ∷ [])) }
        ensures bytes { OnOk result (self.new ≡ self.old ++ escaped (byte ∷ [])) }
    {
        match reference(byte) {
            Some(text) => {
                self.bytes.extend_from_slice(text)?;
                Ok(())
            }
            None => {
                self.bytes.push(byte)?;
                Ok(())
            }
        }
    }

    /// Appends a character of the screen, escaped.
    pub fn character(&mut self, c: char) -> Result<(), AllocError>
        ensures adds { OnOk result (Adds self.old self.new (encode_utf8 c)) }
        ensures bytes { OnOk result (self.new ≡ self.old ++ escaped (encode_utf8 c)) }
    {
        let mut room = [0; 4];
        self.text(c.encode_utf8(&mut room))
    }

    /// Appends another page.
    pub fn append(&mut self, other: &Page) -> Result<(), AllocError>
        ensures { OnOk result (self.new ≡ self.old ++ other.now) }
    {
        self.bytes.extend_from_slice(&other.bytes)?;
        Ok(())
    }

    /// How many bytes it has.
    pub fn len(&self) -> usize
        ensures { result ≡ length self.now }
    {
        self.bytes.len()
    }

    /// Its bytes.
    pub fn into_bytes(self) -> Vec<u8>
        ensures bytes { result.items ≡ self }
        ensures page { IsPage result.items }
        ensures safe { IsSafe result.items }
    {
        self.bytes
    }
}

// What is written for a byte that isn't written as it is.
fn reference(byte: u8) -> Option<&'static [u8]>
    ensures { option_map (λ r. r.now) result ≡ reference_of byte }
{
    match byte {
        b'&' => Some(b"&amp;"),
        b'<' => Some(b"&lt;"),
        b'>' => Some(b"&gt;"),
        b'"' => Some(b"&quot;"),
        b'\'' => Some(b"&#39;"),
        _ => None,
    }
}

// The digit of this value, which is taken modulo 16.
fn digit_of(value: u8) -> u8
    ensures { result ≡ digit_byte (value % 16) }
{
    let value = value % 16;
    if value <= 9 {
        b'0' + value
    } else {
        b'a' + (value - 10)
    }
}
