//! Bytes as people read them: as quoted words are written.

use crate::answer::Answer;
use unicode_width::UnicodeWidthChar;

impl Answer {
    /// Appends bytes with escapes: as a quoted word of a step, but without its quotes.
    ///
    /// Printable ASCII and characters from U+00A0 on are as they are. Characters of no width are `\u{..}`, the usual
    /// controls `\e \n \r \t`, and a backslash and a quote have a backslash before them. All other bytes are `\xHH`.
    pub fn escaped(&mut self, bytes: &[u8]) {
        for chunk in bytes.utf8_chunks() {
            self.escaped_text(chunk.valid());
            self.escaped_bytes(chunk.invalid());
        }
    }

    fn escaped_text(&mut self, text: &str) {
        for c in text.chars() {
            match escape_of(c) {
                "" => self.escaped_char(c),
                escape => self.push(escape),
            }
        }
    }

    fn escaped_char(&mut self, c: char) {
        match c {
            ' '..='~' => self.push_char(c),
            '\0'..='\u{9F}' => self.escaped_bytes(c.encode_utf8(&mut [0; 4]).as_bytes()),
            _ if c.width() == Some(0) => self.code(u32::from(c)),
            _ => self.push_char(c),
        }
    }

    fn code(&mut self, code: u32) {
        write!(self, "\\u{{{code:x}}}");
    }

    fn escaped_bytes(&mut self, bytes: &[u8]) {
        for byte in bytes {
            self.push("\\x");
            self.hexadecimal(u32::from(*byte));
        }
    }
}

// The escape of a character that has one of its own.
fn escape_of(c: char) -> &'static str {
    match c {
        '\u{1B}' => "\\e",
        '\n' => "\\n",
        '\r' => "\\r",
        '\t' => "\\t",
        '\\' => "\\\\",
        '"' => "\\\"",
        _ => "",
    }
}
