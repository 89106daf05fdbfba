//! Reads the words of a line: bare ones, and quoted ones with their escapes.

use crate::words::{Word, Words};

const ESCAPES: &str =
    "one of the escapes \\e \\n \\r \\t \\\\ \\\" \\xHH \\u{H..} behind a backslash";

impl Words {
    /// Replaces the words by those of a line. What isn't a word is a fault of the step.
    pub(crate) fn read(&mut self, line: &str) {
        self.clear();
        let mut at = 0;
        for _ in 0..line.len() {
            if at < line.len() {
                at = self.read_word(line, at);
            }
        }
    }

    // Reads the word that begins there. Returns where the next one begins.
    fn read_word(&mut self, line: &str, at: usize) -> usize {
        let start = self.length();
        let is_bare = byte_at(line, at).unwrap_or(0) != b'"';
        let after = if is_bare {
            self.read_bare(line, at)
        } else {
            self.read_quoted(line, at.saturating_add(1))
        };
        let end = self.length();
        self.end_word(Word {
            start,
            end,
            is_bare,
        });
        self.read_space(line, after)
    }

    fn read_bare(&mut self, line: &str, at: usize) -> usize {
        let word = bare_word(line.get(at..).unwrap_or(""));
        self.push(word.as_bytes());
        at.saturating_add(word.len())
    }

    // Reads the bytes of a quoted word, after its first quote.
    fn read_quoted(&mut self, line: &str, first: usize) -> usize {
        let mut at = first;
        for _ in 0..line.len() {
            match byte_at(line, at) {
                Some(b'"') => return at.saturating_add(1),
                Some(b'\\') => at = self.read_escape(line, at.saturating_add(1)),
                Some(byte) => {
                    self.push(&[byte]);
                    at = at.saturating_add(1);
                }
                None => break,
            }
        }
        self.want("a quote at the end of a quoted word");
        at
    }

    fn read_space(&mut self, line: &str, at: usize) -> usize {
        if byte_at(line, at).unwrap_or(b' ') != b' ' {
            self.want("a space behind a quoted word");
        }
        at.saturating_add(1)
    }

    // Reads an escape after its backslash.
    fn read_escape(&mut self, line: &str, at: usize) -> usize {
        match byte_at(line, at) {
            Some(b'x') => self.read_byte(line, at.saturating_add(1)),
            Some(b'u') => self.read_character(line, at.saturating_add(1)),
            letter => {
                let byte = self.named(control(letter), ESCAPES, 0);
                self.push(&[byte]);
                at.saturating_add(1)
            }
        }
    }

    // Reads a byte by its two hexadecimal digits.
    fn read_byte(&mut self, line: &str, at: usize) -> usize {
        let high = self.digit(line, at);
        let low = self.digit(line, at.saturating_add(1));
        let code = high.saturating_mul(16).saturating_add(low);
        self.push(&[u8::try_from(code).unwrap_or(0)]);
        at.saturating_add(2)
    }

    // Reads a character by its digits in braces.
    fn read_character(&mut self, line: &str, at: usize) -> usize {
        if byte_at(line, at) != Some(b'{') {
            self.want(ESCAPES);
        }
        let mut end = at.saturating_add(1);
        let mut code = 0_u32;
        for _ in 0..line.len() {
            if byte_at(line, end) == Some(b'}') {
                break;
            }
            code = code
                .saturating_mul(16)
                .saturating_add(self.digit(line, end));
            end = end.saturating_add(1);
        }
        let c = self.named(char::from_u32(code), ESCAPES, ' ');
        self.push(c.encode_utf8(&mut [0; 4]).as_bytes());
        end.saturating_add(1)
    }

    // The value of a hexadecimal digit.
    fn digit(&self, line: &str, at: usize) -> u32 {
        let byte = byte_at(line, at).unwrap_or(0);
        self.named(char::from(byte).to_digit(16), ESCAPES, 0)
    }
}

fn byte_at(line: &str, at: usize) -> Option<u8> {
    line.as_bytes().get(at).copied()
}

// The text up to its first space.
fn bare_word(text: &str) -> &str {
    match text.split_once(' ') {
        Some((word, _)) => word,
        None => text,
    }
}

fn control(letter: Option<u8>) -> Option<u8> {
    match letter {
        Some(b'e') => Some(0x1B),
        Some(b'n') => Some(b'\n'),
        Some(b'r') => Some(b'\r'),
        Some(b't') => Some(b'\t'),
        Some(b'\\' | b'"') => letter,
        _ => None,
    }
}
