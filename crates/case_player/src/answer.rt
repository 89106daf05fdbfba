//! What a step answers.

use std::alloc::{AllocError, Global};
use std::fmt::{Debug, Display};

/// What a step answers: some lines.
///
/// There is room for 65,536 bytes before the step begins. So appending to an answer that fits takes no memory. If
/// memory is refused to an append, the step counts as refused for memory.
#[derive(Drop)]
pub struct Answer {
    text: String,
    // Whether memory was refused to something that was appended.
    refused: bool,
    // How many bytes at the start are lines that were compared.
    compared: usize,
}

/// How many bytes an answer has room for from the start.
const ROOM: usize = 65_536;

impl Answer {
    /// An empty answer.
    pub fn new(alloc: Global) -> Result<Answer, AllocError> {
        Ok(Answer {
            text: String::with_capacity(alloc, ROOM)?,
            refused: false,
            compared: 0,
        })
    }

    /// An empty answer, which has no room yet.
    pub(crate) fn without_room(alloc: Global) -> Answer {
        Answer {
            text: String::new(alloc),
            refused: false,
            compared: 0,
        }
    }

    /// Appends a text as it is.
    pub fn push(&mut self, text: &str) {
        self.refused |= self.text.push_str(text).is_err();
    }

    /// Appends what `write!` formats.
    pub(crate) fn write_fmt<D: Display + Drop>(&mut self, value: D) {
        self.refused |= self.text.write_fmt(value).is_err();
    }

    /// Appends a number.
    pub fn number(&mut self, number: u64) {
        write!(self, "{number}");
    }

    /// Appends numbers with a space between them.
    pub fn numbers(&mut self, numbers: &[u64]) {
        let mut between = "";
        for number in numbers {
            self.push(between);
            self.number(*number);
            between = " ";
        }
    }

    /// Appends a number in hexadecimal digits, two at least.
    pub fn hexadecimal(&mut self, number: u32) {
        write!(self, "{number:02X}");
    }

    /// Appends a value as its `Display`.
    pub fn display<T: Display>(&mut self, value: &T) {
        write!(self, "{value}");
    }

    /// Appends a value as its `Debug`.
    pub fn debug<T: Debug>(&mut self, value: &T) {
        write!(self, "{value:?}");
    }

    /// Appends a character as it is.
    pub(crate) fn push_char(&mut self, c: char) {
        self.refused |= self.text.push(c).is_err();
    }

    /// Appends bytes as a quoted word.
    pub fn quoted(&mut self, bytes: &[u8]) {
        self.push("\"");
        self.escaped(bytes);
        self.push("\"");
    }

    /// Appends bytes as a quoted word, and ends the line.
    pub fn quoted_line(&mut self, bytes: &[u8]) {
        self.quoted(bytes);
        self.end_line();
    }

    /// Appends a text, and ends the line.
    pub fn line(&mut self, text: &str) {
        self.push(text);
        self.end_line();
    }

    /// Ends the line.
    pub fn end_line(&mut self) {
        self.push("\n");
    }

    /// A check inside of the step. If it fails, these words are a line of the answer, which no case expects.
    pub fn check(&mut self, holds: bool, words: &str) {
        if !holds {
            self.line(words);
        }
    }

    /// Whether nothing was appended yet.
    pub fn is_empty(&self) -> bool {
        self.text.is_empty()
    }

    /// Whether the answer ends with these lines, right after a place and a colon.
    pub fn has_told(&self, lines: &str) -> bool {
        match self.as_str().strip_suffix(lines) {
            Some(before) => before.ends_with(": "),
            None => false,
        }
    }

    /// The lines so far, each with its end.
    pub fn as_str(&self) -> &str {
        self.text.as_str()
    }

    /// Whether memory was refused to something that was appended.
    pub fn is_refused(&self) -> bool {
        self.refused
    }

    /// Empties the answer.
    pub fn clear(&mut self) {
        self.text.clear();
        self.refused = false;
        self.compared = 0;
    }

    /// The first line that isn't compared yet. From now on it counts as compared.
    pub(crate) fn next_line(&mut self) -> Option<&str> {
        let rest = self.text.as_str().get(self.compared..)?;
        if rest.is_empty() {
            return None;
        }
        let line = first_line(rest);
        self.compared = self.compared.saturating_add(line.len()).saturating_add(1);
        Some(line)
    }
}

// The text up to its first line's end.
fn first_line(text: &str) -> &str {
    match text.split_once('\n') {
        Some((line, _)) => line,
        None => text,
    }
}
