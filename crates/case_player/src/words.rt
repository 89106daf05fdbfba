//! The words of a step.

use crate::player::StepError;
use std::alloc::{AllocError, Global};
use std::cell::Cell;
use std::num::NonZeroU16;

/// How many words, and how many bytes of them, a line has room for from the start.
const ROOM: usize = 4096;

/// A word of a line.
#[derive(Clone, Copy)]
pub(crate) struct Word {
    /// Where it starts in the bytes of all words.
    pub start: usize,
    /// Where it ends there.
    pub end: usize,
    /// Whether it has no quotes.
    pub is_bare: bool,
}

/// The words of a step, of which some are taken.
///
/// A word is bare, as `3` or `full`, or it is quoted. If the next word isn't the wanted one, 0 or an empty text is
/// taken in its place, and the step counts as not done, since another word is wanted. So a step reads its words
/// without checking for these faults.
#[derive(Drop)]
pub struct Words {
    // The bytes of all words, with their escapes resolved.
    bytes: Vec<u8>,
    words: Vec<Word>,
    // How many words are taken.
    taken: Cell<usize>,
    // Why the step isn't done: the first reason.
    error: Cell<Option<StepError>>,
}

impl Words {
    /// No words.
    pub(crate) fn new(alloc: Global) -> Result<Words, AllocError> {
        Ok(Words {
            bytes: Vec::with_capacity(alloc, ROOM)?,
            words: Vec::with_capacity(alloc, ROOM)?,
            taken: Cell::new(0),
            error: Cell::new(None),
        })
    }

    /// Removes all words.
    pub(crate) fn clear(&mut self) {
        self.bytes.clear();
        self.words.clear();
        self.taken.set(0);
        self.error.set(None);
    }

    /// Appends bytes to the word that is read.
    pub(crate) fn push(&mut self, bytes: &[u8]) {
        if self.bytes.extend_from_slice(bytes).is_err() {
            self.fail(StepError::Memory);
        }
    }

    /// How many bytes all words have.
    pub(crate) fn length(&self) -> usize {
        self.bytes.len()
    }

    /// Ends the word that is read.
    pub(crate) fn end_word(&mut self, word: Word) {
        if self.words.push(word).is_err() {
            self.fail(StepError::Memory);
        }
    }

    /// Whether all words are taken.
    pub fn is_empty(&self) -> bool {
        self.taken.get() >= self.words.len()
    }

    /// Notes that the step isn't done, for this reason.
    pub fn fail(&self, error: StepError) {
        if self.error.get().is_none() {
            self.error.set(Some(error));
        }
    }

    /// Notes that a word of this kind is wanted instead.
    pub fn want(&self, wanted: &'static str) {
        self.fail(StepError::Word(wanted));
    }

    /// What a word names. If it names nothing, this notes that another word is wanted, and returns the default.
    pub fn named<T: Copy>(&self, found: Option<T>, wanted: &'static str, default: T) -> T {
        match found {
            Some(value) => value,
            None => {
                self.want(wanted);
                default
            }
        }
    }

    /// Takes a bare word that is a name in a table, and returns its value. For any other word it notes the fault, and
    /// returns the default.
    pub fn one_of<T: Copy>(&self, table: &[(&str, T)], wanted: &'static str, default: T) -> T {
        self.named(value_of(table, self.word()), wanted, default)
    }

    /// Why the step isn't done, if one of its words is a reason.
    pub(crate) fn error(&self) -> Option<StepError> {
        self.error.get()
    }

    /// Takes a bare word.
    pub fn word(&self) -> &str {
        self.bare("a bare word")
    }

    /// Takes a number.
    pub fn number(&self) -> u64 {
        let number = self.bare("a number").parse::<u64>().ok();
        self.named(number, "a number", 0)
    }

    /// Takes a count.
    pub fn count(&self) -> usize {
        let count = self.bare("a count").parse::<usize>().ok();
        self.named(count, "a count", 0)
    }

    /// Takes a row, a column, or a number of them.
    pub fn place(&self) -> u16 {
        let place = self.bare(PLACE).parse::<u16>().ok();
        self.named(place, PLACE, 0)
    }

    /// Takes a height or a width: a number from 1 to 65535.
    pub fn size(&self) -> NonZeroU16 {
        let size = self.bare(SIZE).parse::<u16>().unwrap_or(0);
        self.named(NonZeroU16::new(size), SIZE, NonZeroU16::MIN)
    }

    /// Takes the bytes of a word: of a quoted one with its escapes resolved.
    pub fn bytes(&self) -> &[u8] {
        self.next("bytes").0
    }

    /// Takes the bytes of a word that are text in UTF-8.
    pub fn text(&self) -> &str {
        let text = str::from_utf8(self.bytes()).ok();
        self.named(text, "text in UTF-8", "")
    }

    // Takes a word. Returns it, and whether it is bare.
    fn next(&self, wanted: &'static str) -> (&[u8], bool) {
        let taken = self.taken.get();
        let Some(word) = self.words.get(taken) else {
            self.want(wanted);
            return (b"", true);
        };
        self.taken.set(taken.saturating_add(1));
        let bytes = self.bytes.get(word.start..word.end).unwrap_or(b"");
        (bytes, word.is_bare)
    }

    fn bare(&self, wanted: &'static str) -> &str {
        let (word, is_bare) = self.next(wanted);
        let text = if is_bare {
            str::from_utf8(word).ok()
        } else {
            None
        };
        self.named(text, wanted, "")
    }
}

/// The value that a name has in a table, if it is in there.
pub fn value_of<T: Copy>(table: &[(&str, T)], name: &str) -> Option<T> {
    for (known, value) in table {
        if *known == name {
            return Some(*value);
        }
    }
    None
}

const PLACE: &str = "a number up to 65535";

const SIZE: &str = "a number from 1 to 65535";
