//! Words of steps, and parts of answers.

use case_player::{Answer, Words};
use std::alloc::{AllocError, Global};

/// How many words of one kind a step has at most.
pub const MOST_WORDS: usize = 64;

/// A count, or this one if no word is left.
pub fn count_or(words: &Words, count: usize) -> usize {
    if words.is_empty() {
        count
    } else {
        words.count()
    }
}

/// All counts that are left.
pub fn counts(alloc: Global, words: &Words) -> Result<Vec<usize>, AllocError> {
    let mut counts = Vec::new(alloc);
    for _ in 0..MOST_WORDS {
        if !words.is_empty() {
            counts.push(words.count())?;
        }
    }
    Ok(counts)
}

/// The length of the longest text that is appended as it is, in bytes.
const TOLD_LEN: usize = 400;

/// Appends a text, or only the length of a longer one.
pub fn push_text(answer: &mut Answer, text: &[u8]) {
    if text.len() <= TOLD_LEN {
        answer.quoted(text);
    } else {
        answer.number(text.len() as u64);
        answer.push(" bytes");
    }
}
