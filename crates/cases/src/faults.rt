//! Faults of readers and writers, by their names.

use case_player::{Words, value_of};
use std::io::ErrorKind;

const FAULTS: &[(&str, ErrorKind)] = &[
    ("broken-pipe", ErrorKind::BrokenPipe),
    ("interrupted", ErrorKind::Interrupted),
    ("out-of-memory", ErrorKind::OutOfMemory),
];

/// The fault that a word of a step names.
pub fn fault_named(name: &str, words: &Words) -> ErrorKind {
    words.named(
        value_of(FAULTS, name),
        "broken-pipe, interrupted or out-of-memory",
        ErrorKind::Other,
    )
}
