//! A writer with limited room.
use crate::checks::check;
use case_player::{Answer, StepError};
use std::alloc::{AllocError, Global};
use std::fmt;

/// Takes whole texts while there is room for them.
#[derive(Drop)]
pub struct Limited {
    /// What it has taken.
    pub taken: String,
    room: usize,
    calls: usize,
}

impl fmt::Write for Limited {
    fn write_str(&mut self, s: &str) -> fmt::Result {
        self.calls = self.calls.saturating_add(1);
        if s.len() > self.room {
            return Err(fmt::Error);
        }
        self.room -= s.len();
        match self.taken.push_str(s) {
            Ok(()) => Ok(()),
            Err(_) => Err(fmt::Error),
        }
    }
}

impl Limited {
    /// A writer with room for this many bytes. Its memory is allocated at once.
    pub fn new(alloc: Global, room: usize) -> Result<Limited, AllocError> {
        Ok(Limited {
            taken: String::with_capacity(alloc, room)?,
            room,
            calls: 0,
        })
    }

    /// Whether it has taken this text in one call, or in no call if it is empty.
    fn has_taken(&self, text: &str) -> bool {
        let wanted_calls = if text.is_empty() { 0 } else { 1 };
        self.calls == wanted_calls && self.taken.as_str() == text
    }
}

/// Appends a text that is also written to a writer. A writer with room for this text gets it in one call, or in no call
/// if it is empty. A second time it refuses the text, and that is reported.
pub fn tell_written<F: Fn(&mut Limited) -> fmt::Result>(
    alloc: Global,
    text: &str,
    write: F,
    answer: &mut Answer,
) -> Result<(), StepError>
    requires { F.IsAlwaysCallable write }
{
    let mut writer = Limited::new(alloc, text.len())?;
    let is_taken = write(&mut writer).is_ok() && writer.has_taken(text);
    let is_refused = write(&mut writer).is_err();
    answer.quoted_line(text.as_bytes());
    check(
        is_taken && is_refused != text.is_empty(),
        "a writer doesn't get the text in one call, or its refusal isn't told",
    )
}
