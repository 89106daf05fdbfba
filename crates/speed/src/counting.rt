//! What receives events and calls, and counts them.

ghost use Rattle.std.specs.Prelude.{⊤, false};

use std::io;
use std::marker::Model;
use termrelay::ByteSink;
use vte::ansi::{Call, Handler};
use vte::{Event, Perform};

/// Counts what it receives. Each byte of a text counts as one character.
#[derive(Drop)]
pub(crate) struct Counting {
    pub(crate) count: usize,
}

/// Nothing is promised of the count.
impl Model for Counting {
    ghost use Rattle.std.specs.Prelude.{⊤};

    ghost Value = { ⊤ };

    ghost view = { λ _. tt };
}

impl Counting {
    pub(crate) fn new() -> Self {
        Counting { count: 0 }
    }

    fn add(&mut self, count: usize) {
        self.count = self.count.wrapping_add(count);
    }
}

impl Perform for Counting {
    ghost step = { λ _ _ _. ⊤ };

    ghost is_terminated = { λ _. false };

    fn event(&mut self, _event: Event<'_>) {
        self.add(1);
    }

    fn terminated(&self) -> bool {
        false
    }

    fn print_str(&mut self, text: &str) {
        self.add(text.len());
    }
}

impl Handler for Counting {
    ghost step = { λ _ _ _. ⊤ };

    fn call(&mut self, _call: Call<'_>) {
        self.add(1);
    }

    fn input_str(&mut self, text: &str) {
        self.add(text.len());
    }
}

/// Takes all bytes, and counts them.
impl ByteSink for Counting {
    ghost takes = { λ _ _ _ _. ⊤ };

    fn offer(&mut self, bytes: &[u8]) -> io::Result<usize> {
        self.add(bytes.len());
        Ok(bytes.len())
    }
}
