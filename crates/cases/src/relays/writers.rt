//! Writers that take little, or fail.

use crate::relays::sums::Sum;
use std::io;
use std::io::{ErrorKind, Write};
use termrelay::runs::Take;

/// What a writer was given.
#[derive(Clone, Copy)]
pub struct Pumped {
    /// How many writes there were.
    pub writes: usize,
    /// What they took.
    pub taken: Sum,
    /// What they and earlier ones took.
    pub all: Sum,
}

impl Pumped {
    /// Nothing was given, after this was taken earlier.
    pub fn after(earlier: Sum) -> Pumped {
        Pumped {
            writes: 0,
            taken: Sum::NONE,
            all: earlier,
        }
    }
}

/// A writer whose first writes take what is given here, and whose later ones take some bytes each. It keeps the sum of
/// what it takes.
#[derive(Drop)]
pub struct Writer<'a> {
    /// What the next writes take.
    pub takes: &'a [Take],
    /// What a later write takes at most.
    pub most: usize,
    /// The error of a write that fails.
    pub fault: ErrorKind,
    /// What was given.
    pub pumped: Pumped,
}

impl Writer<'_> {
    /// A writer that takes all.
    pub fn new() -> Self {
        Writer {
            takes: &[],
            most: usize::MAX,
            fault: ErrorKind::BrokenPipe,
            pumped: Pumped::after(Sum::NONE),
        }
    }
}

impl Write for Writer<'_> {
    fn write(&mut self, buf: &[u8]) -> io::Result<usize> {
        self.pumped.writes = self.pumped.writes.saturating_add(1);
        let mut most = self.most;
        if let [take, rest @ ..] = self.takes {
            self.takes = rest;
            match take {
                Take::Bytes(count) => most = *count,
                Take::Fault => return Err(io::Error::from(self.fault)),
            }
        }
        let (taken, _) = buf.split_at(most.min(buf.len()));
        self.pumped.taken = self.pumped.taken.after(taken);
        self.pumped.all = self.pumped.all.after(taken);
        Ok(taken.len())
    }

    fn flush(&mut self) -> io::Result<()> {
        Ok(())
    }
}
