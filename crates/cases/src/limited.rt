//! A writer with a limit.

use std::alloc::{AllocError, Global};
use std::io;
use std::io::{ErrorKind, Write};

/// A writer that keeps the bytes it takes, at most `step` a write. Once it has taken `room` bytes, each write of more
/// fails, or takes nothing.
#[derive(Drop)]
pub struct LimitedWriter {
    /// The bytes that it took.
    pub kept: Vec<u8>,
    /// How many bytes it takes altogether.
    pub room: usize,
    /// How many bytes it takes at most in one write.
    pub step: usize,
    /// The error of a write then, or none if it takes nothing.
    pub fault: Option<ErrorKind>,
    /// Whether a flush succeeds. If not, it fails with `BrokenPipe`.
    pub flushes: bool,
    /// How many flushes were made, also those that failed.
    pub flushed: u64,
}

impl LimitedWriter {
    /// A writer that takes `room` bytes, and fails then. It has no memory yet.
    pub fn new(alloc: Global, room: usize) -> LimitedWriter {
        LimitedWriter {
            kept: Vec::new(alloc),
            room,
            step: usize::MAX,
            fault: Some(ErrorKind::BrokenPipe),
            flushes: true,
            flushed: 0,
        }
    }

    /// Forgets what it took, and asks for its memory, so that no write asks for any.
    pub fn clear(&mut self) -> Result<(), AllocError> {
        self.kept.clear();
        self.flushed = 0;
        self.kept.reserve(self.room)
    }
}

impl Write for LimitedWriter {
    fn write(&mut self, buf: &[u8]) -> io::Result<usize> {
        let left = self.room.saturating_sub(self.kept.len());
        let (taken, _) = buf.split_at(buf.len().min(self.step).min(left));
        match self.fault {
            Some(kind) if taken.is_empty() && !buf.is_empty() => Err(io::Error::from(kind)),
            _ => {
                self.kept.extend_from_slice(taken)?;
                Ok(taken.len())
            }
        }
    }

    fn flush(&mut self) -> io::Result<()> {
        self.flushed = self.flushed.saturating_add(1);
        if self.flushes {
            Ok(())
        } else {
            Err(io::Error::from(ErrorKind::BrokenPipe))
        }
    }
}
