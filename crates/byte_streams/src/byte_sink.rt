//! Writing bytes to a sink.
ghost use Rattle.std.specs.Prelude.{◌≡◌, ℕ, List, Result};
ghost use Rattle.std.specs.declared.io.Error.{Error};
ghost use Rattle.byte_streams.specs.Pump.{Pumps, Writes};

use std::io;
use std::io::{ErrorKind, Write};

/// A byte sink. The ghost `takes` of each kind says what one write does to it, also if the write fails.
pub trait ByteSink {
    ghost takes: { Self → List ℕ → Result ℕ Error → Self → Type 0 };

    /// Makes one write of these bytes. Returns how many of them were taken.
    fn offer(&mut self, bytes: &[u8]) -> io::Result<usize>
        ensures takes { takes self.old bytes.now result self.new };
}

/// For a writer, `takes` is what [`Write`] promises of a write.
impl<W: Write> ByteSink for W {
    ghost takes = { Writes W.contents };

    fn offer(&mut self, bytes: &[u8]) -> io::Result<usize> {
        self.write(bytes)
    }
}

/// Writes the bytes, one write after another, until all are taken. Returns how many were taken, and how the last write
/// ended.
///
/// The first failed write ends the pump, and its error is returned, also if the write was interrupted. A write that
/// takes no byte is an error of kind `WriteZero`. If a write returns more than the number of bytes it was offered, it
/// counts as having taken all of them. If there are no bytes, no write is made.
pub fn pump<T: ByteSink>(owed: &[u8], to: &mut T) -> (usize, io::Result<()>)
    ensures { Pumps T.takes to.old owed.now result.1 result.0 to.new }
{
    let mut taken = 0;
    // The label names the loop's invariant.
    'writes: while taken < owed.len() {
        let left = &owed[taken..];
        match to.offer(left) {
            Ok(0) => return (taken, Err(io::Error::from(ErrorKind::WriteZero))),
            Ok(n) => taken += n.min(left.len()),
            Err(e) => return (taken, Err(e)),
        }
    }
    (taken, Ok(()))
}
