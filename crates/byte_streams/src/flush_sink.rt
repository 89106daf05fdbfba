//! Byte sinks that can be flushed.
ghost use Rattle.std.specs.Prelude.{ℕ, List, Option, Result};
ghost use Rattle.std.specs.Io.KnownBytes.{Keeps};
ghost use Rattle.std.specs.declared.io.Error.{Error};
ghost use Rattle.byte_streams.specs.Pump.{Writes};
ghost use Rattle.byte_streams.specs.Sent.{Flushes};

use crate::byte_sink::ByteSink;
use std::io;
use std::io::Write;

/// A byte sink that can be flushed. The ghosts of each kind say what a write and a flush do to it, also if they fail.
pub trait FlushSink: ByteSink {
    // the bytes that the sink has taken, if they are known
    ghost contents: { Self → Option (List ℕ) };

    // the result of a flush, and the sink after it
    ghost flushes: { Self → Result (Unit {0}) Error → Self → Type 0 };

    /// Flushes the sink.
    fn finish(&mut self) -> io::Result<()>
        ensures flushes { flushes self.old result self.new };

    ghost tells: { (s : Self) (bytes : List ℕ) (answer : Result ℕ Error) (t : Self) → Self.takes s bytes answer t
        → Writes contents s bytes answer t };

    ghost keeps: { (s : Self) (answer : Result (Unit {0}) Error) (t : Self) → flushes s answer t
        → Keeps (contents s) (contents t) };
}

/// For a writer, the ghosts are what [`Write`] promises of writes and flushes.
impl<W: Write> FlushSink for W {
    ghost contents = { W.contents };

    ghost flushes = { Flushes W.contents };

    ghost tells = { λ s bytes answer t reported. reported };

    ghost keeps = { λ s answer t reported. reported };

    fn finish(&mut self) -> io::Result<()> {
        self.flush()
    }
}
