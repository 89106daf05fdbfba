//! Reading bytes from a source.

ghost use Rattle.std.specs.Prelude.{ℕ, List, Option, Result, length};
ghost use Rattle.std.specs.Io.{ReadsAtMost};
ghost use Rattle.std.specs.declared.io.Error.{Error};
ghost use Rattle.byte_streams.specs.Source.{IsReadBy, given};

use std::io;
use std::io::Read;

/// A source of bytes. The ghost `gives` of each kind says what one read does to it, also if the read fails.
pub trait Source {
    // the bytes that later reads will give, if they are known
    ghost left: { Self → Option (List ℕ) };

    // the result of one read with this much room, and the source after it
    ghost gives: { Self → ℕ → Result (List ℕ) Error → Self → Type 0 };

    /// Reads into the room. Returns how many bytes were read.
    fn give(&mut self, room: &mut [u8]) -> io::Result<usize>
        ensures bound { ReadsAtMost result room.new }
        ensures gives { gives self.old (length room.old) (given result room.new) self.new };

    ghost tells: { (s : Self) (room : ℕ) (answer : Result (List ℕ) Error) (t : Self) → gives s room answer t
        → IsReadBy left s room answer t };
}

/// For a reader, the ghosts are what [`Read`] promises of a read.
impl<R: Read> Source for R {
    ghost left = { R.remaining };

    ghost gives = { IsReadBy R.remaining };

    ghost tells = { λ s room answer t reported. reported };

    fn give(&mut self, room: &mut [u8]) -> io::Result<usize> {
        self.read(room)
    }
}
