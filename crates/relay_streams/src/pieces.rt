//! An input, piece by piece.

ghost use Rattle.std.specs.Prelude.{ℕ, List, Result};
ghost use Rattle.relay_streams.specs.Each.{GivesEach};

use crate::error::RelayError;
use crate::filling::{PIECE_LEN, fill};
use byte_streams::Source;

/// Takes the pieces of an input, one after another, and passes the results on to a writer or a view.
pub trait TakesPieces<T> {
    ghost use Rattle.relay_streams.specs.declared.error.RelayError.{RelayError};

    // what one piece does: the result, with `self` and the output before and after
    ghost step: { Self → T → List ℕ → Result (Unit {0}) RelayError → Self → T → Type 0 };

    /// Takes the next piece.
    fn take_piece(&mut self, piece: &[u8], to: &mut T) -> Result<(), RelayError>
        ensures step { step self.old to.old piece.now result self.new to.new };
}

/// Reads the whole input in full pieces of 4,096 bytes and then the rest. Each piece is taken before the next one is
/// read. A fault ends the reading. The rest is taken too, even if it is empty.
///
/// At most 2^40 reads are made; an interrupted one is tried again and counted.
pub fn each_piece<S: Source, T, P: TakesPieces<T>>(
    input: &mut S,
    consumer: &mut P,
    to: &mut T,
) -> Result<(), RelayError>
    ensures { GivesEach S.gives P.step input.old consumer.old to.old result input.new consumer.new to.new }
{
    let mut piece = [0; PIECE_LEN];
    let mut reads = 0;
    // The label names the loop's invariant.
    'pieces: loop {
        let n = fill(input, &mut piece, &mut reads)?;
        consumer.take_piece(&piece[..n], to)?;
        if n < PIECE_LEN {
            return Ok(());
        }
    }
}
