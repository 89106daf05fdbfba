//! Reading in full pieces.

ghost use Rattle.std.specs.Prelude.{length};
ghost use Rattle.relay_streams.specs.Fill.{Filled};

use crate::error::RelayError;
use byte_streams::Source;
use std::io::ErrorKind;

/// Bytes of a full piece.
pub const PIECE_LEN: usize = 4096;

/// Reads tried, interrupted ones included, before the input is given up as endless.
pub(crate) const MAX_READS: u64 = 1 << 40;

/// Reads until the piece is full or the input ends, and returns how many bytes were read. `reads` counts all reads,
/// also those made before. An interrupted read is tried again. After 2^40 reads no further one is made.
pub fn fill<S: Source>(
    input: &mut S,
    piece: &mut [u8],
    reads: &mut u64,
) -> Result<usize, RelayError>
    ensures { Filled S.gives input.old (length piece.old) reads.old result input.new piece.new reads.new }
{
    let mut len = 0;
    // The label names the loop's invariant.
    'reading: while len < piece.len() {
        if *reads >= MAX_READS {
            return Err(RelayError::TooManyReads);
        }
        *reads += 1;
        match input.give(&mut piece[len..]) {
            Ok(0) => return Ok(len),
            Ok(n) => len += n,
            Err(error) => {
                if error.kind() != ErrorKind::Interrupted {
                    return Err(RelayError::Read);
                }
            }
        }
    }
    Ok(len)
}
