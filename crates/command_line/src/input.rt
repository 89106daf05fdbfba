//! Reading the whole of an input.

ghost use Rattle.std.specs.Prelude.{◌≡◌, ◌^◌, ℕ, List, IfSome, IfErr, IfOk, OnOk};
ghost use Rattle.std.specs.Io.KnownBytes.{Consumes, IsAtEnd};
ghost use Rattle.std.specs.Vec.{vec_items};
ghost use Rattle.command_line.specs.Input.{Drains};
ghost use Rattle.command_line.specs.declared.input.InputError.TheVariants.{Memory};

use byte_streams::Source;
use std::alloc::{AllocError, Global};
use std::io;
use std::io::ErrorKind;

/// The room that each read has, in bytes.
const ROOM_LEN: usize = 65_536;

/// The number of reads, interrupted ones included, after which an input is given up as endless.
const MAX_READS: u64 = 1 << 40;

/// Why the whole of an input couldn't be read.
#[derive(Debug, Drop)]
pub enum InputError {
    /// A read failed with this error, which isn't an interruption.
    Read(io::Error),
    /// An allocation for the bytes read failed.
    Memory,
    /// The input didn't end within 2^40 reads.
    TooManyReads,
}

impl From<AllocError> for InputError {
    ghost from_gives = { λ _ e. e ≡ Memory };

    fn from(_error: AllocError) -> Self {
        InputError::Memory
    }
}

/// Reads to the end of the input, and returns all that was left of it.
///
/// Each read has room for 65,536 bytes. An interrupted read is tried again. Any other error of a read is returned as it
/// is. Memory is allocated after a read that gave some bytes, to keep them. If the call fails, the bytes that it has
/// read are lost.
pub fn read_all<S: Source>(alloc: Global, input: &mut S) -> Result<Vec<u8>, InputError>
    ensures bytes { IfOk result (λ all. IfSome (S.left input.old) (λ left. vec_items all ≡ left)) }
    ensures end { OnOk result (IsAtEnd (S.left input.new)) }
    ensures reads { IfOk result (λ all. Drains S.gives 65536 input.old (2 ^ 40) (vec_items all) (Ok tt) input.new) }
    ensures faults { IfErr result (λ e. (lost : List ℕ)
        × Drains S.gives 65536 input.old (2 ^ 40) lost (Err e) input.new) }
    ensures lost { IfErr result (λ e. (lost : List ℕ) × Consumes (S.left input.old) (S.left input.new) lost) }
{
    let mut bytes = Vec::new(alloc);
    let mut room = [0; ROOM_LEN];
    // The label names the loop's invariant.
    'reads: for _ in 0..MAX_READS {
        match input.give(&mut room) {
            Ok(0) => return Ok(bytes),
            Ok(n) => bytes.extend_from_slice(&room[..n])?,
            Err(error) => {
                if error.kind() != ErrorKind::Interrupted {
                    return Err(InputError::Read(error));
                }
            }
        }
    }
    Err(InputError::TooManyReads)
}
