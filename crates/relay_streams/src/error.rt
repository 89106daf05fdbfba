//! Why a command ended before its work was done.

ghost use Rattle.std.specs.Prelude.{◌≡◌};
ghost use Rattle.relay_streams.specs.Turns.{fault_of};
ghost use Rattle.relay_streams.specs.declared.error.RelayError.TheVariants.{Memory};

use std::alloc::{AllocError, AllocFailed};
use termrelay::HubError;
use termview::ViewError;
use thiserror::Error;

/// Why `relay` or `show` ended early. What was written by then stays written.
#[derive(Clone, Copy, Debug, Error, PartialEq, Eq)]
pub enum RelayError {
    /// A read failed for another cause than interruption.
    #[error("read")]
    Read,
    /// A write or a flush failed, or a write took nothing.
    #[error("write")]
    Write,
    /// Memory was refused.
    #[error("memory")]
    Memory,
    /// The input didn't end within 2^40 reads.
    #[error("too many reads")]
    TooManyReads,
    /// A frame would be longer than 2,097,150 bytes, which is the most that a terminal holds of an update.
    #[error("frame too long")]
    FrameTooLong,
}

impl From<AllocError> for RelayError {
    ghost from_gives = { λ _ e. e ≡ Memory };

    fn from(_error: AllocError) -> Self {
        RelayError::Memory
    }
}

impl<T: Drop> From<AllocFailed<T>> for RelayError {
    ghost from_gives = { λ _ e. e ≡ Memory };

    fn from(_error: AllocFailed<T>) -> Self {
        RelayError::Memory
    }
}

impl From<ViewError> for RelayError {
    ghost from_gives = { λ _ e. e ≡ Memory };

    fn from(_error: ViewError) -> Self {
        RelayError::Memory
    }
}

/// Only a writer's fault becomes a fault of writing. A hub that has failed found no memory.
impl From<HubError> for RelayError {
    ghost from_gives = { λ refusal e. e ≡ fault_of refusal };

    fn from(refusal: HubError) -> Self {
        match refusal {
            HubError::Memory | HubError::Failed | HubError::UnknownClient => RelayError::Memory,
            HubError::Write(_) => RelayError::Write,
        }
    }
}
