//! The refusals of a hub.
ghost use Rattle.std.specs.Prelude.{◌≡◌};
ghost use Rattle.termrelay.specs.Hub.{refusal_of};
ghost use Rattle.termrelay.specs.declared.error.HubError.TheVariants.{Memory as no_memory};

use std::alloc::AllocError;
use std::io;
use thiserror::Error;
use vt100::ScreenError;

/// Why a call on a hub was refused.
#[derive(Debug, Drop, Error)]
pub enum HubError {
    /// An allocation failed.
    #[error("out of memory")]
    Memory,
    /// An earlier feed ran out of memory, so that what the hub's screen shows is unspecified.
    #[error("the hub has failed")]
    Failed,
    /// The hub has no client with this key.
    #[error("unknown client")]
    UnknownClient,
    /// The writer of a pump failed, or took no byte (kind `WriteZero`).
    #[error("{0}")]
    Write(io::Error),
}

impl From<ScreenError> for HubError {
    ghost from_gives = { λ error refusal. refusal ≡ refusal_of error };

    fn from(error: ScreenError) -> Self {
        match error {
            ScreenError::Memory => HubError::Memory,
            ScreenError::Failed => HubError::Failed,
        }
    }
}

impl From<AllocError> for HubError {
    ghost from_gives = { λ _ refusal. refusal ≡ no_memory };

    fn from(_: AllocError) -> Self {
        HubError::Memory
    }
}
