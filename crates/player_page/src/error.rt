//! Why there is no page.

ghost use Rattle.std.specs.Prelude.{◌≡◌};
ghost use Rattle.player_page.specs.declared.error.PlayerError.TheVariants.{Memory};

use std::alloc::{AllocError, AllocFailed};
use vt100::ScreenError;

/// Why there is no page.
#[derive(Clone, Copy, Debug, PartialEq, Eq)]
pub enum PlayerError {
    /// Memory was refused.
    Memory,
    /// It would have more bytes than the longest one.
    TooLong,
}

impl From<AllocError> for PlayerError {
    ghost from_gives = { λ _ e. e ≡ Memory };

    fn from(_error: AllocError) -> Self {
        PlayerError::Memory
    }
}

impl<T: Drop> From<AllocFailed<T>> for PlayerError {
    ghost from_gives = { λ _ e. e ≡ Memory };

    fn from(_error: AllocFailed<T>) -> Self {
        PlayerError::Memory
    }
}

/// A screen refuses for memory alone: a failed one was refused before.
impl From<ScreenError> for PlayerError {
    ghost from_gives = { λ _ e. e ≡ Memory };

    fn from(_error: ScreenError) -> Self {
        PlayerError::Memory
    }
}
