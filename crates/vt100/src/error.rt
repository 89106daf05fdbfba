//! The refusals of a screen.
ghost use Rattle.std.specs.Prelude.{◌≡◌};
ghost use Rattle.vt100.specs.declared.error.ScreenError.TheVariants.{Memory};

use thiserror::Error;
use vt100_core::GridError;

/// Why a call on a screen was refused.
#[derive(Clone, Copy, Debug, Eq, Error, PartialEq)]
pub enum ScreenError {
    /// There was no memory for what the call would have stored.
    #[error("out of memory")]
    Memory,
    /// An allocation failed in an earlier call, and what the screen shows is unspecified.
    #[error("the screen has failed")]
    Failed,
}

impl From<GridError> for ScreenError {
    ghost from_gives = { λ _ e. e ≡ Memory };

    fn from(_: GridError) -> ScreenError {
        ScreenError::Memory
    }
}
