//! Why there is no film.

ghost use Rattle.std.specs.Prelude.{◌≡◌};
ghost use Rattle.recorded_screen.specs.declared.error.FilmError.TheVariants.{Memory};

use std::alloc::{AllocError, AllocFailed};
use vt100::ScreenError;

/// Why there is no film.
#[derive(Clone, Copy, Debug, PartialEq, Eq)]
pub enum FilmError {
    /// Memory was refused.
    Memory,
    /// It would have more bytes than the longest one.
    TooLong,
}

impl From<AllocError> for FilmError {
    ghost from_gives = { λ _ e. e ≡ Memory };

    fn from(_error: AllocError) -> Self {
        FilmError::Memory
    }
}

impl<T: Drop> From<AllocFailed<T>> for FilmError {
    ghost from_gives = { λ _ e. e ≡ Memory };

    fn from(_error: AllocFailed<T>) -> Self {
        FilmError::Memory
    }
}

/// A screen refuses for memory alone: a failed one was refused before.
impl From<ScreenError> for FilmError {
    ghost from_gives = { λ _ e. e ≡ Memory };

    fn from(_error: ScreenError) -> Self {
        FilmError::Memory
    }
}
