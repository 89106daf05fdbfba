//! The error of calls that allocate.
ghost use Rattle.std.specs.Prelude.{◌≡◌};
ghost use Rattle.vt100_forms.specs.declared.error.GridError.TheVariants.{Memory};

use std::alloc::{AllocError, AllocFailed};
use thiserror::Error;

/// Why a call on a row, a grid or an escape sequence failed.
#[derive(Clone, Copy, Debug, Eq, Error, PartialEq)]
pub enum GridError {
    /// An allocation failed.
    #[error("out of memory")]
    Memory,
}

impl From<AllocError> for GridError {
    ghost from_gives = { λ _ e. e ≡ Memory };

    fn from(_: AllocError) -> GridError {
        GridError::Memory
    }
}

impl<T: Drop> From<AllocFailed<T>> for GridError {
    ghost from_gives = { λ _ e. e ≡ Memory };

    fn from(_: AllocFailed<T>) -> GridError {
        GridError::Memory
    }
}
