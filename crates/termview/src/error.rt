//! The error of calls that allocate.
ghost use Rattle.std.specs.Prelude.{◌≡◌};
ghost use Rattle.termview.specs.declared.error.ViewError.TheVariants.{Memory};

use thiserror::Error;
use vt100_forms::GridError;
use vte::ansi::OutOfMemory;

/// The reason why a view wasn't created.
#[derive(Clone, Copy, Debug, Eq, Error, PartialEq)]
pub enum ViewError {
    /// The allocation of its cells failed, or that of the buffer for a synchronized update.
    #[error("out of memory")]
    Memory,
}

impl From<GridError> for ViewError {
    ghost from_gives = { λ _ e. e ≡ Memory };

    fn from(_: GridError) -> ViewError {
        ViewError::Memory
    }
}

impl From<OutOfMemory> for ViewError {
    ghost from_gives = { λ _ e. e ≡ Memory };

    fn from(_: OutOfMemory) -> ViewError {
        ViewError::Memory
    }
}
