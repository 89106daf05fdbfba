//! Why a filter stopped reading.

use std::alloc::AllocError;
use thiserror::Error;

/// An allocation for the output failed.
#[derive(Clone, Copy, Debug, Error, PartialEq, Eq)]
#[error("memory was refused after {read} bytes")]
pub struct AdvanceError {
    /// How many of the bytes that were passed to the filter have been read, from their start on.
    pub read: usize,
}

impl From<AdvanceError> for AllocError {
    fn from(_error: AdvanceError) -> Self {
        AllocError
    }
}
