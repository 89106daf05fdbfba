//! The error of calls that allocate.

use std::alloc::AllocError;
use thiserror::Error;

/// An allocation failed: there is no memory for the bytes that a processor may have to hold.
#[derive(Clone, Copy, Debug, Eq, Error, PartialEq)]
#[error("out of memory")]
pub struct OutOfMemory;

impl From<AllocError> for OutOfMemory {
    fn from(_: AllocError) -> OutOfMemory {
        OutOfMemory
    }
}
