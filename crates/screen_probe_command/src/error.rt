//! Why a command ended before its work was done.

use command_line::InputError;
use std::alloc::{AllocError, AllocFailed};
use thiserror::Error;
use vt100::ScreenError;

/// Why a command ended early. What was written by then stays written.
#[derive(Clone, Copy, Debug, Error, PartialEq, Eq)]
pub enum DumpError {
    /// A read failed, or the input didn't end within 2^40 reads.
    #[error("read")]
    Read,
    /// A write or a flush failed, or a write took nothing.
    #[error("write")]
    Write,
    /// An allocation failed.
    #[error("memory")]
    Memory,
    /// A line of the script isn't understood.
    #[error("script")]
    Script,
}

impl From<AllocError> for DumpError {
    fn from(_error: AllocError) -> Self {
        DumpError::Memory
    }
}

impl<T: Drop> From<AllocFailed<T>> for DumpError {
    fn from(_error: AllocFailed<T>) -> Self {
        DumpError::Memory
    }
}

impl From<InputError> for DumpError {
    fn from(error: InputError) -> Self {
        match error {
            InputError::Read(_) | InputError::TooManyReads => DumpError::Read,
            InputError::Memory => DumpError::Memory,
        }
    }
}

/// A screen's error is a failed allocation here: a screen that has failed was refused before.
impl From<ScreenError> for DumpError {
    fn from(_error: ScreenError) -> Self {
        DumpError::Memory
    }
}
