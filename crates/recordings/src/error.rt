//! Why a recording isn't read.

ghost use Rattle.std.specs.Prelude.{◌≡◌, Some};
ghost use Rattle.recordings.specs.declared.error.RecordingError.TheVariants.{Memory};

use std::alloc::{AllocError, AllocFailed};
use std::error::Error;
use std::fmt;

/// A program that compresses files.
#[derive(Clone, Copy, Debug, PartialEq, Eq)]
pub enum Packer {
    /// `gzip`.
    Gzip,
    /// `bzip2`.
    Bzip2,
    /// `xz`.
    Xz,
    /// `zstd`.
    Zstd,
}

/// Why a recording isn't read. Lines are counted from 1, bytes from 0.
#[derive(Clone, Copy, Debug, PartialEq, Eq)]
pub enum RecordingError {
    /// An allocation failed.
    Memory,
    /// The first line is no header of an asciicast: no object, one of another version, or one without a size. Or the
    /// text is an object of version 1 without a size or with a value that is no output.
    Header,
    /// This line is no event of asciicast.
    Line(u64),
    /// No whole frame of ttyrec begins at this byte.
    Byte(u64),
    /// This line of a timing file is no step of `script`, or the typescript has fewer bytes than it takes.
    Step(u64),
    /// A typescript has no timing file.
    NoTiming,
    /// The first bytes are those of a file that this program has compressed.
    Packed(Packer),
}

impl fmt::Display for RecordingError {
    ghost use Rattle.recordings.specs.Faults.{fault_text};

    ghost output = { λ e. Some (fault_text e) };

    fn fmt<W: fmt::Write>(&self, f: &mut fmt::Formatter<W>) -> fmt::Result {
        match *self {
            RecordingError::Memory => write!(f, "memory"),
            RecordingError::Header => write!(f, "line 1: not a header of an asciicast"),
            RecordingError::Line(line) => write!(f, "line {line}: not an event of asciicast"),
            RecordingError::Byte(byte) => write!(f, "byte {byte}: not a frame of ttyrec"),
            RecordingError::Step(line) => {
                write!(
                    f,
                    "line {line} of the timing file: not a step of the typescript"
                )
            }
            RecordingError::NoTiming => {
                write!(f, "a typescript needs its timing file: --timing FILE")
            }
            RecordingError::Packed(Packer::Gzip) => {
                write!(f, "compressed by gzip: use `zcat FILE |`")
            }
            RecordingError::Packed(Packer::Bzip2) => {
                write!(f, "compressed by bzip2: use `bzcat FILE |`")
            }
            RecordingError::Packed(Packer::Xz) => {
                write!(f, "compressed by xz: use `xzcat FILE |`")
            }
            RecordingError::Packed(Packer::Zstd) => {
                write!(f, "compressed by zstd: use `zstdcat FILE |`")
            }
        }
    }
}

impl Error for RecordingError {}

impl From<AllocError> for RecordingError {
    ghost from_gives = { λ _ e. e ≡ Memory };

    fn from(_error: AllocError) -> Self {
        RecordingError::Memory
    }
}

impl<T: Drop> From<AllocFailed<T>> for RecordingError {
    ghost from_gives = { λ _ e. e ≡ Memory };

    fn from(_error: AllocFailed<T>) -> Self {
        RecordingError::Memory
    }
}
