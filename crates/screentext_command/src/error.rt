//! Why a command ended before its work was done.

ghost use Rattle.std.specs.Prelude.{◌≡◌};
ghost use Rattle.screentext_command.specs.Faults.{film_fault, input_fault, player_fault, recording_fault};
ghost use Rattle.screentext_command.specs.declared.error.TextError.TheVariants.{Memory};

use command_line::InputError;
use player_page::PlayerError;
use recorded_screen::FilmError;
use recordings::RecordingError;
use std::alloc::{AllocError, AllocFailed};
use vt100::ScreenError;

/// Why a command ended early. What was written by then stays written.
#[derive(Clone, Copy, Debug)]
pub enum TextError {
    /// A read failed, or the input didn't end within 2^40 reads.
    Read,
    /// A write or a flush failed, or a write took nothing.
    Write,
    /// An allocation failed.
    Memory,
    /// A file that the arguments name can't be read.
    File,
    /// The recording has no marker of the name that the arguments give.
    Marker,
    /// The film would be longer than the longest one.
    Film,
    /// The film would begin after its end.
    Late,
    /// The page that plays would be longer than the longest one.
    Player,
    /// A size in the recording has more cells than this.
    Cells(usize),
    /// Only what comes before this fault of the recording was read.
    Cut(RecordingError),
    /// What begins as an asciicast, but isn't one, was read as raw bytes.
    Guessed,
    /// What was read is no recording.
    Recording(RecordingError),
}

impl From<AllocError> for TextError {
    ghost from_gives = { λ _ e. e ≡ Memory };

    fn from(_error: AllocError) -> Self {
        TextError::Memory
    }
}

impl<T: Drop> From<AllocFailed<T>> for TextError {
    ghost from_gives = { λ _ e. e ≡ Memory };

    fn from(_error: AllocFailed<T>) -> Self {
        TextError::Memory
    }
}

impl From<InputError> for TextError {
    ghost from_gives = { λ error e. e ≡ input_fault error };

    fn from(error: InputError) -> Self {
        match error {
            InputError::Read(_) | InputError::TooManyReads => TextError::Read,
            InputError::Memory => TextError::Memory,
        }
    }
}

/// A screen's error is a failed allocation here: a screen that has failed was refused before.
impl From<ScreenError> for TextError {
    ghost from_gives = { λ _ e. e ≡ Memory };

    fn from(_error: ScreenError) -> Self {
        TextError::Memory
    }
}

impl From<FilmError> for TextError {
    ghost from_gives = { λ error e. e ≡ film_fault error };

    fn from(error: FilmError) -> Self {
        match error {
            FilmError::Memory => TextError::Memory,
            FilmError::TooLong => TextError::Film,
        }
    }
}

impl From<PlayerError> for TextError {
    ghost from_gives = { λ error e. e ≡ player_fault error };

    fn from(error: PlayerError) -> Self {
        match error {
            PlayerError::Memory => TextError::Memory,
            PlayerError::TooLong => TextError::Player,
        }
    }
}

impl From<RecordingError> for TextError {
    ghost from_gives = { λ error e. e ≡ recording_fault error };

    fn from(error: RecordingError) -> Self {
        match error {
            RecordingError::Memory => TextError::Memory,
            error => TextError::Recording(error),
        }
    }
}
