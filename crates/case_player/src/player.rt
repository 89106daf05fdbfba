//! What plays the steps of a case.

ghost use Rattle.std.specs.Prelude.{◌≡◌};
ghost use Rattle.case_player.specs.declared.player.StepError.TheVariants.{Memory};

use crate::answer::Answer;
use crate::words::Words;
use std::alloc::{AllocError, AllocFailed};

/// Plays the steps of cases.
pub trait Player {
    /// Begins a case of a file in this folder: what earlier ones left is gone.
    fn begin(&mut self, folder: &str);

    /// Takes a step, and appends the lines that it answers.
    ///
    /// The words are those after the step's name. All of them have to be taken.
    fn take(&mut self, name: &str, words: &Words, answer: &mut Answer) -> Result<(), StepError>;
}

/// Why a step isn't done.
#[derive(Clone, Copy)]
pub enum StepError {
    /// No step has this name.
    Unknown,
    /// Another word is wanted: this one.
    Word(&'static str),
    /// Memory was refused. Nothing has changed, and the step may be taken again.
    Memory,
    /// What the case works on has failed after memory was refused: the case ends.
    Ended,
    /// A check inside of the step doesn't hold, in words.
    Wrong(&'static str),
}

impl From<AllocError> for StepError {
    ghost from_gives = { λ _ e. e ≡ Memory };

    fn from(_error: AllocError) -> Self {
        StepError::Memory
    }
}

impl<T: Drop> From<AllocFailed<T>> for StepError {
    ghost from_gives = { λ _ e. e ≡ Memory };

    fn from(_error: AllocFailed<T>) -> Self {
        StepError::Memory
    }
}
