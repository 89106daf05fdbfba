//! What rows and grids append to a text.
use crate::grids::answers::{plainness, push_pos};
use case_player::{Answer, StepError};
use vt100_core::attrs::Attrs;
use vt100_core::{GridError, Pos};

/// What a text holds before a call appends to it.
pub const BEGUN: &str = "begun:";

/// What a call reports beside its text, if it does: where the terminal's cursor is then, and the attributes that the
/// terminal draws with.
pub type Left = (Option<Pos>, Option<Attrs>);

/// The step's error for a call's.
pub fn refused(error: GridError) -> StepError {
    match error {
        GridError::Memory => StepError::Memory,
    }
}

/// Appends what a call has appended to a text, and what else it reports.
pub fn tell_appended(text: &str, left: Left, answer: &mut Answer) -> Result<(), StepError> {
    match text.strip_prefix(BEGUN) {
        Some(appended) => {
            answer.quoted_line(appended.as_bytes());
            tell_left(left, answer);
            Ok(())
        }
        None => Err(StepError::Wrong("the text lost what it held before the call")),
    }
}

/// The error of a call that was refused after it had appended a part of a text. The next time it appends the whole.
pub fn refused_append(part: &str, whole: &str) -> StepError {
    if part.starts_with(BEGUN) && whole.starts_with(part) {
        StepError::Memory
    } else {
        StepError::Wrong("what a refused call appended is no part of what the next one does")
    }
}

fn tell_left((pos, attrs): Left, answer: &mut Answer) {
    if let Some(pos) = pos {
        push_pos(answer, pos);
        answer.push(" ");
    }
    if let Some(attrs) = attrs {
        answer.line(plainness(attrs));
    }
}
