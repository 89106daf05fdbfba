//! Lines of answers, and the errors of steps.
use case_player::{Answer, StepError};
use std::fmt;
use vt100::{GridError, ScreenError};

/// Appends the lines of a text, each with escapes.
pub fn tell_lines(answer: &mut Answer, text: &str) {
    for line in text.lines() {
        answer.escaped(line.as_bytes());
        answer.end_line();
    }
}

/// The step's error for a reading call's.
pub fn refused(error: ScreenError) -> StepError {
    match error {
        ScreenError::Memory => StepError::Memory,
        ScreenError::Failed => StepError::Wrong("the screen has failed"),
    }
}

/// The step's answer for a writer's, which fails where memory is refused.
pub fn written(answer: fmt::Result) -> Result<(), StepError> {
    match answer {
        Ok(()) => Ok(()),
        Err(_) => Err(StepError::Memory),
    }
}

/// What a text holds before more is appended.
pub const BEGUN: &str = "begun:";

/// What was appended to a text that held [`BEGUN`]. A refusal has left the text as it was.
pub fn appended<'a>(text: &'a str, answer: Result<(), GridError>) -> Result<&'a str, StepError> {
    match (text.strip_prefix(BEGUN), answer) {
        (Some(more), Ok(())) => Ok(more),
        (Some(""), Err(GridError::Memory)) => Err(StepError::Memory),
        _ => Err(StepError::Wrong("a text lost what it held, or a refusal changed it")),
    }
}
