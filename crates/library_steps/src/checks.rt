//! Checks inside of steps.
use case_player::StepError;

/// A check inside of a step.
pub fn check(holds: bool, fault: &'static str) -> Result<(), StepError> {
    if holds {
        Ok(())
    } else {
        Err(StepError::Wrong(fault))
    }
}
