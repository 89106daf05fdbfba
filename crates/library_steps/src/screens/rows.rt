//! The texts of a screen's rows.
ghost use Rattle.std.specs.Iterator.{IsFinite};

use crate::screens::answers::refused;
use case_player::StepError;
use std::alloc::Global;
use vt100::ScreenError;

/// The text of a row, of which two readings are given. Where one was refused memory, the other has it.
fn text_of_both(
    first: Result<String, ScreenError>,
    second: Result<String, ScreenError>,
) -> Result<String, StepError> {
    match (first, second) {
        (Ok(first), Ok(second)) => same(first, &second),
        (Ok(text), Err(ScreenError::Memory)) => Ok(text),
        (Err(ScreenError::Memory), other) => other.map_err(refused),
        _ => Err(StepError::Wrong("the screen has failed")),
    }
}

fn same(first: String, second: &str) -> Result<String, StepError> {
    if first.as_str() == second {
        Ok(first)
    } else {
        Err(StepError::Wrong("a row is read otherwise the second time"))
    }
}

/// Appends the text of a row, of which two readings are given.
fn push_row(
    joined: &mut String,
    first: Result<String, ScreenError>,
    second: Result<String, ScreenError>,
) -> Result<(), StepError> {
    push_line(joined, &text_of_both(first, second)?)
}

fn push_line(joined: &mut String, text: &str) -> Result<(), StepError> {
    joined.push_str(text)?;
    Ok(joined.push_str("\n")?)
}

/// The texts of this many rows, each with its line's end. The rows are read twice, in turn: a row that is refused
/// memory is refused alone.
pub fn joined<I: Iterator<Item = Result<String, ScreenError>> + Drop>(
    alloc: Global,
    mut texts: I,
    mut again: I,
    rows: u16,
) -> Result<String, StepError>
    requires texts { I.can_next texts × IsFinite (I.remaining texts) }
    requires again { I.can_next again × IsFinite (I.remaining again) }
{
    let mut joined = String::new(alloc);
    for _ in 0..rows {
        let (Some(first), Some(second)) = (texts.next(), again.next()) else {
            return Err(StepError::Wrong("a row has no text"));
        };
        push_row(&mut joined, first, second)?;
    }
    Ok(joined)
}
