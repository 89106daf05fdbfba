//! Captures: what is written of rows, and what is read of it.
use crate::screens::answers::{tell_lines, written};
use crate::screens::log::Log;
use case_player::{Answer, StepError, Words};
use std::alloc::Global;
use vt100::capture::{
    BasicFormattedCaptureRange, basic_formatted_rows, basic_formatted_to_plain,
    basic_formatted_to_plain_indexed,
};
use vt100::{Parser, Screen};

/// Appends the calls that the callbacks got since the last such step, and clears them.
pub fn tell_calls(parser: &mut Parser<Log>, answer: &mut Answer) -> Result<(), StepError> {
    let log = parser.callbacks_mut();
    if log.is_cut {
        return Err(StepError::Ended);
    }
    tell_lines(answer, log.calls.as_str());
    log.calls.clear();
    Ok(())
}

/// Appends the capture of the rows that left. With `whole`, it goes on with all rows that are still there.
pub fn tell_capture(
    alloc: Global,
    parser: &Parser<Log>,
    whole: bool,
    answer: &mut Answer,
) -> Result<(), StepError> {
    let log = parser.callbacks();
    if log.is_cut {
        return Err(StepError::Ended);
    }
    if whole {
        return tell_whole(alloc, log, parser.screen(), answer);
    }
    answer.quoted_line(log.capture.as_bytes());
    Ok(())
}

fn tell_whole(
    alloc: Global,
    log: &Log,
    screen: &Screen,
    answer: &mut Answer,
) -> Result<(), StepError> {
    let mut text = String::from_str(alloc, log.capture.as_str())?;
    let mut state = log.state.clone()?;
    let range = BasicFormattedCaptureRange::Full(&mut state);
    written(screen.write_contents_formatted_basic(&mut text, range))?;
    answer.quoted_line(text.as_bytes());
    Ok(())
}

/// Reads a capture: its rows, its plain pieces, or these with their places.
pub fn read_capture(name: &str, words: &Words, answer: &mut Answer) {
    let capture = words.text();
    match name {
        "cut" => {
            for row in basic_formatted_rows(capture, words.place()) {
                answer.quoted_line(row.as_bytes());
            }
        }
        "plain" => {
            for piece in basic_formatted_to_plain(capture) {
                answer.quoted_line(piece.as_bytes());
            }
        }
        _ => {
            for (place, piece) in basic_formatted_to_plain_indexed(capture) {
                answer.number(place as u64);
                answer.push(" ");
                answer.quoted_line(piece.as_bytes());
            }
        }
    }
}
