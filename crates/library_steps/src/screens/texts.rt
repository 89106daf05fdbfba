//! The texts that a screen makes.
use crate::screens::answers::{refused, written};
use crate::screens::rows::joined;
use case_player::{StepError, Words};
use std::alloc::Global;
use vt100::Screen;
use vt100::capture::{BasicFormattedCaptureRange, BasicFormattedCaptureState};

/// The part of a screen that is asked for: from a row and a column to a row and a column, or from a column on a number
/// of columns.
pub type Place = [u16; 4];

/// The place of a text of this name. If it has one, its numbers are the next words.
pub fn place_of(name: &str, words: &Words) -> Place {
    match name {
        "contents_between" => [words.place(), words.place(), words.place(), words.place()],
        "rows" | "rows_formatted" | "rows_diff" => [words.place(), words.place(), 0, 0],
        _ => [0; 4],
    }
}

/// The text of this name of a screen, or what differs from `prev`.
pub fn text_of(
    alloc: Global,
    screen: &Screen,
    prev: &Screen,
    name: &str,
    place: Place,
) -> Result<String, StepError> {
    let [row, col, end_row, end_col] = place;
    let made = match name {
        "contents" => screen.contents(),
        "contents_between" => screen.contents_between(row, col, end_row, end_col),
        "contents_formatted_basic" => screen.contents_formatted_basic(),
        "contents_formatted" => screen.contents_formatted(),
        "contents_diff" => screen.contents_diff(prev),
        "state_formatted" => screen.state_formatted(),
        "state_diff" => screen.state_diff(prev),
        "input_mode_formatted" => screen.input_mode_formatted(),
        "input_mode_diff" => screen.input_mode_diff(prev),
        "attributes_formatted" => screen.attributes_formatted(),
        "cursor_state_formatted" => screen.cursor_state_formatted(),
        _ => return rows_of(alloc, screen, prev, name, (row, col)),
    };
    made.map_err(refused)
}

/// The text of rows, or a capture of them.
fn rows_of(
    alloc: Global,
    screen: &Screen,
    prev: &Screen,
    name: &str,
    (start, width): (u16, u16),
) -> Result<String, StepError> {
    let rows = screen.size().0.get();
    match name {
        "rows" => joined(
            alloc,
            screen.rows(start, width),
            screen.rows(start, width),
            rows,
        ),
        "rows_formatted" => joined(
            alloc,
            screen.rows_formatted(start, width),
            screen.rows_formatted(start, width),
            rows,
        ),
        "rows_diff" => joined(
            alloc,
            screen.rows_diff(prev, start, width),
            screen.rows_diff(prev, start, width),
            rows,
        ),
        "visible_rows_basic" => capture_of(alloc, screen, BasicFormattedCaptureRange::Visible),
        "all_rows_basic" => {
            let mut state = BasicFormattedCaptureState::new();
            capture_of(alloc, screen, BasicFormattedCaptureRange::Full(&mut state))
        }
        _ => Err(StepError::Unknown),
    }
}

fn capture_of(
    alloc: Global,
    screen: &Screen,
    range: BasicFormattedCaptureRange<'_>,
) -> Result<String, StepError> {
    let mut text = String::new(alloc);
    written(screen.write_contents_formatted_basic(&mut text, range))?;
    Ok(text)
}
