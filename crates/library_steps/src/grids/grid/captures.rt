//! Captures of a grid whose writer may refuse them.
use crate::limited::Limited;
use case_player::{Answer, StepError, Words};
use std::alloc::Global;
use std::fmt;
use vt100_core::Grid;
use vt100_core::capture::{BasicFormattedCaptureRange, BasicFormattedCaptureState, RowContents};

/// Appends what a writer takes of a capture: nothing, a part or all of it. The capture is refused unless the writer
/// takes all. The words are what is captured, how much room the writer has, and the whole capture.
pub fn tell_capture(
    alloc: Global,
    grid: &Grid,
    words: &Words,
    answer: &mut Answer,
) -> Result<(), StepError> {
    let (name, room, capture) = (words.word(), words.count(), words.text());
    let mut writer = Limited::new(alloc, room)?;
    let is_written = write_capture(grid, name, &mut writer).is_ok();
    let taken = writer.taken.as_str();
    let has_all = taken == capture;
    answer.line(match taken {
        "" => "nothing",
        _ if has_all => "all",
        _ => "a part",
    });
    let is_right = capture.starts_with(taken) && is_written == has_all;
    answer.check(
        is_right,
        "another capture is taken, or its refusal isn't told",
    );
    Ok(())
}

/// Writes the capture of the first row, of all rows, or of those that are shown.
fn write_capture(grid: &Grid, name: &str, writer: &mut Limited) -> fmt::Result {
    match name {
        "row" => write_row(grid, writer),
        "full" => write_full(grid, writer),
        _ => grid.write_contents_formatted_basic(writer, BasicFormattedCaptureRange::Visible),
    }
}

fn write_row(grid: &Grid, writer: &mut Limited) -> fmt::Result {
    let row = grid.visible_row(0).ok_or(fmt::Error)?;
    let mut state = BasicFormattedCaptureState::new();
    RowContents::new(row).write_formatted_basic(writer, &mut state)
}

fn write_full(grid: &Grid, writer: &mut Limited) -> fmt::Result {
    let mut state = BasicFormattedCaptureState::new();
    let range = BasicFormattedCaptureRange::Full(&mut state);
    grid.write_contents_formatted_basic(writer, range)
}
