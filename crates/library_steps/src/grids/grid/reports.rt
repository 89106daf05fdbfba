//! What a grid reports, and what it appends to a text.
use super::whole::is_whole;
use crate::grids::answers::{push_cell, push_pos, push_row};
use crate::grids::texts::{BEGUN, Left, refused, refused_append, tell_appended};
use crate::words::pos;
use case_player::{Answer, StepError, Words};
use std::alloc::Global;
use vt100_core::attrs::Attrs;
use vt100_core::{Grid, GridError};

/// Appends what a step asks of a grid, from which `gone` rows are gone for good.
pub fn tell(grid: &Grid, gone: u64, name: &str, words: &Words, answer: &mut Answer) {
    match name {
        "rows" => push_rows(grid, answer),
        "kept" => push_kept(grid, gone, answer),
        "cursor" => push_pos(answer, grid.pos()),
        "capacity" => answer.number(grid.scrollback_capacity() as u64),
        "whole" => push_size(grid, answer),
        _ => return tell_cell(grid, words, answer),
    }
    answer.end_line();
}

/// How many rows are kept, how many of these are shown, and how many are gone for good.
fn push_kept(grid: &Grid, gone: u64, answer: &mut Answer) {
    answer.number(grid.scrollback_len() as u64);
    answer.push(" kept, ");
    answer.number(grid.scrollback() as u64);
    answer.push(" shown, ");
    answer.number(gone);
    answer.push(" gone");
}

/// All rows that are drawn on, with a `/` after each.
fn push_rows(grid: &Grid, answer: &mut Answer) {
    for row in grid.drawing_rows() {
        push_row(answer, row);
        answer.push("/");
    }
}

fn tell_cell(grid: &Grid, words: &Words, answer: &mut Answer) {
    match grid.visible_cell(pos(words)) {
        Some(cell) => push_cell(answer, cell),
        None => words.want("a row and a column of the screen"),
    }
}

/// How many rows and columns a whole grid has.
fn push_size(grid: &Grid, answer: &mut Answer) {
    answer.check(is_whole(grid), "the grid isn't whole");
    let size = grid.size();
    answer.numbers(&[u64::from(size.rows()), u64::from(size.cols())]);
}

/// Takes a step that writes a grid. A difference is one from the earlier grid, if there is one.
pub fn write(
    alloc: Global,
    grid: &Grid,
    earlier: &Option<Grid>,
    name: &str,
    words: &Words,
    answer: &mut Answer,
) -> Result<(), StepError> {
    if !words.is_empty() {
        return tell_contents_behind(alloc, grid, words.text(), answer);
    }
    let earlier = earlier.as_ref().unwrap_or(grid);
    let mut text = String::from_str(alloc, BEGUN)?;
    if let Ok(left) = append(grid, earlier, name, &mut text) {
        return tell_appended(text.as_str(), left, answer);
    }
    let mut whole = String::from_str(alloc, BEGUN)?;
    match append(grid, earlier, name, &mut whole) {
        Ok(_) => Err(refused_append(text.as_str(), whole.as_str())),
        Err(error) => Err(refused(error)),
    }
}

/// Makes the call of this name, which appends to a text.
fn append(grid: &Grid, earlier: &Grid, name: &str, text: &mut String) -> Result<Left, GridError> {
    let attrs = match name {
        "write_contents_formatted" => grid.write_contents_formatted(text)?,
        "write_contents_diff" => grid.write_contents_diff(text, earlier, Attrs::new())?,
        _ => return append_plain(grid, name, text),
    };
    Ok((None, Some(attrs)))
}

/// The same of a call that reports nothing.
fn append_plain(grid: &Grid, name: &str, text: &mut String) -> Result<Left, GridError> {
    match name {
        "write_contents" => grid.write_contents(text)?,
        _ => grid.write_cursor_position_formatted(text, None, None)?,
    }
    Ok((None, None))
}

/// The grid's text, at the end of a text.
fn tell_contents_behind(
    alloc: Global,
    grid: &Grid,
    begun: &str,
    answer: &mut Answer,
) -> Result<(), StepError> {
    let mut text = String::from_str(alloc, begun)?;
    append_plain(grid, "write_contents", &mut text).map_err(refused)?;
    answer.quoted_line(text.as_bytes());
    Ok(())
}
