//! What a row reports, and what it appends to a text.
use crate::grids::answers::{push_cell, push_row};
use crate::grids::texts::{BEGUN, Left, refused, refused_append, tell_appended};
use crate::words::{flag, pos};
use case_player::{Answer, StepError, Words};
use std::alloc::Global;
use vt100_core::attrs::Attrs;
use vt100_core::{Cell, GridError, Pos, Row};

/// Appends what a step asks of a row.
pub fn tell(row: &Row, earlier: &Option<Row>, name: &str, words: &Words, answer: &mut Answer) {
    match name {
        "shown" => push_row(answer, row),
        "counts" => push_counts(row, answer),
        "cell" => return tell_cell(row, words, answer),
        "same_cell" => tell_same(row, earlier.as_ref().unwrap_or(row), words, answer),
        _ => return words.fail(StepError::Unknown),
    }
    answer.end_line();
}

/// How many cells of a row are default ones.
fn blank_cells(row: &Row) -> u32 {
    let blank = Cell::new();
    let mut count = 0_u32;
    for cell in row.cells() {
        if *cell == blank {
            count = count.saturating_add(1);
        }
    }
    count
}

/// How many columns a row has, how many of its cells are default ones, and whether it is wrapped.
fn push_counts(row: &Row, answer: &mut Answer) {
    answer.number(u64::from(row.cols()));
    answer.push(" columns, ");
    answer.number(u64::from(blank_cells(row)));
    answer.push(" blank");
    if row.wrapped() {
        answer.push(", wrapped");
    }
}

fn tell_cell(row: &Row, words: &Words, answer: &mut Answer) {
    match row.get(words.place()) {
        Some(cell) => push_cell(answer, cell),
        None => words.want("a column of the row"),
    }
}

/// Whether a cell of the row is equal to a cell of the earlier one.
fn tell_same(row: &Row, earlier: &Row, words: &Words, answer: &mut Answer) {
    let is_same = row.get(words.place()) == earlier.get(words.place());
    answer.push(if is_same { "yes" } else { "no" });
}

/// Columns of a row, and what is known of the terminal.
#[derive(Drop)]
struct Columns {
    /// The first one.
    start: u16,
    /// How many.
    width: u16,
    /// The row's number.
    row: u16,
    /// Whether the row above goes on in this one.
    wrapping: bool,
    /// Whether it went on in the earlier row.
    was_wrapping: bool,
    /// Where the cursor is, if that is known.
    place: Option<Pos>,
}

fn parse_columns(name: &str, words: &Words) -> Columns {
    Columns {
        start: words.place(),
        width: words.place(),
        row: words.place(),
        wrapping: flag(words),
        was_wrapping: name == "write_contents_diff" && flag(words),
        place: optional_pos(words),
    }
}

fn optional_pos(words: &Words) -> Option<Pos> {
    if words.is_empty() {
        None
    } else {
        Some(pos(words))
    }
}

/// Takes a step that writes a row. A difference is one from the earlier row, if there is one.
pub fn write(
    alloc: Global,
    row: &Row,
    earlier: &Option<Row>,
    name: &str,
    words: &Words,
    answer: &mut Answer,
) -> Result<(), StepError> {
    let earlier = earlier.as_ref().unwrap_or(row);
    let columns = parse_columns(name, words);
    let mut text = String::from_str(alloc, BEGUN)?;
    if let Ok(left) = append(row, earlier, name, &columns, &mut text) {
        return tell_appended(text.as_str(), left, answer);
    }
    let mut whole = String::from_str(alloc, BEGUN)?;
    match append(row, earlier, name, &columns, &mut whole) {
        Ok(_) => Err(refused_append(text.as_str(), whole.as_str())),
        Err(error) => Err(refused(error)),
    }
}

/// Makes the call of this name, which appends to a text.
fn append(
    row: &Row,
    earlier: &Row,
    name: &str,
    columns: &Columns,
    text: &mut String,
) -> Result<Left, GridError> {
    match name {
        "write_contents" => {
            row.write_contents(text, columns.start, columns.width, columns.wrapping)?;
            Ok((None, None))
        }
        "write_contents_formatted" => append_formatted(row, columns, text),
        _ => append_diff(row, earlier, columns, text),
    }
}

fn append_formatted(row: &Row, columns: &Columns, text: &mut String) -> Result<Left, GridError> {
    let (pos, attrs) = row.write_contents_formatted(
        text,
        columns.start,
        columns.width,
        columns.row,
        columns.wrapping,
        columns.place,
        None,
    )?;
    Ok((Some(pos), Some(attrs)))
}

fn append_diff(
    row: &Row,
    earlier: &Row,
    columns: &Columns,
    text: &mut String,
) -> Result<Left, GridError> {
    let (pos, attrs) = row.write_contents_diff(
        text,
        earlier,
        columns.start,
        columns.width,
        columns.row,
        columns.wrapping,
        columns.was_wrapping,
        columns.place.unwrap_or(Pos { row: 0, col: 0 }),
        Attrs::new(),
    )?;
    Ok((Some(pos), Some(attrs)))
}
