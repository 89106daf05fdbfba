//! Edits of a row.
use super::copy_of;
use crate::words::flag;
use case_player::{StepError, Words};
use vt100_core::attrs::Attrs;
use vt100_core::{Cell, Row};

const COLUMN: &str = "a column of the row";

/// Takes a step that edits a row.
pub fn change(row: &mut Row, pen: Attrs, name: &str, words: &Words) {
    match name {
        "clear" => row.clear(pen),
        "reset" => row.reset(),
        "trim" => row.trim(),
        "truncate" => row.truncate(words.place()),
        "wrap" => row.wrap(flag(words)),
        "erase" | "clear_wide" => edit_cell(row, pen, name, words),
        "insert" | "remove" | "erase_range" => edit_cells(row, pen, name, words),
        _ => words.fail(StepError::Unknown),
    }
}

/// Takes a step that edits a cell of a row.
fn edit_cell(row: &mut Row, pen: Attrs, name: &str, words: &Words) {
    let col = words.place();
    if col >= row.cols() {
        return words.want(COLUMN);
    }
    match name {
        "erase" => row.erase(col, pen),
        _ => row.clear_wide(col),
    }
}

/// Takes a step that edits cells of a row.
fn edit_cells(row: &mut Row, pen: Attrs, name: &str, words: &Words) {
    let (first, second) = (words.place(), words.place());
    match name {
        "insert" => insert(row, first, second, words),
        "remove" => remove(row, first, second, words),
        _ => erase_range(row, first, second, pen, words),
    }
}

fn insert(row: &mut Row, col: u16, count: u16, words: &Words) {
    if col > row.cols() {
        return words.want(COLUMN);
    }
    row.insert(col, count);
}

fn remove(row: &mut Row, start: u16, end: u16, words: &Words) {
    if end > row.cols() {
        return words.want(COLUMN);
    }
    row.remove(start..end);
}

fn erase_range(row: &mut Row, start: u16, end: u16, pen: Attrs, words: &Words) {
    if end > row.cols() {
        return words.want(COLUMN);
    }
    row.erase_range(start..end, pen);
}

/// Takes a step that makes a row longer.
pub fn lengthen(row: &mut Row, name: &str, words: &Words) -> Result<(), StepError> {
    let len = words.place();
    let before = copy_of(row)?;
    let lengthened = match name {
        "grow" => row.grow(len, Cell::new()),
        _ => row.resize(len, Cell::new()),
    };
    match lengthened {
        Ok(()) => Ok(()),
        Err(_) => Err(unchanged(&before, row, len)),
    }
}

/// The error of a row that was refused memory: it is as before, and was to become longer.
fn unchanged(before: &Row, row: &Row, len: u16) -> StepError {
    if len <= before.cols() {
        return StepError::Wrong("a row that isn't to become longer was refused memory");
    }
    if row.wrapped() != before.wrapped() || row.cells() != before.cells() {
        return StepError::Wrong("a row that was refused memory has changed");
    }
    StepError::Memory
}
