//! Whether a copy of a screen reads as the screen does.
use crate::checks::check;
use crate::screens::answers::refused;
use crate::screens::states::{choices, places, switches};
use crate::screens::texts::{Place, text_of};
use case_player::StepError;
use std::alloc::Global;
use vt100::Screen;

/// The fault if a text of a copy differs: a line for each. Its first word is the call that makes the text.
const FAULTS: &str = "\
contents of a copy differ
contents_between of a copy differ
contents_formatted_basic of a copy differ
all_rows_basic of a copy differ
contents_formatted of a copy differ
contents_diff of a copy differs
state_formatted of a copy differs
state_diff of a copy differs
input_mode_formatted of a copy differs
input_mode_diff of a copy differs
attributes_formatted of a copy differ
cursor_state_formatted of a copy differs
rows of a copy differ
rows_formatted of a copy differ
rows_diff of a copy differ
";

/// The call that a fault is about.
fn call_of(fault: &str) -> &str {
    match fault.split_once(' ') {
        Some((name, _)) => name,
        None => fault,
    }
}

/// What is asked of that call: the second column to the second one of the next row, or nine columns.
fn place_of_call(name: &str) -> Place {
    match name {
        "contents_between" => [0, 1, 1, 1],
        "rows" | "rows_formatted" | "rows_diff" => [0, 9, 0, 0],
        _ => [0; 4],
    }
}

/// A screen and its copy make the same text, each against the other where it is one of what differs.
fn check_text(
    alloc: Global,
    screen: &Screen,
    copy: &Screen,
    fault: &'static str,
) -> Result<(), StepError> {
    let name = call_of(fault);
    let place = place_of_call(name);
    let made = text_of(alloc, screen, copy, name, place)?;
    let made_by_copy = text_of(alloc, copy, screen, name, place)?;
    check(made == made_by_copy, fault)
}

/// A row is wrapped in both or in none, and has the same cells: one more is asked for than the screen has columns.
fn is_same_row(screen: &Screen, copy: &Screen, row: u16, cols: u16) -> bool {
    let mut is_same = screen.row_wrapped(row) == copy.row_wrapped(row);
    for col in 0..=cols {
        is_same &= is_same_cell(screen, copy, row, col);
    }
    is_same
}

fn is_same_cell(screen: &Screen, copy: &Screen, row: u16, col: u16) -> bool {
    screen.cell(row, col) == copy.cell(row, col)
}

/// The rows that are shown, and one row more, which has no cells.
fn check_cells(screen: &Screen, copy: &Screen) -> Result<(), StepError> {
    let (rows, cols) = screen.size();
    let mut are_same = true;
    for row in 0..=rows.get() {
        are_same &= is_same_row(screen, copy, row, cols.get());
    }
    check(are_same, "a copy's cells differ")
}

fn check_getters(screen: &Screen, copy: &Screen) -> Result<(), StepError> {
    let are_same = places(screen) == places(copy)
        && switches(screen) == switches(copy)
        && choices(screen) == choices(copy);
    check(are_same, "a copy's getters answer otherwise")
}

fn check_alike(alloc: Global, screen: &Screen, copy: &Screen) -> Result<(), StepError> {
    check_getters(screen, copy)?;
    check_cells(screen, copy)?;
    for fault in FAULTS.lines() {
        check_text(alloc, screen, copy, fault)?;
    }
    Ok(())
}

/// All that can be read of a screen, whether it has failed or not, is the same of its copy.
pub fn check_copy(alloc: Global, screen: &Screen) -> Result<(), StepError> {
    let copy = screen.clone().map_err(refused)?;
    check_alike(alloc, screen, &copy)
}
