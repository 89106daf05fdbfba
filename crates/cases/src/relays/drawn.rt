//! What a view shows, as lines.

use case_player::{Answer, StepError};
use std::alloc::Global;
use termview::{Color, UntilCleared, View, ViewCell};

fn text_of(cell: Option<&ViewCell>) -> &str {
    match cell {
        Some(cell) if cell.has_contents() => cell.contents(),
        Some(cell) if cell.is_wide_continuation() => "_",
        _ => ".",
    }
}

fn push_row(answer: &mut Answer, view: &View<UntilCleared>, row: u16) {
    let (_, cols) = view.size();
    for col in 0..cols.get() {
        answer.escaped(text_of(view.cell(row, col)).as_bytes());
    }
    answer.push(if view.row_wrapped(row) { ">/" } else { "/" });
}

/// Appends a view's rows, `.` for an empty cell, `_` for the second half of a wide one, `>` where the row is wrapped
/// and `/` after each; then the cursor's row and column, as in `"ab>/c./" 1 1`.
pub fn push_shown(answer: &mut Answer, view: &View<UntilCleared>) {
    answer.push("\"");
    let (rows, _) = view.size();
    for row in 0..rows.get() {
        push_row(answer, view, row);
    }
    answer.push("\" ");
    push_cursor(answer, view);
}

/// Appends the cursor's row and column.
pub fn push_cursor(answer: &mut Answer, view: &View<UntilCleared>) {
    let (row, col) = view.cursor_position();
    answer.numbers(&[u64::from(row), u64::from(col)]);
}

/// Appends a cell's text and its two colours.
pub fn push_cell(answer: &mut Answer, view: &View<UntilCleared>, row: u16, col: u16) {
    let Some(cell) = view.cell(row, col) else {
        answer.push("no cell");
        return;
    };
    answer.quoted(cell.contents().as_bytes());
    push_colors(answer, cell.fgcolor(), cell.bgcolor());
}

// Appends two colours, with a space before each.
fn push_colors(answer: &mut Answer, fgcolor: Color, bgcolor: Color) {
    answer.push(" ");
    answer.debug(&fgcolor);
    answer.push(" ");
    answer.debug(&bgcolor);
}

// Appends the letters that are set, or `-` if none is.
fn push_set(answer: &mut Answer, letters: &[(bool, &str)]) {
    let mut is_empty = true;
    for (is_set, letter) in letters {
        if *is_set {
            answer.push(letter);
            is_empty = false;
        }
    }
    if is_empty {
        answer.push("-");
    }
}

/// Appends a view's modes and drawing attributes: the letters of the modes that are set (keypad, cursor keys, hidden
/// cursor, bracketed paste), the mouse's mode and encoding, the cursor's style, the two colours, and the letters of the
/// attributes (bold, dim, italic, underlined, inverse).
pub fn push_settings(answer: &mut Answer, view: &View<UntilCleared>) {
    let modes = [
        (view.application_keypad(), "k"),
        (view.application_cursor(), "c"),
        (view.hide_cursor(), "h"),
        (view.bracketed_paste(), "p"),
    ];
    push_set(answer, &modes);
    push_choices(answer, view);
    let attributes = [
        (view.bold(), "b"),
        (view.dim(), "d"),
        (view.italic(), "i"),
        (view.underline(), "u"),
        (view.inverse(), "v"),
    ];
    push_set(answer, &attributes);
}

// Appends the mouse's mode and encoding, the cursor's style, and the two colours, with a space around each.
fn push_choices(answer: &mut Answer, view: &View<UntilCleared>) {
    answer.push(" ");
    answer.debug(&view.mouse_protocol_mode());
    answer.push(" ");
    answer.debug(&view.mouse_protocol_encoding());
    answer.push(" ");
    answer.debug(&view.cursor_style());
    push_colors(answer, view.fgcolor(), view.bgcolor());
    answer.push(" ");
}

/// Appends a line for each row: its runs of equal bytes, each with its length, as in `80 "a"`.
pub fn push_runs(
    alloc: Global,
    answer: &mut Answer,
    view: &View<UntilCleared>,
) -> Result<(), StepError> {
    let (rows, _) = view.size();
    for row in 0..rows.get() {
        let mut text = Vec::new(alloc);
        if view.row_text(row, &mut text).is_err() {
            return Err(StepError::Memory);
        }
        push_row_runs(answer, &text);
        answer.end_line();
    }
    Ok(())
}

fn push_row_runs(answer: &mut Answer, text: &[u8]) {
    let mut is_first = true;
    for run in text.chunk_by(|byte, next| byte == next) {
        if !is_first {
            answer.push(" ");
        }
        is_first = false;
        answer.number(run.len() as u64);
        answer.push(" ");
        answer.quoted(run.get(..1).unwrap_or(run));
    }
}
