//! Steps on a view.

use crate::faults::fault_named;
use crate::limited::LimitedWriter;
use crate::relays::cuts::advance;
use crate::relays::drawn::{push_cell, push_cursor, push_runs, push_settings, push_shown};
use crate::relays::wordings::{MOST_WORDS, count_or};
use case_player::{Answer, StepError, Words};
use relay_streams::write_view;
use std::alloc::Global;
use termview::{UntilCleared, View};

/// Takes a step on a view.
pub fn take(
    alloc: Global,
    view: &mut View<UntilCleared>,
    name: &str,
    words: &Words,
    answer: &mut Answer,
) -> Result<(), StepError> {
    match name {
        "advance" => give_pieces(view, words),
        "stop" => view.stop_sync(),
        "shown" => push_shown(answer, view),
        "cursor" => push_cursor(answer, view),
        "settings" => push_settings(answer, view),
        "cell" => push_cell(answer, view, words.place(), words.place()),
        "held" => answer.number(view.sync_bytes_count() as u64),
        "wrapped" => {
            let is_wrapped = view.row_wrapped(words.place());
            answer.push(if is_wrapped { "yes" } else { "no" });
        }
        "text" => return push_text(alloc, answer, view),
        "row" => return push_row(alloc, answer, view, words),
        "runs" => return push_runs(alloc, answer, view),
        _ => return Err(StepError::Unknown),
    }
    Ok(())
}

// Gives a view pieces of bytes.
fn give_pieces(view: &mut View<UntilCleared>, words: &Words) {
    for _ in 0..MOST_WORDS {
        if !words.is_empty() {
            advance(view, words.bytes());
        }
    }
}

// The text of all rows, and where the cursor is.
fn push_text(
    alloc: Global,
    answer: &mut Answer,
    view: &View<UntilCleared>,
) -> Result<(), StepError> {
    let mut text = Vec::new(alloc);
    if write_view(view, &mut text).is_err() {
        return Err(StepError::Memory);
    }
    answer.quoted(&text);
    answer.push(" ");
    push_cursor(answer, view);
    Ok(())
}

/// How many bytes a row's writer takes, unless the step has a number.
const ROOM: usize = 4096;

// Appends a row's text, from a writer that takes a byte a write, has this room, and then fails or takes nothing.
fn push_row(
    alloc: Global,
    answer: &mut Answer,
    view: &View<UntilCleared>,
    words: &Words,
) -> Result<(), StepError> {
    let row = words.place();
    let mut writer = LimitedWriter::new(alloc, count_or(words, ROOM));
    writer.step = 1;
    writer.fault = if words.is_empty() {
        None
    } else {
        Some(fault_named(words.word(), words))
    };
    writer.clear()?;
    let written = view.row_text(row, &mut writer);
    answer.quoted(&writer.kept);
    if let Err(error) = written {
        answer.push(" ");
        answer.debug(&error.kind());
    }
    Ok(())
}
