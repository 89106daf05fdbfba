//! Bytes that are cut wherever they can be, and what views show of the pieces.

use crate::relays::drawn::{push_cell, push_cursor, push_shown};
use case_player::{Answer, StepError, Words};
use relay_streams::view_of;
use std::alloc::Global;
use std::num::NonZeroU16;
use termview::{UntilCleared, View};

/// Rows and columns.
pub type Size = (NonZeroU16, NonZeroU16);

/// A fresh view of this size that was given these bytes, in pieces of these lengths and then the rest.
pub fn view_in_pieces(
    alloc: Global,
    (rows, cols): Size,
    bytes: &[u8],
    cuts: &[usize],
) -> Result<View<UntilCleared>, StepError> {
    match view_of(alloc, rows, cols, bytes, cuts) {
        Ok(view) => Ok(view),
        Err(_) => Err(StepError::Memory),
    }
}

/// Gives a view a piece of bytes.
pub fn advance(view: &mut View<UntilCleared>, piece: &[u8]) {
    view.advance(piece);
}

/// Ends a cut: appends its text, unless that of the cut before is the same. The line begins with the cut.
pub fn end_cut(cut: usize, told: &mut Answer, answer: &mut Answer) {
    told.end_line();
    if !answer.has_told(told.as_str()) {
        answer.number(cut as u64);
        answer.push(": ");
        answer.push(told.as_str());
    }
    told.clear();
}

/// What is shown before each cut, and after all bytes. If updates are stopped, it is what is shown in the end when they
/// are stopped after each byte. The words are the size and the bytes.
pub fn each_cut(
    alloc: Global,
    are_stopped: bool,
    words: &Words,
    answer: &mut Answer,
) -> Result<(), StepError> {
    let size = (words.size(), words.size());
    let bytes = words.bytes();
    let mut told = Answer::new(alloc)?;
    for cut in 0..bytes.len() {
        let cut = cut + usize::from(are_stopped);
        tell_cut(alloc, size, bytes.split_at(cut), are_stopped, &mut told)?;
        end_cut(cut, &mut told, answer);
    }
    Ok(())
}

fn tell_cut(
    alloc: Global,
    size: Size,
    (prefix, rest): (&[u8], &[u8]),
    are_stopped: bool,
    told: &mut Answer,
) -> Result<(), StepError> {
    let mut view = view_in_pieces(alloc, size, prefix, &[])?;
    if are_stopped {
        view.stop_sync();
    } else {
        push_held(told, &view, prefix.len().saturating_sub(START_LEN));
        told.push(", then ");
    }
    advance(&mut view, rest);
    push_held(told, &view, 0);
    Ok(())
}

/// The length of the mark that begins an update, in bytes.
const START_LEN: usize = 8;

// Appends what is shown, and how many bytes are held if that isn't `held`.
fn push_held(told: &mut Answer, view: &View<UntilCleared>, held: usize) {
    push_shown(told, view);
    if view.sync_bytes_count() != held {
        told.push(" with ");
        told.number(view.sync_bytes_count() as u64);
        told.push(" bytes held");
    }
}

/// A cell and the cursor, where the bytes come in any three pieces. The words are the size, the cell's row and column,
/// and the bytes.
pub fn each_two_cuts(alloc: Global, words: &Words, answer: &mut Answer) -> Result<(), StepError> {
    let size = (words.size(), words.size());
    let place = (words.place(), words.place());
    let bytes = words.bytes();
    let mut told = Answer::new(alloc)?;
    for cut in 0..bytes.len() + 1 {
        for earlier in 0..cut + 1 {
            tell_pieces(
                alloc,
                size,
                bytes,
                &[earlier, cut - earlier],
                place,
                &mut told,
            )?;
            end_cut(cut, &mut told, answer);
        }
    }
    Ok(())
}

// What a cell shows where the bytes come in these pieces and the rest.
fn tell_pieces(
    alloc: Global,
    size: Size,
    bytes: &[u8],
    cuts: &[usize],
    (row, col): (u16, u16),
    told: &mut Answer,
) -> Result<(), StepError> {
    let view = view_in_pieces(alloc, size, bytes, cuts)?;
    push_drawn(told, &view, row, col);
    Ok(())
}

/// Appends a cell, and the cursor's row and column.
pub fn push_drawn(told: &mut Answer, view: &View<UntilCleared>, row: u16, col: u16) {
    push_cell(told, view, row, col);
    told.push(" ");
    push_cursor(told, view);
}
