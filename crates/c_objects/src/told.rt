//! The texts of what a screen doesn't know, and of rows that leave it for good.
ghost use Rattle.std.specs.Prelude.{◌≡◌, ◌++◌, length, decimal, string_bytes, map, IfSome, OnOk};
ghost use Rattle.vte_core.specs.ParamsText.{group_text, groups_text};
ghost use Rattle.vt100_capture.specs.Capture.{captured_row, after_row};
ghost use Rattle.c_objects.specs.Queue.{drafted};
ghost use Rattle.c_objects.specs.Requests as specs;

use crate::draft::Draft;
use itoa::Buffer;
use std::alloc::Global;
use std::fmt;
use vt100::capture::{BasicFormattedCaptureState, RowContents};
use vt100_rows::Row;

/// Begins a text with the first two intermediates of a sequence, and returns how many there are.
pub(crate) fn begin(draft: &mut Draft, first: Option<u8>, second: Option<u8>) -> usize
    ensures text { draft.new ≡ specs.intermediates first second }
    ensures count { result ≡ length (specs.intermediates first second) }
{
    draft.clear();
    match (first, second) {
        (None, _) => 0,
        (Some(first), None) => {
            draft.push(&[first]);
            1
        }
        (Some(first), Some(second)) => {
            draft.push(&[first, second]);
            2
        }
    }
}

/// Appends the parameters of a control sequence, as written there, and its final byte.
#[tactic(auto, using(crate::proofs::Drafts::drafted_behind))]
pub(crate) fn push_csi(draft: &mut Draft, params: &[&[u16]], last: char)
    ensures { drafted draft.new ≡ drafted (draft.old ++ specs.csi_text (map (λ g. g.now) params.now) last) }
{
    push_groups(draft, params);
    let mut room = [0; 4];
    draft.push(last.encode_utf8(&mut room).as_bytes());
}

/// Appends groups of numbers, joined by `;`.
fn push_groups(draft: &mut Draft, groups: &[&[u16]])
    ensures { drafted draft.new ≡ drafted (draft.old ++ groups_text (map (λ g. g.now) groups.now)) }
{
    if let [first, rest @ ..] = groups {
        push_group(draft, first);
        for group in rest {
            draft.push(b";");
            push_group(draft, group);
        }
    }
}

/// Appends the numbers of a group, joined by `:`.
fn push_group(draft: &mut Draft, group: &[u16])
    ensures { drafted draft.new ≡ drafted (draft.old ++ group_text group.now) }
{
    if let [first, rest @ ..] = group {
        push_number(draft, *first);
        for number in rest {
            draft.push(b":");
            push_number(draft, *number);
        }
    }
}

/// Appends a number in decimal digits.
fn push_number(draft: &mut Draft, number: u16)
    ensures { drafted draft.new ≡ drafted (draft.old ++ decimal number) }
{
    let mut buffer = Buffer::new();
    draft.push(buffer.format(number).as_bytes());
}

/// Appends the pieces of an operating system command, joined by `;`.
pub(crate) fn push_osc(draft: &mut Draft, pieces: &[&[u8]])
    ensures { drafted draft.new ≡ drafted (draft.old ++ specs.osc_text (map (λ p. p.now) pieces.now)) }
{
    if let [first, rest @ ..] = pieces {
        draft.push(first);
        for piece in rest {
            draft.push(b";");
            draft.push(piece);
        }
    }
}

/// The text of a row that leaves for good, and a newline where it doesn't go on in the next row. Nothing if an
/// allocation fails.
#[tactic(auto, using(crate::proofs::LeftText::row_is_ended))]
pub(crate) fn left_text(alloc: Global, contents: &RowContents<'_>) -> Option<String>
    ensures { IfSome result (λ t. string_bytes t ≡ specs.left_text contents.now) }
{
    // A capture writes the newline before the next row, so a row without columns follows.
    let Ok(next) = Row::new(alloc, 0) else {
        return None;
    };
    let mut text = String::new(alloc);
    let mut state = BasicFormattedCaptureState::new();
    if append(&mut text, contents, &mut state).is_err() {
        return None;
    }
    if append(&mut text, &RowContents::new(&next), &mut state).is_err() {
        return None;
    }
    Some(text)
}

/// Appends a row to a capture.
fn append(
    text: &mut String,
    row: &RowContents<'_>,
    state: &mut BasicFormattedCaptureState,
) -> fmt::Result
    ensures text { OnOk result (string_bytes text.new ≡ string_bytes text.old ++ captured_row state.old row.now) }
    ensures state { OnOk result (state.new ≡ after_row state.old row.now) }
{
    row.write_formatted_basic(text, state)
}
