//! The outputs of a recording, one after another through one filter.

ghost use Rattle.std.specs.Prelude.{◌≡◌, ◌++◌, [], ℕ, List, IfOk, OnOk};
ghost use Rattle.charset_filter.specs.Filter.{HasRead};
ghost use Rattle.charset_filter.specs.Given.{given_after};
ghost use Rattle.recordings.specs.Recorded.{deed_of, said};
ghost use Rattle.screentext_command.specs.Drawn.{IsDrawn, drawn_after, drawn_deed, written};

use crate::source::owned;
use charset_filter::CharsetFilter;
use recordings::{Change, Event, Recording};
use std::alloc::{AllocError, Global};

/// The recording with each character that is printed from DEC's special graphics as its Unicode character.
///
/// All else in it is the same. A selected character set stays selected in the next output. Fails only if an
/// allocation fails.
pub(crate) fn with_lines_drawn(
    alloc: Global,
    recording: &Recording,
) -> Result<Recording, AllocError>
    ensures { IfOk result (IsDrawn recording.now) }
{
    Ok(Recording {
        kind: recording.kind,
        size: recording.size,
        theme: recording.theme,
        idle: recording.idle,
        title: owned(alloc, recording.title.as_deref())?,
        events: drawn_events(alloc, &recording.events)?,
        length: recording.length,
    })
}

fn drawn_events(alloc: Global, events: &[Event]) -> Result<Vec<Event>, AllocError>
    ensures { IfOk result (λ drawn. said drawn.items ≡ drawn_after [] (said events.now)) }
{
    let mut filter = CharsetFilter::new();
    let mut drawn = Vec::new(alloc);
    for event in events {
        let change = drawn_change(alloc, &mut filter, &event.change)?;
        drawn.push(Event {
            time: event.time,
            change,
        })?;
    }
    Ok(drawn)
}

// What an event does, after the outputs that the filter has read.
fn drawn_change(
    alloc: Global,
    filter: &mut CharsetFilter,
    change: &Change,
) -> Result<Change, AllocError>
    ensures reads { OnOk result ((past : List ℕ) → HasRead filter.old past
        → HasRead filter.new (past ++ written (deed_of change.now))) }
    ensures drawn { IfOk result (λ drawn. (past : List ℕ) → HasRead filter.old past
        → deed_of drawn ≡ drawn_deed past (deed_of change.now)) }
{
    match change {
        Change::Output(bytes) => Ok(Change::Output(drawn_bytes(alloc, filter, bytes)?)),
        Change::Resize(size) => Ok(Change::Resize(*size)),
        Change::Marker(name) => Ok(Change::Marker(name.as_str().to_owned(alloc)?)),
    }
}

// What the filter gives for the bytes of an output.
fn drawn_bytes(
    alloc: Global,
    filter: &mut CharsetFilter,
    bytes: &[u8],
) -> Result<Vec<u8>, AllocError>
    ensures reads { OnOk result ((past : List ℕ) → HasRead filter.old past → HasRead filter.new (past ++ bytes.now)) }
    ensures drawn { IfOk result (λ drawn. (past : List ℕ) → HasRead filter.old past
        → drawn.items ≡ given_after past bytes.now) }
{
    let mut drawn = Vec::new(alloc);
    filter.advance(bytes, &mut drawn)?;
    Ok(drawn)
}
