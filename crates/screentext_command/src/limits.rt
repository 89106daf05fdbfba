//! How large a screen may be that a recording asks for.

ghost use Rattle.std.specs.Prelude.{◌≡◌, ◌*◌, nat_le};
ghost use Rattle.std.specs.List.{list_all};
ghost use Rattle.recordings.specs.Recorded.{deed_of, size_said};
ghost use Rattle.screentext_command.specs.Limits.{are_within, deed_within, is_event_within};

use recordings::{Change, Event, Recording, ScreenSize};

/// How many cells a size in a recording has at most, unless an argument says another number.
pub(crate) const MOST_CELLS: usize = 4_000_000;

/// Whether each size that the recording names has at most this many cells.
pub(crate) fn has_only(recording: &Recording, most: usize) -> bool
    ensures { result ≡ are_within most recording.now }
{
    match recording.size {
        Some(size) => is_within(size, most) && have_only(&recording.events, most),
        None => have_only(&recording.events, most),
    }
}

fn have_only(events: &[Event], most: usize) -> bool
    ensures { result ≡ list_all (is_event_within most) events.now }
{
    for event in events {
        if !is_change_within(&event.change, most) {
            return false;
        }
    }
    true
}

fn is_change_within(change: &Change, most: usize) -> bool
    ensures { result ≡ deed_within most (deed_of change.now) }
{
    match change {
        Change::Resize(size) => is_within(*size, most),
        Change::Output(_) | Change::Marker(_) => true,
    }
}

fn is_within(size: ScreenSize, most: usize) -> bool
    ensures { result ≡ nat_le ((size_said size).0 * (size_said size).1) most }
{
    usize::from(size.rows.get()) * usize::from(size.cols.get()) <= most
}
