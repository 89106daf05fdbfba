//! Events as they are read, one after another.

ghost use Rattle.std.specs.Prelude.{◌≡◌, ◌++◌, ◌∷◌, [], List, OnOk};
ghost use Rattle.std.specs.Option.{option_map};
ghost use Rattle.recordings.specs.Recorded.{Row, IsStateAfter, deed_of, reached};

use crate::recording::{Change, Event};
use std::alloc::{AllocError, Global};

/// From where a time counts.
#[derive(Clone, Copy)]
pub enum Pace {
    /// From the beginning. A time before that of the previous event counts as that one.
    FromStart,
    /// From the previous event.
    FromLast,
}

impl Pace {
    // The time of an event, given that of the previous one.
    fn reach(self, before: u64, time: u64) -> u64
        ensures { result ≡ reached self before time }
    {
        match self {
            Pace::FromStart => before.max(time),
            Pace::FromLast => before.saturating_add(time),
        }
    }
}

/// Events up to a moment.
#[derive(Drop)]
pub struct Timeline {
    pub(crate) pace: Pace,
    /// Microseconds from the beginning to the last event.
    pub(crate) time: u64,
    pub(crate) events: Vec<Event>,
}

impl Timeline {
    /// No events yet.
    pub(crate) fn new(alloc: Global, pace: Pace) -> Self
        ensures { IsStateAfter pace [] result }
    {
        Timeline {
            pace,
            time: 0,
            events: Vec::new(alloc),
        }
    }

    /// Appends an event, with what it does if that concerns a screen or a reader.
    pub(crate) fn push(&mut self, time: u64, change: Option<Change>) -> Result<(), AllocError>
        ensures { OnOk result ((pace : Pace) (rows : List Row) → IsStateAfter pace rows self.old
            → IsStateAfter pace (rows ++ (time, option_map deed_of change) ∷ []) self.new) }
    {
        self.time = self.pace.reach(self.time, time);
        match change {
            Some(change) => {
                self.events.push(Event {
                    time: self.time,
                    change,
                })?;
                Ok(())
            }
            None => Ok(()),
        }
    }
}
