//! Recordings of what a program writes to its terminal.

ghost use Rattle.std.specs.Prelude.{◌≡◌, IfErr, IfOk, None, Some};
ghost use Rattle.recordings.specs.Kinds.{kind_named};

use crate::error::RecordingError;
use crate::theme::RecordedTheme;
use std::num::NonZeroU16;

/// How many rows and columns a screen has.
#[derive(Clone, Copy)]
pub struct ScreenSize {
    /// How many rows there are.
    pub rows: NonZeroU16,
    /// How many columns there are.
    pub cols: NonZeroU16,
}

/// What an event of a recording does.
#[derive(Drop)]
pub enum Change {
    /// The program writes these bytes.
    Output(Vec<u8>),
    /// The terminal gets this size.
    Resize(ScreenSize),
    /// Nothing: this names the moment.
    Marker(String),
}

/// An event of a recording.
#[derive(Drop)]
pub struct Event {
    /// Microseconds since the beginning.
    pub time: u64,
    /// What happens then.
    pub change: Change,
}

/// The form in which a recording is stored.
#[derive(Clone, Copy, Debug, PartialEq, Eq)]
pub enum Kind {
    /// An asciicast, version 1, 2 or 3: <https://docs.asciinema.org/manual/asciicast/v3/>.
    Asciicast,
    /// A typescript of `script`, with its timing file: `scriptreplay(1)` of util-linux.
    Script,
    /// A ttyrec: frames with a header of 12 bytes each, `ttyrec(1)`.
    Ttyrec,
    /// The bytes alone.
    Raw,
}

impl Kind {
    /// The name by which the kind is printed and asked for.
    pub fn name(self) -> &'static str
        ensures { kind_named result.now ≡ Some self }
    {
        match self {
            Kind::Asciicast => "asciicast",
            Kind::Script => "script",
            Kind::Ttyrec => "ttyrec",
            Kind::Raw => "raw",
        }
    }

    /// The kind of this name.
    pub fn of_name(name: &str) -> Option<Self>
        ensures { result ≡ kind_named name.now }
    {
        match name {
            "asciicast" => Some(Kind::Asciicast),
            "script" => Some(Kind::Script),
            "ttyrec" => Some(Kind::Ttyrec),
            "raw" => Some(Kind::Raw),
            _ => None,
        }
    }
}

/// What is read of a recording that may have been cut, or may stop making sense.
#[derive(Drop)]
pub struct Reading {
    /// What is recorded up to the first fault.
    pub recording: Recording,
    /// The first fault, if there is one.
    pub fault: Option<RecordingError>,
}

impl Reading {
    /// The recording, if all of it was read.
    pub fn whole(self) -> Result<Recording, RecordingError>
        ensures recording { IfOk result (λ r. (r ≡ self.recording) × (self.fault ≡ None)) }
        ensures fault { IfErr result (λ e. self.fault ≡ Some e) }
    {
        match self.fault {
            None => Ok(self.recording),
            Some(fault) => Err(fault),
        }
    }
}

/// A recorded stream.
#[derive(Drop)]
pub struct Recording {
    /// The form in which it was stored.
    pub kind: Kind,
    /// The size at first, where the recording says it.
    pub size: Option<ScreenSize>,
    /// The colours of its own, where the recording says them.
    pub theme: Option<RecordedTheme>,
    /// The longest time for which a screen stays the same, in microseconds, where the recording says one:
    /// `idle_time_limit` in the header of an asciicast. It isn't 0.
    pub idle: Option<u64>,
    /// Its title, where the recording says one: `title` in the header of an asciicast. It isn't empty.
    pub title: Option<String>,
    /// What happens, in order.
    pub events: Vec<Event>,
    /// Microseconds from the beginning to the last event, even if it does nothing to a screen.
    pub length: u64,
}
