//! Recordings of terminal sessions: their events and times, read from asciicasts, typescripts, ttyrecs and raw streams.
#![tactic(auto)]

mod asciicast;
mod details;
mod error;
mod first_version;
mod kind;
mod lines;
mod recording;
mod theme;
mod time;
mod timeline;
mod ttyrec;
mod typescript;

pub use asciicast::{parse_asciicast, read_asciicast};
pub use error::{Packer, RecordingError};
pub use kind::{guess_kind, packer_of, parse_recording, read_recording};
pub use recording::{Change, Event, Kind, Reading, Recording, ScreenSize};
pub use theme::RecordedTheme;
pub use time::{microseconds, parse_json, parse_seconds};
pub use ttyrec::{parse_ttyrec, read_ttyrec};
pub use typescript::{parse_typescript, read_typescript};
