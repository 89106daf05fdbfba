//! The command line of `screentext`: what a recorded terminal stream shows, at its end or at a moment.
//!
//! The stream comes from a reader, as raw bytes or as a recording: an asciicast, a typescript with its timing file, or
//! a ttyrec.
#![tactic(auto)]

mod answer;
mod changes;
mod clock;
mod commands;
mod error;
mod files;
mod frames;
mod help;
mod known;
mod limits;
mod list;
mod misuse;
mod outputs;
mod pace;
mod pictures;
mod reading;
mod reasons;
mod rows;
mod source;
mod streams;
mod text;
mod words;

pub use commands::{command, command_with, report_fault};
pub use error::TextError;
pub use files::{Files, NoFiles};
pub use help::{HELP, USAGE, VERSION};
