//! What a stream of bytes makes of a terminal's screen, as text, a fact a line, scripts of calls on a screen, and the
//! command line of `screen_probe`, which asks for either.
#![tactic(auto)]

mod check;
mod commands;
mod dump;
mod dumping;
mod error;
mod script;
mod steps;
mod texts;
mod words;

pub use commands::{command, report_fault};
pub use dumping::{Dump, dump_stream};
pub use error::DumpError;
pub use script::run_script;
