//! The command lines of `screenrelay`, `screenlive` and `screencat`: their arguments, the jobs that they ask for,
//! their exit statuses, and the lines that report a fault.
//!
//! [`print_far_screen`] goes the whole way in one process, and so shows how the libraries are used. A hub reads a
//! program's output, and a client of it is sent a frame of the screen after each piece. A view reads the frames in
//! small pieces, as a line may cut them, and the rows that it shows at the end are printed.
#![tactic(auto)]

mod commands;
mod far_screen;
mod help;
mod program;
mod words;

pub use far_screen::print_far_screen;
pub use help::{SCREENCAT_HELP, SCREENLIVE_HELP};
pub use program::Program;
pub use words::Job;
