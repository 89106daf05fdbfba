//! Plays the cases: files of steps, each with the lines that it has to answer.
//!
//! The arguments are `[--may-refuse] [--list] [--case N] FILE..`. The folder that a file is in says what its cases are
//! about. `library_steps` has the steps of the libraries' cases, and this crate those of relays and programs.
#![tactic(auto)]

mod commands;
mod faults;
mod input;
mod limited;
mod relays;
mod stage;

use case_player::play;
use stage::Stage;
use std::process::ExitCode;

fn main(rt: HostRuntime) -> ExitCode {
    play(&rt, Stage::new(&rt, ""))
}
