//! Prints what a recorded terminal stream shows, at its end or at a moment: `screentext --help` prints the arguments.
//!
//! The stream comes on standard input: an asciicast, a typescript, a ttyrec, or raw bytes.
#![tactic(auto)]

use command_line::run;
use screentext_command::{Files, TextError, command_with, report_fault};
use std::alloc::Global;
use std::process::ExitCode;
use std::{env, fs};

fn main(rt: HostRuntime) -> ExitCode {
    run(
        rt.alloc(),
        env::args(&rt),
        &mut (rt.stdin(), rt.stdout(), rt.stderr()),
        |(input, output, errors), words| command_with(
            rt.alloc(),
            words,
            &Disk(&rt),
            input,
            output,
            errors,
        ),
        |(_, _, errors)| report_fault(errors, TextError::Memory),
    )
}

// Files of the system.
#[derive(Clone, Copy)]
struct Disk<'a>(&'a HostRuntime);

impl Files for Disk<'_> {
    fn read(&self, _alloc: Global, path: &str) -> Result<Vec<u8>, TextError> {
        match fs::read(self.0, path) {
            Ok(bytes) => Ok(bytes),
            Err(_) => Err(TextError::File),
        }
    }
}
