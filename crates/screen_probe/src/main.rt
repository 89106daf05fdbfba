//! Prints what a stream of bytes makes of a terminal's screen, and replays scripts of calls on one.
#![tactic(auto)]

use command_line::run;
use screen_probe_command::{DumpError, command, report_fault};
use std::env;
use std::process::ExitCode;

fn main(rt: HostRuntime) -> ExitCode {
    run(
        rt.alloc(),
        env::args(&rt),
        &mut (rt.stdin(), rt.stdout(), rt.stderr()),
        |(input, output, errors), words| command(rt.alloc(), words, input, output, errors),
        |(_, _, errors)| report_fault(errors, DumpError::Memory),
    )
}
