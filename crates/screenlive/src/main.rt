//! Relays the output of a terminal program, as it comes, as frames of its screen.
#![tactic(auto)]

use command_line::run;
use relay_commands::Program;
use relay_streams::RelayError;
use std::env;
use std::process::ExitCode;

fn main(rt: HostRuntime) -> ExitCode {
    run(
        rt.alloc(),
        env::args(&rt),
        &mut (rt.stdin(), rt.stdout(), rt.stderr()),
        |(input, output, errors), words| Program::Screenlive.command(
            rt.alloc(),
            words,
            input,
            output,
            errors,
        ),
        |(_, _, errors)| Program::Screenlive.report_fault(errors, RelayError::Memory),
    )
}
