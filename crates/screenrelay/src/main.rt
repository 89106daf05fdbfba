//! Relays the output of a terminal program as frames of its screen, and shows a relayed stream as text.
#![tactic(auto)]

use command_line::run;
use relay_commands::Program;
use relay_streams::RelayError;
use std::env;
use std::process::ExitCode;

fn main(rt: HostRuntime) -> ExitCode {
    run(
        rt.alloc(),
        env::args(&rt),
        &mut (rt.stdin(), rt.stdout(), rt.stderr()),
        |(input, output, errors), words| Program::Screenrelay.command(
            rt.alloc(),
            words,
            input,
            output,
            errors,
        ),
        |(_, _, errors)| Program::Screenrelay.report_fault(errors, RelayError::Memory),
    )
}
