//! Prints the screen that a terminal program's output makes, as a far terminal shows it: `screencat ROWS COLS`.
#![tactic(auto)]

use command_line::run;
use relay_commands::Program;
use relay_streams::RelayError;
use std::env;
use std::process::ExitCode;

fn main(rt: HostRuntime) -> ExitCode {
    run(
        rt.alloc(),
        env::args(&rt),
        &mut (rt.stdin(), rt.stdout(), rt.stderr()),
        |(input, output, errors), words| Program::Screencat.command(
            rt.alloc(),
            words,
            input,
            output,
            errors,
        ),
        |(_, _, errors)| Program::Screencat.report_fault(errors, RelayError::Memory),
    )
}
