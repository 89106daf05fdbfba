//! The programs, by their command lines.

use crate::commands::named_files::NamedFiles;
use crate::input::InputReader;
use crate::limited::LimitedWriter;
use case_player::value_of;
use command_line::{SUCCESS, USAGE, parse_size};
use relay_commands::Program;
use relay_streams::relay_live;
use std::alloc::Global;

const RELAYERS: &[(&str, Program)] = &[
    ("screenrelay", Program::Screenrelay),
    ("screenlive", Program::Screenlive),
    ("screencat", Program::Screencat),
];

/// The program of this name that relays a stream, or shows what comes of that.
pub fn relayer(name: &str) -> Option<Program> {
    value_of(RELAYERS, name)
}

/// Runs the program of this name with the arguments after it, and returns its status, or `None` without such a program.
pub fn run(
    alloc: Global,
    (name, words): (&str, &[&str]),
    files: &NamedFiles,
    input: &mut InputReader<'_>,
    output: &mut LimitedWriter,
    errors: &mut LimitedWriter,
) -> Option<u8> {
    match name {
        "screentext" => Some(screentext_command::command_with(
            alloc, words, files, input, output, errors,
        )),
        "screen_probe" => Some(screen_probe_command::command(alloc, words, input, output, errors)),
        "relay_live" => Some(run_relay_live(alloc, words, input, output, errors)),
        _ => Some(relayer(name)?.command(alloc, words, input, output, errors)),
    }
}

// Runs the library's function of this name as if it were a program: its arguments are rows and columns. It reports
// faults as `screenlive` does.
fn run_relay_live(
    alloc: Global,
    words: &[&str],
    input: &mut InputReader<'_>,
    output: &mut LimitedWriter,
    errors: &mut LimitedWriter,
) -> u8 {
    let [rows, cols] = words else {
        return USAGE;
    };
    let (Some(rows), Some(cols)) = (parse_size(rows), parse_size(cols)) else {
        return USAGE;
    };
    match relay_live(alloc, rows, cols, input, output) {
        Ok(()) => SUCCESS,
        Err(error) => Program::Screenlive.report_fault(errors, error),
    }
}
