//! A player's program.

use crate::files::{Disk, Files};
use crate::invocation::{Invocation, parse};
use crate::player::Player;
use crate::playing::Play;
use byte_streams::ByteSink;
use command_line::{FAULT, SUCCESS, USAGE, report, run};
use std::alloc::Global;
use std::process::ExitCode;
use std::{env, io};

/// The exit status of a player that found no memory outside of a step.
const NO_MEMORY: u8 = 3;

const USAGE_LINE: &[u8] = b"usage: [--may-refuse] [--list] [--case N] FILE..\n";

/// A player's program: plays the cases of the files that the process's arguments name, and returns the exit status.
///
/// The arguments are `[--may-refuse] [--list] [--case N] FILE..`. With `--may-refuse` a step that memory was refused to
/// is taken once more, and a case may end where what it works on has failed. With `--case N` the Nth case alone is
/// played. With `--list` the cases are listed, and not played.
///
/// Each line that isn't as wanted is reported on the output, with its file, its number, its case and its step. The last
/// line says how many cases and steps were played, and whether all of them were as wanted. The status is 0 if they
/// were, 1 if they weren't or no case was played, and 2 if the arguments aren't understood or a file can't be read. If
/// memory is refused outside of a step it is 3.
pub fn play<P: Player + Drop>(rt: &HostRuntime, player: P) -> ExitCode {
    run(
        rt.alloc(),
        env::args(rt),
        &mut (rt.stdout(), player),
        |(output, player), words| run_cases(rt.alloc(), words, &Disk(rt), player, output),
        |_| NO_MEMORY,
    )
}

fn run_cases<F: Files, P: Player, W: ByteSink>(
    alloc: Global,
    words: &[&str],
    files: &F,
    player: &mut P,
    output: &mut W,
) -> u8 {
    let Some(invocation) = parse(words) else {
        report(output, USAGE_LINE);
        return USAGE;
    };
    match Play::new(alloc, invocation.options) {
        Ok(mut play) => play_files(&mut play, invocation, files, player, output),
        Err(_) => NO_MEMORY,
    }
}

fn play_files<F: Files, P: Player, W: ByteSink>(
    play: &mut Play,
    invocation: Invocation<'_>,
    files: &F,
    player: &mut P,
    output: &mut W,
) -> u8 {
    for name in invocation.files {
        let status = play_file(play, files, player, name);
        if status == USAGE {
            report(output, name.as_bytes());
            report(output, b": can't be read as text in UTF-8\n");
        }
        if status != SUCCESS {
            return status;
        }
        tell(play, output);
    }
    if invocation.options.lists {
        return SUCCESS;
    }
    push_summary(play);
    if play.report.is_refused() {
        return NO_MEMORY;
    }
    tell(play, output);
    status_of(play)
}

// Writes what isn't reported yet.
fn tell<W: ByteSink>(play: &mut Play, output: &mut W) {
    report(output, play.report.as_str().as_bytes());
    play.report.clear();
}

// Plays a file. Returns 0, or the status that the program ends with.
fn play_file<F: Files, P: Player>(play: &mut Play, files: &F, player: &mut P, name: &str) -> u8 {
    match files.read(name) {
        Ok(bytes) => play_bytes(play, player, name, &bytes),
        Err(error) if error.kind() == io::ErrorKind::OutOfMemory => NO_MEMORY,
        Err(_) => USAGE,
    }
}

fn play_bytes<P: Player>(play: &mut Play, player: &mut P, name: &str, bytes: &[u8]) -> u8 {
    let Ok(text) = str::from_utf8(bytes) else {
        return USAGE;
    };
    play.play_text(player, name, text);
    if play.report.is_refused() {
        NO_MEMORY
    } else {
        SUCCESS
    }
}

fn push_summary(play: &mut Play) {
    play.report.number(play.cases as u64);
    play.report.push(" cases, ");
    play.report.number(play.steps as u64);
    play.report.push(" steps: ");
    if play.faults > 0 {
        play.report.number(play.faults as u64);
        play.report.line(" not as wanted");
    } else if play.cases > 0 {
        play.report.line("all as wanted");
    } else {
        play.report.line("none is played");
    }
}

fn status_of(play: &Play) -> u8 {
    if play.faults == 0 && play.cases > 0 {
        SUCCESS
    } else {
        FAULT
    }
}
