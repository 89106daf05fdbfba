//! The arguments of the command lines.

ghost use Rattle.std.specs.Prelude.{◌≡◌, map};
ghost use Rattle.std.specs.Option.{option_map};
ghost use Rattle.std.specs.Str.{bytes_eq};
ghost use Rattle.command_line.specs.Numbers.{size_in};
ghost use Rattle.relay_commands.specs.Words.{invocation_of, is_help, is_no_line_drawing, relay_invocation_of, run_of};
ghost use Rattle.relay_commands.specs.Words.{screen_invocation_of, with_numbers};

use crate::program::Program;
use command_line::parse_size;
use relay_streams::LineDrawing;
use std::num::NonZeroU16;

/// What a program does with a screen of some size.
#[derive(Clone, Copy, Debug, PartialEq, Eq)]
pub enum Job {
    /// Turn another program's output into frames of its screen.
    Relay,
    /// Print a relayed stream as text.
    Show,
    /// Turn another program's output into frames as it comes, with lines drawn or not.
    RelayLive(LineDrawing),
    /// Print the screen that another program's output leaves, as a far terminal shows it, with lines drawn or not.
    PrintFar(LineDrawing),
}

/// What a program is asked to do.
#[derive(Clone, Copy)]
pub(crate) enum Invocation {
    /// Print the help of `screenlive`.
    ScreenliveHelp,
    /// Print the help of `screencat`.
    ScreencatHelp,
    /// Do this job on a screen of this many rows and columns.
    Run(Job, NonZeroU16, NonZeroU16),
}

/// Reads the arguments after the program's name. Returns `None` for arguments that the program doesn't understand.
///
/// Rows and columns are of 1 to 5 digits each, with a value of 1 to 65,535.
pub(crate) fn parse(program: Program, words: &[&str]) -> Option<Invocation>
    ensures { option_map with_numbers result ≡ invocation_of program (map (λ w. w.now) words.now) }
{
    match program {
        Program::Screenrelay => parse_relay(words),
        Program::Screenlive => parse_screen(
            words,
            Invocation::ScreenliveHelp,
            Job::RelayLive(LineDrawing::Drawn),
            Job::RelayLive(LineDrawing::Kept),
        ),
        Program::Screencat => parse_screen(
            words,
            Invocation::ScreencatHelp,
            Job::PrintFar(LineDrawing::Drawn),
            Job::PrintFar(LineDrawing::Kept),
        ),
    }
}

// `relay ROWS COLS` or `show ROWS COLS`.
fn parse_relay(words: &[&str]) -> Option<Invocation>
    ensures { option_map with_numbers result ≡ relay_invocation_of (map (λ w. w.now) words.now) }
{
    match words {
        [job, rows, cols] if is_word(job, "relay") => run(Job::Relay, rows, cols),
        [job, rows, cols] if is_word(job, "show") => run(Job::Show, rows, cols),
        _ => None,
    }
}

// `--help` or `-h`; or `ROWS COLS`, where lines are drawn; or these with `--no-line-drawing` before or after them.
fn parse_screen(words: &[&str], help: Invocation, drawn: Job, kept: Job) -> Option<Invocation>
    ensures { option_map with_numbers result
        ≡ screen_invocation_of (with_numbers help) drawn kept (map (λ w. w.now) words.now) }
{
    match words {
        [word] if is_help(word) => Some(help),
        [rows, cols] => run(drawn, rows, cols),
        [option, rows, cols] if is_no_line_drawing(option) => run(kept, rows, cols),
        [rows, cols, option] if is_no_line_drawing(option) => run(kept, rows, cols),
        _ => None,
    }
}

// The job on a screen of the size that two arguments give.
fn run(job: Job, rows: &str, cols: &str) -> Option<Invocation>
    ensures { option_map with_numbers result ≡ run_of job (size_in rows.now) (size_in cols.now) }
{
    Some(Invocation::Run(job, parse_size(rows)?, parse_size(cols)?))
}

fn is_help(word: &str) -> bool
    ensures { result ≡ is_help word.now }
{
    is_word(word, "--help") || is_word(word, "-h")
}

fn is_no_line_drawing(word: &str) -> bool
    ensures { result ≡ is_no_line_drawing word.now }
{
    is_word(word, "--no-line-drawing")
}

fn is_word(word: &str, wanted: &str) -> bool
    ensures { result ≡ bytes_eq word.now wanted.now }
{
    word == wanted
}
