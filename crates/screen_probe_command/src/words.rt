//! The arguments of the command line.

ghost use Rattle.std.specs.Prelude.{◌≡◌, ◌&&◌, is_some, map, codes};
ghost use Rattle.std.specs.Str.{bytes_eq};
ghost use Rattle.command_line.specs.Numbers.{is_size, is_count};
ghost use Rattle.screen_probe_command.specs.Command.{is_invocation};

use crate::dumping::Dump;
use command_line::{parse_count, parse_size};

/// What the program is asked to do.
#[derive(Clone, Copy, Debug, PartialEq, Eq)]
pub(crate) enum Invocation {
    /// Print the state that a stream leaves.
    Dump(Dump),
    /// Replay a script.
    Run,
}

/// Reads `ROWS COLS [CAPACITY [TIMES]]` or `run`.
pub(crate) fn parse(words: &[&str]) -> Option<Invocation>
    ensures { is_some result ≡ is_invocation (map (λ w. w.now) words.now) }
{
    match words {
        [word] => parse_run(word),
        [rows, cols] => parse_dump(rows, cols, "0", "1"),
        [rows, cols, capacity] => parse_dump(rows, cols, capacity, "1"),
        [rows, cols, capacity, times] => parse_dump(rows, cols, capacity, times),
        _ => None,
    }
}

fn parse_run(word: &str) -> Option<Invocation>
    ensures { is_some result ≡ bytes_eq word.now (codes "run") }
{
    if word == "run" {
        Some(Invocation::Run)
    } else {
        None
    }
}

fn parse_dump(rows: &str, cols: &str, capacity: &str, times: &str) -> Option<Invocation>
    ensures { is_some result ≡ (is_size rows.now && (is_size cols.now && (is_count capacity.now
        && is_count times.now))) }
{
    Some(Invocation::Dump(Dump {
        rows: parse_size(rows)?,
        cols: parse_size(cols)?,
        capacity: parse_count(capacity)?,
        times: parse_count(times)?,
    }))
}
