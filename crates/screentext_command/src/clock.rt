//! Times in minutes and seconds.

ghost use Rattle.std.specs.Prelude.{◌≡◌, IfOk};
ghost use Rattle.command_line.specs.Numbers.{count_of};
ghost use Rattle.recordings.specs.Times.{time_in};
ghost use Rattle.screentext_command.specs.Moments.{clock_in, clock_of};

use command_line::parse_count;
use recordings::parse_seconds;
use std::alloc::{AllocError, Global};

/// The time that an argument gives in minutes and seconds, as `1:30`, in microseconds.
pub(crate) fn parse_clock(alloc: Global, word: &str) -> Result<Option<u64>, AllocError>
    ensures { IfOk result (λ time. time ≡ clock_in word.now) }
{
    match word.split_once(':') {
        Some((minutes, seconds)) => clock(alloc, minutes, seconds),
        None => Ok(None),
    }
}

fn clock(alloc: Global, minutes: &str, seconds: &str) -> Result<Option<u64>, AllocError>
    ensures { IfOk result (λ time. time ≡ clock_of (count_of minutes.now) (time_in seconds.now)) }
{
    let seconds = parse_seconds(alloc, seconds.as_bytes())?;
    Ok(time_of(parse_count(minutes), seconds))
}

fn time_of(minutes: Option<usize>, seconds: Option<u64>) -> Option<u64>
    ensures { result ≡ clock_of minutes seconds }
{
    let (minutes, seconds) = (minutes? as u64, seconds?);
    if minutes < 1_000_000 && seconds < 60_000_000 {
        Some(minutes * 60_000_000 + seconds)
    } else {
        None
    }
}
