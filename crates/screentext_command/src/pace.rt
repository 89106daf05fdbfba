//! How fast a film is asked to play.

ghost use Rattle.std.specs.Prelude.{◌≡◌, ◌&&◌, is_some, true, nat_le, nat_lt, IfOk, IfSome, Some};
ghost use Rattle.std.specs.Option.{option_map, option_map_or};
ghost use Rattle.clap.specs.Words.{found_of, rows_of};
ghost use Rattle.command_line.specs.Numbers.{size_in};
ghost use Rattle.recordings.specs.Times.{time_in};
ghost use Rattle.screentext_command.specs.Asked.{SaysPace, idle_meant, plays_meant, rate_meant, speed_meant};
ghost use Rattle.screentext_command.specs.Words.{are_paces, is_rate, is_speed};

use clap::ArgMatches;
use command_line::parse_size;
use recorded_screen::Pace;
use recordings::parse_seconds;
use std::alloc::{AllocError, Global};

// How many screens a second a film shows at most without an argument.
const USUAL_RATE: u16 = 30;

// The most that an argument can say.
const MOST_RATE: u16 = 1000;

/// Reads the pace from the arguments.
pub(crate) fn pace_of(alloc: Global, matches: &ArgMatches<'_>) -> Result<Option<Pace>, AllocError>
    ensures pace { IfOk result (λ p. is_some p ≡ are_paces (rows_of (found_of matches.now))) }
    ensures says { IfOk result (λ p. IfSome p (SaysPace (rows_of (found_of matches.now)))) }
{
    let speed = speed_of(alloc, matches.get_str("speed"))?;
    let idle = idle_of(alloc, matches.get_str("idle"))?;
    let rate = rate_of(matches.get_str("fps"));
    let plays = plays_of(matches.get_str("loop"));
    Ok(new_pace(speed, idle, rate, plays))
}

fn new_pace(
    speed: Option<u64>,
    idle: Option<Option<u64>>,
    rate: Option<u16>,
    plays: Option<Option<u16>>,
) -> Option<Pace>
    ensures pace { is_some result ≡ (is_some speed && (is_some idle && (is_some rate && is_some plays))) }
    ensures found { IfSome result (λ p. (speed ≡ Some p.speed) × (idle ≡ Some p.idle) × (rate ≡ Some p.rate)
        × (plays ≡ Some p.plays)) }
{
    Some(Pace {
        speed: speed?,
        idle: idle?,
        rate: rate?,
        plays: plays?,
        from: 0,
        poster: None,
    })
}

/// How often a film plays. `Some(None)` without an argument: it plays over and over then.
pub(crate) fn plays_of(word: Option<&str>) -> Option<Option<u16>>
    ensures plays { is_some result ≡ option_map_or (λ w. is_some (size_in w)) (option_map (λ w. w.now) word.entry)
        true }
    ensures value { result ≡ plays_meant (option_map (λ w. w.now) word.entry) }
{
    match word {
        None => Some(None),
        Some(word) => Some(Some(parse_size(word)?.get())),
    }
}

/// How many millionths of the recorded speed a film has: a million without an argument.
pub(crate) fn speed_of(alloc: Global, word: Option<&str>) -> Result<Option<u64>, AllocError>
    ensures speed { IfOk result (λ s. is_some s ≡ option_map_or is_speed (option_map (λ w. w.now) word.entry) true) }
    ensures value { IfOk result (λ s. s ≡ speed_meant (option_map (λ w. w.now) word.entry)) }
{
    match word {
        None => Ok(Some(Pace::AS_RECORDED)),
        Some(word) => Ok(parse_seconds(alloc, word.as_bytes())?.filter(|speed| *speed > 0)),
    }
}

/// The longest time in which nothing changes, in microseconds. `Some(None)` without an argument.
pub(crate) fn idle_of(alloc: Global, word: Option<&str>) -> Result<Option<Option<u64>>, AllocError>
    ensures idle { IfOk result (λ t. is_some t ≡ option_map_or (λ w. is_some (time_in w))
        (option_map (λ w. w.now) word.entry) true) }
    ensures value { IfOk result (λ t. t ≡ idle_meant (option_map (λ w. w.now) word.entry)) }
{
    match word {
        None => Ok(Some(None)),
        Some(word) => Ok(parse_seconds(alloc, word.as_bytes())?.map(Some)),
    }
}

/// How many screens a second a film shows at most: 1 to 1,000, and 30 without an argument.
pub(crate) fn rate_of(word: Option<&str>) -> Option<u16>
    ensures rate { is_some result ≡ option_map_or is_rate (option_map (λ w. w.now) word.entry) true }
    ensures value { result ≡ rate_meant (option_map (λ w. w.now) word.entry) }
{
    match word {
        None => Some(USUAL_RATE),
        Some(word) => rate_in(word),
    }
}

fn rate_in(word: &str) -> Option<u16>
    ensures rate { is_some result ≡ is_rate word.now }
    ensures value { result ≡ rate_meant (Some word.now) }
{
    let rate = parse_size(word)?.get();
    if rate > MOST_RATE {
        return None;
    }
    Some(rate)
}
