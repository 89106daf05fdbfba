//! Which recording is meant, and which of its moments.

ghost use Rattle.std.specs.Prelude.{◌≡◌, ◌&&◌, ◌⊎◌, is_some, IfErr, IfOk, IfSome, true, Some, string_bytes};
ghost use Rattle.std.specs.Option.{option_map, option_map_or};
ghost use Rattle.clap.specs.Words.{found_of, rows_of};
ghost use Rattle.command_line.specs.Numbers.{is_count};
ghost use Rattle.recordings.specs.Kinds.{kind_named};
ghost use Rattle.recordings.specs.Recorded.{deed_of, said};
ghost use Rattle.screentext_command.specs.Asked.{SaysOrigin, cells_meant, kind_meant, origin_of};
ghost use Rattle.screentext_command.specs.Missing.{IsNoMoment};
ghost use Rattle.screentext_command.specs.Moments.{AreMoments, IsOtherMoment, IsMoment, is_marker, marker_time};
ghost use Rattle.screentext_command.specs.Moments.{time_meant};
ghost use Rattle.screentext_command.specs.Words.{are_sources};

use crate::clock::parse_clock;
use crate::error::TextError;
use crate::limits::MOST_CELLS;
use clap::ArgMatches;
use command_line::parse_count;
use recorded_screen::{Change, END, Event, Kind, Recording};
use recordings::parse_seconds;
use std::alloc::{AllocError, Global};

/// What the arguments say of the recording.
#[derive(Drop)]
pub(crate) struct Source {
    /// The kind, where it is given.
    pub(crate) kind: Option<Kind>,
    /// The path of the timing file of a typescript.
    pub(crate) timing: Option<String>,
    /// The arguments for the moment and for the other one: times, or names of markers.
    pub(crate) moment: Option<String>,
    pub(crate) since: Option<String>,
    /// The arguments for the moment at which a film begins, and for the one that is shown where nothing plays.
    pub(crate) from: Option<String>,
    pub(crate) poster: Option<String>,
    /// Whether the recording is described, in place of a screen.
    pub(crate) list: bool,
    /// Whether what programs draw with the line drawing set comes as box characters.
    pub(crate) draws_lines: bool,
    /// Whether a recording of which only a part makes sense is a fault.
    pub(crate) strict: bool,
    /// How many cells a size in the recording has at most.
    pub(crate) most_cells: usize,
}

/// Reads from the arguments which recording is meant, and which of its moments.
pub(crate) fn source_of(
    alloc: Global,
    matches: &ArgMatches<'_>,
) -> Result<Option<Source>, AllocError>
    ensures source { IfOk result (λ s. is_some s ≡ are_sources (rows_of (found_of matches.now))) }
    ensures says { IfOk result (λ s. IfSome s (λ source.
        SaysOrigin (rows_of (found_of matches.now)) (origin_of source))) }
{
    let kind = kind_of(matches.get_str("kind"));
    let timing = owned(alloc, matches.get_str("timing"))?;
    let moment = owned(alloc, matches.get_str("at"))?;
    let since = owned(alloc, matches.get_str("diff"))?;
    let list = matches.get_count("list") > 0;
    let draws_lines = matches.get_count("no-line-drawing") == 0;
    let strict = matches.get_count("strict") > 0;
    let most_cells = most_cells_of(matches.get_str("max-cells"));
    let from = owned(alloc, matches.get_str("from"))?;
    let poster = owned(alloc, matches.get_str("poster"))?;
    let moments = (moment, since, from, poster);
    let limits = (strict, most_cells);
    Ok(new_source(kind, timing, moments, list, draws_lines, limits))
}

/// How many cells a size has at most: 4,000,000 without an argument.
pub(crate) fn most_cells_of(word: Option<&str>) -> Option<usize>
    ensures cells { is_some result ≡ option_map_or is_count (option_map (λ w. w.now) word.entry) true }
    ensures value { result ≡ cells_meant (option_map (λ w. w.now) word.entry) }
{
    match word {
        None => Some(MOST_CELLS),
        Some(word) => parse_count(word),
    }
}

fn new_source(
    kind: Option<Option<Kind>>,
    timing: Option<String>,
    moments: (
        Option<String>,
        Option<String>,
        Option<String>,
        Option<String>,
    ),
    list: bool,
    draws_lines: bool,
    limits: (bool, Option<usize>),
) -> Option<Source>
    ensures source { is_some result ≡ (is_some kind && is_some limits.1) }
    ensures found { IfSome result (λ s. (kind ≡ Some s.kind) × (limits.1 ≡ Some s.most_cells)) }
    ensures words { IfSome result (λ s. (s.timing ≡ timing) × (s.moment ≡ moments.0) × (s.since ≡ moments.1)
        × (s.from ≡ moments.2) × (s.poster ≡ moments.3)) }
    ensures flags { IfSome result (λ s. (s.list ≡ list) × (s.draws_lines ≡ draws_lines) × (s.strict ≡ limits.0)) }
{
    Some(Source {
        kind: kind?,
        timing,
        moment: moments.0,
        since: moments.1,
        from: moments.2,
        poster: moments.3,
        list,
        draws_lines,
        strict: limits.0,
        most_cells: limits.1?,
    })
}

/// The kind of this name. `Some(None)` without an argument.
pub(crate) fn kind_of(word: Option<&str>) -> Option<Option<Kind>>
    ensures kind { is_some result ≡ option_map_or (λ word. is_some (kind_named word))
        (option_map (λ w. w.now) word.entry) true }
    ensures value { result ≡ kind_meant (option_map (λ w. w.now) word.entry) }
{
    match word {
        None => Some(None),
        Some(word) => Some(Some(Kind::of_name(word)?)),
    }
}

/// An owned copy of the argument, if there is one.
pub(crate) fn owned(alloc: Global, word: Option<&str>) -> Result<Option<String>, AllocError>
    ensures { IfOk result (λ text. option_map string_bytes text ≡ option_map (λ w. w.now) word.entry) }
{
    match word {
        None => Ok(None),
        Some(word) => Ok(Some(word.to_owned(alloc)?)),
    }
}

/// Moments of a recording, in microseconds.
#[derive(Clone, Copy)]
pub(crate) struct Moments {
    /// The moment that is shown, or the end of a film.
    pub(crate) moment: u64,
    /// The earlier one, where what changed from it on is wanted.
    pub(crate) since: Option<u64>,
    /// The moment at which a film begins.
    pub(crate) from: Option<u64>,
    /// The moment whose screen a film shows where nothing plays.
    pub(crate) poster: Option<u64>,
}

/// The moments that the arguments say.
pub(crate) fn moments_of(
    alloc: Global,
    recording: &Recording,
    source: &Source,
) -> Result<Moments, TextError>
    ensures moments { IfOk result (AreMoments (said recording.now.events.items) (origin_of source.now)) }
    ensures fault { IfErr result (λ e. IsNoMoment (said recording.now.events.items) (origin_of source.now).moment e
        ⊎ (IsNoMoment (said recording.now.events.items) (origin_of source.now).since e
        ⊎ (IsNoMoment (said recording.now.events.items) (origin_of source.now).from e
        ⊎ IsNoMoment (said recording.now.events.items) (origin_of source.now).poster e))) }
{
    Ok(Moments {
        moment: moment_of(alloc, recording, &source.moment)?,
        since: other_of(alloc, recording, &source.since)?,
        from: other_of(alloc, recording, &source.from)?,
        poster: other_of(alloc, recording, &source.poster)?,
    })
}

// The moment that an argument says, or the end.
fn moment_of(alloc: Global, recording: &Recording, word: &Option<String>) -> Result<u64, TextError>
    ensures moment { IfOk result (IsMoment (said recording.now.events.items) (option_map string_bytes word.now)) }
    ensures fault { IfErr result (IsNoMoment (said recording.now.events.items) (option_map string_bytes word.now)) }
{
    match word {
        None => Ok(END),
        Some(word) => time_of(alloc, &recording.events, word.as_str()),
    }
}

// The moment that an argument says, if there is one.
fn other_of(
    alloc: Global,
    recording: &Recording,
    word: &Option<String>,
) -> Result<Option<u64>, TextError>
    ensures moment { IfOk result (IsOtherMoment (said recording.now.events.items)
        (option_map string_bytes word.now)) }
    ensures fault { IfErr result (IsNoMoment (said recording.now.events.items) (option_map string_bytes word.now)) }
{
    match word {
        None => Ok(None),
        Some(word) => Ok(Some(time_of(alloc, &recording.events, word.as_str())?)),
    }
}

// The time that an argument gives in seconds, or else that of the first marker of this name, or else the time that it
// gives in minutes and seconds.
fn time_of(alloc: Global, events: &[Event], word: &str) -> Result<u64, TextError>
    ensures time { IfOk result (λ time. time_meant (said events.now) word.now ≡ Some time) }
    ensures fault { IfErr result (IsNoMoment (said events.now) (Some word.now)) }
{
    if let Some(time) = parse_seconds(alloc, word.as_bytes())? {
        return Ok(time);
    }
    if let Some(time) = marker_time(events, word) {
        return Ok(time);
    }
    match parse_clock(alloc, word)? {
        Some(time) => Ok(time),
        None => Err(TextError::Marker),
    }
}

// The time of the first marker of this name.
fn marker_time(events: &[Event], name: &str) -> Option<u64>
    ensures { result ≡ marker_time name.now (said events.now) }
{
    for event in events {
        if is_marker(&event.change, name) {
            return Some(event.time);
        }
    }
    None
}

fn is_marker(change: &Change, name: &str) -> bool
    ensures { result ≡ is_marker name.now (deed_of change.now) }
{
    match change {
        Change::Marker(marker) => marker.as_str() == name,
        Change::Output(_) | Change::Resize(_) => false,
    }
}
