//! The player of the steps.

use super::each::{tell_each_byte, tell_fours};
use super::log::Log;
use super::reading::{Reader, tell_cut, tell_pieces};
use super::updates::{tell_times, tell_updates};
use super::values::tell_value;
use case_player::{Answer, StepError, Words, value_of};
use std::alloc::Global;
use vte_core::Parser;

/// Plays steps on byte streams. It keeps nothing from one step to the next.
#[derive(Clone, Copy)]
pub struct StreamPlayer {
    alloc: Global,
}

impl StreamPlayer {
    /// A player whose steps allocate here.
    pub fn new(alloc: Global) -> StreamPlayer {
        StreamPlayer { alloc }
    }

    /// Takes a step.
    pub fn take(self, name: &str, words: &Words, answer: &mut Answer) -> Result<(), StepError> {
        match kind_of(name) {
            Kind::Updates => tell_updates(self.alloc, words, answer),
            Kind::Times => tell_times(self.alloc, words, answer),
            Kind::Value => {
                tell_value(name, words, answer);
                Ok(())
            }
            kind => tell_stream(self.alloc, kind, words, answer),
        }
    }
}

// What a step answers.
#[derive(Clone, Copy)]
enum Kind {
    Calls,
    EachByte,
    Fours,
    Until,
    Runs,
    Events,
    EventsKeepingFour,
    Draws,
    Updates,
    Times,
    Value,
}

// What the steps answer, by their names. Any other step answers a value.
const KINDS: &[(&str, Kind)] = &[
    ("calls", Kind::Calls),
    ("each_byte", Kind::EachByte),
    ("text_of_four", Kind::Fours),
    ("until", Kind::Until),
    ("runs", Kind::Runs),
    ("events", Kind::Events),
    ("events_keeping_four", Kind::EventsKeepingFour),
    ("draws", Kind::Draws),
    ("updates", Kind::Updates),
    ("times", Kind::Times),
];

fn kind_of(name: &str) -> Kind {
    value_of(KINDS, name).unwrap_or(Kind::Value)
}

// Steps that read streams.
fn tell_stream(
    alloc: Global,
    kind: Kind,
    words: &Words,
    answer: &mut Answer,
) -> Result<(), StepError> {
    let mut log = Log::new(alloc)?;
    tell_logged(alloc, &mut log, kind, words, answer)?;
    log.check()
}

fn tell_logged(
    alloc: Global,
    log: &mut Log,
    kind: Kind,
    words: &Words,
    answer: &mut Answer,
) -> Result<(), StepError> {
    match kind {
        Kind::Calls => return tell_calls(alloc, log, words.bytes(), answer),
        Kind::EachByte => return tell_each_byte(alloc, log, words, answer),
        Kind::Fours => return tell_fours(alloc, log, words, answer),
        Kind::Until => tell_until(log, words, answer),
        Kind::Runs => tell_runs(log, words.bytes(), answer),
        Kind::Draws => tell_cut(Reader::Draws(alloc), log, words.bytes(), answer),
        Kind::EventsKeepingFour => tell_cut(Reader::EventsKeepingFour, log, words.bytes(), answer),
        _ => tell_cut(Reader::Events, log, words.bytes(), answer),
    }
    Ok(())
}

// Appends the calls of a stream, and those of the stream byte by byte if they differ.
fn tell_calls(
    alloc: Global,
    log: &mut Log,
    bytes: &[u8],
    answer: &mut Answer,
) -> Result<(), StepError> {
    tell_cut(Reader::Calls(alloc), log, bytes, answer);
    let pieces: Vec<&[u8]> = bytes.chunks(1).collect(alloc)?;
    tell_pieces(Reader::Calls(alloc), log, &pieces, answer);
    Ok(())
}

// Appends the events of a stream, and where runs of text begin. The stream is read whole.
fn tell_runs(log: &mut Log, bytes: &[u8], answer: &mut Answer) {
    Reader::Runs.read(log, &[bytes]);
    answer.line(log.told());
}

// Appends the events until the parser is asked to stop, how many bytes that takes, and how many a second call takes.
fn tell_until(log: &mut Log, words: &Words, answer: &mut Answer) {
    log.left = words.count();
    let bytes = words.bytes();
    let mut parser: Parser<1024> = Parser::default();
    let read = read_until(&mut parser, log, bytes);
    let more = read_until(&mut parser, log, bytes.get(read..).unwrap_or(b""));
    answer.line(log.told());
    answer.number(read as u64);
    answer.push(" read, then ");
    answer.number(more as u64);
    answer.end_line();
}

// Reads until the parser is asked to stop. Returns how many bytes were read.
fn read_until(parser: &mut Parser<1024>, log: &mut Log, bytes: &[u8]) -> usize {
    parser.advance_until_terminated(log, bytes)
}
