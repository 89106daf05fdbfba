//! Streams that are read whole, and cut everywhere.

use super::log::Log;
use super::updates::{Flagged, advance, new_processor};
use case_player::{Answer, StepError};
use charset_filter::CharsetFilter;
use std::alloc::{AllocError, Global};
use std::cell::Cell;
use std::rc::Rc;
use vte::ansi::Processor;
use vte_core::{Parser, Perform};

/// What reads a stream.
#[derive(Clone, Copy)]
pub enum Reader {
    /// A parser, whose events are written down.
    Events,
    /// A parser that keeps 4 bytes of an operating system command.
    EventsKeepingFour,
    /// A parser whose performer takes text in runs.
    Runs,
    /// A processor, whose calls are written down. If bytes are held at the end, that is written down too.
    Calls(Global),
    /// The filter of character sets. What it gives is written down as a quoted word.
    Draws(Global),
}

impl Reader {
    /// Reads a stream in pieces, from its start, and writes down what it says.
    pub fn read(self, log: &mut Log, pieces: &[&[u8]]) {
        log.restart();
        match self {
            Reader::Events => parse_keeping_all(log, pieces),
            Reader::EventsKeepingFour => parse_keeping_four(log, pieces),
            Reader::Runs => {
                log.tells_runs = true;
                parse_keeping_all(log, pieces);
            }
            Reader::Calls(alloc) => log.refused |= call(alloc, log, pieces).is_err(),
            Reader::Draws(alloc) => log.refused |= draw(alloc, log, pieces).is_err(),
        }
    }
}

fn parse<P: Perform, const N: usize>(parser: &mut Parser<N>, performer: &mut P, pieces: &[&[u8]]) {
    for piece in pieces {
        read_piece(parser, performer, piece);
    }
}

fn parse_keeping_all(log: &mut Log, pieces: &[&[u8]]) {
    parse(&mut Parser::new(), log, pieces);
}

fn parse_keeping_four(log: &mut Log, pieces: &[&[u8]]) {
    let mut parser: Parser<4> = Parser::new_with_size();
    parse(&mut parser, log, pieces);
}

fn read_piece<P: Perform, const N: usize>(parser: &mut Parser<N>, performer: &mut P, piece: &[u8]) {
    parser.advance(performer, piece);
}

fn call(alloc: Global, log: &mut Log, pieces: &[&[u8]]) -> Result<(), StepError> {
    let flag = Rc::new(alloc, Cell::new(false))?;
    let mut processor = new_processor(alloc, Flagged::new(flag))?;
    give(&mut processor, log, pieces);
    Ok(())
}

fn give(processor: &mut Processor<Flagged, Global>, log: &mut Log, pieces: &[&[u8]]) {
    for piece in pieces {
        advance(processor, log, piece);
    }
    if processor.sync_bytes_count() > 0 {
        log.word("(bytes are held)");
    }
}

fn draw(alloc: Global, log: &mut Log, pieces: &[&[u8]]) -> Result<(), AllocError> {
    let mut filter = CharsetFilter::new();
    let mut output = Vec::new(alloc);
    for piece in pieces {
        filter_piece(&mut filter, piece, &mut output)?;
    }
    log.text.quoted(&output);
    Ok(())
}

fn filter_piece(
    filter: &mut CharsetFilter,
    piece: &[u8],
    output: &mut Vec<u8>,
) -> Result<(), AllocError> {
    filter.advance(piece, output)?;
    Ok(())
}

/// Appends the log of a stream that is read whole. If a cut gives another log, appends that of the first such cut. The
/// answer is empty before.
pub fn tell_cut(reader: Reader, log: &mut Log, bytes: &[u8], answer: &mut Answer) {
    reader.read(log, &[bytes]);
    answer.push(log.told());
    for cut in 0..=bytes.len() {
        reader.read(log, &[&bytes[..cut], &bytes[cut..]]);
        if log.told() != answer.as_str() {
            answer.push(" (cut at ");
            answer.number(cut as u64);
            answer.push(": ");
            answer.push(log.told());
            answer.push(")");
            break;
        }
    }
    answer.end_line();
}

/// Appends the log of a stream that is read in these pieces, if it isn't the line that the answer has.
pub fn tell_pieces(reader: Reader, log: &mut Log, pieces: &[&[u8]], answer: &mut Answer) {
    reader.read(log, pieces);
    if answer.as_str().strip_suffix('\n') != Some(log.told()) {
        answer.push("in more pieces: ");
        answer.line(log.told());
    }
}
