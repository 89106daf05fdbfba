//! Streams of which each byte is one of many, cut everywhere.

use super::log::{Log, trimmed};
use super::reading::{Reader, tell_cut, tell_pieces};
use case_player::{Answer, StepError, Words};
use std::alloc::Global;

/// Appends the events of the 256 streams that have a byte between a prefix and an end. A line holds from the byte that
/// it names up to the next line's. There `#` is the byte's own number at its first occurrence.
pub fn tell_each_byte(
    alloc: Global,
    log: &mut Log,
    words: &Words,
    answer: &mut Answer,
) -> Result<(), StepError> {
    let (prefix, end) = (words.bytes(), words.bytes());
    let mut told = Answer::new(alloc)?;
    let mut stream = [prefix, b"\0", end].concat(alloc)?;
    for byte in 0..=255u8 {
        set_byte(&mut stream, prefix.len(), byte);
        log.own = Some(byte);
        tell_around(log, &stream, prefix.len(), &mut told);
        push_from(byte, told.as_str(), answer);
    }
    Ok(())
}

fn set_byte(stream: &mut [u8], place: usize, byte: u8) {
    if let Some(place) = stream.get_mut(place) {
        *place = byte;
    }
}

// Reads a stream whole and cut, and in three pieces: the byte at this place is the second one.
fn tell_around(log: &mut Log, stream: &[u8], place: usize, told: &mut Answer) {
    told.clear();
    tell_cut(Reader::Events, log, stream, told);
    let (prefix, rest) = stream.split_at(place.min(stream.len()));
    let (byte, end) = rest.split_at(rest.len().min(1));
    tell_pieces(Reader::Events, log, &[prefix, byte, end], told);
}

// Appends the lines that hold from this byte on, unless the last ones are the same.
fn push_from(byte: u8, told: &str, answer: &mut Answer) {
    if answer.has_told(told) {
        return;
    }
    answer.push("from ");
    answer.hexadecimal(u32::from(byte));
    answer.push(": ");
    answer.push(told);
}

/// Appends the text of streams of four bytes: each of the first ones, of the others twice, and of the last ones. There
/// is a line for each first and second byte.
pub fn tell_fours(
    alloc: Global,
    log: &mut Log,
    words: &Words,
    answer: &mut Answer,
) -> Result<(), StepError> {
    let (firsts, others, lasts) = (words.bytes(), words.bytes(), words.bytes());
    let mut told = Answer::new(alloc)?;
    log.is_brief = true;
    for first in firsts {
        for second in others {
            answer.hexadecimal(u32::from(*first));
            answer.push(" ");
            answer.hexadecimal(u32::from(*second));
            answer.push(":");
            for third in others {
                answer.push(" |");
                push_fours(log, [*first, *second, *third], lasts, &mut told, answer);
            }
            answer.end_line();
        }
    }
    Ok(())
}

// Appends the text of the streams with these three bytes, and each of the last ones after them.
fn push_fours(
    log: &mut Log,
    [first, second, third]: [u8; 3],
    lasts: &[u8],
    told: &mut Answer,
    answer: &mut Answer,
) {
    for last in lasts {
        told.clear();
        tell_cut(Reader::Events, log, &[first, second, third, *last], told);
        answer.push(" ");
        answer.push(trimmed(told));
    }
}
