//! Ttyrecs: frames of output, each after its time and its length.

ghost use Rattle.std.specs.Prelude.{◌≡◌, ◌++◌, ◌<◌, ◌^◌, ◌+◌, length, map, MatchOption, IfOk, IfErr};
ghost use Rattle.std.specs.Prelude.{◌⊎◌};
ghost use Rattle.std.specs.Int.{to_le_bytes, w32};
ghost use Rattle.std.specs.Option.{option_map};
ghost use Rattle.recordings.specs.Recorded.{IsStateAfter};
ghost use Rattle.recordings.specs.Ttyrec.{AreFrames, IsCut, IsNoFrame, IsReadTtyrec, IsTtyrec, begins_with_frame};
ghost use Rattle.recordings.specs.Ttyrec.{clock, piece_of, rows_after, start_of, stored_one};
ghost use Rattle.recordings.specs.declared.error.RecordingError.TheVariants.{Byte, Memory};
ghost use Rattle.recordings.specs.declared.timeline.Pace.TheVariants.{FromStart as From};

use crate::error::RecordingError;
use crate::recording::{Change, Kind, Reading, Recording};
use crate::timeline::{Pace, Timeline};
use std::alloc::{AllocError, Global};

/// Bytes that were written at once.
#[derive(Clone, Copy)]
pub struct Frame<'a> {
    /// The time in whole seconds, of any clock.
    pub(crate) seconds: u32,
    /// Microseconds that come on top.
    pub(crate) micros: u32,
    pub(crate) bytes: &'a [u8],
}

/// Reads a ttyrec. Times count from the first frame.
pub fn parse_ttyrec(alloc: Global, bytes: &[u8]) -> Result<Recording, RecordingError>
    ensures recording { IfOk result (IsTtyrec bytes.now) }
    ensures fault { IfErr result (λ e. (e ≡ Memory) ⊎ IsCut bytes.now e) }
{
    read_ttyrec(alloc, bytes)?.whole()
}

/// Reads a ttyrec up to the first frame that isn't whole. Times count from the first frame.
pub fn read_ttyrec(alloc: Global, bytes: &[u8]) -> Result<Reading, AllocError>
    ensures { IfOk result (λ r. IsReadTtyrec bytes.now r.recording r.fault) }
{
    let (frames, cut) = read_frames(alloc, bytes)?;
    let timeline = play_frames(alloc, &frames)?;
    Ok(Reading {
        recording: Recording {
            kind: Kind::Ttyrec,
            size: None,
            theme: None,
            idle: None,
            title: None,
            events: timeline.events,
            length: timeline.time,
        },
        fault: byte_fault(cut),
    })
}

// The fault at this byte, if there is one.
fn byte_fault(byte: Option<u64>) -> Option<RecordingError>
    ensures { result ≡ option_map Byte byte }
{
    match byte {
        Some(byte) => Some(RecordingError::Byte(byte)),
        None => None,
    }
}

/// Whether the bytes begin with a frame that isn't empty, and whose microseconds are less than a second.
pub(crate) fn begins_ttyrec(bytes: &[u8]) -> bool
    ensures { result ≡ begins_with_frame bytes.now }
{
    match next_frame(bytes) {
        Some((frame, _)) => frame.micros < 1_000_000 && !frame.bytes.is_empty(),
        None => false,
    }
}

// The frames up to one that isn't whole. Where that one begins is returned too.
fn read_frames(alloc: Global, bytes: &[u8]) -> Result<(Vec<Frame<'_>>, Option<u64>), AllocError>
    ensures { IfOk result (λ read. AreFrames bytes.now (map piece_of read.0.items) read.1) }
{
    let mut frames = Vec::new(alloc);
    let mut left = bytes;
    while !left.is_empty() {
        match next_frame(left) {
            Some((frame, after)) => {
                frames.push(frame)?;
                left = after;
            }
            None => return Ok((frames, Some((bytes.len() - left.len()) as u64))),
        }
    }
    Ok((frames, None))
}

fn play_frames(alloc: Global, frames: &[Frame<'_>]) -> Result<Timeline, AllocError>
    ensures { IfOk result (IsStateAfter From (rows_after (start_of (map piece_of frames.now))
        (map piece_of frames.now))) }
{
    let mut timeline = Timeline::new(alloc, Pace::FromStart);
    let start = start_time(frames);
    for frame in frames {
        let time = time_of(frame).saturating_sub(start);
        timeline.push(time, Some(Change::Output(frame.bytes.to_vec(alloc)?)))?;
    }
    Ok(timeline)
}

fn start_time(frames: &[Frame<'_>]) -> u64
    ensures { result ≡ start_of (map piece_of frames.now) }
{
    match frames.first() {
        Some(frame) => time_of(frame),
        None => 0,
    }
}

// In microseconds.
fn time_of(frame: &Frame<'_>) -> u64
    ensures { result ≡ clock (piece_of frame.now) }
{
    frame.seconds as u64 * 1_000_000 + frame.micros as u64
}

// The frame at the start, and what comes after it.
fn next_frame(bytes: &[u8]) -> Option<(Frame<'_>, &[u8])>
    ensures { MatchOption result (IsNoFrame bytes.now)
        (λ p. (bytes.now ≡ stored_one (piece_of p.0) ++ p.1.now) × (length p.1.now < length bytes.now)
        × (length (piece_of p.0).text < 2 ^ 32)) }
{
    let (seconds, bytes) = next_number(bytes)?;
    let (micros, bytes) = next_number(bytes)?;
    let (length, bytes) = next_number(bytes)?;
    let (bytes, after) = bytes.split_at_checked(length as usize)?;
    let frame = Frame {
        seconds,
        micros,
        bytes,
    };
    Some((frame, after))
}

// Four bytes, the lowest first.
fn next_number(bytes: &[u8]) -> Option<(u32, &[u8])>
    ensures { MatchOption result (length bytes.now < 4)
        (λ p. (bytes.now ≡ to_le_bytes w32 p.0 ++ p.1.now) × (length p.1.now + 4 ≡ length bytes.now)) }
{
    let (number, after) = bytes.split_first_chunk::<4>()?;
    Some((u32::from_le_bytes(*number), after))
}
