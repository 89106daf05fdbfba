//! Which kind of recording a file is.

ghost use Rattle.std.specs.Prelude.{◌≡◌, ◌⊎◌, None, Some, Err, IfOk, IfErr};
ghost use Rattle.std.specs.Option.{option_copied};
ghost use Rattle.std.specs.Vec.{vec_items};
ghost use Rattle.recordings.specs.Kinds.{IsFaultOfKind, IsOfKind, IsPacked, IsRaw, IsReadOfKind, IsUnreadOfKind};
ghost use Rattle.recordings.specs.Kinds.{kind_guessed, kind_taken, packer_in, packer_met};
ghost use Rattle.recordings.specs.declared.error.Packer.{Packer};
ghost use Rattle.recordings.specs.declared.error.RecordingError.TheVariants.{Memory, Packed};

use crate::asciicast::{begins_asciicast, parse_asciicast, read_asciicast};
use crate::error::{Packer, RecordingError};
use crate::recording::{Change, Event, Kind, Reading, Recording};
use crate::ttyrec::{begins_ttyrec, parse_ttyrec, read_ttyrec};
use crate::typescript::{parse_typescript, read_typescript};
use std::alloc::{AllocError, Global};

/// Reads a recording of the kind that is given, or else of the one that its first bytes say.
///
/// With a timing file it is a typescript, unless another kind is given.
pub fn parse_recording(
    alloc: Global,
    bytes: Vec<u8>,
    timing: Option<&[u8]>,
    kind: Option<Kind>,
) -> Result<Recording, RecordingError>
    ensures recording { let lines = option_copied timing.entry in
        IfOk result (IsOfKind (kind_taken kind lines (vec_items bytes)) (vec_items bytes) lines) }
    ensures fault { let lines = option_copied timing.entry in
        IfErr result (λ e. (e ≡ Memory) ⊎ (IsPacked (packer_met kind lines (vec_items bytes)) e
        ⊎ IsFaultOfKind (kind_taken kind lines (vec_items bytes)) (vec_items bytes) lines e)) }
    ensures unpacked { let lines = option_copied timing.entry in
        IfOk result (λ r. packer_met kind lines (vec_items bytes) ≡ None) }
    ensures packed { let lines = option_copied timing.entry in
        (packer : Packer) → packer_met kind lines (vec_items bytes) ≡ Some packer → result ≡ Err (Packed packer) }
{
    let kind = kind_of(alloc, &bytes, timing, kind)?;
    match (kind, timing) {
        (Kind::Asciicast, _) => parse_asciicast(alloc, &bytes),
        (Kind::Script, Some(timing)) => parse_typescript(alloc, &bytes, timing),
        (Kind::Script, None) => Err(RecordingError::NoTiming),
        (Kind::Ttyrec, _) => parse_ttyrec(alloc, &bytes),
        (Kind::Raw, _) => Ok(raw_recording(alloc, bytes)?),
    }
}

/// Reads a recording as [`parse_recording`] does, up to its first fault. Nothing is read where there is no header, no
/// timing file, or a compressed file.
pub fn read_recording(
    alloc: Global,
    bytes: Vec<u8>,
    timing: Option<&[u8]>,
    kind: Option<Kind>,
) -> Result<Reading, RecordingError>
    ensures reading { let lines = option_copied timing.entry in
        IfOk result (λ r. IsReadOfKind (kind_taken kind lines (vec_items bytes)) (vec_items bytes) lines r.recording
        r.fault) }
    ensures fault { let lines = option_copied timing.entry in
        IfErr result (λ e. (e ≡ Memory) ⊎ (IsPacked (packer_met kind lines (vec_items bytes)) e
        ⊎ IsUnreadOfKind (kind_taken kind lines (vec_items bytes)) (vec_items bytes) lines e)) }
    ensures unpacked { let lines = option_copied timing.entry in
        IfOk result (λ r. packer_met kind lines (vec_items bytes) ≡ None) }
    ensures packed { let lines = option_copied timing.entry in
        (packer : Packer) → packer_met kind lines (vec_items bytes) ≡ Some packer → result ≡ Err (Packed packer) }
{
    let kind = kind_of(alloc, &bytes, timing, kind)?;
    match (kind, timing) {
        (Kind::Asciicast, _) => read_asciicast(alloc, &bytes),
        (Kind::Script, Some(timing)) => Ok(read_typescript(alloc, &bytes, timing)?),
        (Kind::Script, None) => Err(RecordingError::NoTiming),
        (Kind::Ttyrec, _) => Ok(read_ttyrec(alloc, &bytes)?),
        (Kind::Raw, _) => Ok(Reading {
            recording: raw_recording(alloc, bytes)?,
            fault: None,
        }),
    }
}

// The kind that is given, or else that of a typescript where there is a timing file, or else the one that is guessed.
fn kind_of(
    alloc: Global,
    bytes: &[u8],
    timing: Option<&[u8]>,
    kind: Option<Kind>,
) -> Result<Kind, RecordingError>
    ensures kind { let lines = option_copied timing.entry in
        IfOk result (λ k. (k ≡ kind_taken kind lines bytes.now) × (packer_met kind lines bytes.now ≡ None)) }
    ensures fault { let lines = option_copied timing.entry in
        IfErr result (λ e. (e ≡ Memory) ⊎ IsPacked (packer_met kind lines bytes.now) e) }
    ensures packed { let lines = option_copied timing.entry in
        (packer : Packer) → packer_met kind lines bytes.now ≡ Some packer → result ≡ Err (Packed packer) }
{
    match (kind, timing) {
        (Some(kind), _) => Ok(kind),
        (None, Some(_)) => Ok(Kind::Script),
        (None, None) => match packer_of(bytes) {
            Some(packer) => Err(RecordingError::Packed(packer)),
            None => Ok(guess_kind(alloc, bytes)?),
        },
    }
}

/// The program that has compressed a file, by its first bytes.
pub fn packer_of(bytes: &[u8]) -> Option<Packer>
    ensures { result ≡ packer_in bytes.now }
{
    if bytes.starts_with(&[0x1F, 0x8B]) {
        Some(Packer::Gzip)
    } else if bytes.starts_with(b"BZh") {
        Some(Packer::Bzip2)
    } else if bytes.starts_with(&[0xFD, 0x37, 0x7A, 0x58, 0x5A, 0x00]) {
        Some(Packer::Xz)
    } else if bytes.starts_with(&[0x28, 0xB5, 0x2F, 0xFD]) {
        Some(Packer::Zstd)
    } else {
        None
    }
}

/// The kind that the first bytes say. A typescript without its timing file is a raw stream.
pub fn guess_kind(alloc: Global, bytes: &[u8]) -> Result<Kind, AllocError>
    ensures { IfOk result (λ kind. kind ≡ kind_guessed bytes.now) }
{
    if begins_asciicast(alloc, bytes)? {
        Ok(Kind::Asciicast)
    } else if begins_ttyrec(bytes) {
        Ok(Kind::Ttyrec)
    } else {
        Ok(Kind::Raw)
    }
}

// One output at the time 0.
fn raw_recording(alloc: Global, bytes: Vec<u8>) -> Result<Recording, AllocError>
    ensures { IfOk result (IsRaw (vec_items bytes)) }
{
    let mut events = Vec::new(alloc);
    events.push(Event {
        time: 0,
        change: Change::Output(bytes),
    })?;
    Ok(Recording {
        kind: Kind::Raw,
        size: None,
        theme: None,
        idle: None,
        title: None,
        events,
        length: 0,
    })
}
