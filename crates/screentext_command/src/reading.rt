//! What is read of a recording, and the text that is printed of it.

ghost use Rattle.std.specs.Prelude.{◌≡◌, ◌&&◌, ◌⊎◌, ℕ, List, Some, true, false, is_none, IfErr, IfOk};
ghost use Rattle.std.specs.Option.{option_copied, option_map};
ghost use Rattle.std.specs.Vec.{vec_items};
ghost use Rattle.recordings.specs.declared.error.RecordingError.{RecordingError as Fault};
ghost use Rattle.screentext_command.specs.Asked.{Wish, origin_of, wish_of};
ghost use Rattle.screentext_command.specs.Limits.{are_within};
ghost use Rattle.screentext_command.specs.Listed.{list_text};
ghost use Rattle.screentext_command.specs.Missing.{HasNoText, IsMissing, IsUnreadAs};
ghost use Rattle.screentext_command.specs.Reads.{IsAnswerTo, IsDrawnSo, IsNoted, IsPart, IsRead, IsReadAs};
ghost use Rattle.screentext_command.specs.Reads.{IsScreenText};
ghost use Rattle.screentext_command.specs.Reads.{IsShown, IsTiming, begins_as_asciicast, flaw_of, note_of};
ghost use Rattle.screentext_command.specs.declared.error.TextError.TheVariants.{Cells, Memory};
ghost use Rattle.screentext_command.specs.declared.error.TextError.TheVariants.{Recording as OfRecording};

use crate::answer::answer_of;
use crate::error::TextError;
use crate::files::Files;
use crate::limits::has_only;
use crate::list::list_of;
use crate::outputs::with_lines_drawn;
use crate::pictures::Pictures;
use crate::source::{Source, moments_of};
use crate::words::Request;
use recordings::{Kind, Reading, Recording, RecordingError, read_recording};
use std::alloc::{AllocError, Global};

/// A text, and what is to be reported of the recording that it is of.
#[derive(Drop)]
pub(crate) struct Answer {
    /// The text.
    pub(crate) text: Vec<u8>,
    /// Why only a part of the recording was read, or that it may not be one.
    pub(crate) note: Option<TextError>,
}

/// The text that is asked for, of the recording in these bytes.
pub(crate) fn answer_to<F: Files>(
    alloc: Global,
    files: &F,
    bytes: Vec<u8>,
    request: Request,
    source: &Source,
    pictures: &Pictures,
) -> Result<Answer, TextError>
    ensures text { IfOk result (λ a. IsAnswerTo (F.holds files.now) (origin_of source.now)
        (wish_of request pictures.now) bytes.items a.text.items a.note) }
    ensures fault { IfErr result (IsMissing (F.holds files.now) (F.lacks files.now) (origin_of source.now)
        (wish_of request pictures.now) bytes.items) }
{
    let (recording, note) = recording_of(alloc, files, bytes, source)?;
    let text = text_of(alloc, &recording, request, source, pictures)?;
    Ok(Answer { text, note })
}

// A description of the recording, or a screen of it.
fn text_of(
    alloc: Global,
    recording: &Recording,
    request: Request,
    source: &Source,
    pictures: &Pictures,
) -> Result<Vec<u8>, TextError>
    ensures list { IfOk result (λ text. source.now.list ≡ true → text.items ≡ list_text recording.now) }
    ensures screen { IfOk result (λ text. source.now.list ≡ false → IsScreenText (origin_of source.now)
        (wish_of request pictures.now) recording.now text.items) }
    ensures fault { IfErr result (λ e. (e ≡ Memory) ⊎ HasNoText (origin_of source.now)
        (wish_of request pictures.now) recording.now e) }
{
    let moments = moments_of(alloc, recording, source)?;
    if source.list {
        return list_of(alloc, recording);
    }
    answer_of(alloc, recording, request, moments, pictures)
}

// What is recorded, with boxes as box characters unless the arguments say otherwise, and what is to be reported of it.
fn recording_of<F: Files>(
    alloc: Global,
    files: &F,
    bytes: Vec<u8>,
    source: &Source,
) -> Result<(Recording, Option<TextError>), TextError>
    ensures shown { IfOk result (λ r. IsShown (F.holds files.now) (origin_of source.now) bytes.items r.0 r.1) }
    ensures fault { (wish : Wish) → IfErr result (IsMissing (F.holds files.now) (F.lacks files.now)
        (origin_of source.now) wish bytes.items) }
{
    let (read, note) = read_part(alloc, files, bytes, source)?;
    let part = within(read, source.most_cells)?;
    Ok((drawn(alloc, part, source.draws_lines)?, note))
}

// The recording, unless a size in it has more cells than this.
fn within(recording: Recording, most: usize) -> Result<Recording, TextError>
    ensures recording { IfOk result (λ r. (r ≡ recording) × (are_within most recording ≡ true)) }
    ensures fault { IfErr result (λ e. (e ≡ Cells most) × (are_within most recording ≡ false)) }
{
    if has_only(&recording, most) {
        Ok(recording)
    } else {
        Err(TextError::Cells(most))
    }
}

// The recording, with lines drawn if that is wanted.
fn drawn(alloc: Global, recording: Recording, draws_lines: bool) -> Result<Recording, AllocError>
    ensures { IfOk result (λ shown. IsDrawnSo draws_lines recording shown) }
{
    if draws_lines {
        with_lines_drawn(alloc, &recording)
    } else {
        Ok(recording)
    }
}

// What is recorded in the bytes, and in the timing file if the arguments name one, up to a fault that is to be
// reported.
fn read_part<F: Files>(
    alloc: Global,
    files: &F,
    bytes: Vec<u8>,
    source: &Source,
) -> Result<(Recording, Option<TextError>), TextError>
    ensures part { IfOk result (λ r. IsPart (F.holds files.now) (origin_of source.now) bytes.items r.0 r.1) }
    ensures fault { (wish : Wish) → IfErr result (IsMissing (F.holds files.now) (F.lacks files.now)
        (origin_of source.now) wish bytes.items) }
{
    let begins = may_be_cast(source.kind, &bytes);
    let reading = read_with(alloc, files, bytes, source)?;
    Ok(taken(reading, source.strict, begins)?)
}

// Whether the kind is to be guessed, and the bytes begin as an asciicast does.
fn may_be_cast(kind: Option<Kind>, bytes: &[u8]) -> bool
    ensures { result ≡ (is_none kind && begins_as_asciicast bytes.now) }
{
    kind.is_none() && begins_as_asciicast(bytes)
}

// What was read, and what is to be reported of it. In strict reading a flaw is a fault.
fn taken(
    reading: Reading,
    strict: bool,
    begins: bool,
) -> Result<(Recording, Option<TextError>), RecordingError>
    ensures recording { IfOk result (λ r. r.0 ≡ reading.recording) }
    ensures noted { IfOk result (λ r. IsNoted strict begins reading r.1) }
    ensures fault { IfErr result (λ e. (strict ≡ true)
        × (flaw_of begins reading.recording.kind reading.fault ≡ Some e)) }
{
    let Reading { recording, fault } = reading;
    if !strict {
        let note = note_of(begins, recording.kind, fault);
        return Ok((recording, note));
    }
    match flaw_of(begins, recording.kind, fault) {
        Some(flaw) => Err(flaw),
        None => Ok((recording, None)),
    }
}

// Why a recording of this kind, read up to this fault, isn't whole.
fn flaw_of(begins: bool, kind: Kind, fault: Option<RecordingError>) -> Option<RecordingError>
    ensures { result ≡ flaw_of begins kind fault }
{
    match (fault, kind) {
        (Some(fault), _) => Some(fault),
        (None, Kind::Raw) if begins => Some(RecordingError::Header),
        _ => None,
    }
}

fn note_of(begins: bool, kind: Kind, fault: Option<RecordingError>) -> Option<TextError>
    ensures { result ≡ note_of begins kind fault }
{
    match (fault, kind) {
        (Some(fault), _) => Some(TextError::Cut(fault)),
        (None, Kind::Raw) if begins => Some(TextError::Guessed),
        _ => None,
    }
}

fn read_with<F: Files>(
    alloc: Global,
    files: &F,
    bytes: Vec<u8>,
    source: &Source,
) -> Result<Reading, TextError>
    ensures reading { IfOk result (IsRead (F.holds files.now) (origin_of source.now) bytes.items) }
    ensures fault { (wish : Wish) → IfErr result (IsMissing (F.holds files.now) (F.lacks files.now)
        (origin_of source.now) wish bytes.items) }
{
    let timing = timing_of(alloc, files, source)?;
    let reading = read_bytes(alloc, bytes, timing.as_deref(), source.kind)?;
    Ok(reading)
}

// The bytes of the timing file that the arguments name, if they name one.
fn timing_of<F: Files>(
    alloc: Global,
    files: &F,
    source: &Source,
) -> Result<Option<Vec<u8>>, TextError>
    ensures timing { IfOk result (λ t. IsTiming (F.holds files.now) (origin_of source.now).timing
        (option_map vec_items t)) }
    ensures fault { (wish : Wish) (bytes : List ℕ) → IfErr result (IsMissing (F.holds files.now) (F.lacks files.now)
        (origin_of source.now) wish bytes) }
{
    match &source.timing {
        None => Ok(None),
        Some(path) => Ok(Some(files.read(alloc, path.as_str())?)),
    }
}

fn read_bytes(
    alloc: Global,
    bytes: Vec<u8>,
    timing: Option<&[u8]>,
    kind: Option<Kind>,
) -> Result<Reading, TextError>
    ensures reading { let lines = option_copied timing.entry in IfOk result (IsReadAs kind lines bytes.items) }
    ensures fault { let lines = option_copied timing.entry in IfErr result (λ e. (e ≡ Memory)
        ⊎ ((fault : Fault) × (e ≡ OfRecording fault) × IsUnreadAs kind lines bytes.items fault)) }
{
    Ok(read_recording(alloc, bytes, timing, kind)?)
}

// Whether bytes begin as the header of an asciicast does, which may have been cut or laid out over lines.
fn begins_as_asciicast(bytes: &[u8]) -> bool
    ensures { result ≡ begins_as_asciicast bytes.now }
{
    bytes.starts_with(b"{\"version\"") || bytes.starts_with(b"{\n") || bytes.starts_with(b"{\r\n")
}
