//! The calls of a recording.
ghost use Rattle.std.specs.Prelude.{◌≡◌, IfOk, IfErr};
ghost use Rattle.std.specs.Option.{option_copied};
ghost use Rattle.c_objects.specs.Codes.{IsRefusal, memory, ok};
ghost use Rattle.c_objects.specs.Hubs.{IsNoObjectCode};
ghost use Rattle.c_objects.specs.Objects.{RecordingSays};
ghost use Rattle.c_objects.specs.Played.{IsPlayed, IsScreenAt};
ghost use Rattle.c_objects.specs.Recordings.{IsReading, IsReadingOf, IsUnread, IsUnreadCode, unread_code};
ghost use Rattle.c_objects.specs.Recordings.{LooksRecorded, HasEvent, HasEventText, HasColors};
ghost use Rattle.c_objects.specs.Recordings.{kind_number, fault_of, recording_look, event_of, text_of};
ghost use Rattle.recordings.specs.Recorded.{deed_of};

use crate::code::{BAD_SIZE, COMPRESSED, MEMORY, NO_EVENT, NO_HEADER, OK, OTHER_KIND};
use crate::copied::marked_of;
use crate::copy::copy_prefix;
use crate::object::{Marked, Object};
use crate::plain::{CEvent, CRecording};
use recorded_screen::terminal_at;
use recordings::{Change, Event, Kind, Reading, RecordingError, ScreenSize, read_recording};
use std::alloc::Global;
use std::num::NonZeroU16;

fn read(alloc: Global, bytes: &[u8], timing: Option<&[u8]>) -> Result<Reading, RecordingError>
    ensures read { let lines = option_copied timing.entry in IfOk result (IsReading bytes.now lines) }
    ensures unread { let lines = option_copied timing.entry in IfErr result (IsUnread bytes.now lines) }
{
    let bytes = bytes.to_vec(alloc)?;
    read_recording(alloc, bytes, timing, None)
}

/// The number for the reason why nothing is read.
fn unread_code(error: RecordingError) -> i32
    ensures { result ≡ unread_code error }
{
    match error {
        RecordingError::Memory => MEMORY,
        RecordingError::Packed(_) => COMPRESSED,
        _ => NO_HEADER,
    }
}

/// Reads a recording up to its first fault: with a timing file as a typescript, else in the kind that its first bytes
/// say. Refused where there is no header, for a compressed file, and if an allocation fails.
pub fn open(alloc: Global, bytes: &[u8], timing: Option<&[u8]>) -> Result<Box<Object>, i32>
    ensures read { let lines = option_copied timing.entry in IfOk result (λ b. IsReadingOf bytes.now lines b.value) }
    ensures refused { let lines = option_copied timing.entry in IfErr result (IsUnreadCode bytes.now lines) }
{
    let reading = match read(alloc, bytes, timing) {
        Ok(reading) => reading,
        Err(error) => return Err(unread_code(error)),
    };
    match Box::new(alloc, Object::Recording(reading)) {
        Ok(object) => Ok(object),
        Err(_) => Err(MEMORY),
    }
}

fn kind_number(kind: Kind) -> u8
    ensures { result ≡ kind_number kind }
{
    match kind {
        Kind::Asciicast => 1,
        Kind::Script => 2,
        Kind::Ttyrec => 3,
        Kind::Raw => 4,
    }
}

/// Which kind of fault it is, and at which line or byte.
fn fault_of(fault: Option<RecordingError>) -> (u8, u64)
    ensures { result ≡ fault_of fault }
{
    match fault {
        Some(RecordingError::Line(line)) => (1, line),
        Some(RecordingError::Byte(byte)) => (2, byte),
        Some(RecordingError::Step(line)) => (3, line),
        _ => (0, 0),
    }
}

/// The kind, the size at first, the number of events, the length and the first fault.
fn recording_look(reading: &Reading) -> CRecording
    ensures { result ≡ recording_look reading.now }
{
    let recording = &reading.recording;
    let (fault, place) = fault_of(reading.fault);
    let (rows, cols) = match recording.size {
        Some(size) => (size.rows.get(), size.cols.get()),
        None => (0, 0),
    };
    CRecording {
        events: recording.events.len(),
        length: recording.length,
        place,
        rows,
        cols,
        kind: kind_number(recording.kind),
        fault,
    }
}

/// Reads what a recording says about itself.
pub fn look(object: &Object, look: &mut CRecording) -> i32
    ensures looks { RecordingSays (LooksRecorded look.new) object.now result }
    ensures refused { IsRefusal result → look.new ≡ look.old }
{
    match object {
        Object::Recording(reading) => {
            *look = recording_look(reading);
            OK
        }
        _ => OTHER_KIND,
    }
}

/// The bytes of an event's text: output, or the name of a marker.
fn text_of(change: &Change) -> &[u8]
    ensures { result.now ≡ text_of (deed_of change.now) }
{
    match change {
        Change::Output(bytes) => bytes,
        Change::Resize(_) => b"",
        Change::Marker(name) => name.as_bytes(),
    }
}

/// An event as C reads it.
fn event_of(event: &Event) -> CEvent
    ensures { result ≡ event_of event.now }
{
    let length = text_of(&event.change).len();
    let (kind, rows, cols) = match &event.change {
        Change::Output(_) => (1, 0, 0),
        Change::Resize(size) => (2, size.rows.get(), size.cols.get()),
        Change::Marker(_) => (3, 0, 0),
    };
    CEvent {
        time: event.time,
        length,
        rows,
        cols,
        kind,
    }
}

fn copy_event(reading: &Reading, index: usize, to: &mut CEvent) -> i32
    ensures event { HasEvent index to.new reading.now result }
    ensures refused { IsRefusal result → to.new ≡ to.old }
{
    match reading.recording.events.get(index) {
        Some(event) => {
            *to = event_of(event);
            OK
        }
        None => NO_EVENT,
    }
}

/// Reads an event: when it is, what it does, and how long its text is. Refused where there are fewer.
pub fn event(object: &Object, index: usize, to: &mut CEvent) -> i32
    ensures event { RecordingSays (HasEvent index to.new) object.now result }
    ensures refused { IsRefusal result → to.new ≡ to.old }
{
    match object {
        Object::Recording(reading) => copy_event(reading, index, to),
        _ => OTHER_KIND,
    }
}

fn copy_event_text(reading: &Reading, index: usize, to: &mut [u8], count: &mut usize) -> i32
    ensures text { HasEventText index to.old to.new count.new reading.now result }
    ensures refused { IsRefusal result → (to.new ≡ to.old) × (count.new ≡ count.old) }
{
    match reading.recording.events.get(index) {
        Some(event) => {
            copy_prefix(text_of(&event.change), to, count);
            OK
        }
        None => NO_EVENT,
    }
}

/// Copies the text of an event: output, or the name of a marker. Refused where there are fewer events.
pub fn event_text(object: &Object, index: usize, to: &mut [u8], count: &mut usize) -> i32
    ensures text { RecordingSays (HasEventText index to.old to.new count.new) object.now result }
    ensures refused { IsRefusal result → (to.new ≡ to.old) × (count.new ≡ count.old) }
{
    match object {
        Object::Recording(reading) => copy_event_text(reading, index, to, count),
        _ => OTHER_KIND,
    }
}

fn copy_colors(reading: &Reading, to: &mut [u32], count: &mut usize) -> i32
    ensures colors { HasColors to.old to.new count.new reading.now result }
{
    match &reading.recording.theme {
        Some(theme) => copy_prefix(&theme.colors, to, count),
        None => *count = 0,
    }
    OK
}

/// Copies the colours that a recording has of its own, each as 0xRRGGBB: that of texts, that of backgrounds, and the
/// first sixteen. If it has no colours of its own, none are copied and `count` is 0.
pub fn colors(object: &Object, to: &mut [u32], count: &mut usize) -> i32
    ensures colors { RecordingSays (HasColors to.old to.new count.new) object.now result }
    ensures refused { IsRefusal result → (to.new ≡ to.old) × (count.new ≡ count.old) }
{
    match object {
        Object::Recording(reading) => copy_colors(reading, to, count),
        _ => OTHER_KIND,
    }
}

fn played(
    alloc: Global,
    reading: &Reading,
    size: ScreenSize,
    scrollback: usize,
    time: u64,
) -> Result<Marked, i32>
    ensures made { IfOk result (λ m. IsPlayed size.rows.value size.cols.value scrollback time reading.now m) }
    ensures refused { IfErr result (λ code. code ≡ memory) }
{
    let Ok(parser) = terminal_at(alloc, size, scrollback, &reading.recording.events, time) else {
        return Err(MEMORY);
    };
    match parser.screen().clone() {
        Ok(screen) => marked_of(alloc, screen),
        Err(_) => Err(MEMORY),
    }
}

fn boxed_screen(
    alloc: Global,
    reading: &Reading,
    rows: u16,
    cols: u16,
    scrollback: usize,
    time: u64,
) -> Result<Box<Object>, i32>
    ensures made { IfOk result (λ b. IsScreenAt rows cols scrollback time b.value reading.now ok) }
    ensures refused { IfErr result (λ code. IsNoObjectCode rows cols code) }
{
    let (Some(rows), Some(cols)) = (NonZeroU16::new(rows), NonZeroU16::new(cols)) else {
        return Err(BAD_SIZE);
    };
    let Ok(screen) = played(alloc, reading, ScreenSize { rows, cols }, scrollback, time) else {
        return Err(MEMORY);
    };
    match Box::new(alloc, Object::Screen(screen)) {
        Ok(b) => Ok(b),
        Err(_) => Err(MEMORY),
    }
}

/// Makes a screen of this size that keeps at most `scrollback` rows, and does to it what a recording does up to a time,
/// in microseconds. It has no mark and no requests. Refused for a size without cells, and if an allocation fails.
pub fn screen_at(
    alloc: Global,
    object: &Object,
    rows: u16,
    cols: u16,
    scrollback: usize,
    time: u64,
) -> Result<Box<Object>, i32>
    ensures made { IfOk result (λ b. RecordingSays (IsScreenAt rows cols scrollback time b.value) object.now ok) }
    ensures refused { IfErr result (λ code. RecordingSays (λ r c. IsNoObjectCode rows cols c) object.now code) }
{
    match object {
        Object::Recording(reading) => boxed_screen(alloc, reading, rows, cols, scrollback, time),
        _ => Err(OTHER_KIND),
    }
}
