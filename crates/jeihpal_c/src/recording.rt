//! The functions of a recording, for C.
ghost use Rattle.std.specs.Prelude.{◌≡◌, IfOk, IfErr, None, Some};
ghost use Rattle.std.specs.Option.{option_copied};
ghost use Rattle.c_objects.specs.Codes.{IsRefusal, ok};
ghost use Rattle.c_objects.specs.Hubs.{IsNoObjectCode};
ghost use Rattle.c_objects.specs.Objects.{RecordingSays};
ghost use Rattle.c_objects.specs.Played.{GetsScreenAt, IsScreenAt};
ghost use Rattle.c_objects.specs.Recordings.{IsReadingOf, IsUnreadCode};
ghost use Rattle.c_objects.specs.Recordings.{LooksRecorded, HasEvent, HasEventText, HasColors};
ghost use Rattle.c_objects.specs.Words.{InWord, IsReadWord};

use crate::word::Word;
use c_objects::{CEvent, CLOSED, CRecording, OK, Object, recording};
use std::alloc::Global;

fn open(alloc: Global, word: &mut Word, bytes: &[u8], timing: Option<&[u8]>) -> i32
    ensures { let lines = option_copied timing.entry in
        IsReadWord (IsReadingOf bytes.now lines) (IsUnreadCode bytes.now lines) result word.new.held }
{
    match recording::open(alloc, bytes, timing) {
        Ok(object) => {
            word.put(alloc, object);
            OK
        }
        Err(code) => {
            let _old = word.take(alloc);
            code
        }
    }
}

/// Reads a recording up to its first fault, in the kind that its first bytes say. Refused where there is no header, for
/// a compressed file, and if an allocation fails.
///
/// An object that the word held is closed, even if the call is refused.
#[unsafe(no_mangle)]
pub extern "C" fn jeihpal_recording_open(alloc: Global, word: &mut Word, bytes: &[u8]) -> i32
    ensures { IsReadWord (IsReadingOf bytes.now None) (IsUnreadCode bytes.now None) result word.new.held }
{
    open(alloc, word, bytes, None)
}

/// Reads a typescript up to its first fault: the output of a program, and the file of its times. Refused if an
/// allocation fails.
///
/// An object that the word held is closed, even if the call is refused.
#[unsafe(no_mangle)]
pub extern "C" fn jeihpal_recording_open_script(
    alloc: Global,
    word: &mut Word,
    output: &[u8],
    timing: &[u8],
) -> i32
    ensures { IsReadWord (IsReadingOf output.now (Some timing.now)) (IsUnreadCode output.now (Some timing.now)) result
        word.new.held }
{
    open(alloc, word, output, Some(timing))
}

/// Reads the kind, the size at first, the number of events, the length and the first fault.
#[unsafe(no_mangle)]
pub extern "C" fn jeihpal_recording_look(word: &mut Word, look: &mut CRecording) -> i32
    ensures says { InWord (RecordingSays (LooksRecorded look.new)) word.old.held result }
    ensures same { word.new.held ≡ word.old.held }
    ensures refused { IsRefusal result → look.new ≡ look.old }
{
    match word.get_mut() {
        Some(object) => recording::look(object, look),
        None => CLOSED,
    }
}

/// Reads an event: when it is, what it does, and how long its text is. Refused where there are fewer events.
#[unsafe(no_mangle)]
pub extern "C" fn jeihpal_recording_event(word: &mut Word, index: usize, event: &mut CEvent) -> i32
    ensures says { InWord (RecordingSays (HasEvent index event.new)) word.old.held result }
    ensures same { word.new.held ≡ word.old.held }
    ensures refused { IsRefusal result → event.new ≡ event.old }
{
    match word.get_mut() {
        Some(object) => recording::event(object, index, event),
        None => CLOSED,
    }
}

/// Copies the text of an event: output, or the name of a marker. Refused where there are fewer events.
#[unsafe(no_mangle)]
pub extern "C" fn jeihpal_recording_event_text(
    word: &mut Word,
    index: usize,
    to: &mut [u8],
    count: &mut usize,
) -> i32
    ensures says { InWord (RecordingSays (HasEventText index to.old to.new count.new)) word.old.held result }
    ensures same { word.new.held ≡ word.old.held }
    ensures refused { IsRefusal result → (to.new ≡ to.old) × (count.new ≡ count.old) }
{
    match word.get_mut() {
        Some(object) => recording::event_text(object, index, to, count),
        None => CLOSED,
    }
}

/// Copies the colours that a recording has of its own, each as 0xRRGGBB: that of texts, that of backgrounds, and the
/// first sixteen. If it has no colours of its own, none are copied and `count` is 0.
#[unsafe(no_mangle)]
pub extern "C" fn jeihpal_recording_colors(
    word: &mut Word,
    to: &mut [u32],
    count: &mut usize,
) -> i32
    ensures says { InWord (RecordingSays (HasColors to.old to.new count.new)) word.old.held result }
    ensures same { word.new.held ≡ word.old.held }
    ensures refused { IsRefusal result → (to.new ≡ to.old) × (count.new ≡ count.old) }
{
    match word.get_mut() {
        Some(object) => recording::colors(object, to, count),
        None => CLOSED,
    }
}

fn screen_in(
    alloc: Global,
    word: &mut Word,
    rows: u16,
    cols: u16,
    scrollback: usize,
    time: u64,
) -> Result<Box<Object>, i32>
    ensures made { IfOk result (λ b. InWord (RecordingSays (IsScreenAt rows cols scrollback time b.value)) word.old.held
        ok) }
    ensures refused { IfErr result (λ code. InWord (RecordingSays (λ r c. IsNoObjectCode rows cols c)) word.old.held
        code) }
    ensures same { word.new.held ≡ word.old.held }
{
    match word.get_mut() {
        Some(object) => recording::screen_at(alloc, object, rows, cols, scrollback, time),
        None => Err(CLOSED),
    }
}

/// Makes a screen of this size that keeps at most `scrollback` rows, does to it what the recording does up to a time,
/// in microseconds, and puts it into `screen`. It has no mark and no requests. Refused for a size without cells, and if
/// an allocation fails; `screen` is then as it was.
///
/// An object that `screen` held is closed, unless the call is refused.
#[unsafe(no_mangle)]
pub extern "C" fn jeihpal_recording_screen(
    alloc: Global,
    word: &mut Word,
    screen: &mut Word,
    rows: u16,
    cols: u16,
    scrollback: usize,
    time: u64,
) -> i32
    ensures says { GetsScreenAt rows cols scrollback time word.old.held screen.old.held result screen.new.held }
    ensures same { word.new.held ≡ word.old.held }
{
    match screen_in(alloc, word, rows, cols, scrollback, time) {
        Ok(object) => {
            screen.put(alloc, object);
            OK
        }
        Err(code) => code,
    }
}

/// Closes the word: frees the object that it holds, if any, and makes the word null.
#[unsafe(no_mangle)]
pub extern "C" fn jeihpal_recording_close(alloc: Global, word: &mut Word)
    ensures { word.new.held ≡ None }
{
    let _old = word.take(alloc);
}
