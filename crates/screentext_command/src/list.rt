//! A description of a recording, in lines.

ghost use Rattle.std.specs.Prelude.{◌≡◌, ◌++◌, IfErr, IfOk, OnOk, codes, string_bytes};
ghost use Rattle.std.specs.Fmt.{decimal};
ghost use Rattle.std.specs.List.{flat_map};
ghost use Rattle.std.specs.Option.{option_map};
ghost use Rattle.std.specs.Str.{chars};
ghost use Rattle.recordings.specs.Recorded.{deed_of, said, size_said};
ghost use Rattle.screentext_command.specs.Listed.{deed_line, kind_name, list_text, marker_line, name_character};
ghost use Rattle.screentext_command.specs.Listed.{name_text, seconds_text, size_line};
ghost use Rattle.screentext_command.specs.declared.error.TextError.TheVariants.{Memory};

use crate::error::TextError;
use recordings::{Change, Event, Kind, Recording, ScreenSize};
use std::alloc::{AllocError, Global};
use std::fmt::Write;

/// The kind, the size at first if the recording says it, the length in seconds, how many events there are, and the
/// markers with their times.
pub(crate) fn list_of(alloc: Global, recording: &Recording) -> Result<Vec<u8>, TextError>
    ensures list { IfOk result (λ text. text.items ≡ list_text recording.now) }
    ensures fault { IfErr result (λ e. e ≡ Memory) }
{
    let mut text = String::new(alloc);
    push_kind(&mut text, recording.kind)?;
    push_size(&mut text, recording.size)?;
    push_time(&mut text, "length", recording.length)?;
    push_count(&mut text, recording.events.len())?;
    push_markers(&mut text, &recording.events)?;
    Ok(text.into_bytes())
}

fn push_kind(text: &mut String, kind: Kind) -> Result<(), AllocError>
    ensures { OnOk result (string_bytes text.new ≡ string_bytes text.old ++ (codes "kind " ++ (kind_name kind
        ++ codes "\n"))) }
{
    let name = kind.name();
    writeln!(text, "kind {name}")
}

// A line for the size, if there is one.
fn push_size(text: &mut String, size: Option<ScreenSize>) -> Result<(), AllocError>
    ensures { OnOk result (string_bytes text.new ≡ string_bytes text.old ++ size_line (option_map size_said size)) }
{
    let Some(size) = size else {
        return Ok(());
    };
    let (rows, cols) = (size.rows.get(), size.cols.get());
    writeln!(text, "size {rows} {cols}")
}

// The end of the line, and one for the number of events.
fn push_count(text: &mut String, count: usize) -> Result<(), AllocError>
    ensures { OnOk result (string_bytes text.new ≡ string_bytes text.old ++ (codes "\nevents " ++ (decimal count
        ++ codes "\n"))) }
{
    writeln!(text, "\nevents {count}")
}

// A line for each marker.
fn push_markers(text: &mut String, events: &[Event]) -> Result<(), AllocError>
    ensures { OnOk result (string_bytes text.new
        ≡ string_bytes text.old ++ flat_map marker_line (said events.now)) }
{
    for event in events {
        push_event(text, event)?;
    }
    Ok(())
}

fn push_event(text: &mut String, event: &Event) -> Result<(), AllocError>
    ensures { OnOk result (string_bytes text.new
        ≡ string_bytes text.old ++ deed_line event.now.time (deed_of event.now.change)) }
{
    match &event.change {
        Change::Marker(name) => push_marker(text, event.time, name.as_str()),
        Change::Output(_) | Change::Resize(_) => Ok(()),
    }
}

fn push_marker(text: &mut String, time: u64, name: &str) -> Result<(), AllocError>
    ensures { OnOk result (string_bytes text.new ≡ string_bytes text.old ++ (codes "marker " ++ (seconds_text time
        ++ (codes " " ++ (name_text (chars name.now) ++ codes "\n"))))) }
{
    push_time(text, "marker", time)?;
    text.push_str(" ")?;
    push_name(text, name)?;
    text.push_str("\n")
}

// Appends a marker's name, with control characters as `\u{7}`, so that none reaches a terminal or ends the line.
fn push_name(text: &mut String, name: &str) -> Result<(), AllocError>
    ensures { OnOk result (string_bytes text.new ≡ string_bytes text.old ++ name_text (chars name.now)) }
{
    for c in name.chars() {
        push_character(text, c)?;
    }
    Ok(())
}

fn push_character(text: &mut String, c: char) -> Result<(), AllocError>
    ensures { OnOk result (string_bytes text.new ≡ string_bytes text.old ++ name_character c) }
{
    if c.is_control() {
        let code = c as u32;
        write!(text, "\\u{{{code:x}}}")
    } else {
        text.push(c)
    }
}

// Appends a word and a time in seconds.
fn push_time(text: &mut String, word: &str, time: u64) -> Result<(), AllocError>
    ensures { OnOk result (string_bytes text.new ≡ string_bytes text.old ++ (word.now ++ (codes " "
        ++ seconds_text time))) }
{
    let seconds = time / 1_000_000;
    let micros = time % 1_000_000;
    write!(text, "{word} {seconds}.{micros:06}")
}
