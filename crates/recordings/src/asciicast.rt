//! Asciicasts: of versions 2 and 3 a header and an event a line, each a value in JSON.

ghost use Rattle.std.specs.Prelude.{◌≡◌, ◌++◌, ◌+◌, ◌^◌, ◌<◌, ◌==◌, [], List, map, drop, length, None, Some};
ghost use Rattle.std.specs.Prelude.{is_some, unwrap_or, slice_index, IfOk, IfErr, IfSome, OnOk};
ghost use Rattle.serde_json.specs.View.{items_view, view};
ghost use Rattle.std.specs.Option.{option_map};
ghost use Rattle.recordings.specs.Recorded.{Row, IsStateAfter, deed_of, size_said};
ghost use Rattle.recordings.specs.Asciicast.{AreRead, AreReadLines, AreUnreadLines, IsAsciicast, IsFault, IsReadCast};
ghost use Rattle.recordings.specs.Asciicast.{IsUnreadCast, comments};
ghost use Rattle.recordings.specs.Asciicast.{deed_in};
ghost use Rattle.recordings.specs.Asciicast.{entry_said, header_details, header_in, header_of as header_of_data};
ghost use Rattle.recordings.specs.Asciicast.{header_said, layout_said};
ghost use Rattle.recordings.specs.Asciicast.{AreLines, IsFaultOfLines};
ghost use Rattle.recordings.specs.Asciicast.{is_header, resize_in, row_in, rows_in, text_in};
ghost use Rattle.recordings.specs.Sizes.{side_in, sides_in};
ghost use Rattle.recordings.specs.declared.error.RecordingError.TheVariants.{Line};
ghost use Rattle.recordings.specs.Details.{details_in, details_said};

use crate::details::{idle_in, title_in};
use crate::error::RecordingError;
use crate::first_version::{parse_object, read_object};
use crate::lines::{first_line, is_blank, lines_of, unmarked};
use crate::recording::{Change, Kind, Reading, Recording, ScreenSize};
use crate::theme::{RecordedTheme, theme_in};
use crate::time::{microseconds, parse_json};
use crate::timeline::{Pace, Timeline};
use command_line::parse_size;
use serde_json::Value;
use std::alloc::{AllocError, Global};
use std::num::NonZeroU16;

/// Reads an asciicast of version 1, 2 or 3.
pub fn parse_asciicast(alloc: Global, text: &[u8]) -> Result<Recording, RecordingError>
    ensures recording { IfOk result (IsAsciicast text.now) }
    ensures fault { IfErr result (IsFault text.now) }
{
    match parse_object(alloc, text)? {
        Some(object) => read_object(alloc, &object)?.ok_or(RecordingError::Header),
        None => parse_lines(alloc, text),
    }
}

/// Reads an asciicast of version 2 or 3 up to the first line that is no event, or one of version 1 as a whole.
pub fn read_asciicast(alloc: Global, text: &[u8]) -> Result<Reading, RecordingError>
    ensures reading { IfOk result (λ r. IsReadCast text.now r.recording r.fault) }
    ensures fault { IfErr result (IsUnreadCast text.now) }
{
    let Some(object) = parse_object(alloc, text)? else {
        return read_header_and_lines(alloc, text);
    };
    match read_object(alloc, &object)? {
        Some(recording) => Ok(Reading {
            recording,
            fault: None,
        }),
        None => Err(RecordingError::Header),
    }
}

fn parse_lines(alloc: Global, text: &[u8]) -> Result<Recording, RecordingError>
    ensures recording { IfOk result (AreLines text.now) }
    ensures fault { IfErr result (IsFaultOfLines text.now) }
{
    read_header_and_lines(alloc, text)?.whole()
}

fn read_header_and_lines(alloc: Global, text: &[u8]) -> Result<Reading, RecordingError>
    ensures reading { IfOk result (λ r. AreReadLines text.now r.recording r.fault) }
    ensures fault { IfErr result (AreUnreadLines text.now) }
{
    let text = unmarked(text);
    let Some(header) = parse_header(alloc, first_line(text))? else {
        return Err(RecordingError::Header);
    };
    let lines = lines_of(alloc, text)?;
    let (timeline, fault) = read_lines(alloc, header.pace, later(&lines))?;
    Ok(Reading {
        recording: Recording {
            kind: Kind::Asciicast,
            size: Some(header.size),
            theme: header.theme,
            idle: header.idle,
            title: header.title,
            events: timeline.events,
            length: timeline.time,
        },
        fault: line_fault(fault),
    })
}

// The lines after the first.
fn later<'a, 'b>(lines: &'b [&'a [u8]]) -> &'b [&'a [u8]]
    requires { 0 < length lines.now }
    ensures lines { map (λ x. x.now) result.now ≡ drop 1 (map (λ x. x.now) lines.now) }
    ensures fewer { length result.now < length lines.now }
{
    &lines[1..]
}

// The fault of this line, if there is one.
fn line_fault(line: Option<u64>) -> Option<RecordingError>
    ensures { result ≡ option_map Line line }
{
    match line {
        Some(line) => Some(RecordingError::Line(line)),
        None => None,
    }
}

/// Whether a text begins with an object in JSON that has a version, or is one of version 1 in several lines.
pub(crate) fn begins_asciicast(alloc: Global, text: &[u8]) -> Result<bool, AllocError>
    ensures { IfOk result (λ begins. begins ≡ is_header text.now) }
{
    match parse_json(alloc, first_line(unmarked(text)))? {
        Some(header) => Ok(header.get("version").is_some()),
        None => Ok(parse_object(alloc, text)?.is_some()),
    }
}

/// What a header says.
#[derive(Drop)]
pub struct Header {
    pub(crate) pace: Pace,
    pub(crate) size: ScreenSize,
    pub(crate) theme: Option<RecordedTheme>,
    pub(crate) idle: Option<u64>,
    pub(crate) title: Option<String>,
}

fn parse_header(alloc: Global, line: &[u8]) -> Result<Option<Header>, AllocError>
    ensures header { IfOk result (λ header. option_map header_said header ≡ header_in line.now) }
    ensures details { IfOk result (λ header. IfSome header (λ h. header_details h ≡ details_said line.now)) }
{
    match parse_json(alloc, line)? {
        Some(header) => header_of(alloc, &header),
        None => Ok(None),
    }
}

fn header_of(alloc: Global, header: &Value) -> Result<Option<Header>, AllocError>
    ensures header { IfOk result (λ h. option_map header_said h ≡ header_of_data (view header.now)) }
    ensures details { IfOk result (λ h. IfSome h (λ found. header_details found ≡ details_in (view header.now))) }
{
    let Some((pace, size)) = layout_of(header) else {
        return Ok(None);
    };
    Ok(Some(Header {
        pace,
        size,
        theme: theme_in(header),
        idle: idle_in(header),
        title: title_in(alloc, header)?,
    }))
}

// From where times count, and the size.
fn layout_of(header: &Value) -> Option<(Pace, ScreenSize)>
    ensures { option_map layout_said result ≡ header_of_data (view header.now) }
{
    match header.get("version")?.as_u64()? {
        2 => Some((Pace::FromStart, size_of(header, "height", "width")?)),
        3 => Some((
            Pace::FromLast,
            size_of(header.get("term")?, "rows", "cols")?,
        )),
        _ => None,
    }
}

/// The size that an object has under these names.
pub(crate) fn size_of(object: &Value, rows: &str, cols: &str) -> Option<ScreenSize>
    ensures { option_map size_said result ≡ sides_in rows.now cols.now (view object.now) }
{
    Some(ScreenSize {
        rows: side(object, rows)?,
        cols: side(object, cols)?,
    })
}

// A number of rows or columns.
fn side(object: &Value, name: &str) -> Option<NonZeroU16>
    ensures { option_map (λ n. n.value) result ≡ side_in name.now (view object.now) }
{
    let number = object.get(name)?.as_u64()?;
    match u16::try_from(number) {
        Ok(number) => NonZeroU16::new(number),
        Err(_) => None,
    }
}

// The events in the lines after the first, up to a line that isn't one. That line's number is returned too.
fn read_lines(
    alloc: Global,
    pace: Pace,
    lines: &[&[u8]],
) -> Result<(Timeline, Option<u64>), AllocError>
    requires { length lines.now + 1 < 2 ^ 64 }
    ensures { IfOk result (λ read. AreRead pace (map (λ x. x.now) lines.now) read.0 read.1) }
{
    let mut timeline = Timeline::new(alloc, pace);
    let mut number: u64 = 1;
    for line in lines {
        number += 1;
        if !push_line(alloc, &mut timeline, pace, line)? {
            return Ok((timeline, Some(number)));
        }
    }
    Ok((timeline, None))
}

// Appends the event in a line, if it has one. Returns whether the line makes sense.
fn push_line(
    alloc: Global,
    timeline: &mut Timeline,
    pace: Pace,
    line: &[u8],
) -> Result<bool, AllocError>
    ensures event { IfOk result (λ fine. fine ≡ is_some (rows_in pace line.now)) }
    ensures pushed { OnOk result ((rows : List Row) → IsStateAfter pace rows timeline.old
        → IsStateAfter pace (rows ++ unwrap_or (rows_in pace line.now) []) timeline.new) }
{
    match parse_line(alloc, pace, line)? {
        Entry::Blank => Ok(true),
        Entry::Row(time, change) => {
            timeline.push(time, change)?;
            Ok(true)
        }
        Entry::Fault => Ok(false),
    }
}

/// What a line of an asciicast is.
#[derive(Drop)]
pub enum Entry {
    /// Blank, or a comment.
    Blank,
    /// An event: its time, and what it does if that concerns a screen or a reader.
    Row(u64, Option<Change>),
    /// Not an event.
    Fault,
}

fn parse_line(alloc: Global, pace: Pace, line: &[u8]) -> Result<Entry, AllocError>
    ensures { IfOk result (λ entry. entry_said entry ≡ rows_in pace line.now) }
{
    if is_blank(line) || is_comment(pace, line) {
        return Ok(Entry::Blank);
    }
    match parse_json(alloc, line)? {
        Some(value) => parse_event(alloc, &value),
        None => Ok(Entry::Fault),
    }
}

// Version 3 has comments: lines that begin with `#`.
fn is_comment(pace: Pace, line: &[u8]) -> bool
    ensures { result ≡ comments pace line.now }
{
    match pace {
        Pace::FromStart => false,
        Pace::FromLast => line.first() == Some(&b'#'),
    }
}

// Reads `[TIME, CODE, TEXT]`. What follows is passed over.
fn parse_event(alloc: Global, value: &Value) -> Result<Entry, AllocError>
    ensures { IfOk result (λ entry. entry_said entry ≡ row_in (view value.now)) }
{
    let Some(parts) = value.as_array() else {
        return Ok(Entry::Fault);
    };
    let [time, code, rest @ ..] = parts.as_slice() else {
        return Ok(Entry::Fault);
    };
    let (Some(time), Some(code)) = (microseconds(time), code.as_str()) else {
        return Ok(Entry::Fault);
    };
    match parse_change(alloc, code, first_text(rest))? {
        Some(change) => Ok(Entry::Row(time, change)),
        None => Ok(Entry::Fault),
    }
}

// The first of the values, if it is a text.
fn first_text(values: &[Value]) -> Option<&str>
    ensures { option_map (λ text. text.now) result ≡ text_in (items_view values.now) }
{
    values.first()?.as_str()
}

// What an event does: nothing to a screen or a reader where its code is another.
fn parse_change(
    alloc: Global,
    code: &str,
    text: Option<&str>,
) -> Result<Option<Option<Change>>, AllocError>
    ensures { IfOk result (λ change. option_map (option_map deed_of) change
        ≡ deed_in code.now (option_map (λ t. t.now) text.entry)) }
{
    match text {
        Some(text) => change_with(alloc, code, text),
        None => Ok(change_without_text(code)),
    }
}

fn change_without_text(code: &str) -> Option<Option<Change>>
    ensures { option_map (option_map deed_of) result ≡ deed_in code.now None }
{
    match code {
        "o" | "m" | "r" => None,
        _ => Some(None),
    }
}

fn change_with(alloc: Global, code: &str, text: &str) -> Result<Option<Option<Change>>, AllocError>
    ensures { IfOk result (λ change. option_map (option_map deed_of) change ≡ deed_in code.now (Some text.now)) }
{
    match code {
        "o" => Ok(Some(Some(Change::Output(text.as_bytes().to_vec(alloc)?)))),
        "m" => Ok(Some(Some(Change::Marker(text.to_owned(alloc)?)))),
        "r" => Ok(parse_resize(text).map(|size| Some(Change::Resize(size)))),
        _ => Ok(Some(None)),
    }
}

/// Reads `COLSxROWS`.
fn parse_resize(text: &str) -> Option<ScreenSize>
    ensures { option_map size_said result ≡ resize_in text.now }
{
    let (cols, rows) = text.split_once('x')?;
    Some(ScreenSize {
        cols: parse_size(cols)?,
        rows: parse_size(rows)?,
    })
}
