//! Typescripts of `script`: the output in one file, and its times in another.

ghost use Rattle.std.specs.Prelude.{◌≡◌, ◌∷◌, ◌++◌, [], List, map, MatchOption, None, Some, IfOk, IfErr};
ghost use Rattle.std.specs.Option.{option_map};
ghost use Rattle.command_line.specs.Numbers.{count_of, size_in as size_of};
ghost use Rattle.recordings.specs.Recorded.{Row, IsStateAfter, size_said};
ghost use Rattle.recordings.specs.Sizes.{both};
ghost use Rattle.recordings.specs.Typescript.{AreSteps, IsFaultOfStep, IsReadScript, IsTypescript, counted_in};
ghost use Rattle.recordings.specs.Typescript.{input_in};
ghost use Rattle.recordings.specs.Typescript.{other_in, output_in, output_of, rest_of, shares_log as shares_log_of};
ghost use Rattle.recordings.specs.Typescript.{quoted_side, script_size, size_in_words, size_quoted};
ghost use Rattle.recordings.specs.Typescript.{side_named, signal_in, size_named, step_in, step_said, taken};
ghost use Rattle.recordings.specs.Typescript.{value_named};
ghost use Rattle.recordings.specs.Typescript.{window_in as window_of, word_of};
ghost use Rattle.recordings.specs.declared.error.RecordingError.TheVariants.{Step};
ghost use Rattle.recordings.specs.declared.timeline.Pace.TheVariants.{FromLast as Last};

use crate::error::RecordingError;
use crate::lines::{before, first_line, is_blank, lines_of};
use crate::recording::{Change, Kind, Reading, Recording, ScreenSize};
use crate::time::parse_seconds;
use crate::timeline::{Pace, Timeline};
use command_line::{parse_count, parse_size};
use std::alloc::{AllocError, Global};
use std::num::NonZeroU16;
use std::str;

/// Reads a typescript by its timing file, of either format: lines `DELAY BYTES`, or lines that begin with `H`, `I`, `O`
/// or `S`. The first line of the typescript, which says when it began, isn't output. The size is that of an `H` line, or
/// else that of the first line, as `script` of util-linux writes it: `COLUMNS="80" LINES="24"`.
pub fn parse_typescript(
    alloc: Global,
    typescript: &[u8],
    timing: &[u8],
) -> Result<Recording, RecordingError>
    ensures recording { IfOk result (IsTypescript typescript.now timing.now) }
    ensures fault { IfErr result (IsFaultOfStep typescript.now timing.now) }
{
    read_typescript(alloc, typescript, timing)?.whole()
}

/// Reads a typescript as [`parse_typescript`] does, up to the first line of the timing file that is no step of it.
pub fn read_typescript(
    alloc: Global,
    typescript: &[u8],
    timing: &[u8],
) -> Result<Reading, AllocError>
    ensures { IfOk result (λ r. IsReadScript typescript.now timing.now r.recording r.fault) }
{
    let all = lines_of(alloc, timing)?;
    let lines = all.as_slice();
    let shared = shares_log(lines);
    let size = size_of_script(alloc, typescript, lines)?;
    let (timeline, fault) = read_steps(alloc, shared, lines, after_line(typescript))?;
    Ok(Reading {
        recording: Recording {
            kind: Kind::Script,
            size,
            theme: None,
            idle: None,
            title: None,
            events: timeline.events,
            length: timeline.time,
        },
        fault: step_fault(fault),
    })
}

// The fault of this line, if there is one.
fn step_fault(line: Option<u64>) -> Option<RecordingError>
    ensures { result ≡ option_map Step line }
{
    match line {
        Some(line) => Some(RecordingError::Step(line)),
        None => None,
    }
}

// The events of the lines, up to a line that isn't a step. That line's number is returned too.
fn read_steps(
    alloc: Global,
    shared: bool,
    lines: &[&[u8]],
    output: &[u8],
) -> Result<(Timeline, Option<u64>), AllocError>
    ensures { IfOk result (λ read. AreSteps shared output.now (map (λ x. x.now) lines.now) read.0 read.1) }
{
    let mut timeline = Timeline::new(alloc, Pace::FromLast);
    let mut left = output;
    for (index, line) in lines.iter().enumerate() {
        let Some(step) = parse_step(alloc, shared, line)? else {
            return Ok((timeline, Some(index as u64 + 1)));
        };
        left = match push_step(alloc, &mut timeline, step, left)? {
            Some(left) => left,
            None => return Ok((timeline, Some(index as u64 + 1))),
        };
    }
    Ok((timeline, None))
}

// What comes after the first line.
fn after_line(text: &[u8]) -> &[u8]
    ensures { result.now ≡ output_of text.now }
{
    match text.iter().position(|b| *b == b'\n') {
        Some(end) => &text[end + 1..],
        None => &[],
    }
}

/// What a line of a timing file says.
#[derive(Clone, Copy)]
pub enum TimingLine {
    /// After this many microseconds the program writes this many bytes.
    Output(u64, usize),
    /// After this many microseconds this many bytes follow that aren't output.
    Skip(u64, usize),
    /// After this many microseconds the terminal gets this size.
    Resize(u64, ScreenSize),
    /// This many microseconds pass.
    Other(u64),
}

// Does a step, and returns what is left of the typescript, unless that has too few bytes.
fn push_step<'a>(
    alloc: Global,
    timeline: &mut Timeline,
    step: TimingLine,
    left: &'a [u8],
) -> Result<Option<&'a [u8]>, AllocError>
    ensures { IfOk result (λ rest. MatchOption rest
        ((taken left.now (step_said step) ≡ None) × (timeline.new ≡ timeline.old))
        (λ after. (row : Row) × (taken left.now (step_said step) ≡ Some (row, after.now))
        × ((rows : List Row) → IsStateAfter Last rows timeline.old → IsStateAfter Last (rows ++ row ∷ [])
        timeline.new))) }
{
    match step {
        TimingLine::Output(time, count) => match left.split_at_checked(count) {
            Some((bytes, after)) => {
                let output = Change::Output(bytes.to_vec(alloc)?);
                timeline.push(time, Some(output))?;
                Ok(Some(after))
            }
            None => Ok(None),
        },
        TimingLine::Skip(time, count) => match left.split_at_checked(count) {
            Some((_, after)) => {
                timeline.push(time, None)?;
                Ok(Some(after))
            }
            None => Ok(None),
        },
        TimingLine::Resize(time, size) => {
            timeline.push(time, Some(Change::Resize(size)))?;
            Ok(Some(left))
        }
        TimingLine::Other(time) => {
            timeline.push(time, None)?;
            Ok(Some(left))
        }
    }
}

fn parse_step(alloc: Global, shared: bool, line: &[u8]) -> Result<Option<TimingLine>, AllocError>
    ensures { IfOk result (λ step. option_map step_said step ≡ step_in shared line.now) }
{
    if is_blank(line) {
        return Ok(Some(TimingLine::Other(0)));
    }
    let (first, rest) = cut(line);
    match first {
        b"O" => output_step(alloc, rest),
        b"S" => signal_step(alloc, rest),
        b"H" => other_step(alloc, rest),
        b"I" => input_step(alloc, shared, rest),
        _ => output_step(alloc, line),
    }
}

// Reads `DELAY BYTES`.
fn counted(alloc: Global, text: &[u8]) -> Result<Option<(u64, usize)>, AllocError>
    ensures { IfOk result (λ p. p ≡ counted_in text.now) }
{
    let (delay, count) = cut(text);
    match (parse_seconds(alloc, delay)?, count_in(count)) {
        (Some(time), Some(count)) => Ok(Some((time, count))),
        _ => Ok(None),
    }
}

fn output_step(alloc: Global, text: &[u8]) -> Result<Option<TimingLine>, AllocError>
    ensures { IfOk result (λ step. option_map step_said step ≡ output_in text.now) }
{
    match counted(alloc, text)? {
        Some((time, count)) => Ok(Some(TimingLine::Output(time, count))),
        None => Ok(None),
    }
}

// What was typed: its bytes are among the output if both are in one file.
fn input_step(alloc: Global, shared: bool, text: &[u8]) -> Result<Option<TimingLine>, AllocError>
    ensures { IfOk result (λ step. option_map step_said step ≡ input_in shared text.now) }
{
    if !shared {
        return other_step(alloc, text);
    }
    match counted(alloc, text)? {
        Some((time, count)) => Ok(Some(TimingLine::Skip(time, count))),
        None => Ok(None),
    }
}

// Reads `DELAY SIGNAL`, which for `SIGWINCH` goes on as `ROWS=N COLS=N`.
fn signal_step(alloc: Global, text: &[u8]) -> Result<Option<TimingLine>, AllocError>
    ensures { IfOk result (λ step. option_map step_said step ≡ signal_in text.now) }
{
    let (delay, signal) = cut(text);
    let Some(time) = parse_seconds(alloc, delay)? else {
        return Ok(None);
    };
    let (name, size) = cut(signal);
    if name != b"SIGWINCH".as_slice() {
        return Ok(Some(TimingLine::Other(time)));
    }
    match window_in(size) {
        Some(size) => Ok(Some(TimingLine::Resize(time, size))),
        None => Ok(None),
    }
}

// Reads a delay, and passes over what follows.
fn other_step(alloc: Global, text: &[u8]) -> Result<Option<TimingLine>, AllocError>
    ensures { IfOk result (λ step. option_map step_said step ≡ other_in text.now) }
{
    let (delay, _) = cut(text);
    match parse_seconds(alloc, delay)? {
        Some(time) => Ok(Some(TimingLine::Other(time))),
        None => Ok(None),
    }
}

// Reads `ROWS=N COLS=N`.
fn window_in(text: &[u8]) -> Option<ScreenSize>
    ensures { option_map size_said result ≡ window_of text.now }
{
    let (rows, cols) = cut(text);
    Some(ScreenSize {
        rows: side_in(rows.strip_prefix(b"ROWS=")?)?,
        cols: side_in(cols.strip_prefix(b"COLS=")?)?,
    })
}

// The size with these sides, if there are both.
fn sized(rows: Option<NonZeroU16>, cols: Option<NonZeroU16>) -> Option<ScreenSize>
    ensures { option_map size_said result ≡ both (option_map (λ n. n.value) rows) (option_map (λ n. n.value) cols) }
{
    Some(ScreenSize {
        rows: rows?,
        cols: cols?,
    })
}

// The size in the header, or else that in the typescript's first line.
fn size_of_script(
    alloc: Global,
    typescript: &[u8],
    lines: &[&[u8]],
) -> Result<Option<ScreenSize>, AllocError>
    ensures { IfOk result (λ s. option_map size_said s ≡ script_size typescript.now (map (λ x. x.now) lines.now)) }
{
    match size_in(lines) {
        Some(size) => Ok(Some(size)),
        None => first_size(alloc, typescript),
    }
}

// The size in the first line: `LINES="24"` and `COLUMNS="80"` are words of it.
fn first_size(alloc: Global, typescript: &[u8]) -> Result<Option<ScreenSize>, AllocError>
    ensures { IfOk result (λ s. option_map size_said s ≡ size_quoted typescript.now) }
{
    let all: Vec<&[u8]> = first_line(typescript).split(|b| *b == b' ').collect(alloc)?;
    Ok(quoted_size(all.as_slice()))
}

fn quoted_size(words: &[&[u8]]) -> Option<ScreenSize>
    ensures { option_map size_said result ≡ size_in_words (map (λ x. x.now) words.now) }
{
    sized(
        quoted_in(words, b"LINES=\""),
        quoted_in(words, b"COLUMNS=\""),
    )
}

// The number up to the next quote, in the first word that begins so.
fn quoted_in(words: &[&[u8]], start: &[u8]) -> Option<NonZeroU16>
    ensures { option_map (λ n. n.value) result ≡ quoted_side start.now (map (λ x. x.now) words.now) }
{
    for word in words {
        if let Some(rest) = word.strip_prefix(start) {
            return side_in(before(b'"', rest));
        }
    }
    None
}

// The size in the header: the values of `LINES` and `COLUMNS`.
fn size_in(lines: &[&[u8]]) -> Option<ScreenSize>
    ensures { option_map size_said result ≡ size_named (map (λ x. x.now) lines.now) }
{
    sized(header_in(lines, b"LINES"), header_in(lines, b"COLUMNS"))
}

fn header_in(lines: &[&[u8]], name: &[u8]) -> Option<NonZeroU16>
    ensures { option_map (λ n. n.value) result ≡ side_named name.now (map (λ x. x.now) lines.now) }
{
    side_in(value_in(lines, name)?)
}

// Whether what was typed is in the same file as the output.
fn shares_log(lines: &[&[u8]]) -> bool
    ensures { result ≡ shares_log_of (map (λ x. x.now) lines.now) }
{
    match (
        value_in(lines, b"INPUT_LOG"),
        value_in(lines, b"OUTPUT_LOG"),
    ) {
        (Some(input), Some(output)) => input == output,
        _ => false,
    }
}

// The value of this name in the header.
fn value_in<'a>(lines: &[&'a [u8]], name: &[u8]) -> Option<&'a [u8]>
    ensures { option_map (λ v. v.now) result ≡ value_named name.now (map (λ x. x.now) lines.now) }
{
    for line in lines {
        let (first, rest) = cut(line);
        let (_, field) = cut(rest);
        let (found, value) = cut(field);
        if first == b"H".as_slice() && found == name {
            return Some(value);
        }
    }
    None
}

fn side_in(text: &[u8]) -> Option<NonZeroU16>
    ensures { option_map (λ n. n.value) result ≡ size_of text.now }
{
    match str::from_utf8(text) {
        Ok(text) => parse_size(text),
        Err(_) => None,
    }
}

fn count_in(text: &[u8]) -> Option<usize>
    ensures { result ≡ count_of text.now }
{
    match str::from_utf8(text) {
        Ok(text) => parse_count(text),
        Err(_) => None,
    }
}

// What comes before the first space, and what comes after it.
fn cut(text: &[u8]) -> (&[u8], &[u8])
    ensures word { result.0.now ≡ word_of text.now }
    ensures rest { result.1.now ≡ rest_of text.now }
{
    match text.iter().position(|b| *b == b' ') {
        Some(end) => (&text[..end], &text[end + 1..]),
        None => (text, &[]),
    }
}
