//! The lines of scripts.

ghost use Rattle.std.specs.Prelude.{◌<◌, IfSome};

use crate::error::DumpError;
use std::alloc::Global;
use std::num::NonZeroU16;
use std::str::SplitWhitespace;

/// One line of a script.
#[derive(Drop)]
pub(crate) enum Step {
    /// Nothing: an empty line or a comment.
    Nothing,
    /// `new ROWS COLS CAPACITY`: a fresh parser.
    New(NonZeroU16, NonZeroU16, usize),
    /// `feed BYTES`, in hexadecimal digits.
    Feed(Vec<u8>),
    /// `resize ROWS COLS`, by the parser.
    Resize(NonZeroU16, NonZeroU16),
    /// `screen_resize ROWS COLS`, by the screen.
    ScreenResize(NonZeroU16, NonZeroU16),
    /// `set_scrollback ROWS`.
    SetScrollback(usize),
    /// `clear_scrollback`.
    ClearScrollback,
    /// `base`: the screen as it is now is kept, and differences are written from it. A fresh parser's screen is kept
    /// too.
    Base,
    /// A question.
    Ask(Question),
}

/// What a line asks of the screen.
#[derive(Clone, Copy)]
pub(crate) enum Question {
    /// `dump`.
    Dump,
    /// `texts`.
    Texts,
    /// `diffs`.
    Diffs,
    /// `check`.
    Check,
    /// `rows START WIDTH`.
    Rows(u16, u16),
    /// `rows_formatted START WIDTH`.
    RowsFormatted(u16, u16),
    /// `rows_diff START WIDTH`.
    RowsDiff(u16, u16),
    /// `between START_ROW START_COL END_ROW END_COL`.
    Between(u16, u16, u16, u16),
}

/// Reads a line of a script. What comes after ` #`, and words past those that are needed, are ignored.
pub(crate) fn parse_line(alloc: Global, line: &str) -> Result<Step, DumpError> {
    let body = match line.split_once(" #") {
        Some((body, _)) => body,
        None => line,
    };
    let mut words = body.split_whitespace();
    match words.next() {
        None | Some("#") => Ok(Step::Nothing),
        Some("feed") => Ok(Step::Feed(parse_bytes(alloc, words.next())?)),
        Some(name) => parse_call(name, &mut words),
    }
}

// A name, and the numbers that follow it.
fn parse_call(name: &str, words: &mut SplitWhitespace<'_>) -> Result<Step, DumpError> {
    match name {
        "new" => Ok(Step::New(size(words)?, size(words)?, number(words)?)),
        "resize" => Ok(Step::Resize(size(words)?, size(words)?)),
        "screen_resize" => Ok(Step::ScreenResize(size(words)?, size(words)?)),
        "set_scrollback" => Ok(Step::SetScrollback(number(words)?)),
        "clear_scrollback" => Ok(Step::ClearScrollback),
        "base" => Ok(Step::Base),
        _ => Ok(Step::Ask(parse_question(name, words)?)),
    }
}

// A question, and the numbers that follow it.
fn parse_question(name: &str, words: &mut SplitWhitespace<'_>) -> Result<Question, DumpError> {
    match name {
        "dump" => Ok(Question::Dump),
        "texts" => Ok(Question::Texts),
        "diffs" => Ok(Question::Diffs),
        "check" => Ok(Question::Check),
        "rows" => Ok(Question::Rows(place(words)?, place(words)?)),
        "rows_formatted" => Ok(Question::RowsFormatted(place(words)?, place(words)?)),
        "rows_diff" => Ok(Question::RowsDiff(place(words)?, place(words)?)),
        "between" => parse_between(words),
        _ => Err(DumpError::Script),
    }
}

fn parse_between(words: &mut SplitWhitespace<'_>) -> Result<Question, DumpError> {
    let (start_row, start_col) = (place(words)?, place(words)?);
    let (end_row, end_col) = (place(words)?, place(words)?);
    Ok(Question::Between(start_row, start_col, end_row, end_col))
}

// A row, a column or a count of them.
fn place(words: &mut SplitWhitespace<'_>) -> Result<u16, DumpError> {
    match word(words)?.parse::<u16>() {
        Ok(place) => Ok(place),
        Err(_) => Err(DumpError::Script),
    }
}

fn number(words: &mut SplitWhitespace<'_>) -> Result<usize, DumpError> {
    match word(words)?.parse::<usize>() {
        Ok(number) => Ok(number),
        Err(_) => Err(DumpError::Script),
    }
}

fn size(words: &mut SplitWhitespace<'_>) -> Result<NonZeroU16, DumpError> {
    NonZeroU16::new(place(words)?).ok_or(DumpError::Script)
}

fn word<'a>(words: &mut SplitWhitespace<'a>) -> Result<&'a str, DumpError> {
    words.next().ok_or(DumpError::Script)
}

// The bytes of a word in hexadecimal digits. Without a word there are no bytes.
fn parse_bytes(alloc: Global, word: Option<&str>) -> Result<Vec<u8>, DumpError> {
    match word {
        Some(word) => unhex(alloc, word),
        None => Ok(Vec::new(alloc)),
    }
}

// The bytes of these hexadecimal digits, two for each.
fn unhex(alloc: Global, digits: &str) -> Result<Vec<u8>, DumpError> {
    let mut bytes = Vec::new(alloc);
    let mut rest = digits.as_bytes();
    while let [high, low, others @ ..] = rest {
        bytes.push(byte_of(*high, *low)?)?;
        rest = others;
    }
    if rest.is_empty() {
        Ok(bytes)
    } else {
        Err(DumpError::Script)
    }
}

fn byte_of(high: u8, low: u8) -> Result<u8, DumpError> {
    match (digit_value(high), digit_value(low)) {
        (Some(high), Some(low)) => Ok(high * 16 + low),
        _ => Err(DumpError::Script),
    }
}

// The value of an ASCII hexadecimal digit, of either case.
fn digit_value(digit: u8) -> Option<u8>
    ensures { IfSome result (λ value. value < 16) }
{
    match digit {
        b'0'..=b'9' => Some(digit - b'0'),
        b'a'..=b'f' => Some(digit - b'a' + 10),
        b'A'..=b'F' => Some(digit - b'A' + 10),
        _ => None,
    }
}
