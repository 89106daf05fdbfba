//! The escape sequences that are sent to a terminal (ECMA-48, the VT100's and xterm's control sequences).
ghost use Rattle.std.specs.Prelude.{◌≡◌, ◌≤◌, ◌<◌, ◌+◌, ◌^◌, length, decimal, List, [], ◌∷◌, ◌++◌};
ghost use Rattle.std.specs.Prelude.{string_bytes, string_len, string_capacity, is_ok, IsOk, OnOk, OnErr, if◌then◌else◌};
ghost use Rattle.vt100_forms.specs.Form.{Form, bytes_of, counted};
ghost use Rattle.vt100_forms.specs.Writer.{HandsOver};

mod attrs;
mod erase;
mod modes;
mod moves;

use crate::error::GridError;
use crate::text_run::TextRun;
use arrayvec::ArrayString;
pub use attrs::{Attrs, ClearAttrs};
pub use erase::{ClearRowForward, ClearScreen, EraseChar};
pub use modes::{
    ApplicationCursor, ApplicationKeypad, BracketedPaste, CursorStyle, HideCursor,
    MouseProtocolEncoding, MouseProtocolMode,
};
pub use moves::{Backspace, Crlf, MoveFromTo, MoveRight, MoveTo, RestoreCursor, SaveCursor};
use std::fmt;

/// A buffer on the stack for the bytes of one escape sequence, 64 at most.
pub type FormText = ArrayString<64>;

/// A value that can be written as an escape sequence. An implementation returns its bytes from `as_text`; the other
/// methods write them.
pub trait BufWrite {
    // one form, or none
    ghost forms: { Self → List Form };

    /// Returns the bytes. They are a constant, or are built in `room`, which must be empty.
    fn as_text<'a>(&self, room: &'a mut FormText) -> &'a str
        requires { room.old.bytes ≡ [] }
        ensures { result.now ≡ bytes_of (forms self.now) };

    /// Writes the bytes to `writer` in one call, or in no call if there are none. The only error is that call's.
    fn write_fmt<W: fmt::Write>(&self, writer: &mut W) -> fmt::Result
        ensures written { OnOk result
            (HandsOver W.write_str_gives writer.old (bytes_of (forms self.now)) writer.new) }
        ensures empty { bytes_of (forms self.now) ≡ [] → IsOk result }
    {
        let mut room = FormText::new();
        let text = self.as_text(&mut room);
        if text.is_empty() {
            return Ok(());
        }
        writer.write_str(text)
    }

    /// Appends the bytes to `buf`. Fails only if an allocation fails; `buf` is then unchanged.
    fn write_buf(&self, buf: &mut String) -> Result<(), GridError>
        ensures bytes { string_bytes buf.new ≡
            (if is_ok result then string_bytes buf.old ++ bytes_of (forms self.now) else string_bytes buf.old) }
        ensures full { OnErr result
            (string_capacity buf.old < string_len buf.old + length (bytes_of (forms self.now))) }
        ensures capacity { string_capacity buf.old ≤ string_capacity buf.new }
    {
        let mut room = FormText::new();
        buf.push_str(self.as_text(&mut room))?;
        Ok(())
    }
}

/// The weight of a character: normal, bold or dim.
#[derive(Clone, Copy, Debug, Eq, PartialEq)]
pub enum Intensity {
    /// Neither bold nor dim (SGR 22).
    Normal,
    /// Bold (SGR 1).
    Bold,
    /// Dim, or faint (SGR 2).
    Dim,
}

// Appends the decimal digits of a number, 5 at most.
fn push_count(run: &mut TextRun, n: u32)
    requires room { length run.old + 5 ≤ 192 }
    requires few { n ≤ 2 ^ 16 }
    ensures bytes { run.new ≡ run.old ++ decimal n }
    ensures len { length run.new ≤ length run.old + 5 }
{
    if n < 1000 {
        push_number(run, n);
        return;
    }
    push_number(run, n / 1000);
    push_digit(run, n / 100 % 10);
    push_digit(run, n / 10 % 10);
    push_digit(run, n % 10);
}

fn push_number(run: &mut TextRun, n: u32)
    requires room { length run.old + 3 ≤ 192 }
    requires few { n < 1000 }
    ensures bytes { run.new ≡ run.old ++ decimal n }
    ensures len { length run.new ≤ length run.old + 3 }
    ensures short { n < 100 → length run.new ≤ length run.old + 2 }
{
    if n < 10 {
        push_digit(run, n);
    } else if n < 100 {
        push_digit(run, n / 10);
        push_digit(run, n % 10);
    } else {
        push_digit(run, n / 100);
        push_digit(run, n / 10 % 10);
        push_digit(run, n % 10);
    }
}

fn push_digit(run: &mut TextRun, n: u32)
    requires room { length run.old < 192 }
    requires digit { n < 10 }
    ensures bytes { run.new ≡ run.old ++ (48 + n) ∷ [] }
    ensures len { length run.new ≡ length run.old + 1 }
{
    run.push_ascii(b'0' + n as u8);
}

// Appends CSI, the count and the letter. A count of 1 is left out, and for a count of 0 nothing is appended.
fn push_counted(run: &mut TextRun, count: u16, letter: u8)
    requires room { length run.old + 8 ≤ 192 }
    requires ascii { letter < 128 }
    ensures bytes { run.new ≡ run.old ++ counted count (letter ∷ []) }
    ensures len { length run.new ≤ length run.old + 8 }
{
    if count == 0 {
        return;
    }
    run.push_ascii(b'\x1b');
    run.push_ascii(b'[');
    if count > 1 {
        push_count(run, u32::from(count));
    }
    run.push_ascii(letter);
}

// Like `push_counted`, but in `room`.
fn counted<'a>(room: &'a mut FormText, count: u16, letter: u8) -> &'a str
    requires empty { room.old.bytes ≡ [] }
    requires ascii { letter < 128 }
    ensures { result.now ≡ counted count (letter ∷ []) }
{
    let mut run = TextRun::new();
    push_counted(&mut run, count, letter);
    room.push_str(run.as_str());
    room.as_str()
}
