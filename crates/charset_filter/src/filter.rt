//! The filter.

ghost use Rattle.std.specs.Prelude.{◌≡◌, ◌<◌, ℕ, List, [], ◌∷◌, ◌++◌, length, false, true, None, Some, IsTrue};
ghost use Rattle.std.specs.Prelude.{if◌then◌else◌, take, ◌+◌, ◌*◌, ◌≤◌, vec_capacity, vec_len};
ghost use Rattle.std.specs.Result.{OnOk, OnErr, IfOk, IfErr};
ghost use Rattle.charset_filter.specs.Filter.{Gives, HasRead};
ghost use Rattle.charset_filter.specs.Given.{given_byte, is_drawable, last_behind, last_drawn};
ghost use Rattle.charset_filter.specs.Steady.{IsSteady, IsSteadyRun};
ghost use Rattle.charset_filter.specs.Filter.{ends_both};
ghost use Rattle.vte_core.specs.Bytes.{is_esc};
ghost use Rattle.vte_core.specs.Pending.{events_of_byte, pending};

use crate::behind::MOST_BEHIND;
use crate::error::AdvanceError;
use crate::listener::Listener;
use crate::steady::steady_len;
use std::alloc::AllocError;
use vte_core::Parser;

/// The largest number of bytes that are given for one byte: a character, and the bytes behind its event.
const MOST_GIVEN: usize = 4 + MOST_BEHIND;

/// Reads a program's bytes in pieces, and passes them on with each printed character as its set draws it. After a
/// sequence that `vt100` doesn't know it gives others that do the same.
///
/// The contract of `advance` holds for every past: the bytes that the filter has read since it was created. A new
/// filter has read nothing. A filter holds no bytes back, and allocates nothing but the output.
#[derive(Drop)]
pub struct CharsetFilter {
    parser: Parser<0>,
    listener: Listener,
    /// Whether an escape sequence or a control sequence may be unfinished.
    in_sequence: bool,
}

impl CharsetFilter {
    /// A filter that has read nothing: ASCII in G0 to G3, and G0 locked.
    pub fn new() -> Self
        ensures { HasRead result [] }
    {
        CharsetFilter {
            parser: Parser::new_with_size(),
            listener: Listener::new(),
            in_sequence: false,
        }
    }

    /// Reads the next bytes, and appends to the output what they give: at most eight bytes for each, and 512 more for a
    /// sequence that began before them.
    ///
    /// An allocation fails only if the output has no room for that many bytes. Then the error reports how many bytes at
    /// the start have been read, and what these give is appended. The others, at least one, have not been read.
    pub fn advance(&mut self, bytes: &[u8], output: &mut Vec<u8>) -> Result<(), AdvanceError>
        ensures given { OnOk result (Gives self.old bytes.now (length bytes.now) self.new output.old.items
            output.new.items) }
        ensures prefix { IfErr result (λ e. Gives self.old bytes.now e.read self.new output.old.items
            output.new.items) }
        ensures unread { IfErr result (λ e. e.read < length bytes.now) }
        ensures full { (past : List ℕ) → HasRead self.old past → OnErr result
            (vec_capacity output.old < vec_len output.old + (8 * length bytes.now + 512)) }
        ensures short { (past : List ℕ) → HasRead self.old past
            → vec_len output.new ≤ vec_len output.old + (8 * length bytes.now + 512) }
        ensures capacity { vec_capacity output.old ≤ vec_capacity output.new }
    {
        let mut read = 0;
        while read < bytes.len() {
            match self.read_some(&bytes[read..], output) {
                Ok(some) => read += some,
                Err(AllocError) => return Err(AdvanceError { read }),
            }
        }
        Ok(())
    }

    /// Reads a steady run, or one byte. Returns how many bytes it read.
    fn read_some(&mut self, bytes: &[u8], output: &mut Vec<u8>) -> Result<usize, AllocError>
        requires { 0 < length bytes.now }
        ensures some { IfOk result (λ k. 0 < k) }
        ensures given { IfOk result (λ k. Gives self.old bytes.now k self.new output.old.items output.new.items) }
        ensures len { OnOk result
            (vec_len output.new + length output.old.items ≡ vec_len output.old + length output.new.items) }
        ensures capacity { vec_capacity output.old ≤ vec_capacity output.new }
        ensures same { OnErr result ((self.new ≡ self.old) × (output.new.items ≡ output.old.items)
            × (vec_len output.new ≡ vec_len output.old)) }
        ensures full { OnErr result (vec_capacity output.old < vec_len output.old + (length bytes.now + 255)) }
    {
        if !self.in_sequence && self.listener.sets.is_steady() {
            let len = steady_len(bytes);
            if len > 0 {
                self.read_steady(bytes, len, output)?;
                return Ok(len);
            }
        }
        self.read_byte(bytes, output)?;
        Ok(1)
    }

    /// Reads a steady run, `len` bytes at the start, and gives it as it is.
    fn read_steady(
        &mut self,
        bytes: &[u8],
        len: usize,
        output: &mut Vec<u8>,
    ) -> Result<(), AllocError>
        requires within { len ≤ length bytes.now }
        requires steady { IsSteady self.old.listener.sets }
        requires outside { self.old.in_sequence ≡ false }
        requires run { IsSteadyRun (take len bytes.now) }
        ensures given { OnOk result (Gives self.old bytes.now len self.new output.old.items output.new.items) }
        ensures len { OnOk result
            (vec_len output.new + length output.old.items ≡ vec_len output.old + length output.new.items) }
        ensures capacity { vec_capacity output.old ≤ vec_capacity output.new }
        ensures same { OnErr result ((self.new ≡ self.old) × (output.new.items ≡ output.old.items)
            × (vec_len output.new ≡ vec_len output.old)) }
        ensures full { OnErr result (vec_capacity output.old < vec_len output.old + len) }
    {
        let run = &bytes[..len];
        output.extend_from_slice(run)?;
        self.parser.advance(&mut self.listener.sets, run);
        Ok(())
    }

    /// Reads the first byte.
    fn read_byte(&mut self, bytes: &[u8], output: &mut Vec<u8>) -> Result<(), AllocError>
        requires { 0 < length bytes.now }
        ensures given { OnOk result (Gives self.old bytes.now 1 self.new output.old.items output.new.items) }
        ensures len { OnOk result
            (vec_len output.new + length output.old.items ≡ vec_len output.old + length output.new.items) }
        ensures capacity { vec_capacity output.old ≤ vec_capacity output.new }
        ensures same { OnErr result ((self.new ≡ self.old) × (output.new.items ≡ output.old.items)
            × (vec_len output.new ≡ vec_len output.old)) }
        ensures full { OnErr result (vec_capacity output.old < vec_len output.old + 256) }
    {
        output.reserve(MOST_GIVEN)?;
        self.listen(bytes[0]);
        push_given(output, bytes[0], self.listener.drawn);
        push_bytes(output, self.listener.behind.as_slice());
        Ok(())
    }

    /// Gives the parser a byte. Then the listener has what it drew of the last character that was printed, and the
    /// bytes behind the last event.
    fn listen(&mut self, byte: u8)
        ensures reads { (past : List ℕ) → HasRead self.old past → HasRead self.new (past ++ byte ∷ []) }
        ensures drawn { (past : List ℕ) → HasRead self.old past → self.new.listener.drawn
            ≡ last_drawn self.old.listener.sets None (events_of_byte 0 (pending past) byte) }
        ensures behind { (past : List ℕ) → HasRead self.old past → self.new.listener.behind.items
            ≡ last_behind self.old.listener.sets [] (events_of_byte 0 (pending past) byte) }
    {
        self.listener.forget();
        self.parser.advance(&mut self.listener, &[byte]);
        self.in_sequence = may_be_in_sequence(self.in_sequence, byte);
    }
}

/// Whether an escape sequence or a control sequence may be unfinished after a byte. `before` says the same of the state
/// before it.
fn may_be_in_sequence(before: bool, byte: u8) -> bool
    ensures { result ≡ (if is_esc byte then true else (if ends_both byte then false else before)) }
{
    match byte {
        0x1B => true,
        0x18 | 0x1A | 0x40..=0x5A | 0x5C..=0x7E => false,
        _ => before,
    }
}

/// Appends the byte, or what is drawn of the character that it prints. The output has room for it.
fn push_given(output: &mut Vec<u8>, byte: u8, drawn: Option<char>)
    requires { vec_len output.old + 4 ≤ vec_capacity output.old }
    ensures items { output.new.items ≡ output.old.items ++ given_byte byte drawn }
    ensures len { vec_len output.new + length output.old.items ≡ vec_len output.old + length output.new.items }
    ensures grows { vec_len output.new ≤ vec_len output.old + 4 }
    ensures capacity { vec_capacity output.old ≤ vec_capacity output.new }
{
    match drawn {
        Some(c) if is_drawable(byte) => {
            let mut room = [0; 4];
            push_bytes(output, c.encode_utf8(&mut room).as_bytes());
        }
        _ => output.push_reserved(byte),
    }
}

/// Whether the byte is one of those that the special graphics draw as another character.
fn is_drawable(byte: u8) -> bool
    ensures { result ≡ is_drawable byte }
{
    (0x5F..=0x7E).contains(&byte)
}

/// Appends bytes. The output has room for them.
fn push_bytes(output: &mut Vec<u8>, bytes: &[u8])
    requires { vec_len output.old + length bytes.now ≤ vec_capacity output.old }
    ensures items { output.new.items ≡ output.old.items ++ bytes.now }
    ensures grows { vec_len output.new ≡ vec_len output.old + length bytes.now }
    ensures capacity { vec_capacity output.old ≤ vec_capacity output.new }
{
    let _appended = output.extend_from_slice(bytes);
}
