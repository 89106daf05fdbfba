//! The data of an operating system command, byte by byte: the first N bytes, in the first 16 pieces.

ghost use Rattle.std.specs.Prelude.{◌≡◌, ◌+◌, ◌<◌, ◌≤◌, ℕ, List, [], ◌∷◌, ◌++◌, length, take, map, IsTrue, true};
ghost use Rattle.std.specs.Prelude.{false, slice_index, get_or, ◌==◌};
ghost use Rattle.vte_core.specs.Event.{Osc as OscEvent};
ghost use Rattle.vte_core.specs.Bytes.{each, is_data};
ghost use Rattle.vte_core.specs.StepEvents.{osc_event};
ghost use Rattle.vte_core.specs.Shapes.{osc_pieces};
ghost use Rattle.vte_core.specs.Store.{ReadsOsc, cut_at, ends_from, pieces_of, EndsRise};

use crate::Perform;
use arrayvec::ArrayVec;
use std::marker::Model;

/// What is kept of an operating system command's data.
#[derive(Drop)]
pub struct OscData<const N: usize> {
    bytes: ArrayVec<u8, N>,
    /// Where each piece ends that is whole.
    ends: ArrayVec<usize, 16>,
}

impl<const N: usize> Model for OscData<N> {
    ghost use Rattle.std.specs.Prelude.{List, ℕ};
    ghost use Rattle.vte_core.specs.Store.{EndsRise};

    ghost Value = { List ℕ × List ℕ };

    ghost view = { λ x. (x.bytes.items, x.ends.items) };

    ghost invariant = { λ x. EndsRise 0 x.ends.items x.bytes.items };
}

/// Reports a command, whose pieces end at these places.
fn report<P: Perform>(performer: &mut P, bytes: &[u8], ends: &[usize], bell_terminated: bool)
    requires few { length ends.now ≤ 16 }
    requires rise { EndsRise 0 ends.now bytes.now }
    ensures { P.step performer.old (OscEvent (cut_at 0 ends.now bytes.now) bell_terminated) performer.new }
{
    let mut pieces: [&[u8]; 16] = [&[]; 16];
    let mut start = 0;
    for (i, end) in ends.iter().enumerate() {
        pieces[i] = &bytes[start..*end];
        start = *end;
    }
    performer.osc_dispatch(&pieces[..ends.len()], bell_terminated);
}

/// How many bytes at the start are data or `;`, and no control.
#[inline(always)]
pub fn data_len(bytes: &[u8]) -> usize
    ensures within { result ≤ length bytes.now }
    ensures all_data { each is_data (take result bytes.now) ≡ true }
    ensures ended { result < length bytes.now → is_data (slice_index bytes.now result) ≡ false }
{
    let mut len = 0;
    while len < bytes.len() && bytes[len] >= 0x20 {
        len += 1;
    }
    len
}

/// How many bytes come before the first `;`.
#[inline(always)]
fn piece_len(bytes: &[u8]) -> usize
    ensures within { result ≤ length bytes.now }
    ensures one { (j : ℕ) → j < result → (get_or bytes.now j 0 == 0x3B) ≡ false }
    ensures ended { result < length bytes.now → (get_or bytes.now result 0 == 0x3B) ≡ true }
{
    let mut len = 0;
    while len < bytes.len() && bytes[len] != b';' {
        len += 1;
    }
    len
}

/// Reports a command that BEL ends, by its data.
#[inline(always)]
pub fn report_whole<P: Perform>(performer: &mut P, data: &[u8])
    ensures { P.step performer.old (OscEvent (take 16 (pieces_of «data».now)) true) performer.new }
{
    let mut pieces: [&[u8]; 16] = [&[]; 16];
    let mut count = 0;
    let mut rest = data;
    loop {
        let len = piece_len(rest);
        pieces[count] = &rest[..len];
        count += 1;
        if len == rest.len() || count == 16 {
            performer.osc_dispatch(&pieces[..count], true);
            return;
        }
        rest = &rest[len + 1..];
    }
}

impl<const N: usize> OscData<N> {
    /// The data of an empty command.
    pub fn new() -> Self
        ensures { ReadsOsc N result [] }
    {
        OscData {
            bytes: ArrayVec::new(),
            ends: ArrayVec::new(),
        }
    }

    /// Begins a command.
    pub fn clear(&mut self)
        ensures { ReadsOsc N self.new [] }
    {
        self.bytes.clear();
        self.ends.clear();
    }

    /// The last piece of the data ends.
    fn end_piece(&mut self)
        ensures bytes { self.new.0 ≡ self.old.0 }
        ensures ends { (s : List ℕ) → ReadsOsc N self.old s → self.new.1 ≡ take 16 (ends_from N 0 (pieces_of s)) }
    {
        if !self.ends.is_full() {
            self.ends.push(self.bytes.len());
        }
    }

    /// A byte of data, or `;`, which isn't data: it begins a piece even where no further data is kept.
    pub fn push(&mut self, byte: u8)
        ensures { (s : List ℕ) → ReadsOsc N self.old s → ReadsOsc N self.new (s ++ byte ∷ []) }
    {
        if byte == b';' {
            self.end_piece();
        } else if !self.bytes.is_full() {
            self.bytes.push(byte);
        }
    }

    /// Reads the bytes at the start that aren't controls, and returns how many they are.
    #[inline(always)]
    pub fn read(&mut self, bytes: &[u8]) -> usize
        ensures within { result ≤ length bytes.now }
        ensures all_data { each is_data (take result bytes.now) ≡ true }
        ensures ended { result < length bytes.now → is_data (slice_index bytes.now result) ≡ false }
        ensures reads { (s : List ℕ) → ReadsOsc N self.old s → ReadsOsc N self.new (s ++ take result bytes.now) }
    {
        let len = data_len(bytes);
        for byte in &bytes[..len] {
            self.push(*byte);
        }
        len
    }

    /// The command ends.
    pub fn dispatch<P: Perform>(&mut self, performer: &mut P, bell_terminated: bool)
        ensures reported { P.step performer.old (osc_event self.new bell_terminated) performer.new }
        ensures is_reported { (s : List ℕ) → ReadsOsc N self.old s → cut_at 0 self.new.1 self.new.0 ≡ osc_pieces N s }
    {
        self.end_piece();
        report(
            performer,
            self.bytes.as_slice(),
            self.ends.as_slice(),
            bell_terminated,
        );
    }
}
