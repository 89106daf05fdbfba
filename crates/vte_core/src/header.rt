//! The header of a control sequence or a device control string: the bytes 0x20 to 0x3F before the final byte
//! (ECMA-48, section 5.4).

ghost use Rattle.std.specs.Prelude.{◌≡◌, ◌+◌, ◌<◌, ◌≤◌, ℕ, Bool, List, [], ◌∷◌, ◌++◌, length, take, IsTrue};
ghost use Rattle.std.specs.Prelude.{if◌then◌else◌, true, false, slice_index};
ghost use Rattle.vte_core.specs.Bytes.{each, is_header, is_private, is_numeric, is_intermediate};
ghost use Rattle.vte_core.specs.Header.{is_well_formed, kept_groups, kept_intermediates, overflows};
ghost use Rattle.vte_core.specs.Event.{Csi, Hook};
ghost use Rattle.vte_core.specs.StepEvents.{csi_event, hook_event};
ghost use Rattle.vte_core.specs.Phases.{ReadsHeader, next_by, is_kept};

use crate::Perform;
use crate::intermediates::Intermediates;
use crate::numbers::{Numbers, is_numeric};

/// How far the header of a sequence has come.
#[derive(Clone, Copy)]
pub enum Phase {
    Start,
    InNumbers,
    InIntermediates,
    /// A byte came where it must not, so the sequence is ignored.
    Ignored,
}

/// What is kept of a header.
#[derive(Drop)]
pub struct Header {
    pub phase: Phase,
    pub numbers: Numbers,
    pub intermediates: Intermediates,
}

/// Whether the byte is an intermediate.
#[inline(always)]
pub fn is_intermediate(byte: u8) -> bool
    ensures { result ≡ is_intermediate byte }
{
    (0x20..=0x2F).contains(&byte)
}

/// Whether the byte is of a header.
#[inline(always)]
fn is_header(byte: u8) -> bool
    ensures { result ≡ is_header byte }
{
    (0x20..=0x3F).contains(&byte)
}

/// The phase after a digit, `:` or `;`.
#[inline]
fn after_numeric(phase: Phase) -> Phase
    ensures { result ≡ next_by true false phase }
{
    match phase {
        Phase::Start | Phase::InNumbers => Phase::InNumbers,
        _ => Phase::Ignored,
    }
}

/// The phase after any other byte of a header.
#[inline(always)]
fn after_other(phase: Phase, byte: u8) -> Phase
    ensures { result ≡ next_by false (is_intermediate byte) phase }
{
    match phase {
        Phase::Ignored => Phase::Ignored,
        _ if is_intermediate(byte) => Phase::InIntermediates,
        Phase::Start => Phase::InNumbers,
        _ => Phase::Ignored,
    }
}

/// Whether a header that ends here is reported.
#[inline(always)]
fn is_kept(phase: Phase) -> bool
    ensures { result ≡ is_kept phase }
{
    match phase {
        Phase::Ignored => false,
        _ => true,
    }
}

impl Header {
    /// An empty header.
    pub fn new() -> Self
        ensures { ReadsHeader result [] }
    {
        Header {
            phase: Phase::Start,
            numbers: Numbers::new(),
            intermediates: Intermediates::new(),
        }
    }

    /// Begins a header.
    #[inline]
    pub fn clear(&mut self)
        ensures { ReadsHeader self.new [] }
    {
        self.phase = Phase::Start;
        self.numbers.clear();
        self.intermediates.clear();
    }

    /// Reads the digits, `:` and `;` at the start of the bytes, and returns how many they are.
    #[inline(always)]
    fn read_numbers(&mut self, bytes: &[u8]) -> usize
        ensures within { result ≤ length bytes.now }
        ensures numeric { each is_numeric (take result bytes.now) ≡ true }
        ensures ended { result < length bytes.now → is_numeric (slice_index bytes.now result) ≡ false }
        ensures reads { (h : List ℕ) → ReadsHeader self.old h → ReadsHeader self.new (h ++ take result bytes.now) }
    {
        match bytes {
            [first, ..] if is_numeric(*first) => {}
            _ => return 0,
        }
        let len = self.numbers.read(bytes);
        if len > 0 {
            self.phase = after_numeric(self.phase);
        }
        len
    }

    /// Reads the bytes of a header at the start, and returns how many they are.
    #[inline(always)]
    pub fn read(&mut self, bytes: &[u8]) -> usize
        ensures within { result ≤ length bytes.now }
        ensures header { each is_header (take result bytes.now) ≡ true }
        ensures reads { (h : List ℕ) → ReadsHeader self.old h → ReadsHeader self.new (h ++ take result bytes.now) }
    {
        let mut read = self.read_numbers(bytes);
        while read < bytes.len() && is_header(bytes[read]) {
            self.collect(bytes[read]);
            read += 1;
            read += self.read_numbers(&bytes[read..]);
        }
        read
    }

    /// A digit, `:` or `;`.
    pub fn numeric(&mut self, byte: u8)
        requires { IsTrue (is_numeric byte) }
        ensures { (h : List ℕ) → ReadsHeader self.old h → ReadsHeader self.new (h ++ byte ∷ []) }
    {
        self.phase = after_numeric(self.phase);
        self.numbers.push(byte);
    }

    /// An intermediate, or a private byte, which is kept as one.
    #[inline]
    pub fn collect(&mut self, byte: u8)
        requires header { IsTrue (is_header byte) }
        requires other { is_numeric byte ≡ false }
        ensures { (h : List ℕ) → ReadsHeader self.old h → ReadsHeader self.new (h ++ byte ∷ []) }
    {
        self.phase = after_other(self.phase, byte);
        self.intermediates.push(byte);
    }

    /// Whether a sequence with this header is reported.
    #[inline]
    pub fn is_kept(&self) -> bool
        ensures kept { result ≡ is_kept self.now.phase }
        ensures well_formed { (h : List ℕ) → ReadsHeader self.now h → result ≡ is_well_formed h }
    {
        is_kept(self.phase)
    }

    /// The final byte of a control sequence.
    pub fn csi<P: Perform>(&mut self, performer: &mut P, byte: u8)
        ensures reported { P.step performer.old (csi_event self.new byte) performer.new }
        ensures is_reported { (h : List ℕ) → ReadsHeader self.old h
            → csi_event self.new byte ≡ Csi (kept_groups h) (kept_intermediates h) (overflows h) byte }
    {
        self.numbers.finish();
        let numbers = &self.numbers;
        let intermediates = &self.intermediates;
        let ignore = numbers.many || intermediates.many;
        performer.csi_dispatch(
            &numbers.params,
            intermediates.kept.as_slice(),
            ignore,
            byte as char,
        );
    }

    /// The final byte of a device control string's header.
    pub fn hook<P: Perform>(&mut self, performer: &mut P, byte: u8)
        ensures reported { P.step performer.old (hook_event self.new byte) performer.new }
        ensures is_reported { (h : List ℕ) → ReadsHeader self.old h
            → hook_event self.new byte ≡ Hook (kept_groups h) (kept_intermediates h) (overflows h) byte }
    {
        self.numbers.finish();
        let numbers = &self.numbers;
        let intermediates = &self.intermediates;
        let ignore = numbers.many || intermediates.many;
        performer.hook(
            &numbers.params,
            intermediates.kept.as_slice(),
            ignore,
            byte as char,
        );
    }
}
