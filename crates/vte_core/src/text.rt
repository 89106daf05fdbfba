//! Ground text: the characters of UTF-8 (the Unicode Standard, section 3.9, table 3-7).
//!
//! What lies between two controls is checked at once; a character that is cut, or malformed, is read byte by byte.
//!
//! A malformed sequence is the longest prefix of what follows that also begins a well-formed character, at least one
//! byte: the length that `str::from_utf8` reports.

ghost use Rattle.std.specs.Prelude.{◌≡◌, ◌==◌, ◌+◌, ◌-◌, ◌<◌, ◌≤◌, ℕ, List, [], ◌∷◌, ◌++◌, length, drop, map, IfSome};
ghost use Rattle.std.specs.Prelude.{IsTrue, true, false, slice_index, take, All};
ghost use Rattle.std.specs.Str.{IsUtf8};
ghost use Rattle.printable.specs.Printable.{IsPrintable};
ghost use Rattle.vte_core.specs.Bytes.{each, is_c0, is_esc, is_printed_ascii};
ghost use Rattle.vte_core.specs.Runs.{ReadsText, TellsEach, run_reported, run_rest, is_printed, printed_len};
ghost use Rattle.vte_core.specs.Shapes.{before};
ghost use Rattle.vte_core.specs.Event.{Event, Print, Execute, Performs};
ghost use Rattle.vte_core.specs.Text.{char_len, second_min, second_max, first_bits, joined, char_event};
ghost use Rattle.vte_core.specs.Text.{malformed_event};
ghost use Rattle.vte_core.specs.Pending.{IsUnfinished, begun, begun_rest, text_reported, text_rest, goes_on};
ghost use Rattle.vte_core.specs.Pending.{whole_goes_on, IsWhole, BeginsLong, code_of};
ghost use Rattle.std.specs.Char.{InScalarRange};
ghost use Rattle.std.specs.Int.{is_in_range};

use crate::Perform;
use crate::thresholds::{BLOCK_LEN, LINE_LEN};
use arrayvec::ArrayVec;
use printable::thresholds::FIRST_LEN;
use printable::{is_printable_byte, printable_len};
use simdutf8::compat::from_utf8;
use std::marker::Model;
use std::str;

/// How many bytes a character with this first byte has, 0 if no character begins with it.
fn char_len(first: u8) -> usize
    ensures { result ≡ char_len first }
{
    match first {
        0..=0x7F => 1,
        0xC2..=0xDF => 2,
        0xE0..=0xEF => 3,
        0xF0..=0xF4 => 4,
        _ => 0,
    }
}

/// Whether the byte may come in a character after its first byte.
#[inline(always)]
fn is_tail(byte: u8) -> bool
    ensures { result ≡ is_in_range 0x80 0xBF byte }
{
    (0x80..=0xBF).contains(&byte)
}

/// Whether the byte continues the character that the bytes begin.
fn goes_on(bytes: &[u8], byte: u8) -> bool
    requires { 0 < length bytes.now }
    ensures { result ≡ whole_goes_on bytes.now byte }
{
    match bytes {
        [0xE0] => (0xA0..=0xBF).contains(&byte),
        [0xED] => (0x80..=0x9F).contains(&byte),
        [0xF0] => (0x90..=0xBF).contains(&byte),
        [0xF4] => (0x80..=0x8F).contains(&byte),
        _ => (0x80..=0xBF).contains(&byte),
    }
}

/// Reports a character: a control is executed, any other is printed.
fn report<P: Perform>(performer: &mut P, c: char)
    ensures { P.step performer.old (char_event c) performer.new }
{
    if c < ' ' || ('\u{80}'..='\u{9F}').contains(&c) {
        performer.execute(c as u8);
    } else {
        performer.print(c);
    }
}

/// The character with a code.
fn scalar(code: u32) -> char
    requires { InScalarRange code }
    ensures { result ≡ code }
{
    char::from_u32(code).unwrap()
}

/// The character that the bytes are.
fn character(bytes: &[u8]) -> char
    requires { IsWhole bytes.now }
    ensures { result ≡ code_of bytes.now }
{
    match bytes {
        [a] => scalar(*a as u32),
        [a, b] => scalar((*a as u32 - 0xC0) * 64 + (*b as u32 - 0x80)),
        [a, b, c] => {
            scalar(((*a as u32 - 0xE0) * 64 + (*b as u32 - 0x80)) * 64 + (*c as u32 - 0x80))
        }
        [a, b, c, d] => scalar(
            (((*a as u32 - 0xF0) * 64 + (*b as u32 - 0x80)) * 64 + (*c as u32 - 0x80)) * 64
                + (*d as u32 - 0x80),
        ),
        _ => unreachable!(),
    }
}

/// Reports a byte that alone is a malformed sequence.
#[inline(always)]
fn report_malformed<P: Perform>(performer: &mut P, byte: u8)
    ensures { P.step performer.old (malformed_event 1 byte) performer.new }
{
    if (0x80..=0x9F).contains(&byte) {
        performer.execute(byte);
    } else {
        performer.print('\u{FFFD}');
    }
}

/// Reads a byte after whole characters: it begins a character, is one, or is malformed.
fn begin<P: Perform>(unfinished: &mut ArrayVec<u8, 4>, performer: &mut P, byte: u8)
    requires { unfinished.old.items ≡ [] }
    ensures reported { Performs P.step performer.old (begun byte) performer.new }
    ensures rest { unfinished.new.items ≡ begun_rest byte }
{
    match char_len(byte) {
        1 => report(performer, byte as char),
        0 => report_malformed(performer, byte),
        _ => unfinished.push(byte),
    }
}

/// Reads a byte of ground text, other than ESC, after the first bytes of a character, or none.
#[inline(always)]
fn text_byte<P: Perform>(unfinished: &mut ArrayVec<u8, 4>, performer: &mut P, byte: u8)
    requires { IsUnfinished unfinished.old.items }
    ensures reported { Performs P.step performer.old (text_reported unfinished.old.items byte) performer.new }
    ensures rest { unfinished.new.items ≡ text_rest unfinished.old.items byte }
{
    if unfinished.is_empty() {
        begin(unfinished, performer, byte);
    } else if goes_on(unfinished.as_slice(), byte) {
        unfinished.push(byte);
        if unfinished.len() == char_len(unfinished.as_slice()[0]) {
            let c = character(unfinished.as_slice());
            *unfinished = ArrayVec::new();
            report(performer, c);
        }
    } else {
        *unfinished = ArrayVec::new();
        performer.print('\u{FFFD}');
        begin(unfinished, performer, byte);
    }
}

/// The bytes of a character that isn't whole yet.
#[derive(Drop)]
pub struct Unfinished {
    bytes: ArrayVec<u8, 4>,
}

impl Model for Unfinished {
    ghost use Rattle.std.specs.Prelude.{List, ℕ};
    ghost use Rattle.vte_core.specs.Pending.{IsUnfinished};

    ghost Value = { List ℕ };

    ghost view = { λ x. x.bytes.items };

    ghost invariant = { λ x. IsUnfinished x.bytes.items };
}

impl Unfinished {
    /// No bytes: no character is begun.
    pub fn new() -> Self
        ensures { result ≡ [] }
    {
        Unfinished {
            bytes: ArrayVec::new(),
        }
    }

    /// Whether no character is begun.
    pub fn is_empty(&self) -> bool
        ensures { result ≡ (length self.now == 0) }
    {
        self.bytes.is_empty()
    }

    /// Drops the bytes of the character that was begun.
    pub fn clear(&mut self)
        ensures { self.new ≡ [] }
    {
        self.bytes = ArrayVec::new();
    }

    /// Reads a byte of ground text, other than ESC.
    #[inline(always)]
    pub fn read_byte<P: Perform>(&mut self, performer: &mut P, byte: u8)
        ensures reported { Performs P.step performer.old (text_reported self.old byte) performer.new }
        ensures rest { self.new ≡ text_rest self.old byte }
    {
        text_byte(&mut self.bytes, performer, byte);
    }
}

/// Whether `byte`, followed by `rest`, starts a printable character.
fn is_printed(byte: u8, rest: &[u8]) -> bool
    ensures { result ≡ is_printed byte rest.now }
{
    if byte != 0xC2 {
        return byte >= 0x20;
    }
    match rest {
        [next, ..] => !(0x80..=0x9F).contains(next),
        [] => true,
    }
}

/// Whether `byte`, followed by `next`, starts a printable character.
#[inline(always)]
fn is_printed_before(byte: u8, next: u8) -> bool
    ensures { result ≡ is_printed byte (next ∷ []) }
{
    (byte >= 0x20) & ((byte != 0xC2) | !(0x80..=0x9F).contains(&next))
}

/// Whether every byte of the first block starts or continues a printable character.
#[inline(always)]
fn begins_printed(bytes: &[u8]) -> bool
    requires { 16 < length bytes.now }
    ensures { IsTrue result → 16 + printed_len (drop 16 bytes.now) ≡ printed_len bytes.now }
{
    let mut are_printed = true;
    for i in 0..BLOCK_LEN {
        are_printed &= is_printed_before(bytes[i], bytes[i + 1]);
    }
    are_printed
}

/// How many bytes lie in whole blocks that are printed.
fn block_len(bytes: &[u8]) -> usize
    ensures within { result ≤ length bytes.now }
    ensures printed { result + printed_len (drop result bytes.now) ≡ printed_len bytes.now }
{
    let mut len = 0;
    while bytes.len() - len > BLOCK_LEN {
        if !begins_printed(&bytes[len..]) {
            return len;
        }
        len += BLOCK_LEN;
    }
    len
}

/// How many bytes come before the next control that is executed.
fn printed_len(bytes: &[u8]) -> usize
    ensures { result ≡ printed_len bytes.now }
{
    let mut len = block_len(bytes);
    while len < bytes.len() {
        if !is_printed(bytes[len], &bytes[len + 1..]) {
            return len;
        }
        len += 1;
    }
    len
}

/// Whether the two bytes begin a character of two bytes or more.
#[inline(always)]
fn is_begun(first: u8, second: u8) -> bool
    ensures begun { IsTrue result → 1 < char_len first }
    ensures goes_on { IsTrue result → goes_on first [] second ≡ true }
    ensures not_begun { result ≡ false → 1 < char_len first → goes_on first [] second ≡ false }
{
    ((0xC2..=0xF4).contains(&first) & is_tail(second)) && goes_on(&[first], second)
}

/// How long the character is that the first two bytes begin, 0 where it isn't whole.
#[inline(always)]
fn begun_len(bytes: &[u8]) -> usize
    requires { BeginsLong bytes.now }
    ensures within { result ≤ length bytes.now }
    ensures long { 0 < result → 1 < result }
    ensures whole { 0 < result → IsWhole (take result bytes.now) }
{
    match bytes {
        [first, ..] if *first < 0xE0 => 2,
        [first, _, third, ..] if *first < 0xF0 && is_tail(*third) => 3,
        [first, _, third, fourth, ..] if *first >= 0xF0 && is_tail(*third) && is_tail(*fourth) => {
            4
        }
        _ => 0,
    }
}

/// Whether the bytes begin with a whole character of two bytes or more.
#[inline(always)]
fn begins_long(bytes: &[u8]) -> bool {
    match bytes {
        [first, second, ..] if is_begun(*first, *second) => begun_len(bytes) > 0,
        _ => false,
    }
}

/// Whether the bytes begin with a whole character. Where they don't it's quicker to read them one by one.
#[inline(always)]
fn begins_whole(bytes: &[u8]) -> bool
    requires { 0 < length bytes.now }
{
    bytes[0] < 0x80 || begins_long(bytes)
}

/// How many bytes come before the next control that is executed, where a character may begin; else 0.
#[inline(always)]
fn text_len(bytes: &[u8]) -> usize
    requires { 0 < length bytes.now }
    ensures within { result ≤ length bytes.now }
    ensures printed { printed_len (take result bytes.now) ≡ length (take result bytes.now) }
{
    if !begins_whole(bytes) {
        return 0;
    }
    printed_len(bytes)
}

/// The control from U+0080 to U+009F at the start, which has two bytes.
#[inline(always)]
fn c1(bytes: &[u8]) -> Option<u8>
    ensures { IfSome result (λ b. IsTrue (is_in_range 0x80 0x9F b) × (take 2 bytes.now ≡ 0xC2 ∷ b ∷ [])) }
{
    match bytes {
        [0xC2, second, ..] if (0x80..=0x9F).contains(second) => Some(*second),
        _ => None,
    }
}

/// Whether the byte is a character of ASCII that is printed, DEL among them.
#[inline(always)]
fn is_printed_ascii(byte: u8) -> bool
    ensures { result ≡ is_printed_ascii byte }
{
    (0x20..=0x7F).contains(&byte)
}

/// Whether text of ASCII before these bytes ends with them: at a control, or at a byte that begins no character.
#[inline(always)]
fn ends_text(bytes: &[u8]) -> bool {
    match bytes {
        [] => true,
        [next, ..] => !is_printed_ascii(*next) && (*next < 0xC2 || !begins_long(bytes)),
    }
}

/// The characters of ASCII that the bytes are.
#[inline(always)]
fn ascii_text(bytes: &[u8]) -> &str
    requires { All IsPrintable bytes.now }
    ensures { result.now ≡ bytes.now }
{
    unsafe { str::from_utf8_unchecked(bytes) }
}

/// Prints the byte if it's printable ASCII. Returns how many characters it printed.
#[inline(always)]
fn print_alone<P: Perform>(performer: &mut P, byte: u8) -> usize
    ensures few { result ≤ 1 }
    ensures printable { All IsPrintable (take result (byte ∷ [])) }
    ensures reported { Performs P.step performer.old (map Print (take result (byte ∷ []))) performer.new }
{
    if !is_printable_byte(byte) {
        return 0;
    }
    performer.print(byte as char);
    1
}

/// Whether each of the bytes is a control of ASCII, other than ESC.
#[inline(always)]
fn are_controls(bytes: &[u8]) -> bool
    ensures { IsTrue result → each is_c0 bytes.now ≡ true }
{
    let mut are_controls = true;
    for byte in bytes {
        are_controls &= (*byte < 0x20) & (*byte != 0x1B);
    }
    are_controls
}

/// How many bytes lie in whole blocks of controls of ASCII.
#[inline(always)]
fn control_block_len(bytes: &[u8]) -> usize
    ensures within { result ≤ length bytes.now }
    ensures controls { each is_c0 (take result bytes.now) ≡ true }
{
    let mut len = 0;
    while bytes.len() - len >= BLOCK_LEN && are_controls(&bytes[len..len + BLOCK_LEN]) {
        len += BLOCK_LEN;
    }
    len
}

/// Executes the controls of ASCII at the start, up to ESC, and returns how many they are.
#[inline(always)]
fn execute_controls<P: Perform>(performer: &mut P, bytes: &[u8]) -> usize
    ensures { TellsEach P.step is_c0 Execute performer.old bytes.now result performer.new }
{
    let mut read = control_block_len(bytes);
    performer.execute_all(&bytes[..read]);
    while read < bytes.len() && bytes[read] < 0x20 && bytes[read] != 0x1B {
        performer.execute(bytes[read]);
        read += 1;
    }
    read
}

/// The longest text at the start of the bytes.
fn text_prefix(bytes: &[u8]) -> &str
    ensures text { IsUtf8 result.now }
    ensures prefix { result.now ≡ take (length result.now) bytes.now }
    ensures within { length result.now ≤ length bytes.now }
{
    match from_utf8(bytes) {
        Ok(text) => text,
        Err(error) => unsafe { str::from_utf8_unchecked(&bytes[..error.valid_up_to()]) },
    }
}

impl Unfinished {
    /// Reads the text at the start of bytes without controls, or else one byte, and returns how many it read.
    fn read_prefix<P: Perform>(&mut self, performer: &mut P, bytes: &[u8]) -> usize
        requires not_empty { 0 < length bytes.now }
        requires printed { printed_len bytes.now ≡ length bytes.now }
        ensures some { 0 < result }
        ensures within { result ≤ length bytes.now }
        ensures reported { Performs P.step performer.old (run_reported self.old (take result bytes.now)) performer.new }
        ensures rest { self.new ≡ run_rest self.old (take result bytes.now) }
    {
        if self.is_empty() && begins_whole(bytes) {
            let text = text_prefix(bytes);
            if !text.is_empty() {
                performer.print_str(text);
                return text.len();
            }
        }
        self.read_byte(performer, bytes[0]);
        1
    }

    /// Reads ground text without controls.
    fn read_printed<P: Perform>(&mut self, performer: &mut P, bytes: &[u8])
        requires { printed_len bytes.now ≡ length bytes.now }
        ensures reported { Performs P.step performer.old (run_reported self.old bytes.now) performer.new }
        ensures rest { self.new ≡ run_rest self.old bytes.now }
    {
        let mut read = 0;
        while read < bytes.len() {
            read += self.read_prefix(performer, &bytes[read..]);
        }
    }

    /// Reads ground text after whole characters, at most up to the next control, or else one byte, and returns how many
    /// bytes it read.
    fn read_mixed<P: Perform>(&mut self, performer: &mut P, bytes: &[u8]) -> usize
        requires some { 0 < length bytes.now }
        requires text { is_esc (slice_index bytes.now 0) ≡ false }
        requires none { self.old ≡ [] }
        ensures { ReadsText P.step self.old performer.old bytes.now result performer.new self.new }
    {
        let len = text_len(bytes);
        if len == 0 {
            self.read_byte(performer, bytes[0]);
            return 1;
        }
        if len <= LINE_LEN {
            return self.read_prefix(performer, &bytes[..len]);
        }
        self.read_printed(performer, &bytes[..len]);
        len
    }

    /// Reads the characters of ASCII at the start, and with them the text after them, and returns how many bytes it
    /// read.
    #[inline(always)]
    fn read_ascii<P: Perform>(&mut self, performer: &mut P, bytes: &[u8]) -> usize
        requires some { 0 < length bytes.now }
        requires printed { is_printed_ascii (slice_index bytes.now 0) ≡ true }
        requires none { self.old ≡ [] }
        ensures { ReadsText P.step self.old performer.old bytes.now result performer.new self.new }
    {
        let is_alone = ends_text(&bytes[1..]);
        if is_alone {
            performer.print(bytes[0] as char);
            return 1;
        }
        let len = printable_len(bytes);
        if len > 0 && ends_text(&bytes[len..]) {
            performer.print_ascii(ascii_text(&bytes[..len]));
            return len;
        }
        self.read_mixed(performer, bytes)
    }

    /// Keeps the bytes of a character that isn't whole.
    #[inline(always)]
    fn keep(&mut self, bytes: &[u8])
        requires begun { IsUnfinished bytes.now }
        requires few { length bytes.now ≤ 3 }
        ensures { self.new ≡ bytes.now }
    {
        let mut kept: ArrayVec<u8, 4> = ArrayVec::new();
        for byte in bytes {
            kept.push(*byte);
        }
        self.bytes = kept;
    }

    /// Reads the malformed sequence of two or three bytes at the start, or else one byte, and returns how many bytes it
    /// read.
    #[inline(always)]
    fn read_malformed<P: Perform>(&mut self, performer: &mut P, bytes: &[u8]) -> usize
        requires begins { BeginsLong bytes.now }
        requires none { self.old ≡ [] }
        ensures { ReadsText P.step self.old performer.old bytes.now result performer.new self.new }
    {
        match bytes {
            [first, _, third, ..] if *first >= 0xE0 && !is_tail(*third) && *third != 0x1B => {
                performer.print('\u{FFFD}');
                2
            }
            [first, _, third, fourth, ..]
                if *first >= 0xF0 && is_tail(*third) && !is_tail(*fourth) && *fourth != 0x1B => {
                performer.print('\u{FFFD}');
                3
            }
            [first, _, third, 0x1B, ..] if *first >= 0xF0 && is_tail(*third) => {
                self.keep(&bytes[..3]);
                3
            }
            _ => {
                self.read_byte(performer, bytes[0]);
                1
            }
        }
    }

    /// Reads a character of two bytes or more and the text after it, or the malformed sequence of two bytes or more at
    /// the start, or else one byte, and returns how many bytes it read.
    #[inline(always)]
    fn read_character<P: Perform>(&mut self, performer: &mut P, bytes: &[u8]) -> usize
        requires begins { BeginsLong bytes.now }
        requires none { self.old ≡ [] }
        ensures { ReadsText P.step self.old performer.old bytes.now result performer.new self.new }
    {
        if let Some(control) = c1(bytes) {
            performer.execute(control);
            return 2;
        }
        let len = begun_len(bytes);
        if len == 0 {
            return self.read_malformed(performer, bytes);
        }
        if ends_text(&bytes[len..]) {
            report(performer, character(&bytes[..len]));
            return len;
        }
        self.read_mixed(performer, bytes)
    }

    /// Reads a character of two bytes or more and the text after it, or a malformed sequence, or else one byte, and
    /// returns how many bytes it read.
    #[inline(always)]
    fn read_multibyte<P: Perform>(&mut self, performer: &mut P, bytes: &[u8]) -> usize
        requires some { 0 < length bytes.now }
        requires high { 0x80 ≤ slice_index bytes.now 0 }
        requires none { self.old ≡ [] }
        ensures { ReadsText P.step self.old performer.old bytes.now result performer.new self.new }
    {
        match bytes {
            [first, second, ..] if is_begun(*first, *second) => self.read_character(
                performer, bytes,
            ),
            [first, second, ..] if *second != 0x1B => {
                report_malformed(performer, *first);
                1
            }
            _ => {
                self.read_byte(performer, bytes[0]);
                1
            }
        }
    }

    /// Reads some ground text before the next ESC, after whole characters, and returns how many bytes it read.
    #[inline(always)]
    fn read_at_boundary<P: Perform>(&mut self, performer: &mut P, bytes: &[u8]) -> usize
        requires some { 0 < length bytes.now }
        requires text { is_esc (slice_index bytes.now 0) ≡ false }
        requires none { self.old ≡ [] }
        ensures { ReadsText P.step self.old performer.old bytes.now result performer.new self.new }
    {
        if bytes[0] < 0x20 {
            performer.execute(bytes[0]);
            return 1 + execute_controls(performer, &bytes[1..]);
        }
        if bytes[0] < 0x80 {
            self.read_ascii(performer, bytes)
        } else {
            self.read_multibyte(performer, bytes)
        }
    }

    /// Reads a byte that continues the character that was begun, or else some ground text after the U+FFFD of that
    /// character, and returns how many bytes it read.
    fn resume<P: Perform>(&mut self, performer: &mut P, bytes: &[u8]) -> usize
        requires some { 0 < length bytes.now }
        requires text { is_esc (slice_index bytes.now 0) ≡ false }
        requires begun { 0 < length self.old }
        ensures { ReadsText P.step self.old performer.old bytes.now result performer.new self.new }
    {
        if goes_on(self.bytes.as_slice(), bytes[0]) {
            self.read_byte(performer, bytes[0]);
            return 1;
        }
        self.clear();
        performer.print('\u{FFFD}');
        self.read_at_boundary(performer, bytes)
    }

    /// Reads some ground text before the next ESC, and returns how many bytes it read.
    #[inline(always)]
    fn read_some<P: Perform>(&mut self, performer: &mut P, bytes: &[u8]) -> usize
        requires some { 0 < length bytes.now }
        requires text { is_esc (slice_index bytes.now 0) ≡ false }
        ensures { ReadsText P.step self.old performer.old bytes.now result performer.new self.new }
    {
        if self.is_empty() {
            self.read_at_boundary(performer, bytes)
        } else {
            self.resume(performer, bytes)
        }
    }

    /// Reads inline text: one to eight printable characters of ASCII up to the next ESC. Returns how many bytes it
    /// read: 0 if other text is at the start.
    #[inline(always)]
    pub fn read_inline<P: Perform>(&mut self, performer: &mut P, bytes: &[u8]) -> usize
        requires room { 8 < length bytes.now }
        requires whole { self.old ≡ [] }
        ensures within { result < length bytes.now }
        ensures len { 0 < result → result ≡ length (before is_esc bytes.now) }
        ensures reported { Performs P.step performer.old (run_reported [] (take result bytes.now)) performer.new }
        ensures rest { run_rest [] (take result bytes.now) ≡ [] }
        ensures whole { self.new ≡ [] }
    {
        if bytes[0] == 0x1B {
            return 0;
        }
        if bytes[1] == 0x1B {
            return print_alone(performer, bytes[0]);
        }
        let len = printable_len(&bytes[..FIRST_LEN]);
        if bytes[len] != 0x1B {
            return 0;
        }
        performer.print_ascii(ascii_text(&bytes[..len]));
        len
    }

    /// Reads as [`read_some`](Self::read_some) does.
    // Never inlined, so that `read` has one copy of `read_some`, for the first piece, which mostly is the only one.
    #[inline(never)]
    fn read_more<P: Perform>(&mut self, performer: &mut P, bytes: &[u8]) -> usize
        requires some { 0 < length bytes.now }
        requires text { is_esc (slice_index bytes.now 0) ≡ false }
        ensures { ReadsText P.step self.old performer.old bytes.now result performer.new self.new }
    {
        self.read_some(performer, bytes)
    }

    /// Reads ground text up to the next ESC, and returns how many bytes it read. The first piece is mostly the only
    /// one.
    #[inline(always)]
    pub fn read<P: Perform>(&mut self, performer: &mut P, bytes: &[u8]) -> usize
        requires some { 0 < length bytes.now }
        requires text { is_esc (slice_index bytes.now 0) ≡ false }
        ensures len { result ≡ length (before is_esc bytes.now) }
        ensures reported { Performs P.step performer.old (run_reported self.old (take result bytes.now)) performer.new }
        ensures rest { self.new ≡ run_rest self.old (take result bytes.now) }
    {
        let mut read = self.read_some(performer, bytes);
        while read < bytes.len() && bytes[read] != 0x1B {
            read += self.read_more(performer, &bytes[read..]);
        }
        read
    }
}
