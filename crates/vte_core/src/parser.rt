//! The parser: what each byte does in each state, and how bytes are read many at a time.

ghost use Rattle.std.specs.Prelude.{◌≡◌, ◌≢◌, ◌<◌, ◌≤◌, ℕ, List, [], ◌∷◌, ◌++◌, length, IsTrue, take, drop};
ghost use Rattle.std.specs.Prelude.{slice_index, false, true, not, ◌&&◌, ◌==◌, IfSome};
ghost use Rattle.std.specs.Int.{is_in_range};
ghost use Rattle.vte_core.specs.Byte.{ReadsByte, ReadsOther};
ghost use Rattle.vte_core.specs.Bytes.{each, is_device_data, is_esc, is_private, is_swallowed, opens_sequence};
ghost use Rattle.vte_core.specs.Event as e;
ghost use Rattle.vte_core.specs.Event.{Performs};
ghost use Rattle.vte_core.specs.StepEvents.{final_events};
ghost use Rattle.vte_core.specs.Pending.{Pending, InEscape, final_rest, final_reported};
ghost use Rattle.vte_core.specs.Reads.{BeginsWithEsc, IsAtEsc, Reads, ReadsOn, ReadsStep, ReadsQuietly, ReadsWhole};
ghost use Rattle.vte_core.specs.Runs.{TellsEach, is_one_step};
ghost use Rattle.vte_core.specs.Standing.{IsAt, IsAfter, state_is_text};
ghost use Rattle.vte_core.specs.Stopping.{Stops};
ghost use Rattle.vte_core.specs.Reported.{Reported};

use crate::header::{Header, is_intermediate};
use crate::intermediates::Intermediates;
use crate::osc_data::{OscData, data_len, report_whole};
use crate::params::Params;
use crate::perform::Perform;
use crate::table::{Action, step_of};
use crate::text::Unfinished;
use crate::thresholds::TURN_LEN;

/// What the bytes so far have begun.
#[derive(Clone, Copy)]
pub enum State {
    Ground,
    Escape,
    Csi,
    OscString,
    DcsHeader,
    DcsPassthrough,
    SosPmApcString,
}

/// Reads bytes and reports their events to a performer. It keeps the first N data bytes of an operating system command.
///
/// Each call's contract speaks of every past of the parser: the bytes that it has read since it was created. A new
/// parser has the empty past.
#[derive(Drop)]
pub struct Parser<const N: usize> {
    state: State,
    /// The first bytes of a character in ground text.
    unfinished: Unfinished,
    /// The intermediates of an escape sequence.
    intermediates: Intermediates,
    /// The header of a control sequence or a device control string.
    header: Header,
    osc: OscData<N>,
}

impl Parser<1024> {
    /// A parser that keeps 1,024 bytes of an operating system command's data.
    pub fn new() -> Self
        ensures { IsAfter 1024 result [] }
    {
        Parser::new_with_size()
    }
}

impl<const N: usize> Default for Parser<N> {
    ghost is_default = { λ parser. IsAfter N parser [] };

    fn default() -> Self {
        Parser::new_with_size()
    }
}

impl<const N: usize> Parser<N> {
    /// A parser that keeps N bytes of an operating system command's data.
    pub fn new_with_size() -> Self
        ensures { IsAfter N result [] }
    {
        Parser {
            state: State::Ground,
            unfinished: Unfinished::new(),
            intermediates: Intermediates::new(),
            header: Header::new(),
            osc: OscData::new(),
        }
    }

    /// ESC ends what was begun, and begins an escape sequence.
    fn begin_escape<P: Perform>(&mut self, performer: &mut P)
        ensures reads { ReadsByte P.step N self.old performer.old 0x1B self.new performer.new }
        ensures state { self.new.state ≡ State.Escape }
    {
        match self.state {
            State::Ground => {
                if !self.unfinished.is_empty() {
                    self.unfinished.clear();
                    performer.print('\u{FFFD}');
                }
            }
            State::OscString => self.osc.dispatch(performer, false),
            State::DcsPassthrough => performer.unhook(),
            _ => {}
        }
        self.state = State::Escape;
        self.intermediates.clear();
    }

    /// A byte of an escape sequence, other than ESC.
    fn escape<P: Perform>(&mut self, performer: &mut P, byte: u8)
        requires state { self.old.state ≡ State.Escape }
        requires not_esc { byte ≢ 0x1B }
        ensures { ReadsOther P.step N State.Escape self.old performer.old byte self.new performer.new }
    {
        let (action, next) = step_of(State::Escape, byte);
        match action {
            Action::Abort => {
                self.state = next;
                performer.execute(byte);
            }
            Action::Execute => performer.execute(byte),
            Action::Collect => self.intermediates.push(byte),
            Action::Dispatch => self.end_escape(performer, byte),
            _ => {}
        }
    }

    /// The final byte of an escape sequence: it begins a control sequence or a string, or is reported.
    fn end_escape<P: Perform>(&mut self, performer: &mut P, byte: u8)
        requires { self.old.state ≡ State.Escape }
        ensures state_after { (is : List ℕ) → IsAt N self.old (InEscape is) → IsAt N self.new (final_rest is byte) }
        ensures reported { Performs P.step performer.old (final_events self.old.intermediates byte) performer.new }
        ensures is_reported { (is : List ℕ) → IsAt N self.old (InEscape is)
            → final_events self.old.intermediates byte ≡ final_reported is byte }
    {
        let is_unmarked = self.intermediates.kept.is_empty();
        match byte {
            b'[' if is_unmarked => {
                self.state = State::Csi;
                self.header.clear();
            }
            b']' if is_unmarked => {
                self.state = State::OscString;
                self.osc.clear();
            }
            b'P' if is_unmarked => {
                self.state = State::DcsHeader;
                self.header.clear();
            }
            b'X' | b'^' | b'_' if is_unmarked => self.state = State::SosPmApcString,
            _ => {
                self.state = State::Ground;
                performer.esc_dispatch(
                    self.intermediates.kept.as_slice(),
                    self.intermediates.many,
                    byte,
                );
            }
        }
    }

    /// The final byte of a control sequence.
    #[inline(always)]
    fn dispatch_csi<P: Perform>(&mut self, performer: &mut P, byte: u8)
        requires state { self.old.state ≡ State.Csi }
        requires is_final { is_in_range 0x40 0x7E byte ≡ true }
        ensures { ReadsOther P.step N State.Csi self.old performer.old byte self.new performer.new }
    {
        self.state = State::Ground;
        if self.header.is_kept() {
            self.header.csi(performer, byte);
        }
    }

    /// A byte of a control sequence, other than ESC.
    fn csi<P: Perform>(&mut self, performer: &mut P, byte: u8)
        requires state { self.old.state ≡ State.Csi }
        requires not_esc { byte ≢ 0x1B }
        ensures { ReadsOther P.step N State.Csi self.old performer.old byte self.new performer.new }
    {
        let (action, next) = step_of(State::Csi, byte);
        match action {
            Action::Abort => {
                self.state = next;
                performer.execute(byte);
            }
            Action::Execute => performer.execute(byte),
            Action::Param => self.header.numeric(byte),
            Action::Collect => self.header.collect(byte),
            Action::Dispatch => self.dispatch_csi(performer, byte),
            _ => {}
        }
    }

    /// A byte of an operating system command, other than ESC.
    fn osc_string<P: Perform>(&mut self, performer: &mut P, byte: u8)
        requires state { self.old.state ≡ State.OscString }
        requires not_esc { byte ≢ 0x1B }
        ensures { ReadsOther P.step N State.OscString self.old performer.old byte self.new performer.new }
    {
        let (action, next) = step_of(State::OscString, byte);
        match action {
            Action::Abort => {
                self.state = next;
                self.osc.dispatch(performer, false);
                performer.execute(byte);
            }
            Action::End => {
                self.state = next;
                self.osc.dispatch(performer, true);
            }
            Action::Put => self.osc.push(byte),
            _ => {}
        }
    }

    /// A byte of a device control string's header, other than ESC.
    fn dcs_header<P: Perform>(&mut self, performer: &mut P, byte: u8)
        requires state { self.old.state ≡ State.DcsHeader }
        requires not_esc { byte ≢ 0x1B }
        ensures { ReadsOther P.step N State.DcsHeader self.old performer.old byte self.new performer.new }
    {
        let (action, next) = step_of(State::DcsHeader, byte);
        match action {
            Action::Abort => {
                self.state = next;
                performer.execute(byte);
            }
            Action::Param => self.header.numeric(byte),
            Action::Collect => self.header.collect(byte),
            Action::Dispatch => {
                if self.header.is_kept() {
                    self.state = next;
                    self.header.hook(performer, byte);
                } else {
                    self.state = State::SosPmApcString;
                }
            }
            _ => {}
        }
    }

    /// A byte of a device control string's data, other than ESC. 0x9C is ST as one byte.
    fn dcs_passthrough<P: Perform>(&mut self, performer: &mut P, byte: u8)
        requires state { self.old.state ≡ State.DcsPassthrough }
        requires not_esc { byte ≢ 0x1B }
        ensures { ReadsOther P.step N State.DcsPassthrough self.old performer.old byte self.new performer.new }
    {
        let (action, next) = step_of(State::DcsPassthrough, byte);
        match action {
            Action::Abort | Action::End => {
                self.state = next;
                performer.unhook();
                if let Action::Abort = action {
                    performer.execute(byte);
                }
            }
            Action::Put => performer.put(byte),
            _ => {}
        }
    }

    /// A byte of a start of string, a privacy message, an application program command or an ignored device control
    /// string, other than ESC.
    fn sos_pm_apc_string<P: Perform>(&mut self, performer: &mut P, byte: u8)
        requires state { self.old.state ≡ State.SosPmApcString }
        requires not_esc { byte ≢ 0x1B }
        ensures { ReadsOther P.step N State.SosPmApcString self.old performer.old byte self.new performer.new }
    {
        let (action, next) = step_of(State::SosPmApcString, byte);
        match action {
            Action::Abort => {
                self.state = next;
                performer.execute(byte);
            }
            _ => {}
        }
    }

    /// A byte of ground text, other than ESC.
    fn ground<P: Perform>(&mut self, performer: &mut P, byte: u8)
        requires { self.old.state ≡ State.Ground }
        ensures { ReadsOther P.step N State.Ground self.old performer.old byte self.new performer.new }
    {
        self.unfinished.read_byte(performer, byte);
    }

    /// A byte.
    fn byte<P: Perform>(&mut self, performer: &mut P, byte: u8)
        ensures { ReadsByte P.step N self.old performer.old byte self.new performer.new }
    {
        if byte == 0x1B {
            self.begin_escape(performer);
            return;
        }
        match self.state {
            State::Ground => self.ground(performer, byte),
            State::Escape => self.escape(performer, byte),
            State::Csi => self.csi(performer, byte),
            State::OscString => self.osc_string(performer, byte),
            State::DcsHeader => self.dcs_header(performer, byte),
            State::DcsPassthrough => self.dcs_passthrough(performer, byte),
            State::SosPmApcString => self.sos_pm_apc_string(performer, byte),
        }
    }

    /// A byte that mostly is the final one of a sequence, or ends a command, since those before it had no event. ESC is
    /// looked for first, and then what comes most often.
    #[inline(always)]
    fn likely_final<P: Perform>(&mut self, performer: &mut P, byte: u8)
        ensures { ReadsByte P.step N self.old performer.old byte self.new performer.new }
    {
        if byte == 0x1B {
            self.begin_escape(performer);
            return;
        }
        match self.state {
            State::Csi if is_final(byte) => self.dispatch_csi(performer, byte),
            State::Escape if is_escape_final(byte) => self.end_escape(performer, byte),
            State::OscString => self.osc_string(performer, byte),
            _ => self.byte(performer, byte),
        }
    }

    /// Reads what has no event after ESC: more ESCs, or `[` and a header, or `]` and a command's data. Returns how
    /// many bytes they are.
    #[inline(always)]
    fn open_sequence(&mut self, bytes: &[u8]) -> usize
        requires { self.old.state ≡ State.Escape }
        ensures reads { ReadsQuietly N self.old bytes.now result self.new }
        ensures inside { state_is_text self.new.state ≡ false }
    {
        match bytes {
            [0x1B, ..] => {
                self.intermediates.clear();
                esc_len(bytes)
            }
            [b'[', rest @ ..] if self.intermediates.kept.is_empty() => {
                self.state = State::Csi;
                self.header.clear();
                1 + self.header.read(rest)
            }
            [b']', rest @ ..] if self.intermediates.kept.is_empty() => {
                self.state = State::OscString;
                self.osc.clear();
                1 + self.osc.read(rest)
            }
            _ => 0,
        }
    }

    /// Reads what follows ESC, up to and including the first byte that has an event. Returns how many bytes it read.
    #[inline(always)]
    fn read_escape<P: Perform>(&mut self, performer: &mut P, bytes: &[u8]) -> usize
        requires some { 0 < length bytes.now }
        requires escape { self.old.state ≡ State.Escape }
        ensures { ReadsStep P.step N self.old performer.old bytes.now result self.new performer.new }
    {
        let quiet = self.open_sequence(bytes);
        if quiet == bytes.len() {
            return quiet;
        }
        self.likely_final(performer, bytes[quiet]);
        quiet + 1
    }

    /// Reads the bytes at the start that have no event: a header, the data of a command, or what is swallowed. Returns
    /// how many they are.
    #[inline(always)]
    fn read_quiet(&mut self, bytes: &[u8]) -> usize
        ensures reads { ReadsQuietly N self.old bytes.now result self.new }
        ensures state { self.new.state ≡ self.old.state }
    {
        match self.state {
            State::Csi | State::DcsHeader => self.header.read(bytes),
            State::OscString => self.osc.read(bytes),
            State::SosPmApcString => swallowed_len(bytes),
            _ => 0,
        }
    }

    /// Reads what has no event, and the byte after it, if there is one. Returns how many bytes it read. It is called
    /// where a sequence goes on after ESC and the next byte. Where the performer isn't asked, a device control
    /// string's data is read at once.
    // Never inlined, since it is rare beside `read_escape`. One comparison then decides which of the two is called.
    #[inline(never)]
    fn read_inside<P: Perform, const ASKED: bool>(
        &mut self,
        performer: &mut P,
        bytes: &[u8],
    ) -> usize
        requires some { 0 < length bytes.now }
        requires inside { state_is_text self.old.state ≡ false }
        ensures { ReadsOn P.step P.is_terminated ASKED N self.old performer.old bytes.now result
            self.new performer.new }
    {
        match self.state {
            State::DcsPassthrough if !ASKED => return self.read_data(performer, bytes),
            _ => {}
        }
        let quiet = self.read_quiet(bytes);
        if quiet == bytes.len() {
            return quiet;
        }
        self.byte(performer, bytes[quiet]);
        quiet + 1
    }

    /// Reads a control sequence of a private byte and lone numbers, if it is whole at the start. Returns how many bytes
    /// it is, or else 0.
    // Never inlined, so that the more frequent sequences without a private byte keep the registers.
    #[inline(never)]
    fn read_private<P: Perform>(&mut self, performer: &mut P, bytes: &[u8]) -> usize
        requires { IsAtEsc N self.old bytes.now }
        ensures ground { self.new.state ≡ State.Ground }
        ensures whole { self.new.unfinished ≡ [] }
        ensures reads { ReadsWhole P.step N self.old performer.old bytes.now result self.new performer.new }
    {
        let [_, b'[', mark, rest @ ..] = bytes else {
            return 0;
        };
        if !is_private(*mark) {
            return 0;
        }
        let Some(len) = self.header.numbers.read_lone_numbers(rest) else {
            return 0;
        };
        if !is_final(rest[len]) {
            return 0;
        }
        dispatch_marked(
            &self.header.numbers.params,
            performer,
            *mark,
            rest[len] as char,
        );
        len + 4
    }

    /// Reads a control sequence of lone numbers, if it is whole at the start. It may have one intermediate after
    /// them, or a private byte before them. Returns how many bytes it is, or else 0.
    #[inline(always)]
    fn read_csi<P: Perform>(&mut self, performer: &mut P, bytes: &[u8]) -> usize
        requires { IsAtEsc N self.old bytes.now }
        ensures ground { self.new.state ≡ State.Ground }
        ensures whole { self.new.unfinished ≡ [] }
        ensures reads { ReadsWhole P.step N self.old performer.old bytes.now result self.new performer.new }
    {
        let [_, b'[', ..] = bytes else {
            return 0;
        };
        let Some(numbers) = self.header.numbers.read_lone_numbers(&bytes[2..]) else {
            return 0;
        };
        let len = 2 + numbers;
        let byte = bytes[len];
        if is_final(byte) {
            performer.csi_dispatch(&self.header.numbers.params, &[], false, byte as char);
            return len + 1;
        }
        if is_intermediate(byte) && len + 1 < bytes.len() && is_final(bytes[len + 1]) {
            dispatch_marked(
                &self.header.numbers.params,
                performer,
                byte,
                bytes[len + 1] as char,
            );
            return len + 2;
        }
        self.read_private(performer, bytes)
    }

    /// Reads an escape sequence with one intermediate or none, or an operating system command that BEL ends, if it is
    /// whole at the start. Returns how many bytes it is, or else 0.
    #[inline(always)]
    fn read_whole_escape<P: Perform>(&self, performer: &mut P, bytes: &[u8]) -> usize
        requires { IsAtEsc N self.now bytes.now }
        ensures { ReadsWhole P.step N self.now performer.old bytes.now result self.now performer.new }
    {
        let [_, byte, ..] = bytes else {
            return 0;
        };
        if is_escape_final(*byte) && !opens_sequence(*byte) {
            performer.esc_dispatch(&[], false, *byte);
            return 2;
        }
        if is_intermediate(*byte) && bytes.len() > 2 && is_escape_final(bytes[2]) {
            performer.esc_dispatch(&[*byte], false, bytes[2]);
            return 3;
        }
        self.read_command(performer, bytes)
    }

    /// Reads an operating system command that BEL ends, if it is whole at the start and all its data is kept.
    /// Returns how many bytes it is, or else 0.
    // Never inlined: a command is rare beside other sequences, and its pieces need stack.
    #[inline(never)]
    fn read_command<P: Perform>(&self, performer: &mut P, bytes: &[u8]) -> usize
        requires { IsAtEsc N self.now bytes.now }
        ensures { ReadsWhole P.step N self.now performer.old bytes.now result self.now performer.new }
    {
        let [_, b']', rest @ ..] = bytes else {
            return 0;
        };
        let len = data_len(rest);
        if len > N || len == rest.len() || rest[len] != 0x07 {
            return 0;
        }
        report_whole(performer, &rest[..len]);
        len + 3
    }

    /// Reads ESC after whole ground text, and what follows, up to and including the first byte that has an event.
    /// Returns how many bytes it read. It is called for a sequence that isn't read at once.
    // Never inlined, since it is rare beside the sequences that are read at once.
    #[inline(never)]
    fn read_begun<P: Perform>(&mut self, performer: &mut P, bytes: &[u8]) -> usize
        requires { IsAtEsc N self.old bytes.now }
        ensures { ReadsStep P.step N self.old performer.old bytes.now result self.new performer.new }
    {
        self.state = State::Escape;
        self.intermediates.clear();
        if bytes.len() == 1 {
            return 1;
        }
        1 + self.read_escape(performer, &bytes[1..])
    }

    /// Reads a sequence of a frequent form, if it is whole at the start. Returns how many bytes it is, or else 0.
    #[inline(always)]
    fn read_whole<P: Perform>(&mut self, performer: &mut P, bytes: &[u8]) -> usize
        requires { IsAtEsc N self.old bytes.now }
        ensures ground { self.new.state ≡ State.Ground }
        ensures whole { self.new.unfinished ≡ [] }
        ensures reads { ReadsWhole P.step N self.old performer.old bytes.now result self.new performer.new }
    {
        match bytes {
            [_, b'[', ..] => self.read_csi(performer, bytes),
            _ => self.read_whole_escape(performer, bytes),
        }
    }

    /// Reads what ESC begins after whole ground text. A sequence of a frequent form that is whole in the bytes is
    /// read at once. Any other is read by `read_begun`, with the same effect. Returns how many bytes it read.
    #[inline(always)]
    fn read_sequence<P: Perform>(&mut self, performer: &mut P, bytes: &[u8]) -> usize
        requires { IsAtEsc N self.old bytes.now }
        ensures { ReadsStep P.step N self.old performer.old bytes.now result self.new performer.new }
    {
        let len = self.read_whole(performer, bytes);
        if len > 0 {
            return len;
        }
        self.read_begun(performer, bytes)
    }

    /// Reads ESC after any ground text. An unfinished character ends with it, and then ESC is read alone. After whole
    /// text `read_sequence` reads what it begins. Returns how many bytes it read.
    #[inline(always)]
    fn read_esc<P: Perform>(&mut self, performer: &mut P, bytes: &[u8]) -> usize
        requires begins { BeginsWithEsc bytes.now }
        requires ground { self.old.state ≡ State.Ground }
        ensures { ReadsStep P.step N self.old performer.old bytes.now result self.new performer.new }
    {
        if self.unfinished.is_empty() {
            return self.read_sequence(performer, bytes);
        }
        self.begin_escape(performer);
        1
    }

    /// Reads inline text, if it is at the start: one to eight printable characters of ASCII up to the next ESC.
    /// Returns how many bytes it read.
    #[inline(always)]
    fn read_inline_text<P: Perform>(&mut self, performer: &mut P, bytes: &[u8]) -> usize
        requires room { 8 < length bytes.now }
        requires ground { self.old.state ≡ State.Ground }
        requires whole { self.old.unfinished ≡ [] }
        ensures reads { Reads P.step N self.old performer.old bytes.now result self.new performer.new }
        ensures within { result < length bytes.now }
        ensures ended { 0 < result → slice_index bytes.now result ≡ 0x1B }
        ensures state { self.new.state ≡ State.Ground }
        ensures whole { self.new.unfinished ≡ [] }
        ensures is_step { 0 < result → (q : Pending) → IsAt N self.old q
            → is_one_step q (take result bytes.now) (drop result bytes.now) ≡ true }
    {
        self.unfinished.read_inline(performer, bytes)
    }

    /// Reads the ground text before the next ESC, if there is some. Returns how many bytes it read.
    #[inline(always)]
    fn read_text<P: Perform>(&mut self, performer: &mut P, bytes: &[u8]) -> usize
        requires some { 0 < length bytes.now }
        requires ground { self.old.state ≡ State.Ground }
        ensures reads { Reads P.step N self.old performer.old bytes.now result self.new performer.new }
        ensures state { self.new.state ≡ State.Ground }
        ensures ended { result < length bytes.now → slice_index bytes.now result ≡ 0x1B }
        ensures is_step { 0 < result → (q : Pending) → IsAt N self.old q
            → is_one_step q (take result bytes.now) (drop result bytes.now) ≡ true }
    {
        if bytes[0] == 0x1B {
            return 0;
        }
        self.unfinished.read(performer, bytes)
    }

    /// Reads ground text up to the next ESC, and the sequence that ESC begins, if the performer goes on after the text.
    /// Returns how many bytes it read.
    // Never inlined, so that the loop over a piece is short, and `read_turn` in it needs no stack.
    #[inline(never)]
    fn read_through<P: Perform, const ASKED: bool>(
        &mut self,
        performer: &mut P,
        bytes: &[u8],
    ) -> usize
        requires some { 0 < length bytes.now }
        requires ground { self.old.state ≡ State.Ground }
        ensures { ReadsOn P.step P.is_terminated ASKED N self.old performer.old bytes.now result
            self.new performer.new }
    {
        let text = self.read_text(performer, bytes);
        if text == bytes.len() {
            return text;
        }
        if ASKED && text > 0 && performer.terminated() {
            return text;
        }
        text + self.read_esc(performer, &bytes[text..])
    }

    /// Reads as `read_through` does, but without a call for inline text and the sequence after it. It is called if no
    /// character is unfinished and many bytes are left.
    #[inline(always)]
    fn read_turn<P: Perform, const ASKED: bool>(&mut self, performer: &mut P, bytes: &[u8]) -> usize
        requires room { 8 < length bytes.now }
        requires whole { self.old.unfinished ≡ [] }
        requires ground { self.old.state ≡ State.Ground }
        ensures { ReadsOn P.step P.is_terminated ASKED N self.old performer.old bytes.now result
            self.new performer.new }
    {
        let text = self.read_inline_text(performer, bytes);
        if text == 0 && bytes[0] != 0x1B {
            return self.read_through::<P, ASKED>(performer, bytes);
        }
        if ASKED && text > 0 && performer.terminated() {
            return text;
        }
        text + self.read_sequence(performer, &bytes[text..])
    }

    /// Reads a device control string's data, of which each byte has an event, and the byte after it, if there is one.
    /// Returns how many bytes it read.
    fn read_data<P: Perform>(&mut self, performer: &mut P, bytes: &[u8]) -> usize
        requires some { 0 < length bytes.now }
        requires data { self.old.state ≡ State.DcsPassthrough }
        ensures some { 0 < result }
        ensures reads { Reads P.step N self.old performer.old bytes.now result self.new performer.new }
    {
        let data = put_prefix(performer, bytes);
        if data == bytes.len() {
            return data;
        }
        self.byte(performer, bytes[data]);
        data + 1
    }

    /// Reads some bytes of a sequence, up to and including the first that has an event, or a device control string's
    /// data. Returns how many bytes it read.
    #[inline(always)]
    fn read_apart<P: Perform, const ASKED: bool>(
        &mut self,
        performer: &mut P,
        bytes: &[u8],
    ) -> usize
        requires some { 0 < length bytes.now }
        requires inside { state_is_text self.old.state ≡ false }
        ensures { ReadsOn P.step P.is_terminated ASKED N self.old performer.old bytes.now result
            self.new performer.new }
    {
        match self.state {
            State::Escape => self.read_escape(performer, bytes),
            _ => self.read_inside::<P, ASKED>(performer, bytes),
        }
    }

    /// Whether ground text is being read.
    #[inline(always)]
    fn is_ground(&self) -> bool
        ensures { result ≡ state_is_text self.now.state }
    {
        matches!(self.state, State::Ground)
    }

    /// Reads sequences up to the next ground text, or as far as the performer goes on. Returns how many bytes it read.
    // Never inlined, so that the loop over a piece is short.
    #[inline(never)]
    fn read_outside<P: Perform, const ASKED: bool>(
        &mut self,
        performer: &mut P,
        bytes: &[u8],
    ) -> usize
        requires some { 0 < length bytes.now }
        requires inside { state_is_text self.old.state ≡ false }
        ensures { ReadsOn P.step P.is_terminated ASKED N self.old performer.old bytes.now result
            self.new performer.new }
    {
        let mut read = 0;
        loop {
            read += self.read_apart::<P, ASKED>(performer, &bytes[read..]);
            if read == bytes.len() || self.is_ground() {
                return read;
            }
            if ASKED && performer.terminated() {
                return read;
            }
        }
    }

    /// Reads some bytes: ground text and what ESC begins after it, or sequences up to the next ground text. Where the
    /// performer is asked, it reads no further than the performer goes on. Returns how many bytes it read.
    #[inline(always)]
    fn read_on<P: Perform, const ASKED: bool>(&mut self, performer: &mut P, bytes: &[u8]) -> usize
        requires { 0 < length bytes.now }
        ensures { ReadsOn P.step P.is_terminated ASKED N self.old performer.old bytes.now result
            self.new performer.new }
    {
        match self.state {
            State::Ground if bytes.len() >= TURN_LEN && self.unfinished.is_empty() =>
                self.read_turn::<P, ASKED>(performer, bytes),
            State::Ground => self.read_through::<P, ASKED>(performer, bytes),
            _ => self.read_outside::<P, ASKED>(performer, bytes),
        }
    }

    /// Reads the next bytes of the stream, and reports their events to the performer, in order. A character or a
    /// sequence that the bytes leave unfinished is kept for the next call.
    pub fn advance<P: Perform>(&mut self, performer: &mut P, bytes: &[u8])
        ensures state_after { (past : List ℕ) → IsAfter N self.old past → IsAfter N self.new (past ++ bytes.now) }
        ensures reported { Reported P.step N self.old performer.old bytes.now performer.new }
    {
        let mut read = 0;
        while read < bytes.len() {
            read += self.read_on::<P, false>(performer, &bytes[read..]);
        }
    }

    /// Reads bytes until the performer is terminated, and returns how many it read; the caller passes the others again.
    /// The performer is asked before the first byte, after each byte of a sequence, and after each run of ground text,
    /// up to the next ESC or to the end of the bytes; never inside a run. The performer's answer holds until the next
    /// event is reported to it.
    pub fn advance_until_terminated<P: Perform>(&mut self, performer: &mut P, bytes: &[u8]) -> usize
        ensures within { result ≤ length bytes.now }
        ensures state_after { (past : List ℕ) → IsAfter N self.old past
            → IsAfter N self.new (past ++ take result bytes.now) }
        ensures reported { Reported P.step N self.old performer.old (take result bytes.now) performer.new }
        ensures stops { (past : List ℕ) → IsAfter N self.old past
            → Stops P.step P.is_terminated N past bytes.now performer.old result performer.new }
        ensures ended { result < length bytes.now → IsTrue (P.is_terminated performer.new) }
        ensures already { IsTrue (P.is_terminated performer.old) → (result ≡ 0) × (performer.new ≡ performer.old)
            × (self.new ≡ self.old) }
    {
        let mut read = 0;
        while read < bytes.len() {
            if performer.terminated() {
                return read;
            }
            read += self.read_on::<P, true>(performer, &bytes[read..]);
        }
        bytes.len()
    }
}

/// A control sequence with these numbers and this final byte, of which one other byte is kept: a private byte or an
/// intermediate.
// Never inlined: the performer's `csi_dispatch` would be copied into each of its two rare callers.
#[inline(never)]
fn dispatch_marked<P: Perform>(params: &Params, performer: &mut P, mark: u8, action: char)
    ensures { P.step performer.old (e.Csi params.now (mark ∷ []) false action) performer.new }
{
    performer.csi_dispatch(params, &[mark], false, action);
}

/// How many bytes at the start are ESC. The first byte is one.
// Never inlined: in `read_begun` the loop would take more instructions.
#[inline(never)]
fn esc_len(bytes: &[u8]) -> usize
    requires { BeginsWithEsc bytes.now }
    ensures some { 0 < result }
    ensures within { result ≤ length bytes.now }
    ensures escs { each is_esc (take result bytes.now) ≡ true }
{
    let mut len = 1;
    while len < bytes.len() && bytes[len] == 0x1B {
        len += 1;
    }
    len
}

/// Whether the byte ends an escape sequence, and isn't CAN or SUB.
#[inline(always)]
fn is_escape_final(byte: u8) -> bool
    ensures { result ≡ is_in_range 0x30 0x7E byte }
{
    (0x30..=0x7E).contains(&byte)
}

/// Whether a longer sequence begins with ESC and the byte: a control sequence or a string.
#[inline(always)]
fn opens_sequence(byte: u8) -> bool
    ensures { result ≡ opens_sequence byte }
{
    // Most bytes that begin no longer sequence are smaller than all that begin one.
    byte >= b'P' && matches!(byte, b'P' | b'X' | b'[' | b']' | b'^' | b'_')
}

/// Whether the byte is a private one, which comes first in a header.
#[inline(always)]
fn is_private(byte: u8) -> bool
    ensures { result ≡ is_private byte }
{
    (0x3C..=0x3F).contains(&byte)
}

/// Whether the byte ends a header, and isn't CAN or SUB.
#[inline(always)]
fn is_final(byte: u8) -> bool
    ensures { result ≡ is_in_range 0x40 0x7E byte }
{
    (0x40..=0x7E).contains(&byte)
}

/// How many bytes at the start are swallowed: neither ESC nor CAN nor SUB.
#[inline(always)]
fn swallowed_len(bytes: &[u8]) -> usize
    ensures within { result ≤ length bytes.now }
    ensures swallowed { each is_swallowed (take result bytes.now) ≡ true }
{
    let mut len = 0;
    while len < bytes.len() && !matches!(bytes[len], 0x18 | 0x1A | 0x1B) {
        len += 1;
    }
    len
}

/// Puts the bytes at the start that are a device control string's data, and returns how many they are.
#[inline(always)]
fn put_prefix<P: Perform>(performer: &mut P, bytes: &[u8]) -> usize
    ensures { TellsEach P.step is_device_data e.Put performer.old bytes.now result performer.new }
{
    let mut read = 0;
    while read < bytes.len() && is_device_data(bytes[read]) {
        performer.put(bytes[read]);
        read += 1;
    }
    read
}

/// Whether the byte is a device control string's data, and doesn't end it.
#[inline(always)]
fn is_device_data(byte: u8) -> bool
    ensures { result ≡ is_device_data byte }
{
    byte < 0x7F && !matches!(byte, 0x18 | 0x1A | 0x1B)
}
