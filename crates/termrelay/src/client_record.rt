//! What a hub keeps of a client.
ghost use Rattle.std.specs.Prelude.{◌≡◌, ℕ, ◌-◌, ◌≤◌, ◌++◌, [], true, false, drop, length, nat_lt, Some, None, IfOk, OnOk, OnErr};
ghost use Rattle.std.specs.Prelude.{Err, if◌then◌else◌, string_bytes, IfSome, IsSome, IsSomeAnd, MatchOption};
ghost use Rattle.std.specs.Option.{option_copied, option_map};
ghost use Rattle.vt100_forms.specs.Form.{bytes_of};
ghost use Rattle.vt100_core.specs.Picture.{grid_size};
ghost use Rattle.screen_model.specs.Shown.{shown_state};
ghost use Rattle.vt100.specs.WriterLaws.{IsUnscrolled};
ghost use Rattle.termrelay.specs.Frame.{frame_text as text_of_frame, body_forms};
ghost use Rattle.termrelay.specs.Answers.{wanted_of, due, is_frame, longest_frame};
ghost use Rattle.byte_streams.specs.Pump.{Pumps};
ghost use Rattle.termrelay.specs.ClientRecord.{base_of, moment_of, client_of, IsRecordOf, is_unsure_screen, sure_base};
ghost use Rattle.termrelay.specs.Redraw.{redraw_kept};
ghost use Rattle.termrelay.specs.Whole.{whole_text as text_of_whole, whole_kept};
ghost use Rattle.termrelay.specs.declared.answer.Answer.TheVariants.{Unsure};
ghost use Rattle.termrelay.specs.declared.error.HubError.TheVariants.{Memory};

use crate::answer::Answer;
use crate::body::{push_difference, push_redraw, push_state};
use crate::error::HubError;
use crate::frame::Frame;
use crate::shown::{is_unsure, is_unsure_since, same_shown};
use byte_streams::{ByteSink, pump};
use std::alloc::Global;
use std::io;
use std::marker::Model;
use std::sync::Arc;
use vt100::Screen;

/// The bytes that begin a synchronized update: private mode 2026 set (`CSI ? 2026 h`).
const START_MARK: &str = "\x1b[?2026h";

/// The bytes that end a synchronized update: private mode 2026 reset (`CSI ? 2026 l`).
const END_MARK: &str = "\x1b[?2026l";

/// The bytes that turn off each mouse mode and encoding (`CSI ? 9 ; .. l`) and the cursor's style (`CSI 0 SP q`).
const MODES_OFF: &str = "\x1b[?9l\x1b[?1000l\x1b[?1002l\x1b[?1003l\x1b[?1005l\x1b[?1006l\x1b[0 q";

/// The longest frame, in bytes, that a terminal buffers and then parses as a whole.
const LONGEST_FRAME: usize = 2_097_150;

/// Whether a frame's text is longer than what a terminal buffers.
pub(crate) fn is_too_long(text: &[u8]) -> bool
    ensures { result ≡ nat_lt longest_frame (length text.now) }
{
    text.len() > LONGEST_FRAME
}

/// The text of a first frame of the screen. Fails only if an allocation fails.
pub(crate) fn first_text(alloc: Global, now: &Screen) -> Result<Vec<u8>, HubError>
    requires { IsUnscrolled now.now.state }
    ensures text { IfOk result (λ text. text.items
        ≡ text_of_frame (grid_size now.now.state.shown) None (shown_state now.now.state)) }
    ensures memory { OnErr result (result ≡ Err Memory) }
{
    let mut text = String::new(alloc);
    text.push_str(START_MARK)?;
    push_state(&mut text, now)?;
    text.push_str(END_MARK)?;
    Ok(text.into_bytes())
}

/// The text of a whole frame of the screen. Fails only if an allocation fails.
fn whole_text(alloc: Global, now: &Screen) -> Result<Vec<u8>, HubError>
    requires { IsUnscrolled now.now.state }
    ensures text { IfOk result (λ text. text.items
        ≡ text_of_whole (grid_size now.now.state.shown) (shown_state now.now.state)) }
    ensures memory { OnErr result (result ≡ Err Memory) }
{
    let mut text = String::new(alloc);
    text.push_str(START_MARK)?;
    text.push_str(MODES_OFF)?;
    push_state(&mut text, now)?;
    text.push_str(END_MARK)?;
    Ok(text.into_bytes())
}

/// The text, unless it is too long.
fn unless_too_long(text: Vec<u8>) -> Option<Vec<u8>>
    ensures { option_map (λ text. text.items) result
        ≡ (if nat_lt longest_frame (length text.items) then None else Some text.items) }
{
    if is_too_long(&text) { None } else { Some(text) }
}

/// `Unsure` if the screen shows U+FE0F, else the answer.
fn unsure_or(unsure: bool, answer: Answer) -> Answer
    ensures { result ≡ (if unsure then Unsure else answer) }
{
    if unsure { Answer::Unsure } else { answer }
}

/// What a hub keeps of a client.
#[derive(Drop)]
pub(crate) struct ClientRecord {
    /// The last frame, which other clients may have too.
    last: Option<Arc<Frame>>,
    /// How many bytes at its end still wait for the client.
    left: usize,
}

impl Model for ClientRecord {
    ghost use Rattle.std.specs.Prelude.{◌≤◌, length, IfSome};
    ghost use Rattle.std.specs.Option.{option_map};
    ghost use Rattle.termrelay.specs.ClientRecord.{RecordView, left_of};

    ghost Value = { RecordView };

    ghost view = { λ r. record {
      owed = left_of (option_map (λ f. f.value) r.last) r.left;
      last = option_map (λ f. f.value) r.last;
    } };

    ghost invariant = { λ r. IfSome r.last (λ f. r.left ≤ length f.value.text) };
}

impl ClientRecord {
    /// The record of a client that has had no frame.
    pub(crate) fn new() -> Self
        ensures { result ≡ record { owed = []; last = None } }
    {
        ClientRecord {
            last: None,
            left: 0,
        }
    }

    /// The record of a client that has had what this one has had, without pending bytes. The two share the last frame.
    /// Fails only if an allocation fails.
    pub(crate) fn fork(&self) -> Result<Self, HubError>
        ensures fork { IfOk result (λ fork. fork ≡ record { owed = []; last = self.now.last }) }
        ensures memory { OnErr result (result ≡ Err Memory) }
    {
        match &self.last {
            Some(last) => Ok(ClientRecord {
                last: Some(last.clone()?),
                left: 0,
            }),
            None => Ok(ClientRecord::new()),
        }
    }

    /// The text of a first frame of the screen at the last frame: nothing, if there was no frame. `None` if it is too
    /// long. Fails only if an allocation fails; nothing is allocated if there was no frame.
    pub(crate) fn redraw(&self, alloc: Global) -> Result<Option<Vec<u8>>, HubError>
        requires { IfSome (base_of self.now.last) (λ base. IsUnscrolled base.state) }
        ensures text { IfOk result (λ redraw. option_map (λ text. text.items) redraw
            ≡ redraw_kept (base_of self.now.last)) }
        ensures memory { OnErr result (result ≡ Err Memory) }
        ensures needed { OnErr result (IsSome self.now.last) }
    {
        match self.base() {
            Some(base) => Ok(unless_too_long(first_text(alloc, base)?)),
            None => Ok(Some(Vec::new(alloc))),
        }
    }

    /// The text of a whole frame of the screen at the last frame. `None` if there was no frame, or if it is too long.
    /// Fails only if an allocation fails; nothing is allocated if there was no frame.
    pub(crate) fn whole_frame(&self, alloc: Global) -> Result<Option<Vec<u8>>, HubError>
        requires { IfSome (base_of self.now.last) (λ base. IsUnscrolled base.state) }
        ensures text { IfOk result (λ whole. option_map (λ text. text.items) whole
            ≡ whole_kept (base_of self.now.last)) }
        ensures memory { OnErr result (result ≡ Err Memory) }
        ensures needed { OnErr result (IsSome self.now.last) }
    {
        match self.base() {
            Some(base) => Ok(unless_too_long(whole_text(alloc, base)?)),
            None => Ok(None),
        }
    }

    /// The bytes that wait for the client.
    pub(crate) fn owed(&self) -> &[u8]
        ensures { result.now ≡ self.now.owed }
    {
        match &self.last {
            Some(last) => last_bytes(last.text(), self.left),
            None => &[],
        }
    }

    /// The last frame.
    pub(crate) fn last(&self) -> Option<&Arc<Frame>>
        ensures { option_map (λ last. last.now.value) result ≡ self.now.last }
    {
        match &self.last {
            Some(last) => Some(last),
            None => None,
        }
    }

    /// The moment of the last frame.
    pub(crate) fn moment(&self) -> Option<u64>
        ensures { result ≡ moment_of self.now.last }
    {
        match &self.last {
            Some(last) => Some(last.base().moment()),
            None => None,
        }
    }

    /// The screen at the last frame.
    fn base(&self) -> Option<&Screen>
        ensures { option_copied result ≡ base_of self.now.last }
    {
        match &self.last {
            Some(last) => Some(last.base().screen()),
            None => None,
        }
    }

    /// The screen at the last frame, unless it shows U+FE0F.
    fn sure_base(&self) -> Option<&Screen>
        ensures { option_copied result ≡ sure_base (base_of self.now.last) }
    {
        match &self.last {
            Some(last) if !last.base().is_unsure() => Some(last.base().screen()),
            _ => None,
        }
    }

    /// Whether the screen at the last frame is that of this moment, and doesn't show U+FE0F.
    pub(crate) fn is_sure_at(&self, moment: u64) -> bool
        ensures { result ≡ true → IsSomeAnd self.now.last
            (λ last. (last.base.moment ≡ moment) × (is_unsure_screen last.base.screen ≡ false)) }
    {
        match &self.last {
            Some(last) => !last.base().is_unsure() && last.base().moment() == moment,
            None => false,
        }
    }

    /// The answer if no bytes are pending and the program isn't in a synchronized update. A screen that shows the same
    /// as a sure base is itself sure.
    pub(crate) fn due(&self, now: &Screen) -> Answer
        requires unscrolled { IsUnscrolled now.now.state }
        requires served { IsRecordOf now.now self.now }
        ensures { result ≡ due (grid_size now.now.state.shown) (shown_state now.now.state) (client_of self.now).base }
    {
        let Some(base) = self.sure_base() else {
            return unsure_or(is_unsure(now), Answer::Full);
        };
        if same_shown(base, now) {
            return Answer::Unchanged;
        }
        unsure_or(is_unsure_since(base, now), Answer::Difference)
    }

    /// The answer to a request for a frame, if it needs no look at what is shown: bytes are pending, or the program is
    /// in a synchronized update.
    pub(crate) fn waits(&self, now: &Screen) -> Option<Answer>
        ensures { MatchOption result
            ((self.now.owed ≡ []) × (now.now.state.updating ≡ false))
            (λ answer. (answer ≡ wanted_of now.now.state (client_of self.now)) × (is_frame answer ≡ false)) }
    {
        if !self.owed().is_empty() {
            return Some(Answer::Behind);
        }
        if now.synchronized_update() {
            return Some(Answer::Held);
        }
        None
    }

    /// The text of the frame that is due: a difference if that is the answer, else a redraw. Fails only if an
    /// allocation fails.
    pub(crate) fn frame_text(
        &self,
        alloc: Global,
        now: &Screen,
        answer: Answer,
    ) -> Result<Vec<u8>, HubError>
        requires unscrolled { IsUnscrolled now.now.state }
        requires served { IsRecordOf now.now self.now }
        requires due { answer ≡ due (grid_size now.now.state.shown) (shown_state now.now.state)
            (client_of self.now).base }
        requires frame { is_frame answer ≡ true }
        ensures text { IfOk result (λ text. text.items ≡ text_of_frame (grid_size now.now.state.shown)
            (client_of self.now).base (shown_state now.now.state)) }
        ensures memory { OnErr result (result ≡ Err Memory) }
    {
        let mut text = String::new(alloc);
        text.push_str(START_MARK)?;
        self.push_body(&mut text, now, answer)?;
        text.push_str(END_MARK)?;
        Ok(text.into_bytes())
    }

    /// Appends the body of that frame: the bytes between its marks.
    fn push_body(&self, text: &mut String, now: &Screen, answer: Answer) -> Result<(), HubError>
        requires unscrolled { IsUnscrolled now.now.state }
        requires served { IsRecordOf now.now self.now }
        requires due { answer ≡ due (grid_size now.now.state.shown) (shown_state now.now.state)
            (client_of self.now).base }
        requires frame { is_frame answer ≡ true }
        ensures text { OnOk result (string_bytes text.new ≡ string_bytes text.old ++ bytes_of (body_forms
            (grid_size now.now.state.shown) (client_of self.now).base (shown_state now.now.state))) }
        ensures memory { OnErr result (result ≡ Err Memory) }
    {
        match self.base() {
            None => push_state(text, now),
            Some(base) if answer == Answer::Difference => push_difference(text, base, now),
            Some(base) => push_redraw(text, base, now),
        }
    }

    /// A frame waits for the client from now on. Returns the frame before it.
    pub(crate) fn owe(&mut self, frame: Arc<Frame>) -> Option<Arc<Frame>>
        ensures { self.new ≡ record { owed = frame.value.text; last = Some frame.value } }
    {
        self.left = frame.text().len();
        self.last.replace(frame)
    }

    /// Writes the bytes that are owed to a writer. The bytes it took are no longer owed.
    pub(crate) fn pump<T: ByteSink>(&mut self, to: &mut T) -> io::Result<()>
        ensures { (n : ℕ) × Pumps T.takes to.old self.old.owed result n to.new
            × (self.new ≡ record self.old { owed = drop n self.old.owed }) }
    {
        let (taken, end) = pump(self.owed(), to);
        self.left -= taken;
        end
    }
}

/// The last `count` bytes of a text.
fn last_bytes(text: &[u8], count: usize) -> &[u8]
    requires { count ≤ length text.now }
    ensures { result.now ≡ drop (length text.now - count) text.now }
{
    &text[text.len() - count..]
}
