//! The frames of a hub's screen.
ghost use Rattle.std.specs.Prelude.{◌≡◌, ◌<◌, ◌+◌, true, false, Some, None, IfOk, OnErr, Err, IfSome, IsSomeAnd};
ghost use Rattle.std.specs.Option.{option_map};
ghost use Rattle.vt100_core.specs.Picture.{grid_size};
ghost use Rattle.screen_model.specs.Shown.{shown_state};
ghost use Rattle.vt100.specs.Copies.{copy_of};
ghost use Rattle.vt100.specs.WriterLaws.{IsUnscrolled};
ghost use Rattle.termrelay.specs.Answers.{due, is_frame};
ghost use Rattle.termrelay.specs.ClientRecord.{FrameView, IsFrameOf, IsRecordOf, moment_of, shown_at_last};
ghost use Rattle.termrelay.specs.ClientRecord.{is_unsure_screen};
ghost use Rattle.termrelay.specs.Frames.{FramesView, most_moments, IsLatestOf, CanNumber, KeepsNumbers};
ghost use Rattle.termrelay.specs.Due.{IsDue, given_by, SharesLatest, TakesNumber};
ghost use Rattle.termrelay.specs.declared.error.HubError.TheVariants.{Memory};

use crate::answer::Answer;
use crate::client_record::{ClientRecord, is_too_long};
use crate::error::HubError;
use crate::frame::{Base, Frame};
use std::alloc::Global;
use std::marker::Model;
use std::sync::Arc;
use vt100::Screen;

/// This many moments have a number of their own.
const MOST_MOMENTS: u64 = u64::MAX;

/// What is due to a client.
#[derive(Drop)]
pub(crate) enum Due {
    Frame(Arc<Frame>),
    /// No frame: the answer is `Unchanged` or `TooLong`.
    Without(Answer),
}

/// The frames of a screen: the latest one, and what the next one is made of.
///
/// What the screen shows at a frame has a number, that of the moment. Clients whose last frames have the same number
/// are due the same, so the frame that is made for the first of them is given to the others.
#[derive(Drop)]
pub(crate) struct SharedFrames {
    /// The latest frame, unless the screen has changed since.
    latest: Option<Arc<Frame>>,
    /// How many moments have a number. If all numbers are given, no frame is kept for others.
    moments: u64,
    /// A copy that no client needs any more. The next one is made in its memory.
    spare: Option<Arc<Screen>>,
    alloc: Global,
}

impl Model for SharedFrames {
    ghost use Rattle.std.specs.Option.{option_map};
    ghost use Rattle.termrelay.specs.Frames.{FramesView};

    ghost Value = { FramesView };

    ghost view = { λ f. record { latest = option_map (λ a. a.value) f.latest; moments = f.moments } };
}

impl SharedFrames {
    /// No frame was made so far.
    pub(crate) fn new(alloc: Global) -> Self
        ensures { result ≡ record { latest = None; moments = 0 } }
    {
        SharedFrames {
            latest: None,
            moments: 0,
            spare: None,
            alloc,
        }
    }

    /// The screen has changed.
    pub(crate) fn change(&mut self)
        ensures { self.new ≡ record self.old { latest = None } }
    {
        self.latest = None;
    }

    /// A client has let this frame go. If nobody else has its copy of the screen, the copy's memory is kept for the
    /// next one.
    pub(crate) fn reuse(&mut self, frame: Option<Arc<Frame>>)
        ensures { self.new ≡ self.old }
    {
        let Some(mut screen) = frame.and_then(Arc::into_inner).map(Frame::into_screen) else {
            return;
        };
        if Arc::get_mut(&mut screen).is_some() {
            self.spare = Some(screen);
        }
    }

    /// What is due to a client without pending bytes, if the program isn't in a synchronized update. Fails only if an
    /// allocation fails.
    pub(crate) fn due(&mut self, record: &ClientRecord, now: &Screen) -> Result<Due, HubError>
        requires unscrolled { IsUnscrolled now.now.state }
        requires served { IsRecordOf now.now record.now }
        requires latest { IfSome self.old.latest (IsLatestOf now.now self.old.moments) }
        requires numbers { CanNumber (grid_size now.now.state.shown) self.old record.now.last }
        ensures due { IfOk result (IsDue now.now record.now.last) }
        ensures memory { OnErr result ((result ≡ Err Memory)
            × (is_frame (due (grid_size now.now.state.shown) (shown_state now.now.state) (shown_at_last record.now.last))
            ≡ true)) }
        ensures latest { IfSome self.new.latest (IsLatestOf now.now self.new.moments) }
        ensures numbers { KeepsNumbers (grid_size now.now.state.shown) self.old record.now.last self.new
            (given_by result) }
    {
        match self.shared(record)? {
            Some(due) => Ok(due),
            None => self.made(record, now),
        }
    }

    /// What is due if that is known by the latest frame: its moment, or the moment that it leads on from, is that of
    /// the client's last frame. Fails only if an allocation fails.
    fn shared(&self, record: &ClientRecord) -> Result<Option<Due>, HubError>
        ensures shares { IfOk result (λ due. IfSome due (SharesLatest self.now.latest record.now.last)) }
        ensures memory { OnErr result ((result ≡ Err Memory) × IsSomeAnd self.now.latest
            (λ latest. moment_of record.now.last ≡ latest.from)) }
    {
        let Some(latest) = &self.latest else {
            return Ok(None);
        };
        if record.is_sure_at(latest.base().moment()) {
            return Ok(Some(Due::Without(Answer::Unchanged)));
        }
        if record.moment() != latest.from() {
            return Ok(None);
        }
        Ok(Some(Due::Frame(latest.clone()?)))
    }

    /// What is due, found by comparing what the two screens show. Fails only if an allocation fails.
    fn made(&mut self, record: &ClientRecord, now: &Screen) -> Result<Due, HubError>
        requires unscrolled { IsUnscrolled now.now.state }
        requires served { IsRecordOf now.now record.now }
        requires latest { IfSome self.old.latest (IsLatestOf now.now self.old.moments) }
        ensures due { IfOk result (IsDue now.now record.now.last) }
        ensures memory { OnErr result ((result ≡ Err Memory)
            × (is_frame (due (grid_size now.now.state.shown) (shown_state now.now.state) (shown_at_last record.now.last))
            ≡ true)) }
        ensures latest { IfSome self.new.latest (IsLatestOf now.now self.new.moments) }
        ensures numbers { KeepsNumbers (grid_size now.now.state.shown) self.old record.now.last self.new
            (given_by result) }
    {
        let answer = record.due(now);
        if answer.is_frame() {
            return self.frame(record, now, answer);
        }
        if let Some(last) = record.last() {
            self.keep(last);
        }
        Ok(Due::Without(answer))
    }

    /// The frame that brings this answer, unless it is too long. Fails only if an allocation fails.
    fn frame(
        &mut self,
        record: &ClientRecord,
        now: &Screen,
        answer: Answer,
    ) -> Result<Due, HubError>
        requires unscrolled { IsUnscrolled now.now.state }
        requires served { IsRecordOf now.now record.now }
        requires latest { IfSome self.old.latest (IsLatestOf now.now self.old.moments) }
        requires due { answer ≡ due (grid_size now.now.state.shown) (shown_state now.now.state)
            (shown_at_last record.now.last) }
        requires frame { is_frame answer ≡ true }
        ensures due { IfOk result (IsDue now.now record.now.last) }
        ensures memory { OnErr result (result ≡ Err Memory) }
        ensures latest { IfSome self.new.latest (IsLatestOf now.now self.new.moments) }
        ensures numbers { KeepsNumbers (grid_size now.now.state.shown) self.old record.now.last self.new
            (given_by result) }
    {
        let text = record.frame_text(self.alloc, now, answer)?;
        if is_too_long(&text) {
            return Ok(Due::Without(Answer::TooLong));
        }
        let base = self.base(now, answer == Answer::Unsure)?;
        let frame = Frame::new(record.moment(), answer, text, base);
        let Ok(frame) = Arc::new(self.alloc, frame) else {
            return Err(HubError::Memory);
        };
        self.keep(&frame);
        Ok(Due::Frame(frame))
    }

    /// What the screen shows: the latest frame's base, or else a copy with the next number. `unsure` says whether it
    /// shows U+FE0F. Fails only if an allocation fails; then no number is taken.
    fn base(&mut self, now: &Screen, unsure: bool) -> Result<Base, HubError>
        requires unscrolled { IsUnscrolled now.now.state }
        requires unsure { unsure ≡ is_unsure_screen now.now }
        ensures base { IfOk result (λ base. TakesNumber now.now self.old base self.new) }
        ensures memory { OnErr result ((result ≡ Err Memory) × (self.new ≡ self.old)) }
    {
        if let Some(latest) = &self.latest {
            return latest.base().share();
        }
        let screen = copy_in(self.spare.take(), now, self.alloc)?;
        let moment = self.moments;
        self.moments = moment.saturating_add(1);
        Ok(Base::new(moment, screen, unsure))
    }

    /// Keeps a frame that leads to what the screen shows, for clients in step. None is kept if its moment may have no
    /// number of its own.
    fn keep(&mut self, frame: &Arc<Frame>)
        ensures moments { self.new.moments ≡ self.old.moments }
        ensures latest { IfSome self.new.latest
            (λ latest. (latest ≡ frame.now.value) × (self.old.moments < most_moments)) }
    {
        self.latest = if self.moments < MOST_MOMENTS {
            frame.clone().ok()
        } else {
            None
        };
    }
}

/// A copy of what the screen shows, in the memory of an earlier one if there is one. Fails only if an allocation fails.
fn copy_in(
    spare: Option<Arc<Screen>>,
    screen: &Screen,
    alloc: Global,
) -> Result<Arc<Screen>, HubError>
    ensures copy { IfOk result (λ copy. copy.value ≡ copy_of screen.now) }
    ensures memory { OnErr result (result ≡ Err Memory) }
{
    if let Some(mut shared) = spare
        && let Some(copy) = Arc::get_mut(&mut shared)
    {
        copy.copy_shown(screen)?;
        return Ok(shared);
    }
    match Arc::new(alloc, screen.clone_shown()?) {
        Ok(copy) => Ok(copy),
        Err(_) => Err(HubError::Memory),
    }
}
