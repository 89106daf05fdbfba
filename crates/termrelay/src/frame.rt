//! A frame, and the screen that it leads to.
ghost use Rattle.std.specs.Prelude.{◌≡◌, IfOk, OnErr, Err};
ghost use Rattle.termrelay.specs.ClientRecord.{is_unsure_screen};
ghost use Rattle.termrelay.specs.declared.error.HubError.TheVariants.{Memory};

use crate::answer::Answer;
use crate::error::HubError;
use std::marker::Model;
use std::sync::Arc;
use vt100::Screen;

/// What the screen showed when a frame was made. A client's next frame starts from it.
#[derive(Drop)]
pub(crate) struct Base {
    /// The number of that moment. Bases with one number show the same.
    moment: u64,
    /// A copy of the screen.
    screen: Arc<Screen>,
    /// Whether it shows U+FE0F, about whose width terminals disagree.
    unsure: bool,
}

impl Model for Base {
    ghost use Rattle.std.specs.Prelude.{◌≡◌};
    ghost use Rattle.termrelay.specs.ClientRecord.{BaseView, is_unsure_screen};

    ghost Value = { BaseView };

    ghost view = { λ b. record { moment = b.moment; screen = b.screen.value } };

    ghost invariant = { λ b. b.unsure ≡ is_unsure_screen b.screen.value };
}

impl Base {
    /// `unsure` says whether the screen shows U+FE0F.
    pub(crate) fn new(moment: u64, screen: Arc<Screen>, unsure: bool) -> Self
        requires { unsure ≡ is_unsure_screen screen.value }
        ensures { result ≡ record { moment = moment; screen = screen.value } }
    {
        Base {
            moment,
            screen,
            unsure,
        }
    }

    pub(crate) fn moment(&self) -> u64
        ensures { result ≡ self.now.moment }
    {
        self.moment
    }

    pub(crate) fn screen(&self) -> &Screen
        ensures { result.now ≡ self.now.screen }
    {
        &self.screen
    }

    /// Whether the screen shows U+FE0F.
    pub(crate) fn is_unsure(&self) -> bool
        ensures { result ≡ is_unsure_screen self.now.screen }
    {
        self.unsure
    }

    /// The same base, whose screen the two share. Fails only if an allocation fails.
    pub(crate) fn share(&self) -> Result<Self, HubError>
        ensures same { IfOk result (λ base. base ≡ self.now) }
        ensures memory { OnErr result (result ≡ Err Memory) }
    {
        Ok(Base {
            moment: self.moment,
            screen: self.screen.clone()?,
            unsure: self.unsure,
        })
    }
}

/// A frame. Clients for which the same bytes wait share it.
#[derive(Drop)]
pub(crate) struct Frame {
    /// The moment that it leads on from. `None` if it is a first frame.
    from: Option<u64>,
    /// The answer that brings it.
    answer: Answer,
    text: Vec<u8>,
    /// What it leads to.
    base: Base,
}

impl Model for Frame {
    ghost use Rattle.termrelay.specs.ClientRecord.{FrameView};

    ghost Value = { FrameView };

    ghost view = { λ f. record { from = f.from; answer = f.answer; text = f.text.items; base = f.base } };
}

impl Frame {
    pub(crate) fn new(from: Option<u64>, answer: Answer, text: Vec<u8>, base: Base) -> Self
        ensures { result ≡ record { from = from; answer = answer; text = text.items; base = base } }
    {
        Frame {
            from,
            answer,
            text,
            base,
        }
    }

    /// The moment that it leads on from.
    pub(crate) fn from(&self) -> Option<u64>
        ensures { result ≡ self.now.from }
    {
        self.from
    }

    pub(crate) fn answer(&self) -> Answer
        ensures { result ≡ self.now.answer }
    {
        self.answer
    }

    pub(crate) fn text(&self) -> &[u8]
        ensures { result.now ≡ self.now.text }
    {
        &self.text
    }

    /// What it leads to.
    pub(crate) fn base(&self) -> &Base
        ensures { result.now ≡ self.now.base }
    {
        &self.base
    }

    /// The copy of the screen, which another frame may have too.
    pub(crate) fn into_screen(self) -> Arc<Screen> {
        self.base.screen
    }
}
