//! A timeout without a clock.
ghost use Rattle.std.specs.Prelude.{◌≡◌, false};
ghost use Rattle.vte.specs.Timeout.{IsExact};

use std::time::Duration;
use vte::ansi::Timeout;

/// A timeout that is pending from `set_timeout` to `clear_timeout`, however long that takes.
#[derive(Clone, Copy, Debug, Eq, PartialEq)]
pub struct UntilCleared {
    pending: bool,
}

impl UntilCleared {
    ghost use Rattle.termview.specs.Timeout.{pending_of};

    /// A timeout that isn't pending.
    pub fn new() -> Self
        ensures { pending_of result ≡ false }
    {
        UntilCleared { pending: false }
    }
}

impl Timeout for UntilCleared {
    ghost use Rattle.termview.specs.Timeout.{until_cleared};

    ghost ticking = { until_cleared };

    fn set_timeout(&mut self, _duration: Duration) {
        self.pending = true;
    }

    fn clear_timeout(&mut self) {
        self.pending = false;
    }

    fn pending_timeout(&self) -> bool {
        self.pending
    }
}

/// An `UntilCleared` is pending from `set_timeout` to `clear_timeout`, and at no other time.
pub fn until_cleared_is_exact()
    ensures { IsExact ⟦<UntilCleared as Timeout>⟧.ticking }
{}
