//! A timeout that reads a clock.
ghost use Rattle.std.specs.Prelude.{◌≡◌, None};
ghost use Rattle.vte.specs.Expiry.{by_clock, clock_of, expiry_of};
ghost use Rattle.vte.specs.Timeout.{IsExact};

use crate::clock::Clock;
use crate::timeout::Timeout;
use std::time::Duration;

/// A timeout that keeps the time at which the open update is due to end. It is pending while it keeps one.
#[derive(Drop)]
pub struct StdSyncHandler<C> {
    clock: C,
    timeout: Option<Duration>,
}

impl<C: Clock> StdSyncHandler<C> {
    /// A timeout that isn't pending, and reads this clock.
    pub fn new(clock: C) -> Self
        ensures clock { clock_of result ≡ clock }
        ensures timeout { expiry_of result ≡ None }
    {
        StdSyncHandler {
            clock,
            timeout: None,
        }
    }

    /// The time at which the open update is due to end, from the clock's start. `None` while the timeout isn't pending.
    pub fn sync_timeout(&self) -> Option<Duration>
        ensures { result ≡ expiry_of self.now }
    {
        self.timeout
    }
}

impl<C: Clock> Timeout for StdSyncHandler<C> {
    ghost ticking = { by_clock C.may_be };

    fn set_timeout(&mut self, duration: Duration) {
        self.timeout = Some(self.clock.now().saturating_add(duration));
    }

    fn clear_timeout(&mut self) {
        self.timeout = None;
    }

    fn pending_timeout(&self) -> bool {
        self.timeout.is_some()
    }
}

/// `StdSyncHandler` is pending exactly from setting to clearing.
pub fn std_sync_handler_is_exact<C: Clock>()
    ensures { IsExact ⟦<StdSyncHandler<C> as Timeout>⟧.ticking }
{}
