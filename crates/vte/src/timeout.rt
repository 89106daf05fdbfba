//! Timeouts of synchronized updates.
ghost use Rattle.std.specs.Duration.{as_nanos};
ghost use Rattle.vte.specs.Timeout.{Ticking};

use std::time::Duration;

/// The timeout of a synchronized update: whether its end is still awaited.
pub trait Timeout {
    /// What setting and clearing may change, and what `pending_timeout` may return.
    ghost ticking: { Ticking Self };

    /// Sets the timeout, or sets it again: an update was opened, and may last for `duration`.
    fn set_timeout(&mut self, duration: Duration)
        ensures { ticking.sets self.old (as_nanos duration) self.new };

    /// Clears the timeout: the update was closed.
    fn clear_timeout(&mut self)
        ensures { ticking.clears self.old self.new };

    /// Whether an update is open, and its time isn't over.
    fn pending_timeout(&self) -> bool
        ensures { ticking.answers self.now result };
}
