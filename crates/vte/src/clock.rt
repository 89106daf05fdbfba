//! Clocks.
ghost use Rattle.std.specs.declared.time.Duration.{Duration};

use std::time::Duration;

/// A clock that counts from its own start.
pub trait Clock {
    /// What `now` may return.
    ghost may_be: { Self → Duration → Type 0 };

    /// The time since the clock's start.
    fn now(&self) -> Duration
        ensures { may_be self.now result };
}
