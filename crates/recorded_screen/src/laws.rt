//! Facts about films. Each function does nothing: its contract is the fact.

ghost use Rattle.recorded_screen.specs.Examples.{EachExampleHolds};
ghost use Rattle.recorded_screen.specs.Film.{EarlierScreensDontStand};

/// Examples: numbers of films.
pub fn examples_hold()
    ensures { EachExampleHolds }
{}

/// A film shows no screen after which another event comes at or before the film's beginning.
pub fn earlier_screens_dont_stand()
    ensures { EarlierScreensDontStand }
{}
