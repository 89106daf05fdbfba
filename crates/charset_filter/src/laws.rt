//! Laws of what a filter gives, each as the contract of a function that does nothing.

ghost use Rattle.charset_filter.specs.Laws.{DrawsEvents, GivesInOrder, KeepsAscii, StandsAsKnown};

/// The events of what a filter has given are the events of what it has read, with two changes. Each printed character
/// is drawn by the sets after the events before it. After each event come the events of the bytes behind it.
pub fn draws_events()
    ensures { DrawsEvents }
{}

/// Pieces give their output one after the other, however the stream is cut.
pub fn gives_in_order()
    ensures { GivesInOrder }
{}

/// A stream that never designates the special graphics, and has no bytes behind its events, is given as it is, byte for
/// byte.
pub fn keeps_ascii()
    ensures { KeepsAscii }
{}

/// The bytes behind an SGR with a group that `vt100` doesn't know are one SGR. Its groups are those that `vt100` knows
/// in their place. If there are none, there are no bytes.
pub fn stands_as_known()
    ensures { StandsAsKnown }
{}
