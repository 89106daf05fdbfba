//! Laws of what is shown, each as the contract of a function that does nothing.
ghost use Rattle.relay_streams.specs.Far.{FarViewsShow};
ghost use Rattle.relay_streams.specs.Laws.{FarewellEndsAll, LastEndsAreSettled, LiveEndIsShown, LiveIsShown};
ghost use Rattle.relay_streams.specs.Laws.{LiveUpdatesAreShown, RelayedIsShown, RelayedPrefixesAreShown};
ghost use Rattle.relay_streams.specs.Laws.{TextsAreOne, WholeFramesArePrinted};
ghost use Rattle.relay_streams.specs.Sessions.{EachRelayIsASession, EachRelayIsPumped, RelayedAreOne, RelayTextsAreOne};

/// What `show` writes is a function of the size and of what it reads.
pub fn shown_texts_are_one()
    ensures { TextsAreOne }
{}

/// For joined whole frames `show` prints the rows of the screen that they leave.
pub fn whole_frames_are_printed()
    ensures { WholeFramesArePrinted }
{}

/// A view that reads what `relay` writes of an input, in any pieces, shows the screen that the input makes. `show`
/// prints it as the rows of that screen. This holds unless that screen shows U+FE0F, or the input ends inside a
/// synchronized update of the program's own.
pub fn relayed_is_shown()
    ensures { RelayedIsShown }
{}

/// After each flush of `relay_live` or `relay_live_with`, a view that has read all that was written, in any pieces,
/// shows the screen that the bytes read so far make. Where lines are drawn, the filter's output for those bytes makes
/// the screen. The view holds nothing back. A screen that shows U+FE0F is left out, and so is one inside a
/// synchronized update of the program's own.
pub fn live_is_shown()
    ensures { LiveIsShown }
{}

/// A synchronized update of the program's own ended in what was read last. Once `relay_live` or `relay_live_with` has
/// written the frame of the last end, a view that has read all that was written shows the screen that the bytes up to
/// there make. No update is open on that screen. A screen that shows U+FE0F is left out.
pub fn live_updates_are_shown()
    ensures shown { LiveUpdatesAreShown }
    ensures settled { LastEndsAreSettled }
{}

/// At the end of `relay_live` or `relay_live_with`, a view that has read all that was written, in any pieces, shows
/// the screen that the whole input makes, after the modes and the update that it left on are ended. With line
/// drawing, the screen has its lines drawn. The view holds nothing back. A screen that shows U+FE0F is left out.
pub fn live_end_is_shown()
    ensures { LiveEndIsShown }
{}

/// After the farewell a screen has the modes and the cursor's style of a new one, the cursor is shown, and no update
/// is open. This holds whatever was read before, such as part of a sequence, and with lines drawn or not.
pub fn farewell_ends_all()
    ensures { FarewellEndsAll }
{}

/// A view that reads any prefix of what `relay` or `relay_live` writes, in any pieces, shows what the input's first
/// pieces had made when a frame was taken: the last one that lies wholly in the prefix. Without such a frame the
/// screen is blank. This holds unless that screen showed U+FE0F. It also holds where the relay ended because a frame
/// would be too long.
pub fn relayed_prefixes_are_shown()
    ensures { RelayedPrefixesAreShown }
{}

/// A view of `far_view` shows what the judge says of the calls and their replies. That is what the program's bytes
/// and the resizes had made when the last frame was taken that lies wholly in the bytes given, or a blank screen.
/// This holds unless that screen showed U+FE0F.
pub fn far_views_show()
    ensures { FarViewsShow }
{}

/// What `relay` writes is what is pumped to a session of a history. In it a client attaches. After each piece it asks
/// for a frame and gets the bytes that wait for it. There is such a session for any pieces, and all its frames are
/// pumped. All such sessions have the same answers and texts. So all laws of sessions hold of what `relay` writes,
/// also of a beginning of it.
pub fn relays_are_sessions()
    ensures is { EachRelayIsASession }
    ensures pumped { EachRelayIsPumped }
    ensures frames { RelayedAreOne }
    ensures texts { RelayTextsAreOne }
{}
