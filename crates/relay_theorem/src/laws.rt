//! Facts about histories and far terminals. Each function does nothing: its contract is the fact. A history is a list
//! of calls on a new hub, with the reply to each. A session is what happens to one client, from its attach or its fork
//! to its end. A fork's session has the answers of the one that it was forked from, whose frames count as pumped to it.
ghost use Rattle.termrelay.specs.Hub.{as_kept};
ghost use Rattle.relay_theorem.specs.Bounds.{EachSessionIsBounded, EachFrameFitsTheHold, NoSmallFrameIsTooLong};
ghost use Rattle.relay_theorem.specs.Examples.{EachExampleIsReported};
ghost use Rattle.relay_theorem.specs.History.{as_reported};
ghost use Rattle.relay_theorem.specs.Laws.{EachSessionIsReported, EachClientHasASession};
ghost use Rattle.relay_theorem.specs.Headline.{EachTextIsAFrame, WholeSessionsAreShown, LastWholeFrameIsShown};
ghost use Rattle.relay_theorem.specs.Headline.{NoSessionIsTorn};
ghost use Rattle.relay_theorem.specs.Headline.{OneMomentShowsTheSame, OneMomentShowsTheSameWhole};
ghost use Rattle.relay_theorem.specs.Serves.{EachPumpTakesAsReported, EachPumpIsServed, EachRunHasAHistory};
ghost use Rattle.relay_theorem.specs.Serves.{EachLogHasAHistory};
ghost use Rattle.relay_theorem.specs.Serves.{EachHistoryIsOne};
ghost use Rattle.relay_theorem.specs.Redraws.{EachRedrawIsReported, EachStoryGrows, EachRunRedraws};
ghost use Rattle.relay_theorem.specs.Redraws.{RedrawnFramesAreShown, NoRedrawIsTorn, LoggedRedrawsAreShown};
ghost use Rattle.relay_theorem.specs.Wholes.{WholeFramesLeadFromAnything, NoWholeFrameIsTorn, EachFrameEndsAtGround};
ghost use Rattle.relay_theorem.specs.Wholes.{EachWholeIsReported, EachWholeMatches};
ghost use Rattle.relay_theorem.specs.Trees.{EachFedScreenIsRight, EachFedHubIsRight, TreesAreShown};
ghost use Rattle.relay_theorem.specs.Logged.{EachLoggedReadIsARead, LoggedFramesAreShown, WholeLoggedFramesAreShown};
ghost use Rattle.relay_theorem.specs.Isolation.{SessionsAreIsolated, LoggedSessionsAreIsolated, EachSessionIsIsolated};
ghost use Rattle.relay_theorem.specs.Isolation.{EachLoneSessionIsAlike, EachLoggedLoneSessionIsAlike};

use termrelay::ByteSink;

/// Facts about each session of a new hub, after any calls with any replies.
///
/// While a session hasn't ended, the bytes pumped followed by the pending bytes are its frames, joined. At most one
/// frame is pending, and the hub keeps what was shown at the last one. After the session has ended, the bytes pumped
/// are a prefix of its frames. Each frame is made from what was shown at the frame before it and what was shown at
/// its own request. Both screens have the session's size.
pub fn sessions_are_reported()
    ensures { EachSessionIsReported }
{}

/// A terminal that reads a frame's bytes reads one frame: they have an end mark only at their end, and the body opens
/// no synchronized update. This also holds if a cell shows U+FE0F.
pub fn texts_are_frames()
    ensures { EachTextIsAFrame }
{}

/// A new view of the session's size reads frames that arrive whole, in any pieces, and wherever its `stop_sync` is
/// called. It shows the program's screen at the request for the last frame, unless that screen showed U+FE0F. No bytes
/// stay buffered.
pub fn whole_frames_are_shown()
    ensures { WholeSessionsAreShown }
{}

/// A new view of the session's size reads any prefix of the bytes pumped, in any pieces. It shows the program's screen
/// at the request for the last frame that lies wholly in the prefix, or a blank screen if none does. This holds unless
/// that screen showed U+FE0F.
pub fn last_whole_frames_are_shown()
    ensures { LastWholeFrameIsShown }
{}

/// If a view reads more of the bytes, but no further frame is whole, it still shows the same: no frame is shown in
/// part. This also holds if the last whole frame showed U+FE0F.
pub fn no_frame_is_torn()
    ensures { NoSessionIsTorn }
{}

/// Two views of two sessions show the same if their last whole frames were requested at one moment, unless that screen
/// showed U+FE0F. One moment means that equally many bytes had been fed and equally many resizes made. The views may
/// read any prefixes of the sessions' bytes (`pieces`). If they read only whole frames, `stop_sync` may also be called
/// anywhere (`whole`).
pub fn one_moment_shows_the_same()
    ensures pieces { OneMomentShowsTheSame }
    ensures whole { OneMomentShowsTheSameWhole }
{}

/// An example: a short history with one frame, for any error of its writer. The frame counts as whole from its last
/// byte on.
pub fn example_is_reported()
    ensures { EachExampleIsReported }
{}

/// After any calls on a new hub, it has a client at a key exactly when a session of that key hasn't ended. No two such
/// sessions have the same key.
pub fn clients_have_sessions()
    ensures { EachClientHasASession }
{}

/// A pump to a scripted writer takes the bytes that the script says, and the others stay pending. Its reply says
/// whether it took all of them. This holds for a hub described by the code's fields (`kept`), and for one described
/// by its history (`reported`).
pub fn pumps_take_as_reported()
    ensures kept { EachPumpTakesAsReported as_kept }
    ensures reported { EachPumpTakesAsReported as_reported }
{}

/// Any calls on a new hub are a history with the same replies. The hub has at each key the client that the history
/// says, so all laws of histories hold for its clients. Unless it has failed, its parser is in the state after the
/// history's bytes and resizes.
pub fn runs_have_histories()
    ensures { EachRunHasAHistory }
{}

/// Calls and their replies determine the history: the hub after them, and all its sessions.
pub fn histories_are_one()
    ensures { EachHistoryIsOne }
{}

/// Each pump of a hub, to any [`ByteSink`](byte_streams::ByteSink), has the same effect as a pump to some scripted
/// writer. So it can be a call of a history.
pub fn pumps_are_served<T: ByteSink>()
    ensures { EachPumpIsServed T.takes }
{}

/// The calls of a run on a new hub with an empty log are a history with the log's replies. The history's sessions are
/// the log's sessions, so all laws of histories hold for these. If the run ended because an allocation for the log
/// failed, its calls are those that were made.
pub fn logs_have_histories()
    ensures { EachLogHasAHistory }
{}

/// Each session in the log of a run on a new hub is a session of the run's history, with the same bytes pumped. So the
/// laws on views that read a history's session hold for views that read the log's bytes.
pub fn logged_reads_are_reads()
    ensures { EachLoggedReadIsARead }
{}

/// The main law. A run is made on a new hub with an empty log. A new view of a session's size reads any prefix of the
/// bytes pumped to that session, in any pieces. The view shows the program's screen at the request for the last frame
/// that lies wholly in the prefix, or a blank screen if none does. This holds unless that screen showed U+FE0F.
pub fn logged_frames_are_shown()
    ensures { LoggedFramesAreShown }
{}

/// A session depends only on its own calls. These are its attach, the feeds and resizes until it ends, also those
/// before its attach, and the calls on its key until it ends. The scripts of its pumps are parts of these calls. A
/// fork's own calls are those of the session that it was forked from, up to the fork, then a pump that takes all the
/// bytes that waited then, and those on its own key.
///
/// If two sessions have the same own calls, the same bytes are pumped to them, and they get the same answers at the
/// same moments. They have the same size, and have both ended or both not. While they haven't ended, the same bytes
/// wait for their clients, and the screens at their last frames show the same. This holds whatever the other calls
/// and the keys were, if no call of the two runs failed for want of memory. It holds for two histories (`reported`),
/// and for the sessions of two logs (`logged`).
pub fn sessions_are_isolated()
    ensures reported { SessionsAreIsolated }
    ensures logged { LoggedSessionsAreIsolated }
{}

/// Each session has what it would have without the other sessions.
///
/// A session's own calls can be made on a new hub without any others, at any key, and are then the own calls of its one
/// session (`made`). If the attach gets that key and no call fails for want of memory, that session is like the first
/// one (`alike`): in all that [`sessions_are_isolated`] says. The same holds for the session of a log (`logged`).
pub fn sessions_stand_alone()
    ensures made { EachSessionIsIsolated }
    ensures alike { EachLoneSessionIsAlike }
    ensures logged { EachLoggedLoneSessionIsAlike }
{}

/// Each frame of a session has at most 1,024 bytes for each cell, and 1,024 more. The same bound holds for the bytes
/// that wait for its client.
pub fn sessions_are_bounded()
    ensures { EachSessionIsBounded }
{}

/// Each frame of a session has at most 2,097,150 bytes, whatever the session's size, so a terminal can buffer it until
/// it is whole (`fits`). A longer frame isn't made, and the answer is `TooLong`. On a screen of at most 2,000 cells,
/// such as 24 rows of 80 columns, this never happens (`small`).
pub fn frames_fit_the_hold()
    ensures fits { EachFrameFitsTheHold }
    ensures small { NoSmallFrameIsTooLong }
{}

/// A new view of a size of a log's session reads frames of that session that arrive whole, in any pieces, and wherever
/// its `stop_sync` is called. It shows the program's screen at the request for the last frame, unless that screen
/// showed U+FE0F. No bytes stay buffered.
pub fn whole_logged_frames_are_shown()
    ensures { WholeLoggedFramesAreShown }
{}

/// The redraw of a client whose session hasn't ended is the one after all answers to the session so far (`answered`).
/// Whatever calls come later, the session's further answers come after these (`grows`). The same holds for the
/// redraws that the calls of a run are answered with (`run`).
pub fn redraws_are_reported()
    ensures answered { EachRedrawIsReported }
    ensures grows { EachStoryGrows }
    ensures run { EachRunRedraws }
{}

/// A new view of the session's size reads a client's redraw, and then any prefix of the client's later frames, in any
/// pieces. It shows the program's screen at the request for the last frame that lies wholly in what it read (`shown`).
/// The redraw counts as the client's last frame before it. If no frame lies wholly in it, the screen is blank. This
/// holds unless the screen at that request showed U+FE0F. The client may be a fork.
///
/// If the view reads more bytes, but no further frame is whole, it still shows the same: neither the redraw nor a
/// frame is shown in part (`untorn`). For a log, the redraw is one that a call of the run was answered with. The
/// later frames are then what was pumped to the session, without what had been pumped or was pending at that call
/// (`logged`).
pub fn redrawn_frames_are_shown()
    ensures shown { RedrawnFramesAreShown }
    ensures untorn { NoRedrawIsTorn }
    ensures logged { LoggedRedrawsAreShown }
{}

/// A whole frame is for terminals in any state. A view of the session's size has read anything, such as whole frames of
/// any session, and nothing is unfinished or buffered. It reads a client's whole frame, and then any prefix of the
/// client's later frames, in any pieces. Once it has read the whole frame, it shows the program's screen at the request
/// for the last frame that lies wholly in what it read (`shown`). The whole frame counts as the client's last frame
/// before it. This holds unless the screen at that request showed U+FE0F.
///
/// If the view reads more bytes, but no further frame is whole, it still shows the same: until the whole frame has come
/// wholly, what it showed before (`untorn`). Whole frames of any session leave nothing unfinished (`ground`).
pub fn whole_frames_lead_from_anything()
    ensures shown { WholeFramesLeadFromAnything }
    ensures untorn { NoWholeFrameIsTorn }
    ensures ground { EachFrameEndsAtGround }
{}

/// The whole frame of a client whose session hasn't ended is the one after all answers to the session so far
/// (`answered`). A hub's answers to requests for whole frames are those that its history gives (`whole`).
pub fn whole_frames_are_reported()
    ensures answered { EachWholeIsReported }
    ensures whole { EachWholeMatches }
{}

/// A new screen of a session's size that keeps no rows is fed any prefix of the session's bytes, from the first one
/// on, in any pieces. While it is in no synchronized update, it shows the program's screen at the request for the
/// last frame that lies wholly in the prefix, or a blank screen if there is no such frame (`screens`). The same holds
/// of the screen of a new hub of that size that is fed in this way and never resized, whatever its other calls,
/// wherever its answer isn't `Held` (`hubs`). This holds unless the program's screen showed U+FE0F.
pub fn fed_screens_are_right()
    ensures screens { EachFedScreenIsRight }
    ensures hubs { EachFedHubIsRight }
{}

/// A tree of hubs: a new second hub of a session's size is fed any prefix of the session's bytes, from the first one
/// on, in any pieces. It is never resized, and has clients of its own. A new view reads any prefix of the bytes
/// pumped to one of these, in any pieces.
///
/// It shows the program's screen at the request for a whole frame, or a blank screen. The frame is the last one that
/// the second hub had been fed wholly when it made the last frame that the view has read wholly. This holds unless the
/// program's screen showed U+FE0F then.
pub fn trees_are_shown()
    ensures { TreesAreShown }
{}
