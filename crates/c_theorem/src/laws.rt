//! The promise, for calls from C. Each function does nothing: its contract is the fact.
ghost use Rattle.c_theorem.specs.Companions.{NoFrameFromCIsTorn, SessionsFromCAreIsolated, WholeFramesFromCAreShown};
ghost use Rattle.c_theorem.specs.Shown.{ViewsFromCAreShown};
ghost use Rattle.c_theorem.specs.Words.{ViewsInWordsAreShown, WordsAreObjects};

use c_objects::laws::runs_from_c_are_logged;
use relay_theorem::laws::{
    logged_frames_are_shown, no_frame_is_torn, sessions_are_isolated, whole_logged_frames_are_shown,
};
use std::io;
use termview::laws::until_cleared_is_exact;

/// C makes a hub, makes any calls on it, and hands each client the bytes that it reports as sent. It makes a view of a
/// client's size, and lets it read any prefix of the bytes that the client was handed, in any pieces. The view shows
/// the program's screen at the request for the last frame that lies wholly in the prefix, or a blank screen if none
/// does. This holds unless that screen showed U+FE0F.
pub fn views_from_c_are_shown()
    ensures { ViewsFromCAreShown }
{
    // A writer may stop with any error: this one will do.
    let _fault = io::Error::from(io::ErrorKind::Other);
    runs_from_c_are_logged();
    logged_frames_are_shown();
    until_cleared_is_exact();
}

/// C lets a new view of a client's size read that client's first frames, whole, in any pieces, and stops its update by
/// hand wherever it likes (`jeihpal_view_stop`). The view shows the program's screen at the request for the last of
/// these frames, unless that screen showed U+FE0F, and holds nothing back.
pub fn whole_frames_from_c_are_shown()
    ensures { WholeFramesFromCAreShown }
{
    let _fault = io::Error::from(io::ErrorKind::Other);
    runs_from_c_are_logged();
    whole_logged_frames_are_shown();
    until_cleared_is_exact();
}

/// C lets a new view of a client's size read a prefix of the bytes that the client was handed, and then more of them.
/// If no further frame is whole then, the view still shows the same, also where the last whole frame showed U+FE0F.
pub fn no_frame_from_c_is_torn()
    ensures { NoFrameFromCIsTorn }
{
    let _fault = io::Error::from(io::ErrorKind::Other);
    runs_from_c_are_logged();
    whole_logged_frames_are_shown();
    no_frame_is_torn();
    until_cleared_is_exact();
}

/// C makes two hubs of one size, and any calls on them. Where a client of each has the same own calls, both were handed
/// the same bytes, and are alike in all else: whatever the other calls and the keys were, if no call failed for want of
/// memory.
pub fn sessions_from_c_are_isolated()
    ensures { SessionsFromCAreIsolated }
{
    let _fault = io::Error::from(io::ErrorKind::Other);
    runs_from_c_are_logged();
    whole_logged_frames_are_shown();
    sessions_are_isolated();
}

/// What calls from C do to words is what they do to the objects in them, so the laws on objects are laws on words
/// (`objects`). The law [`views_from_c_are_shown`] is also stated of words (`shown`): those that hold the hub and the
/// view.
pub fn words_are_objects()
    ensures objects { WordsAreObjects }
    ensures shown { ViewsInWordsAreShown }
{
    views_from_c_are_shown();
}
