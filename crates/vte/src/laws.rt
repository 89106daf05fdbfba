//! Laws of the handler's calls, of the held bytes and of the values. Each is the contract of a function that does
//! nothing.
ghost use Rattle.vte.specs.Laws.{ConservesBytes, ConservesUnderAny, TakesOneWay, NeverTears, JoinsCalls, JoinsPrinted};
ghost use Rattle.vte.specs.Laws.{JoinsOpenings, JoinsTicks, CallsAreOfParsed, CallsAreOfParsedUnderAny};
ghost use Rattle.vte.specs.Laws.{FiltersClosings, IgnoresClosings, MakesTableCalls, OpensAsCalled, OpensAsAllCalled};
ghost use Rattle.vte.specs.Laws.{OpensByStarts, AsksWhereOpened};
ghost use Rattle.vte.specs.Frames.{StartMarksOpen, StartMarksCall, EndMarksCall, MarksEndAtGround, MovesFollow};
ghost use Rattle.vte.specs.Frames.{WholeFramesAreParsed, FramesAreNeverTorn, OnlyAMarkIsBegun, FramesEndAtGround};
ghost use Rattle.vte.specs.Frames.{PartsOpenNothing, TextsMakeFrames};

pub use crate::std_sync_handler::std_sync_handler_is_exact;
use crate::timeout::Timeout;
pub use vte_types::color::bright_and_dim_undo_each_other;
use vte_types::handler::Handler;
pub use vte_types::mode::raw_is_the_number;
pub use vte_types::rgb::display_is_read;

/// No byte is lost: all bytes given so far are the parsed ones followed by the held ones, whatever the timeout.
pub fn bytes_are_conserved<T: Timeout>()
    ensures exact { ConservesBytes }
    ensures any { ConservesUnderAny T.ticking }
{}

/// A piece has one outcome, if the timeout is pending exactly from setting to clearing. What was parsed and held
/// before, and the piece, determine what is parsed and held afterwards. They also determine the calls, and how the
/// timeout is set and cleared.
pub fn outcomes_are_settled()
    ensures { TakesOneWay }
{}

/// An update is never torn. While it is open, the held bytes fit, and no end mark has come whole, nothing is parsed and
/// no call is made.
pub fn updates_are_never_torn()
    ensures { NeverTears }
{}

/// The calls of two pieces together are those of the first and then those of the second. The same holds of the updates
/// that they open, and of the settings of the timeout.
pub fn stretches_are_joined()
    ensures calls { JoinsCalls }
    ensures printed { JoinsPrinted }
    ensures openings { JoinsOpenings }
    ensures ticks { JoinsTicks }
{}

/// The calls of a piece are the table's calls of the bytes that are parsed with it. Each time the whole hold is
/// emptied, one closing call (`unset_private_mode` of `SyncUpdate`) is added, and the timeout is cleared once.
pub fn calls_are_of_parsed_bytes<T: Timeout>()
    ensures exact { CallsAreOfParsed }
    ensures any { CallsAreOfParsedUnderAny T.ticking }
{}

/// Closing calls can be filtered out of a list of calls. A handler that ignores them ends in the state that it has
/// without them.
pub fn closings_are_ignored<H: Handler>()
    ensures filtered { FiltersClosings }
    ensures ignored { IgnoresClosings H.step }
{}

/// For a new processor, and any pieces, stops and timeout: all bytes given are the parsed ones followed by the held
/// ones. All its calls are the table's calls of the events of the parsed bytes. Each time the whole hold is emptied,
/// one closing call is added, and the timeout is cleared once.
pub fn calls_are_of_the_table<T: Timeout>()
    ensures { MakesTableCalls T.ticking }
{}

/// An update is opened by exactly those events whose calls contain `set_private_mode` of `SyncUpdate`. These are the
/// `CSI ? .. h` of which nothing was left out, with a group that begins with 2026. After the byte that completes it the
/// parser asks whether its performer is terminated.
pub fn openings_are_called()
    ensures event { OpensAsCalled }
    ensures events { OpensAsAllCalled }
    ensures starts { OpensByStarts }
    ensures asked { AsksWhereOpened }
{}

/// A start mark (`CSI ? 2026 h`) opens an update at its eighth byte and not before, whatever came before it. An end
/// mark (`CSI ? 2026 l`) opens none. After either nothing is unfinished: no sequence, and no character. If nothing was
/// unfinished before, a start mark makes one call, `set_private_mode` of `SyncUpdate`, and makes it at its last byte.
/// An end mark then calls `unset_private_mode` of it.
pub fn marks_are_read()
    ensures opens { StartMarksOpen }
    ensures start { StartMarksCall }
    ensures end { EndMarksCall }
    ensures whole { MarksEndAtGround }
{}

/// A frame is an update from its start mark to its end mark. Frames one after another are parsed whole, and nothing is
/// held after them. It doesn't matter how they are cut into pieces, or where `stop_sync` is called. After them no
/// sequence and no character is unfinished.
pub fn whole_frames_are_parsed()
    ensures parsed { WholeFramesAreParsed }
    ensures finished { FramesEndAtGround }
    ensures moves { MovesFollow }
{}

/// Frames shorter than 2,097,151 bytes are never torn. If a prefix of several frames is given, in any pieces, exactly
/// the frames that came whole are parsed. Of the next one at most its start mark is parsed; a prefix of the mark makes
/// no call.
pub fn frames_are_never_torn()
    ensures untorn { FramesAreNeverTorn }
    ensures begun { OnlyAMarkIsBegun }
{}

/// What may be between the marks of a frame. Parts that leave nothing unfinished, and open no update, can be joined.
/// Well-formed text without ESC makes a frame.
pub fn frames_are_made()
    ensures parts { PartsOpenNothing }
    ensures texts { TextsMakeFrames }
{}
