//! Laws of what a view shows, each as the contract of a function that does nothing.
ghost use Rattle.termview.specs.Laws.{MoreBytesStep, MarksShowNothing, FramesShowTheirBodies, WholeFramesAreShown};
ghost use Rattle.termview.specs.Laws.{NoFrameIsTorn, EachCallKeepsTerminals, EachStreamShowsATerminal};
ghost use Rattle.termview.specs.Laws.{EachWrittenFormIsShown};
ghost use Rattle.termview.specs.FormFrames.{FormsMakeFrames, FramesOpenOnce, FramesFinish, FramesShowForms};
ghost use Rattle.termview.specs.FormFrames.{WrittenFormsAreParsed, WrittenFormsAreTaken};

pub use crate::until_cleared::until_cleared_is_exact;
use vte::ansi::Timeout;

/// More bytes change what a view shows by the calls that a parser makes for them, one after another.
pub fn bytes_are_shown_in_turn()
    ensures { MoreBytesStep }
{}

/// Outside of a character or an escape sequence, the marks of a synchronized update change nothing that is shown.
/// Neither does the prefix of a start mark (`marks`). A body between the marks has the same effect as without them,
/// unless it ends inside a sequence (`bodies`).
pub fn marks_show_nothing()
    ensures marks { MarksShowNothing }
    ensures bodies { FramesShowTheirBodies }
{}

/// Frames that arrive one after another are shown whole. This holds for any cut into pieces, and wherever
/// [`View::stop_sync`](crate::View::stop_sync) is called.
pub fn whole_frames_are_shown()
    ensures { WholeFramesAreShown }
{}

/// A frame of at most 2,097,150 bytes is never shown in part. From any prefix of joined frames, in any pieces, a view
/// shows exactly the frames that arrived whole.
pub fn no_frame_is_torn()
    ensures { NoFrameIsTorn }
{}

/// Whatever calls a view gets, its picture stays sound. The two cells of a wide character stay together, and no cell
/// lies off the screen. A wrapped row isn't the last one, and shows something in its last column. The cursor and the
/// saved cursor are on the screen.
pub fn views_show_terminals()
    ensures calls { EachCallKeepsTerminals }
    ensures streams { EachStreamShowsATerminal }
{}

/// The bytes of forms (texts and escape sequences of the writers) have the forms' effect, on every screen of at most
/// 65,535 rows and columns. They may follow any bytes that don't end inside a character or an escape sequence, and they
/// don't end inside one either.
pub fn written_forms_are_shown()
    ensures { EachWrittenFormIsShown }
{}

/// The bytes of forms between the marks of a synchronized update are a frame (`frames`). Whatever came before, the
/// frame opens an update only at its eighth byte (`opens`). It never ends inside a character or an escape sequence
/// (`finished`). If the bytes before it didn't either, the frame has the forms' effect (`shown`).
pub fn forms_are_framed()
    ensures frames { FormsMakeFrames }
    ensures opens { FramesOpenOnce }
    ensures finished { FramesFinish }
    ensures shown { FramesShowForms }
{}

/// If no synchronized update is open, all bytes of forms are parsed at once and none is buffered, in any pieces. They
/// must not follow an unfinished character or escape sequence.
pub fn written_forms_are_read<T: Timeout>()
    ensures pieces { WrittenFormsAreParsed }
    ensures views { WrittenFormsAreTaken T.ticking }
{}
