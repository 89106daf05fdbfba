//! Facts about frames. Each function does nothing: its contract is the fact.
ghost use Rattle.termrelay.specs.Answers.{EachSameIsOne, EachOneIsSame, EachExampleIsAnswered, EachSmallScreenFits};
ghost use Rattle.termrelay.specs.Frame.{EachSureIsPlain, EachFrameIsMarked, EachFrameLeads, EachFrameSetsModes};
ghost use Rattle.termrelay.specs.Frame.{EachBodyIsSent, EachBodyIsOfForms, EachFrameIsShort};
ghost use Rattle.termrelay.specs.Whole.{EachWholeFrameLeads, EachWholeFrameSetsModes, EachWholeFrameIsSent};
ghost use Rattle.termrelay.specs.Laws.{TwoFeedsAreOne, TwoFeedsRunAsOne};

/// On a screen that is sure, no cell has U+FE0F.
pub fn sure_screens_are_plain()
    ensures { EachSureIsPlain }
{}

/// A frame is the start mark, a body and the end mark. Neither mark occurs anywhere else in it. This holds for screens
/// without U+FFFD in a cell; a screen never shows that character.
pub fn frames_are_marked()
    ensures { EachFrameIsMarked }
{}

/// If no cell of the present screen has U+FE0F, a frame's body makes a client that has had all earlier frames show the
/// present screen. The first frame starts from a blank screen, and later ones from what the last one showed. After a
/// screen with U+FE0F, a frame starts from any picture with that screen's modes and cursor style.
pub fn frames_lead()
    ensures { EachFrameLeads }
{}

/// After a frame the client has the screen's input modes and cursor style, also if a cell shows U+FE0F.
pub fn frames_set_modes()
    ensures { EachFrameSetsModes }
{}

/// A frame's body is a list of forms (texts and escape sequences) that the writers send. Unless the present screen
/// shows U+FE0F, a `vt100` screen and a view of `termview` read these forms alike.
pub fn bodies_are_of_forms()
    ensures sent { EachBodyIsSent }
    ensures forms { EachBodyIsOfForms }
{}

/// A frame has at most 1,024 bytes for each cell, and 1,024 more, also if a cell shows U+FE0F.
pub fn frames_are_short()
    ensures { EachFrameIsShort }
{}

/// A whole frame makes a terminal show the screen, whatever picture, modes and cursor style it had before (`lead`). If
/// a cell shows U+FE0F, modes and cursor style still come out right (`modes`). The body is a list of forms that the
/// writers send (`sent`).
pub fn whole_frames_lead()
    ensures lead { EachWholeFrameLeads }
    ensures modes { EachWholeFrameSetsModes }
    ensures sent { EachWholeFrameIsSent }
{}

/// On a screen of at most 2,000 cells no frame is too long, so that `TooLong` never comes.
pub fn small_frames_are_not_too_long()
    ensures { EachSmallScreenFits }
{}

/// If the comparison calls two screens of one size the same, they show the same (`one`). So a client that is answered
/// `Unchanged` misses nothing. If two screens show the same, the comparison calls them the same (`same`). So no frame
/// is made of what the client has already.
pub fn same_screens_are_one()
    ensures one { EachSameIsOne }
    ensures same { EachOneIsSame }
{}

/// Examples of answers, on screens of one cell. On any screen, `Behind` comes before `Held`, and `Held` before all
/// other answers.
pub fn examples_are_answered()
    ensures { EachExampleIsAnswered }
{}

/// Two feeds that succeed give the same hub as one successful feed of the joined bytes (`one`). In a run the log has
/// one reply less, and is the same otherwise (`run`).
pub fn feeds_are_joined()
    ensures one { TwoFeedsAreOne }
    ensures run { TwoFeedsRunAsOne }
{}
