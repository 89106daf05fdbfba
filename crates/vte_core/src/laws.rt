//! Laws of the events of a byte stream, each as the contract of a function that does nothing.

ghost use Rattle.vte_core.specs.Laws.{KeepsBeginnings, AddsInOrder, CutsBeforeEsc, EscCutsOff, CutsAfter, AddsFitting};
ghost use Rattle.vte_core.specs.Laws.{TellsCharacters, PrintsTextAlone, AsksAtEnds, AsksAfterSequences};
ghost use Rattle.vte_core.specs.Laws.{AsksOutsideRuns};
ghost use Rattle.vte_core.specs.Ground.{AddsAsAlone, NothingIsAtGround, GroundJoins, EscLeavesGround, LeadsToGround};
ghost use Rattle.vte_core.specs.Ground.{EscapesEndAtGround, ControlSequencesEndAtGround, TextsEndAtGround};
ghost use Rattle.vte_core.specs.Ground.{NothingPendingIsGround, EscapesAreEvents, ControlSequencesAreEvents};
ghost use Rattle.vte_core.specs.Ground.{TextsAreEvents};

/// The events of a prefix of a stream are a prefix of the stream's events. Pieces that follow one another add their
/// events one after the other.
pub fn beginnings()
    ensures kept { KeepsBeginnings }
    ensures in_order { AddsInOrder }
{}

/// A stream may be cut before each ESC: `s ESC t` has the events of `s ESC`, then those of `ESC t`. The ESC itself
/// reports only what it cuts off: an unfinished character as U+FFFD, an operating system command, or a device string's
/// end.
pub fn cut_before_esc()
    ensures cut { CutsBeforeEsc }
    ensures ended { EscCutsOff }
{}

/// A stream may be cut after each CAN and each SUB: `s CAN t` has the events of `s CAN`, then those of `t`.
pub fn cut_after_cancel()
    ensures can { CutsAfter 0x18 }
    ensures sub { CutsAfter 0x1A }
{}

/// Each operating system command that some bytes add to a stream has 1 to 16 pieces, and at most as many bytes in all
/// as the parser keeps.
pub fn osc_fits()
    ensures { AddsFitting }
{}

/// A byte of ground text prints characters or executes controls, and does nothing else. A byte that isn't ground text
/// prints nothing, but an ESC that cuts off an unfinished character prints U+FFFD for it. Ground text comes before the
/// first ESC, and after the shape that each ESC begins.
pub fn ground_text()
    ensures characters { TellsCharacters }
    ensures alone { PrintsTextAlone }
{}

/// Where `Parser::advance_until_terminated` asks its performer: before the first byte of a piece and after its last,
/// and after each byte that adds an event other than a printed character or an executed control; but never after
/// ground text that goes on in the piece.
pub fn asking_points()
    ensures ends { AsksAtEnds }
    ensures sequences { AsksAfterSequences }
    ensures runs { AsksOutsideRuns }
{}

/// A parser is at ground where what follows is read as if it were alone: before the first byte, after bytes that end
/// at ground after others that do, after each CAN and each SUB, and where nothing is pending.
pub fn at_ground()
    ensures alone { AddsAsAlone }
    ensures nothing { NothingIsAtGround }
    ensures joined { GroundJoins }
    ensures can { LeadsToGround 0x18 }
    ensures sub { LeadsToGround 0x1A }
    ensures pending { NothingPendingIsGround }
{}

/// Sequences and texts that end at ground: an escape with its intermediates and its final byte (not one that begins a
/// longer sequence), a control sequence with its header and its final byte, and well-formed text without ESC. What
/// begins with ESC and ends at ground does so after any bytes.
pub fn ends_at_ground()
    ensures escapes { EscapesEndAtGround }
    ensures sequences { ControlSequencesEndAtGround }
    ensures texts { TextsEndAtGround }
    ensures anew { EscLeavesGround }
{}

/// The events of such sequences and texts: an escape or a control sequence its one event (none where the control
/// sequence is ignored), and a text its characters, each printed or, where it is a control, executed.
pub fn sequences_and_texts()
    ensures escapes { EscapesAreEvents }
    ensures sequences { ControlSequencesAreEvents }
    ensures texts { TextsAreEvents }
{}
