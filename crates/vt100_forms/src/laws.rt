//! Facts about attributes and forms as wholes. Each function does nothing: its contract is the fact.
ghost use Rattle.vt100_forms.specs.Attrs.{EachSetterIsRead, EachSetterKeepsProper};
ghost use Rattle.vt100_forms.specs.Form.{EachChangeLeads};
ghost use Rattle.vt100_forms.specs.Length.{EachWrittenFormIsShort, EachMoveIsShort, EachChangeIsShort};
ghost use Rattle.vt100_forms.specs.Mark.{NoMarkInForms, MarksStandBehindForms};

/// A setter of `Attrs` sets what its name says, and no other flag changes.
pub fn setters_are_read()
    ensures { EachSetterIsRead }
{}

/// The setters keep attributes proper. Proper attributes aren't both bold and dim, use only the five bits that have a
/// meaning, and have bytes as colour numbers.
pub fn setters_keep_proper()
    ensures { EachSetterKeepsProper }
{}

/// An SGR of what differs takes a terminal from the old attributes to the new ones, if both are proper.
pub fn changes_lead()
    ensures { EachChangeLeads }
{}

/// A form has at most as many bytes as the definition `longest` says for its kind.
pub fn written_forms_are_short()
    ensures { EachWrittenFormIsShort }
{}

/// A move of the cursor takes 14 bytes at most.
pub fn moves_are_short()
    ensures { EachMoveIsShort }
{}

/// A change of attributes takes 48 bytes at most.
pub fn changes_are_short()
    ensures { EachChangeIsShort }
{}

/// The bytes of forms hold no mark of a synchronized update (private mode 2026), if the texts among them hold no ESC.
pub fn no_mark_is_in_forms()
    ensures { NoMarkInForms }
{}

/// If other bytes follow forms whose texts hold no ESC, a mark of a synchronized update in the whole begins after the
/// forms.
pub fn marks_stand_behind_forms()
    ensures { MarksStandBehindForms }
{}
