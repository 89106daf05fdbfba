//! Facts about redraws and differences of screens. Each function does nothing: its contract is the fact.
ghost use Rattle.screen_drawing.specs.Length.{EachIsShort};
ghost use Rattle.screen_drawing.specs.Local.{EachRowsDifferenceIsLocal, EachGridDifferenceIsLocal};
ghost use Rattle.screen_drawing.specs.Local.{EachContentsDifferenceIsLocal, EachDifferenceIsLocal};
ghost use Rattle.screen_drawing.specs.LocalExamples.{EachDifferenceTouches};
ghost use Rattle.screen_drawing.specs.Examples.{EachExampleIsWritten};
ghost use Rattle.screen_drawing.specs.Laws.{EachModeIsSet, EachModeIsChanged, EachAttributeIsSet};
ghost use Rattle.screen_drawing.specs.Laws.{EachCursorIsPlaced, EachCursorStateIsSet};
ghost use Rattle.screen_drawing.specs.Laws.{EachRowsRedrawLeads, EachRowsDifferenceLeads};
ghost use Rattle.screen_drawing.specs.Laws.{EachGridRedrawLeads, EachGridDifferenceLeads, EachRedrawLeads};
ghost use Rattle.screen_drawing.specs.Laws.{EachStateRedrawLeads, EachDifferenceLeads, EachStateDifferenceLeads};
ghost use Rattle.screen_drawing.specs.Laws.{EachChainLeads, EachLaterRedrawLeads};
ghost use Rattle.screen_drawing.specs.Laws.{EachModeComesOut, EachTextIsSent, EachTextIsAForm, EachIsPlain};
ghost use Rattle.screen_drawing.specs.Laws.{EachHasNoMark, EachListIsSent, EachListIsOfForms};

/// On a terminal that shows a screen's cells and flags, the forms for the cursor move it to its place. Nothing else
/// changes.
pub fn cursors_are_placed()
    ensures { EachCursorIsPlaced }
{}

/// On a terminal that shows a screen's cells and flags, the forms move the cursor to its place, and hide or show it.
/// Nothing else changes.
pub fn cursor_states_are_set()
    ensures { EachCursorStateIsSet }
{}

/// A terminal whose mouse modes and cursor style are the default gets the modes and the cursor style of the screen.
pub fn modes_are_set()
    ensures { EachModeIsSet }
{}

/// A terminal that has the earlier modes and cursor style gets the present ones.
pub fn modes_are_changed()
    ensures { EachModeIsChanged }
{}

/// Any terminal gets the attributes that are set.
pub fn attributes_are_set()
    ensures { EachAttributeIsSet }
{}

/// The redraws of all rows take a blank screen to the cells and flags of the present one. The pen says where the cursor
/// is then, and what the terminal's attributes are.
pub fn redraws_of_rows_lead()
    ensures { EachRowsRedrawLeads }
{}

/// The differences of all rows take a terminal from the cells and flags of an earlier screen to those of the present
/// one.
pub fn differences_of_rows_lead()
    ensures { EachRowsDifferenceLeads }
{}

/// The differences of all rows touch only local cells: those that differ, and a few near them.
pub fn differences_of_rows_are_local()
    ensures { EachRowsDifferenceIsLocal }
{}

/// The redraw of a grid takes any terminal to the grid's cells, flags and cursor.
pub fn grid_redraws_lead()
    ensures { EachGridRedrawLeads }
{}

/// The difference of two grids takes a terminal from the earlier one's cells, flags and cursor to those of the present
/// one.
pub fn grid_differences_lead()
    ensures { EachGridDifferenceLeads }
{}

/// The redraw of a screen takes any terminal to the screen's picture, and leaves the modes and the cursor style.
pub fn redraws_lead()
    ensures { EachRedrawLeads }
{}

/// The redraw of a screen with its modes takes a terminal to all that the screen shows. The terminal's mouse modes and
/// cursor style must be the default before.
pub fn state_redraws_lead()
    ensures { EachStateRedrawLeads }
{}

/// The difference of two screens takes a terminal from the earlier picture to the present one, and leaves the modes and
/// the cursor style.
pub fn differences_lead()
    ensures { EachDifferenceLeads }
{}

/// The difference of two screens and their modes takes a terminal from all that the earlier one shows to all that the
/// present one shows.
pub fn state_differences_lead()
    ensures { EachStateDifferenceLeads }
{}

/// The differences of grids, of screens' contents, and of screens with their modes touch only local cells. Local are
/// the cells that differ. In rows that differ, and right below them, empty cells and those of the first and the last
/// column are local too. So are the other halves of all these. If the present cursor is past the last column, the
/// last cell of one row may also be touched.
pub fn differences_touch_local_cells()
    ensures grids { EachGridDifferenceIsLocal }
    ensures contents { EachContentsDifferenceIsLocal }
    ensures states { EachDifferenceIsLocal }
{}

/// A redraw, followed by the difference of the modes, takes a terminal to all that the present screen shows. The
/// terminal must have the modes and the cursor style of the earlier screen before.
pub fn later_redraws_lead()
    ensures { EachLaterRedrawLeads }
{}

/// After a redraw, and differences one after the other, a terminal shows the last screen.
pub fn chains_lead()
    ensures { EachChainLeads }
{}

/// Modes and cursor style are right also if U+FE0F is shown, which makes a cell wide in some terminals. A redraw or
/// difference of the contents alone leaves them.
pub fn modes_come_out()
    ensures { EachModeComesOut }
{}

/// Each text among the forms is that of a cell or a space, if no cell shows U+FFFD.
pub fn texts_are_sent()
    ensures { EachTextIsSent }
{}

/// If no cell shows U+FE0F either, none of the texts has it.
pub fn texts_are_forms()
    ensures { EachTextIsAForm }
{}

/// None of the texts has an ESC.
pub fn texts_are_plain()
    ensures { EachIsPlain }
{}

/// The bytes hold no mark of a synchronized update (private mode 2026).
pub fn no_mark_is_written()
    ensures { EachHasNoMark }
{}

/// Every list consists of forms that writers send: texts of cells, and numbers that fit in the code's types. If no cell
/// shows U+FE0F, its forms are read alike by a screen and by a view.
pub fn lists_are_of_forms()
    ensures sent { EachListIsSent }
    ensures forms { EachListIsOfForms }
{}

/// At most 1,024 bytes are written for each cell of the screen, and 256, 512 or 1,008 more; at most 128 for the modes
/// alone.
pub fn redraws_and_differences_are_short()
    ensures { EachIsShort }
{}

/// Small screens, and the forms that are written for them.
pub fn examples_are_written()
    ensures { EachExampleIsWritten }
{}

/// Small screens, and the cells that their differences touch.
pub fn examples_touch_few_cells()
    ensures { EachDifferenceTouches }
{}
