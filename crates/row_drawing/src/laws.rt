//! Facts about redraws and differences of rows. Each function does nothing: its contract is the fact.
ghost use Rattle.row_drawing.specs.Examples.{EachExampleIsWritten};
ghost use Rattle.row_drawing.specs.Laws.{EachDifferenceLeads, EachRedrawLeads, EachKeptRowIsLeft, EachTextIsDrawn};
ghost use Rattle.row_drawing.specs.Laws.{EachDifferenceIsLocal};
ghost use Rattle.row_drawing.specs.Small.{EachNumberIsSmall};

/// A terminal that shows an earlier row, and reads the difference, shows the present one. It has the row's flag, or the
/// cursor is past the last column and the next row sets the flag. The flag of the row above is set if that row wraps.
pub fn differences_lead()
    ensures { EachDifferenceLeads }
{}

/// A terminal that shows a blank row, and reads the redraw, shows the present one. It has the row's flag, or the cursor
/// is past the last column and the next row sets the flag. The flag of the row above is set if that row wraps.
pub fn redraws_lead()
    ensures { EachRedrawLeads }
{}

/// Nothing is written for a row that the terminal shows already, and the pen stays as it is.
pub fn kept_rows_are_left()
    ensures { EachKeptRowIsLeft }
{}

/// A difference touches only local cells. Local are cells that differ; near them, empty cells and those of the first
/// and the last column; and the other halves of all these.
pub fn differences_are_local()
    ensures { EachDifferenceIsLocal }
{}

/// Redraws and differences set no mode and no cursor style. Each text in them is a space or the text of a cell of the
/// row.
pub fn texts_are_drawn()
    ensures { EachTextIsDrawn }
{}

/// If the numbers of the row and of the pen fit in the code's types, so do those of the forms, and of the pen
/// afterwards.
pub fn numbers_are_small()
    ensures { EachNumberIsSmall }
{}

/// What is written for some small rows.
pub fn examples_are_written()
    ensures { EachExampleIsWritten }
{}
