//! Facts about rows. Each function does nothing: its contract is the fact.
ghost use Rattle.vt100_rows.specs.Examples.{EachExampleIsWritten};
ghost use Rattle.vt100_rows.specs.Laws.{EachRowIsDrawn, EachDifferenceIsDrawn, EachTextIsSent};
ghost use Rattle.vt100_rows.specs.Laws.{EachTextIsAForm, EachHasNoMark, EachListIsSent, EachListIsOfForms};

/// A terminal whose cursor is at the start of a blank row, and that reads what
/// [`write_contents_formatted`](crate::Row::write_contents_formatted) appends for a whole row, shows this row there;
/// its other rows stay.
pub fn rows_are_drawn()
    ensures { EachRowIsDrawn }
{}

/// A terminal that shows the earlier row, and reads what
/// [`write_contents_diff`](crate::Row::write_contents_diff) appends for a whole row, shows this row there; its other
/// rows stay.
pub fn differences_are_drawn()
    ensures { EachDifferenceIsDrawn }
{}

/// The forms of any part of a row set no mode and no style; what they print are texts of cells, if no cell of the row
/// has U+FFFD.
pub fn texts_are_sent()
    ensures { EachTextIsSent }
{}

/// If no cell of the row has U+FFFD or U+FE0F, no text that is printed has U+FE0F.
pub fn texts_are_forms()
    ensures { EachTextIsAForm }
{}

/// With numbers of the code's types, the forms of any part of a row are such as writers send; if no cell has U+FE0F,
/// such as a screen and a view read alike.
pub fn lists_are_of_forms()
    ensures sent { EachListIsSent }
    ensures forms { EachListIsOfForms }
{}

/// What is appended contains no mark of a synchronized update.
pub fn marks_are_absent()
    ensures { EachHasNoMark }
{}

/// What is appended for some small rows.
pub fn examples_are_written()
    ensures { EachExampleIsWritten }
{}
