//! Facts about grids as wholes. Each function does nothing: its contract is the fact.
ghost use Rattle.vt100_core.specs.Resize.{EachResizePlacesRows, EachResizeKeepsRows};
ghost use Rattle.vt100_core.specs.Picture.{EachPrintIsInput, EachTextIsInput};
ghost use Rattle.vt100_core.specs.WriterLaws.{EachCursorIsOfPicture, EachRedrawIsOfPicture, EachDifferenceIsOfPictures};
ghost use Rattle.vt100_core.specs.WriterLaws.{EachGridIsDrawable, EachRedrawIsDrawn, EachDifferenceIsDrawn};
ghost use Rattle.vt100_core.specs.WriterLaws.{EachCursorIsDrawn};
ghost use Rattle.vt100_core.specs.FormLists.{EachListIsSent, EachListIsOfForms, EachListIsShort};

/// Which row is where after [`Grid::set_size`](crate::Grid::set_size), counted from the top: rows that come back,
/// blank ones above them where they weren't kept, then the rows that were on the screen and stay, and blank ones
/// below.
pub fn resizes_place_rows()
    ensures { EachResizePlacesRows }
{}

/// Which rows are kept after [`Grid::set_size`](crate::Grid::set_size).
pub fn resizes_keep_rows()
    ensures { EachResizeKeepsRows }
{}

/// What printing makes of a grid whose region is the whole screen is what a terminal's picture says of input, unless
/// U+FE0F makes a cell wide.
pub fn printing_is_input()
    ensures { EachPrintIsInput }
{}

/// What printing a text without U+FE0F, which a terminal reads as a form, makes of a grid whose region is the whole
/// screen is what a terminal's picture says of the form.
pub fn texts_are_input()
    ensures { EachTextIsInput }
{}

/// [`Grid::write_cursor_position_formatted`](crate::Grid::write_cursor_position_formatted) appends the forms that bring
/// the cursor to its place in the grid's picture.
pub fn cursors_are_of_pictures()
    ensures { EachCursorIsOfPicture }
{}

/// Where no kept row is shown, [`Grid::write_contents_formatted`](crate::Grid::write_contents_formatted) appends the
/// redraw of the grid's picture.
pub fn redraws_are_of_pictures()
    ensures { EachRedrawIsOfPicture }
{}

/// Where neither grid shows a kept row, [`Grid::write_contents_diff`](crate::Grid::write_contents_diff) of two grids of
/// one size appends the difference of their pictures.
pub fn differences_are_of_pictures()
    ensures { EachDifferenceIsOfPictures }
{}

/// The picture of a grid can be drawn.
pub fn grids_are_drawable()
    ensures { EachGridIsDrawable }
{}

/// Any terminal that reads what [`Grid::write_contents_formatted`](crate::Grid::write_contents_formatted) appends then
/// has the grid's cells, flags and cursor, and draws with the attributes that the call returns.
pub fn redraws_lead()
    ensures { EachRedrawIsDrawn }
{}

/// A terminal with the earlier grid's cells, flags and cursor and with the given attributes, which reads what
/// [`Grid::write_contents_diff`](crate::Grid::write_contents_diff) appends, then has those of the grid, and draws with
/// the attributes that the call returns.
pub fn differences_lead()
    ensures { EachDifferenceIsDrawn }
{}

/// A terminal with the grid's cells and flags and with the given cursor and attributes, which reads what
/// [`Grid::write_cursor_position_formatted`](crate::Grid::write_cursor_position_formatted) appends, then has the grid's
/// cursor. Nothing else changes.
pub fn cursors_lead()
    ensures { EachCursorIsDrawn }
{}

/// What the three calls append for a grid that shows no kept row and no U+FFFD are lists of forms that writers send:
/// their texts are those of cells, and their numbers are of the code's types. Where no cell shows U+FE0F they are forms
/// that a screen and a view read alike.
pub fn lists_are_of_forms()
    ensures sent { EachListIsSent }
    ensures forms { EachListIsOfForms }
{}

/// A redraw and a difference take at most 1,024 bytes for each cell of the screen, and 256 more.
pub fn lists_are_short()
    ensures { EachListIsShort }
{}
