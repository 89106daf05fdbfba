//! Laws of what events and bytes make of a screen, each the contract of a function that does nothing.
ghost use Rattle.vt100.specs.Laws.{PlaysEvents, FeedsMake, FeedsJoin, FeedsNothing, ActsFollow};
ghost use Rattle.vt100.specs.Laws.{ResizedScreensArePutIn};
ghost use Rattle.vt100.specs.Copies.{EachCopyShowsTheSame, EachVisibleCopyShowsTheSame};
ghost use Rattle.vt100.specs.Copies.{EachVisibleRedrawLeads, EachVisibleDifferenceLeads};
ghost use Rattle.vt100.specs.WriterLaws.{EachRedrawIsOfShown, EachDifferenceIsOfShown, EachScreenIsDrawable};
ghost use Rattle.vt100.specs.WriterLaws.{EachRedrawLeads, EachDifferenceLeads, EachRowTextLeads};
ghost use Rattle.vt100.specs.WriterLaws.{EachRowDifferenceLeads};
ghost use Rattle.vt100.specs.FormLists.{EachModeLeads, EachModeChangeLeads, EachAttributeLeads, EachScreenIsKnown};
ghost use Rattle.vt100.specs.FormLists.{EachMadeScreenIsKnown, EachListIsSent, EachListIsOfForms, EachRowIsSent};
ghost use Rattle.vt100.specs.FormLists.{EachRowIsOfForms, EachListIsShort, EachScreenIsSmall};

/// With callbacks that do nothing, a screen that goes through events and doesn't fail is in the state that these events
/// make; so a parser that was fed bytes, in whatever pieces, shows what the joined bytes make.
pub fn events_are_played()
    ensures played { PlaysEvents }
    ensures made { FeedsMake }
{}

/// Two feeds equal one feed of the joined bytes, and feeding nothing changes nothing. Acts that follow other acts
/// continue where those end.
pub fn feeds_are_joined()
    ensures joined { FeedsJoin }
    ensures nothing { FeedsNothing }
    ensures after { ActsFollow }
{}

/// The screen of a parser may be cloned, resized, and put back into the parser. The parser is then as
/// [`Parser::set_size`](crate::Parser::set_size) would have left it; an unfinished character or sequence goes on.
pub fn screens_are_put_in()
    ensures { ResizedScreensArePutIn }
{}

/// If a live screen shows no kept row, the copy that [`clone_shown`](crate::Screen::clone_shown) makes of it has its
/// size and shows the same.
pub fn copies_show_the_same()
    ensures { EachCopyShowsTheSame }
{}

/// The copy that [`clone_visible`](crate::Screen::clone_visible) makes of a live screen has its size, and shows what
/// the screen shows, as a terminal can show it: without a wide character that the right edge cuts, with a wrapped row
/// only where the last column shows something, and never wrapped in the last row. So it shows the same if the screen
/// shows none of these. If no kept row is shown, [`clone_shown`](crate::Screen::clone_shown) makes the same copy.
pub fn visible_copies_show_the_same()
    ensures { EachVisibleCopyShowsTheSame }
{}

/// Whether a screen shows kept rows or not, a terminal of its size that reads a redraw of such a copy shows what the
/// screen shows; and a terminal that shows what an earlier screen showed, and reads the difference of both copies,
/// shows what the later one shows. No cell may show U+FE0F.
pub fn visible_copies_lead()
    ensures redraws { EachVisibleRedrawLeads }
    ensures differences { EachVisibleDifferenceLeads }
{}

/// Where a live screen shows no kept row, the forms that [`Screen`](crate::Screen) writes of itself are those of what
/// it shows: equal pictures give equal texts.
pub fn redraws_are_of_what_is_shown()
    ensures { EachRedrawIsOfShown }
{}

/// Where two screens of one size show no kept row, the forms of their difference are those of what both show.
pub fn differences_are_of_what_is_shown()
    ensures { EachDifferenceIsOfShown }
{}

/// What such a screen shows can be drawn, unless a cell has U+FE0F.
pub fn screens_are_drawable()
    ensures { EachScreenIsDrawable }
{}

/// A terminal that reads a redraw of such a screen shows what the screen shows. The redraw of the contents does so from
/// any picture; with the modes, if the mouse's modes and the cursor's style are the initial ones; the cursor's, if the
/// terminal has the screen's cells.
pub fn redraws_lead()
    ensures { EachRedrawLeads }
{}

/// A terminal that shows an earlier screen of the same size, and reads the difference, shows what such a screen shows.
pub fn differences_lead()
    ensures { EachDifferenceLeads }
{}

/// The texts of [`rows_formatted`](crate::Screen::rows_formatted) for whole rows, where such a row has no U+FE0F:
/// each draws the screen's row on a row of default cells, with the cursor at its start and the default attributes.
/// Every other row stays. This doesn't hold for a row that continues the one above.
pub fn texts_of_rows_lead()
    ensures { EachRowTextLeads }
{}

/// The texts of [`rows_diff`](crate::Screen::rows_diff) from an earlier screen of the same size: each draws the
/// screen's row on that of the earlier screen, whatever the rows above are.
pub fn differences_of_rows_lead()
    ensures { EachRowDifferenceLeads }
{}

/// [`input_mode_formatted`](crate::Screen::input_mode_formatted) and
/// [`input_mode_diff`](crate::Screen::input_mode_diff) set a terminal's modes and cursor style to those of the screen,
/// and [`attributes_formatted`](crate::Screen::attributes_formatted) its drawing attributes. Nothing else changes. The
/// first one needs the initial mouse modes and cursor style, the second one the modes and style of the earlier screen.
pub fn modes_lead()
    ensures set { EachModeLeads }
    ensures changed { EachModeChangeLeads }
    ensures attributes { EachAttributeLeads }
{}

/// Every cell that a live screen without kept rows shows can be sent as a form, unless it holds U+FFFD; screens made
/// from bytes and resizes never do. The numbers of what is shown fit the code's types.
pub fn screens_are_known()
    ensures shown { EachScreenIsKnown }
    ensures made { EachMadeScreenIsKnown }
    ensures small { EachScreenIsSmall }
{}

/// What each call writes of a known screen, or of its difference from an earlier one of its size, is a list of forms
/// that writers send: their texts are those of cells, and their numbers fit the code's types. Where no cell shows
/// U+FE0F, a screen and a view read these forms alike. The same holds of the text of each row, of whichever columns.
pub fn lists_are_of_forms()
    ensures sent { EachListIsSent }
    ensures forms { EachListIsOfForms }
    ensures rows_sent { EachRowIsSent }
    ensures rows { EachRowIsOfForms }
{}

/// How many bytes the calls write at most: 1,024 for each cell of the screen, and 512 more, with the modes 1,008 more;
/// and 128 for the modes alone.
pub fn lists_are_short()
    ensures { EachListIsShort }
{}
