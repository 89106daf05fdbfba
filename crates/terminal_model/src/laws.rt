//! Facts about forms and pictures as wholes. Each function does nothing: its contract is the fact.
ghost use Rattle.terminal_model.specs.Examples.{EachExampleHolds};
ghost use Rattle.terminal_model.specs.FormText.{EachCellIsSent, EachTextIsPlain, EachFormIsSent, EachSentFormIsPlain};
ghost use Rattle.terminal_model.specs.Laws.{EachEmptyFormIsIdle, EachFormKeepsTerminals, EachListJoins, EachPathJoins};
ghost use Rattle.terminal_model.specs.Laws.{EachMoveLeads, EachChangeIsRead, EachCellIsPrinted, EachUntouchedCellStays};

/// A form without bytes changes nothing.
pub fn empty_forms_are_idle()
    ensures { EachEmptyFormIsIdle }
{}

/// Each form keeps what is true of every terminal (`IsTerm`): the cursor is on the screen, halves of wide cells are
/// together.
pub fn forms_keep_terminals()
    ensures { EachFormKeepsTerminals }
{}

/// Reading two joined lists of forms is the same as reading the first and then the second.
pub fn lists_join()
    ensures { EachListJoins }
{}

/// If one list of forms takes a terminal from `a` to `b`, and another from `b` to `c`, both together take it from `a`
/// to `c`.
pub fn paths_join()
    ensures { EachPathJoins }
{}

/// After a move the cursor is where the move ends, and nothing else has changed.
pub fn moves_lead()
    ensures { EachMoveLeads }
{}

/// After a change between proper attributes the terminal draws with the new ones, and nothing else has changed.
pub fn changes_are_read()
    ensures { EachChangeIsRead }
{}

/// A cell's text without U+FE0F, read by a terminal that draws with the cell's attributes, prints that cell.
pub fn cells_are_printed()
    ensures { EachCellIsPrinted }
{}

/// A form changes no cell but those that it touches.
pub fn untouched_cells_stay()
    ensures { EachUntouchedCellStays }
{}

/// The text of a cell can be sent as a form, unless it holds U+FFFD.
pub fn cells_are_sent()
    ensures { EachCellIsSent }
{}

/// The text of a cell holds no ESC.
pub fn texts_are_plain()
    ensures { EachTextIsPlain }
{}

/// A form without U+FE0F is one of those that writers send, and the texts of those hold no ESC.
pub fn forms_are_sent()
    ensures sent { EachFormIsSent }
    ensures plain { EachSentFormIsPlain }
{}

/// Small screens, and what they show after some forms.
pub fn examples_hold()
    ensures { EachExampleHolds }
{}
