//! What is true of every terminal after a program's bytes, and resizes between them. Each law is the contract of a
//! function that does nothing.
//!
//! Sizes are from 1 to 65,535, and fewer than 2^64 rows are kept, as the types of the calls say.
#![tactic(auto, using(crate::proofs::MadeLemmas::held, crate::proofs::ShownLemmas::reported))]

ghost use Rattle.screen_model.specs.Holds.{MakesStates, MakesLastSize, MakesCapacity, MakesNoOffset, MakesCells};
ghost use Rattle.screen_model.specs.Holds.{MakesProperCells, MakesByteColors, KeepsAtSameSize};
ghost use Rattle.screen_model.specs.Shown.{EachCellIsReported, EachWrapIsReported, AlikeShowTheSame};
ghost use Rattle.screen_model.specs.Shown.{EachCharacterIsReported};

/// A new terminal has a valid state after any bytes and resizes. Its main and its alternate screen have one size. The
/// shown screen and the main one have their rows, and only the main one keeps rows that scroll off. The current, the
/// saved and all cells' attributes are proper.
pub fn made_states()
    ensures { MakesStates }
{}

/// The size after bytes and resizes is that of the last resize, or else the first one. The main screen can keep as many
/// rows as it could at first.
pub fn last_sizes()
    ensures size { MakesLastSize }
    ensures capacity { MakesCapacity }
{}

/// After bytes and resizes no kept row is shown, on either screen. Only `Screen::set_scrollback` shows them.
pub fn no_offsets()
    ensures { MakesNoOffset }
{}

/// Each cell that is shown has a cell's text, and that text holds no U+FFFD.
pub fn shown_cells()
    ensures { MakesCells }
{}

/// The attributes of each cell that is shown are proper: no bit of `mode` without a meaning, not both bold and dim, and
/// colour numbers from 0 to 255.
pub fn proper_cells()
    ensures { MakesProperCells }
{}

/// The colours of each cell that is shown, and the current ones, have numbers from 0 to 255.
pub fn byte_colors()
    ensures { MakesByteColors }
{}

/// A resize to the terminal's own size only ends the program's synchronized update. No row scrolls off.
pub fn same_sizes()
    ensures { KeepsAtSameSize }
{}

/// `Screen::cell` returns the cell that is shown, at each place of the screen, and `Screen::row_wrapped` returns each
/// row's flag. So two terminals of one size, for which all getters return the same, show the same. A character, such
/// as U+FE0F, is shown somewhere exactly when it is in a cell that `Screen::cell` returns.
pub fn shown_is_reported()
    ensures cells { EachCellIsReported }
    ensures wraps { EachWrapIsReported }
    ensures alike { AlikeShowTheSame }
    ensures characters { EachCharacterIsReported }
{}
