//! Facts about cells. Each function does nothing: its contract is the fact.
ghost use Rattle.vt100_cells.specs.Cell.{EachCellIsItsCharacters, EachTextIsShort};

/// A cell whose text has no U+FE0F comes from its first character when the others are put on, one after the other.
pub fn cells_are_their_characters()
    ensures { EachCellIsItsCharacters }
{}

/// A cell's text takes 21 bytes at most.
pub fn texts_are_short()
    ensures { EachTextIsShort }
{}
