//! What became of a character.

/// What [`Grid::text`](crate::Grid::text) did with a character.
#[derive(Clone, Copy, Debug, Eq, PartialEq)]
pub enum Printed {
    /// The character was dropped.
    Nothing,
    /// The character has a cell of its own.
    Spacing,
    /// The character joined the cell before it. A cell that was full is as it was.
    Joined,
}
