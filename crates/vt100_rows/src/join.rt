//! What became of a zero-width character.
use vt100_cells::Cell;

/// What [`Row::join`](crate::Row::join) did with a zero-width character.
#[derive(Clone, Copy)]
pub enum Join {
    /// The cell keeps its columns. It holds the character now, unless it was full.
    InPlace,
    /// The character would have made the cell of a one-column row wide. Nothing changed.
    Ignored,
    /// The cell has become wide, and takes the next column too.
    Widened,
    /// The cell would have become wide in the last column. It is empty now; this is its text, wide, with the drawing
    /// attributes, for the next line.
    Carried(Cell),
}
