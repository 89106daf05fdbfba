//! A place on the screen.

/// A place on the screen, counted from 0 at the top left corner. A cursor's column may equal the number of columns.
#[derive(Clone, Copy, Debug, Default, Eq, PartialEq)]
pub struct Pos {
    /// The row, counted from the top.
    pub row: u16,
    /// The column, counted from the left.
    pub col: u16,
}
