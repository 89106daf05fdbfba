//! A row that is to be drawn, and where.
ghost use Rattle.std.specs.Prelude.{◌<◌, ◌^◌, length};
ghost use Rattle.vt100_cells.specs.Cells.{cell_at};
ghost use Rattle.vt100_cells.specs.Line.{IsPaired};

use vt100_cells::Cell;

/// Where a row is drawn, and which of its columns.
#[derive(Clone, Copy, Debug, Eq, PartialEq)]
pub struct Place {
    /// The row's number, from 0 at the top of the screen.
    pub row: u16,
    /// The first column that is drawn, from 0.
    pub start: u16,
    /// How many columns are drawn at most.
    pub width: u16,
    /// Whether the row above wraps into this one.
    pub above: bool,
    /// Whether the terminal has the flag of the row above. On a blank row it has none, whatever this field says.
    pub was_above: bool,
}

/// A row, and the one that the terminal shows in its place. A row's flag says that the row wraps into the next one.
#[derive(Clone, Copy)]
pub struct Drawing<'a> {
    /// The row's cells.
    pub cells: &'a [Cell],
    /// The cells that the terminal shows; after their end it shows default cells.
    pub earlier: &'a [Cell],
    /// Whether the row wraps into the next one.
    pub wrapped: bool,
    /// Whether the row that the terminal shows wraps into the next one.
    pub was_wrapped: bool,
    /// Whether the row above wraps into this one.
    pub above: bool,
    /// Whether the terminal has the flag of the row above.
    pub was_above: bool,
    /// The row's number, from 0 at the top of the screen.
    pub row: u16,
    /// The first column that is drawn, from 0.
    pub start: u16,
    ghost few: { length cells.now < 2 ^ 16 },
    ghost paired: { IsPaired (cell_at cells.now) },
}
