//! Where rows go that leave a grid for good.
ghost use Rattle.std.specs.Prelude.{◌≡◌};

use crate::row::Row;

/// Takes the rows that leave a grid for good. `()` does nothing with them.
pub trait RowSink {
    ghost use Rattle.vt100_rows.specs.Row.{RowView};

    // What a call leaves, from the sink and the row.
    ghost takes: { Self → RowView → Self → Type 0 };

    /// Takes a row that leaves for good.
    fn row(&mut self, row: &Row)
        ensures { takes self.old row.now self.new };
}

impl RowSink for () {
    ghost takes = { λ s v t. s ≡ t };

    fn row(&mut self, _row: &Row) {}
}
