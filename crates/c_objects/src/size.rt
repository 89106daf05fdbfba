//! A caller's limit on sizes.
ghost use Rattle.std.specs.Prelude.{◌≡◌, ◌*◌, nat_le};

/// Whether a size has at most `most_cells` cells.
pub fn is_within(rows: u16, cols: u16, most_cells: usize) -> bool
    ensures { result ≡ nat_le (rows * cols) most_cells }
{
    usize::from(rows) * usize::from(cols) <= most_cells
}
