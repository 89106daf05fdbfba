//! How large a screen is.
ghost use Rattle.std.specs.Prelude.{◌≡◌};

use std::num::NonZeroU16;

/// How many rows and columns a screen has: 1 to 65,535 of each.
#[derive(Clone, Copy, Debug, Eq, PartialEq)]
pub struct Size {
    /// How many rows.
    pub rows: NonZeroU16,
    /// How many columns.
    pub cols: NonZeroU16,
}

impl Size {
    /// The number of rows.
    pub fn rows(self) -> u16
        ensures { result ≡ self.rows.value }
    {
        self.rows.get()
    }

    /// The number of columns.
    pub fn cols(self) -> u16
        ensures { result ≡ self.cols.value }
    {
        self.cols.get()
    }
}
