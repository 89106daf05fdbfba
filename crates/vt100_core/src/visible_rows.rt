//! The rows that are shown.
ghost use Rattle.std.specs.Prelude.{◌≡◌, ◌<◌, ◌^◌, length};
ghost use Rattle.std.specs.Iterator.{YieldsFirstRef, item_count};
ghost use Rattle.vt100_core.specs.Grid.{visible};

use crate::grid::Grid;
use std::marker::Model;
use vt100_rows::Row;

/// An iterator over the rows that are shown, from the top.
#[derive(Debug, Drop)]
pub struct VisibleRows<'a> {
    grid: &'a Grid,
    next: u16,
}

impl<'a> Model for VisibleRows<'a> {
    ghost use Rattle.std.specs.Prelude.{List, drop, length, ◌<◌, ◌^◌};
    ghost use Rattle.vt100_rows.specs.Row.{RowView};
    ghost use Rattle.vt100_core.specs.Grid.{visible};

    ghost Value = { List RowView };

    ghost view = { λ s. drop s.next (visible s.grid.now) };

    ghost invariant = { λ s. length s.grid.now.rows < 2 ^ 16 };
}

impl<'a> VisibleRows<'a> {
    pub(crate) fn new(grid: &'a Grid) -> Self
        requires { length grid.now.rows < 2 ^ 16 }
        ensures { result ≡ visible grid.now }
    {
        VisibleRows { grid, next: 0 }
    }
}

impl<'a> Iterator for VisibleRows<'a> {
    type Item = &'a Row;

    ghost next_gives = { YieldsFirstRef (λ s. s) };

    ghost remaining = { item_count (λ s. s) };

    fn next(&mut self) -> Option<&'a Row> {
        match self.grid.visible_row(self.next) {
            Some(row) => {
                self.next += 1;
                Some(row)
            }
            None => None,
        }
    }
}
