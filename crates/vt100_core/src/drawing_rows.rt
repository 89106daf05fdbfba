//! The rows that are drawn on.
ghost use Rattle.std.specs.Prelude.{◌≡◌, ◌<◌, ◌^◌, length};
ghost use Rattle.std.specs.Iterator.{YieldsFirstRef, item_count};

use std::marker::Model;
use vt100_rows::{Row, Sheet};

/// An iterator over the rows that are drawn on, from the top.
#[derive(Debug, Drop)]
pub struct DrawingRows<'a> {
    rows: &'a Sheet,
    next: u16,
}

impl<'a> Model for DrawingRows<'a> {
    ghost use Rattle.std.specs.Prelude.{List, drop, length, ◌<◌, ◌^◌};
    ghost use Rattle.vt100_rows.specs.Row.{RowView};

    ghost Value = { List RowView };

    ghost view = { λ s. drop s.next s.rows.now };

    ghost invariant = { λ s. length s.rows.now < 2 ^ 16 };
}

impl<'a> DrawingRows<'a> {
    pub(crate) fn new(rows: &'a Sheet) -> Self
        requires { length rows.now < 2 ^ 16 }
        ensures { result ≡ rows.now }
    {
        DrawingRows { rows, next: 0 }
    }
}

impl<'a> Iterator for DrawingRows<'a> {
    type Item = &'a Row;

    ghost next_gives = { YieldsFirstRef (λ s. s) };

    ghost remaining = { item_count (λ s. s) };

    fn next(&mut self) -> Option<&'a Row> {
        let next = usize::from(self.next);
        if next < self.rows.len() {
            self.next += 1;
            Some(&self.rows[next])
        } else {
            None
        }
    }
}
