//! Edits of a line that is blank from column `filled` on. They leave the cells alone that stay blank.
ghost use Rattle.std.specs.Prelude.{◌≡◌, ◌-◌, ◌<◌, ◌≤◌, length};
ghost use Rattle.vt100_cells.specs.Line.{IsPaired, wiped, closed};
ghost use Rattle.vt100_cells.specs.Cells.{cell_at, by_position, inserted_cells};
ghost use Rattle.vt100_rows.specs.Row.{IsBlankFrom};

use vt100_cells::Cell;
use vt100_cells::line::{insert, remove, wipe};
use vt100_forms::attrs::Attrs;

/// Empties the columns from `s` up to `e`, as [`wipe`] does.
#[inline(always)]
pub(crate) fn wipe_filled(cells: &mut [Cell], s: u16, e: u16, attrs: Attrs, filled: u16)
    requires some { s < e }
    requires in_row { e ≤ length cells.old }
    requires paired { IsPaired (cell_at cells.old) }
    requires blank { IsBlankFrom cells.old filled }
    ensures { cells.new ≡ by_position (length cells.old) (wiped (cell_at cells.old) s e attrs) }
{
    let end = if attrs == Attrs::new() {
        e.min(filled)
    } else {
        e
    };
    if s < end {
        wipe(cells, usize::from(s), usize::from(end), attrs);
    }
}

/// Inserts `count` default cells at column `i`, as [`insert`] does.
pub(crate) fn insert_filled(cells: &mut [Cell], i: u16, count: u16, filled: u16)
    requires in_row { i ≤ length cells.old }
    requires paired { IsPaired (cell_at cells.old) }
    requires blank { IsBlankFrom cells.old filled }
    ensures { cells.new ≡ inserted_cells cells.old i count }
{
    if i < filled {
        let end = (usize::from(filled) + usize::from(count)).min(cells.len());
        insert(&mut cells[..end], usize::from(i), usize::from(count));
    }
}

/// Removes the columns from `s` up to `e`, as [`remove`] does.
pub(crate) fn remove_filled(cells: &mut [Cell], s: u16, e: u16, filled: u16)
    requires some { s < e }
    requires in_row { e ≤ length cells.old }
    requires paired { IsPaired (cell_at cells.old) }
    requires blank { IsBlankFrom cells.old filled }
    ensures { cells.new ≡ by_position (length cells.old) (closed (length cells.old) (cell_at cells.old) s (e - s)) }
{
    if s < filled {
        let end = usize::from(filled.max(e)).min(cells.len());
        remove(&mut cells[..end], usize::from(s), usize::from(e - s));
    }
}
