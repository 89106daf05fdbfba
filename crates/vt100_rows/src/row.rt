//! One row of a terminal.
ghost use Rattle.std.specs.Prelude.{◌≡◌, ℕ, ◌+◌, ◌-◌, ◌*◌, ◌<◌, ◌≤◌, ◌==◌, ◌++◌, ◌&&◌, List, length, Some, true, false};
ghost use Rattle.std.specs.Prelude.{not};
ghost use Rattle.std.specs.Prelude.{IfOk, IsOk, OnOk, OnErr, slice_get, encode_utf8_all, replicate, All};
ghost use Rattle.std.specs.Prelude.{string_bytes, string_len, string_capacity, min, nat_lt, if◌then◌else◌};
ghost use Rattle.std.specs.Option.{option_copied};
ghost use Rattle.std.specs.Char.{IsScalar};
ghost use Rattle.printable.specs.Printable.{IsPrintable};
ghost use Rattle.vt100_cells.specs.Cell.{cell_of, default_cell, has_text, drawn_columns, IsWide};
ghost use Rattle.vt100_cells.specs.Line.{span_of};
ghost use Rattle.vt100_rows.specs.Row.{IsBlankFrom, IsFilledAfter, blank_row, cleared_row, with_wrap, placed};
ghost use Rattle.vt100_rows.specs.Row.{wiped_row};
ghost use Rattle.vt100_rows.specs.Row.{pair_cleared};
ghost use Rattle.vt100_rows.specs.Row.{join_row};
ghost use Rattle.vt100_rows.specs.Row.{join_answer, inserted, removed, truncated, grown, resized_row, trimmed};
ghost use Rattle.vt100_rows.specs.Row.{joined_in_place};
ghost use Rattle.vt100_rows.specs.Text.{written_text};
ghost use Rattle.row_drawing.specs.Writes.{IsBegun};

mod copy;
mod filled;
mod forms;
mod packed;

use crate::join::Join;
use crate::row::filled::{insert_filled, remove_filled, wipe_filled};
use std::alloc::Global;
use std::marker::Model;
use std::ops::Range;
use vt100_cells::Cell;
use vt100_cells::line::{
    at, base_col, clear, clear_cut_half, clear_pair, ends_filled, put, puts_end, trimmed_len, wipe,
    wipes_end,
};
use vt100_forms::GridError;
use vt100_forms::attrs::Attrs;

/// A column past every cell: any cell of the row may show something.
const UNKNOWN: u16 = u16::MAX;

/// One row of a terminal: its cells, and whether its text goes on in the row below.
#[derive(Debug, Drop)]
pub struct Row {
    cells: Vec<Cell>,
    wrapped: bool,
    /// From this column on every cell is a default cell.
    filled: u16,
}

impl Model for Row {
    ghost use Rattle.vt100_rows.specs.Row.{RowView, IsRowFields};

    ghost Value = { RowView };

    ghost view = { λ r. record { cells = r.cells.items; wrapped = r.wrapped } };

    ghost invariant = { λ r. IsRowFields r.cells.items r.wrapped r.filled };
}

impl Row {
    /// A row of `cols` default cells. It takes memory for exactly these; a row without cells takes none.
    pub fn new(alloc: Global, cols: u16) -> Result<Self, GridError>
        ensures row { IfOk result (λ row. row ≡ blank_row cols) }
        ensures none { cols ≡ 0 → IsOk result }
    {
        let mut cells = Vec::with_capacity(alloc, usize::from(cols))?;
        cells.resize(usize::from(cols), Cell::new())?;
        Ok(Row {
            cells,
            wrapped: false,
            filled: 0,
        })
    }

    /// An equal row.
    pub fn clone(&self) -> Result<Self, GridError>
        ensures { IfOk result (λ row. row ≡ self.now) }
    {
        let cells = self.cells.clone()?;
        Ok(Row {
            cells,
            wrapped: self.wrapped,
            filled: self.filled,
        })
    }

    /// How many columns the row has.
    #[inline]
    pub fn cols(&self) -> u16
        ensures { result ≡ length self.now.cells }
    {
        self.cells.len() as u16
    }

    /// The cells, from the left.
    #[inline]
    pub fn cells(&self) -> &[Cell]
        ensures { result.now ≡ self.now.cells }
    {
        &self.cells
    }

    /// Empties every cell, with these attributes.
    pub fn clear(&mut self, attrs: Attrs)
        ensures { self.new ≡ cleared_row self.old attrs }
    {
        if attrs == Attrs::new() {
            self.reset();
        } else {
            clear(&mut self.cells, attrs);
            self.wrapped = false;
            self.filled = UNKNOWN;
        }
    }

    /// Makes every cell a default cell.
    pub fn reset(&mut self)
        ensures { self.new ≡ blank_row (length self.old.cells) }
    {
        let end = usize::from(self.filled).min(self.cells.len());
        reset_prefix(&mut self.cells, end);
        self.wrapped = false;
        self.filled = 0;
    }

    /// The cell at column `col`, if the row goes that far.
    #[inline]
    pub fn get(&self, col: u16) -> Option<&Cell>
        ensures { option_copied result ≡ slice_get self.now.cells col }
    {
        self.cells.get(usize::from(col))
    }

    /// Inserts default cells at column `i`. What falls off the end is gone.
    pub fn insert(&mut self, i: u16, count: u16)
        requires { i ≤ length self.old.cells }
        ensures { self.new ≡ inserted self.old i count }
    {
        self.wrapped = false;
        insert_filled(&mut self.cells, i, count, self.filled);
        self.filled = filled_between(self.filled, i, count);
    }

    /// Removes the cells of the range. The cells right of them move to the left, and default cells follow.
    pub fn remove(&mut self, range: Range<u16>)
        requires { range.end ≤ length self.old.cells }
        ensures { self.new ≡ removed self.old range.start range.end }
    {
        self.wrapped = false;
        if range.start < range.end {
            remove_filled(&mut self.cells, range.start, range.end, self.filled);
        }
    }

    /// Empties the cell at column `i`, with these attributes. If it is one half of a wide character, the other half
    /// is emptied too, and keeps its attributes.
    pub fn erase(&mut self, i: u16, attrs: Attrs)
        requires { i < length self.old.cells }
        ensures { self.new ≡ wiped_row self.old i (i + 1) attrs }
    {
        let i = usize::from(i);
        if wipes_end(&self.cells, i, i + 1) {
            self.wrapped = false;
        }
        wipe(&mut self.cells, i, i + 1, attrs);
        self.filled = UNKNOWN;
    }

    /// Empties the cells of the range, as [`erase`](Self::erase) of each of them does.
    #[doc(hidden)]
    #[inline(always)]
    pub fn erase_range(&mut self, range: Range<u16>, attrs: Attrs)
        requires { range.end ≤ length self.old.cells }
        ensures { self.new ≡ wiped_row self.old range.start range.end attrs }
    {
        let Range { start, end } = range;
        if start >= end {
            return;
        }
        self.wrapped &= !wipes_end(&self.cells, usize::from(start), usize::from(end));
        wipe_filled(&mut self.cells, start, end, attrs, self.filled);
        self.filled = filled_after(self.filled, start..end, attrs);
    }

    /// Cuts the row after `len` cells; a shorter row keeps its cells. Either way it isn't wrapped any more.
    pub fn truncate(&mut self, len: u16)
        ensures { self.new ≡ truncated self.old len }
    {
        self.cells.truncate(usize::from(len));
        self.wrapped = false;
        self.filled = UNKNOWN;
        clear_cut_half(&mut self.cells);
    }

    /// Appends cells until there are `len`; a row that is as long or longer stays as it is, and is never refused.
    pub fn grow(&mut self, len: u16, cell: Cell) -> Result<(), GridError>
        requires narrow { cell.wide ≡ false }
        requires whole { cell.continuation ≡ false }
        ensures ok { OnOk result (self.new ≡ grown self.old len cell) }
        ensures err { OnErr result (self.new ≡ self.old) }
        ensures enough { len ≤ length self.old.cells → IsOk result }
    {
        prove!(!cell.is_wide());
        let len = usize::from(len);
        if self.cells.len() < len {
            self.cells.reserve_exact(len - self.cells.len())?;
            self.cells.resize(len, cell)?;
            self.wrapped = false;
            self.filled = UNKNOWN;
        }
        Ok(())
    }

    /// Cuts the row after `len` cells, or appends cells until there are `len`. Only a row that becomes longer can be
    /// refused.
    pub fn resize(&mut self, len: u16, cell: Cell) -> Result<(), GridError>
        requires narrow { cell.wide ≡ false }
        requires whole { cell.continuation ≡ false }
        ensures ok { OnOk result (self.new ≡ resized_row self.old len cell) }
        ensures err { OnErr result (self.new ≡ self.old) }
        ensures enough { len ≤ length self.old.cells → IsOk result }
    {
        if usize::from(len) < self.cells.len() {
            self.truncate(len);
            Ok(())
        } else {
            self.grow(len, cell)
        }
    }

    /// A copy without the default cells at its end. It takes memory for exactly its cells.
    pub fn trimmed(&self) -> Result<Self, GridError>
        ensures { IfOk result (λ row. row ≡ trimmed self.now) }
    {
        let len = trimmed_len(&self.cells);
        let mut cells = Vec::with_capacity(*self.cells.allocator(), len)?;
        cells.extend_from_slice(&self.cells[..len])?;
        Ok(Row {
            cells,
            wrapped: self.wrapped,
            filled: UNKNOWN,
        })
    }

    /// Removes the default cells at the end.
    pub fn trim(&mut self)
        ensures { self.new ≡ trimmed self.old }
    {
        let len = trimmed_len(&self.cells);
        self.filled = UNKNOWN;
        self.cells.truncate(len);
        self.cells.shrink_to_fit();
    }

    /// Sets whether the row's text goes on in the row below. A row whose last cell shows nothing is never wrapped.
    pub fn wrap(&mut self, wrap: bool)
        ensures { self.new ≡ with_wrap self.old wrap }
    {
        self.wrapped = wrap && ends_filled(&self.cells);
    }

    /// Whether the row's text goes on in the row below.
    #[inline]
    pub fn wrapped(&self) -> bool
        ensures { result ≡ self.now.wrapped }
    {
        self.wrapped
    }

    /// Empties both halves of the wide character at column `col`, if one is there. Each keeps its attributes.
    pub fn clear_wide(&mut self, col: u16)
        requires { col < length self.old.cells }
        ensures { self.new ≡ pair_cleared self.old col }
    {
        self.filled = UNKNOWN;
        let filled = clear_pair(&mut self.cells, usize::from(col));
        self.wrapped = self.wrapped && filled;
    }
}

/// Calls that print. They replace access to a single cell, which could break a wide character in two. They are for
/// the grid of `vt100_core` alone, which meets their conditions.
impl Row {
    /// Puts the character `c`, which takes `columns` columns, at column `col`, with the drawing attributes.
    ///
    /// A wide character that this covers in part is gone: its first half is emptied and keeps its attributes; its
    /// second half becomes a space with the drawing attributes, or is emptied with them where `c` is wide itself.
    #[doc(hidden)]
    #[inline(always)]
    pub fn put(&mut self, col: u16, c: char, columns: u16, attrs: Attrs)
        requires drawn { drawn_columns c ≡ Some columns }
        requires spacing { 0 < columns }
        requires in_row { col + columns ≤ length self.old.cells }
        ensures { self.new ≡ placed self.old col (cell_of c attrs) attrs }
    {
        self.put_cell(col, Cell::of_char(c, columns, attrs), attrs);
    }

    /// Puts a cell that has a text at column `col`. What it covers goes as [`put`](Self::put) says, with the drawing
    /// attributes `attrs`.
    #[doc(hidden)]
    #[inline(always)]
    pub fn put_cell(&mut self, col: u16, cell: Cell, attrs: Attrs)
        requires text { has_text cell ≡ true }
        requires in_row { col + span_of cell ≤ length self.old.cells }
        ensures { self.new ≡ placed self.old col cell attrs }
    {
        let filled = self.filled.max(col.saturating_add(3));
        let col = usize::from(col);
        if puts_end(&self.cells, col, cell) {
            self.wrapped = false;
        }
        put(&mut self.cells, col, cell, attrs);
        self.filled = filled;
    }

    /// Puts the zero-width character `c` on the cell left of column `col`, or on the wide character that ends there.
    ///
    /// A cell takes it while it has fewer than 18 bytes; an empty cell gets a space first. U+FE0F, which asks for an
    /// emoji, can make a narrow cell wide: then it covers the next column as [`put`](Self::put) says, with the drawing
    /// attributes `attrs`. In the last column there is no room for it, and the cell's text is returned.
    #[doc(hidden)]
    pub fn join(&mut self, col: u16, c: char, attrs: Attrs) -> Join
        requires zero_width { drawn_columns c ≡ Some 0 }
        requires after_some { 0 < col }
        requires in_row { col ≤ length self.old.cells }
        ensures row { self.new ≡ join_row self.old col c attrs }
        ensures answer { result ≡ join_answer self.old col c attrs }
    {
        if c != '\u{FE0F}' {
            self.join_in_place(col, c);
            return Join::InPlace;
        }
        let base = base_col(&self.cells, usize::from(col));
        if !at(&self.cells, base).has_room() {
            return Join::InPlace;
        }
        let cell = *at(&self.cells, base);
        let joined = cell.joined(c);
        if !is_widened(&cell, &joined) {
            self.filled = self.filled.max(col);
            self.cells[base] = joined;
            Join::InPlace
        } else if self.cells.len() == 1 {
            Join::Ignored
        } else if usize::from(col) < self.cells.len() {
            self.put_cell(col - 1, joined, attrs);
            Join::Widened
        } else {
            self.erase(col - 1, attrs);
            Join::Carried(joined.with_attrs(attrs))
        }
    }

    /// Puts the zero-width character `c` where [`join`](Self::join) puts it, but U+FE0F makes no cell wide.
    #[doc(hidden)]
    pub fn join_in_place(&mut self, col: u16, c: char)
        requires zero_width { drawn_columns c ≡ Some 0 }
        requires after_some { 0 < col }
        requires in_row { col ≤ length self.old.cells }
        ensures { self.new ≡ joined_in_place self.old col c }
    {
        let base = base_col(&self.cells, usize::from(col));
        self.filled = self.filled.max(col);
        self.cells[base].join_in_place(c);
    }
}

/// The row's text.
impl Row {
    /// Appends the text of `width` columns from column `start` on, without the empty columns at its end. If these
    /// columns have no text and `wrapping` is set, a newline is appended in place of the text.
    ///
    /// It is refused only where the text doesn't fit in the capacity of `contents` and there is no memory for more
    /// (`full`). Then a part of it may have been appended.
    pub fn write_contents(
        &self,
        contents: &mut String,
        start: u16,
        width: u16,
        wrapping: bool,
    ) -> Result<(), GridError>
        ensures text { OnOk result (string_bytes contents.new ≡ string_bytes contents.old
            ++ encode_utf8_all (written_text self.now start width wrapping)) }
        ensures begun { OnErr result (IsBegun (string_bytes contents.old)
            (encode_utf8_all (written_text self.now start width wrapping)) (string_bytes contents.new)) }
        ensures full { OnErr result (string_capacity contents.old
            < string_len contents.old + length (encode_utf8_all (written_text self.now start width wrapping))) }
        ensures capacity { string_capacity contents.old ≤ string_capacity contents.new }
    {
        let start = usize::from(start);
        let end = (start + usize::from(width))
            .min(self.cells.len())
            .max(start);
        let mut blanks = 0;
        let mut shown = false;
        for col in start..end {
            let cell = at(&self.cells, col);
            if cell.has_contents() {
                push_spaces(contents, blanks)?;
                blanks = 0;
                contents.push_str(cell.contents())?;
                shown = true;
            } else if is_empty_column(cell, col == start) {
                blanks += 1;
            }
        }
        if wrapping && !shown {
            contents.push('\n')?;
        }
        Ok(())
    }
}

/// The new `filled` after the cells of `range` were erased with `attrs`.
#[inline]
fn filled_after(filled: u16, range: Range<u16>, attrs: Attrs) -> u16
    ensures { IsFilledAfter filled range.start range.end attrs result }
{
    if attrs != Attrs::new() {
        UNKNOWN
    } else if filled <= range.end {
        filled.min(range.start)
    } else {
        filled
    }
}

/// The new `filled` after `count` default cells were inserted at column `i`.
#[inline]
fn filled_between(filled: u16, i: u16, count: u16) -> u16
    ensures { result ≡ (if nat_lt i filled then min (filled + count) 65535 else filled) }
{
    if i < filled {
        filled.saturating_add(count)
    } else {
        filled
    }
}

/// Makes the first `end` cells default cells, which the cells after them are already.
// LLVM knows that all bytes of a default cell are 0.
#[inline]
fn reset_prefix(cells: &mut [Cell], end: usize)
    requires in_row { end ≤ length cells.old }
    requires blank { IsBlankFrom cells.old end }
    ensures { cells.new ≡ replicate (length cells.old) default_cell }
{
    cells[..end].fill(Cell::new());
}

/// Whether a cell that was `cell`, and is `joined` now, takes one more column.
fn is_widened(cell: &Cell, joined: &Cell) -> bool
    ensures { result ≡ (joined.now.wide && not cell.now.wide) }
{
    joined.is_wide() && !cell.is_wide()
}

/// Whether an empty cell counts as a space. The second half of a wide character doesn't, unless the text starts there.
fn is_empty_column(cell: &Cell, is_first: bool) -> bool
    ensures { result ≡ not (cell.now.continuation && not is_first) }
{
    is_first || !cell.is_wide_continuation()
}

/// Appends `n` spaces.
fn push_spaces(contents: &mut String, n: usize) -> Result<(), GridError>
    ensures text { OnOk result (string_bytes contents.new ≡ string_bytes contents.old ++ replicate n 32) }
    ensures begun { OnErr result (IsBegun (string_bytes contents.old) (replicate n 32) (string_bytes contents.new)) }
    ensures full { OnErr result (string_capacity contents.old < string_len contents.old + n) }
    ensures capacity { string_capacity contents.old ≤ string_capacity contents.new }
{
    for _ in 0..n {
        contents.push(' ')?;
    }
    Ok(())
}
