//! What a writer of forms knows of the terminal.
ghost use Rattle.std.specs.Prelude.{◌≡◌, ◌+◌, ◌<◌, ◌≤◌, ◌^◌, false, length, IfSome};
ghost use Rattle.vt100_cells.specs.Line.{span_of};
ghost use Rattle.row_drawing.specs.Writer.{goto, turn, color, print, space, back, erasing, clearing, marking};
ghost use Rattle.row_drawing.specs.Writes.{Wrote};

use vt100_cells::Cell;
use vt100_forms::TextRun;
use vt100_forms::attrs::Attrs;
use vt100_forms::position::Pos;
use vt100_forms::term::{EraseChar, MoveFromTo};

/// Columns of a row, from one on, that are pending: they are erased together at the next column that isn't to be erased
/// with them, or at the row's end.
#[derive(Clone, Copy, Debug, Eq, PartialEq)]
pub struct Erase {
    /// The first column.
    pub from: u16,
    /// The attributes that the erased cells get.
    pub attrs: Attrs,
}

/// What a writer knows of the terminal that reads its forms, and which columns it has still to erase.
///
/// Its calls append their forms to a run, which must have room for them.
#[derive(Clone, Copy, Debug, Eq, PartialEq)]
pub struct Pen {
    /// The cursor's position. The column equals the number of columns if the next character would wrap.
    pub pos: Pos,
    /// The terminal's current attributes.
    pub attrs: Attrs,
    /// The pending columns of the row, if there are any.
    pub erase: Option<Erase>,
    /// Whether the terminal may have lost the row's flag (that the row wraps).
    pub lost: bool,
}

impl Pen {
    /// Moves the cursor to `pos`: 14 bytes at most.
    // Mostly the cursor is there already, and this test costs no call.
    #[inline(always)]
    pub(crate) fn goto(&mut self, run: &mut TextRun, pos: Pos)
        requires { length run.old + 14 ≤ 192 }
        ensures written { Wrote (goto pos.row pos.col) self.old run.old self.new run.new }
        ensures room { length run.new ≤ length run.old + 14 }
    {
        if self.pos == pos {
            return;
        }
        self.travel(run, pos);
    }

    // A function of its own, so that only the test before it is inlined.
    #[inline(never)]
    fn travel(&mut self, run: &mut TextRun, pos: Pos)
        requires { length run.old + 14 ≤ 192 }
        ensures written { Wrote (goto pos.row pos.col) self.old run.old self.new run.new }
        ensures room { length run.new ≤ length run.old + 14 }
    {
        MoveFromTo::new(self.pos, pos).push_to(run);
        self.pos = pos;
    }

    /// Treats the cursor as at the start of this row: the next character doesn't fit in the row above, and wraps.
    #[tactic(auto, unfolding(crate::specs::Writer::turn))]
    pub(crate) fn turn(&mut self, row: u16)
        ensures { self.new ≡ (turn row self.old).pen }
    {
        self.pos = Pos { row, col: 0 };
    }

    /// Makes the columns from `from` on pending, to be erased with these attributes.
    #[tactic(auto, unfolding(crate::specs::Writer::marking))]
    pub(crate) fn mark(&mut self, from: u16, attrs: Attrs)
        ensures { self.new ≡ (marking from attrs self.old).pen }
    {
        self.erase = Some(Erase { from, attrs });
    }

    /// Sets the attributes of a cell: 58 bytes at most. `like`, if given, is a cell with the terminal's current
    /// attributes.
    // Whole cells are compared, so that no colour has to be assembled first.
    #[inline(always)]
    pub(crate) fn color(&mut self, run: &mut TextRun, cell: &Cell, like: Option<&Cell>)
        requires room { length run.old + 58 ≤ 192 }
        requires like { IfSome like (λ x. x.now.attrs ≡ self.old.attrs) }
        ensures written { Wrote (color cell.now.attrs) self.old run.old self.new run.new }
        ensures room { length run.new ≤ length run.old + 58 }
    {
        if let Some(like) = like {
            if cell.has_attrs_of(like) {
                return;
            }
        }
        self.recolor(run, cell);
    }

    // A function of its own, which gets the whole cell: where attributes are only compared they aren't taken apart.
    #[inline(never)]
    fn recolor(&mut self, run: &mut TextRun, cell: &Cell)
        requires { length run.old + 58 ≤ 192 }
        ensures written { Wrote (color cell.now.attrs) self.old run.old self.new run.new }
        ensures room { length run.new ≤ length run.old + 58 }
    {
        let attrs = cell.attrs();
        attrs.push_escape_code_diff(run, &self.attrs);
        self.attrs = attrs;
    }

    /// Prints the text of a cell: 21 bytes at most. `loses` says whether the terminal then loses the row's flag.
    #[inline]
    pub(crate) fn print(&mut self, run: &mut TextRun, cell: &Cell, loses: bool)
        requires room { length run.old + 21 ≤ 192 }
        requires fits { self.old.pos.col + span_of cell.now < 2 ^ 16 }
        ensures written { Wrote (print cell.now loses) self.old run.old self.new run.new }
        ensures room { length run.new ≤ length run.old + 21 }
    {
        cell.push_contents(run);
        self.pos.col += span(cell);
        self.lost = self.lost || loses;
    }

    /// Moves the cursor as printing the cell does. The cell's text is appended to the run separately.
    #[inline(always)]
    pub(crate) fn pass(&mut self, cell: &Cell)
        requires { self.old.pos.col + span_of cell.now < 2 ^ 16 }
        ensures { self.new ≡ (print cell.now false self.old).pen }
    {
        self.pos.col += span(cell);
    }

    /// Prints a space.
    pub(crate) fn space(&mut self, run: &mut TextRun)
        requires room { length run.old < 192 }
        requires fits { self.old.pos.col + 1 < 2 ^ 16 }
        ensures written { Wrote space self.old run.old self.new run.new }
        ensures room { length run.new ≤ length run.old + 1 }
    {
        run.push_ascii(b' ');
        self.pos.col += 1;
    }

    /// Moves the cursor to the left by a column: one byte.
    pub(crate) fn back(&mut self, run: &mut TextRun)
        requires { length run.old < 192 }
        ensures written { Wrote back self.old run.old self.new run.new }
        ensures room { length run.new ≤ length run.old + 1 }
    {
        run.push_ascii(b'\x08');
        self.pos.col = self.pos.col.saturating_sub(1);
    }

    /// Erases `count` columns from the cursor on: 8 bytes at most. `loses` says whether the terminal then loses the
    /// row's flag.
    pub(crate) fn erase(&mut self, run: &mut TextRun, count: u16, loses: bool)
        requires { length run.old + 8 ≤ 192 }
        ensures written { Wrote (erasing count loses) self.old run.old self.new run.new }
        ensures room { length run.new ≤ length run.old + 8 }
    {
        EraseChar::new(count).push_to(run);
        self.erase = None;
        self.lost = self.lost || loses;
    }

    /// Erases the columns from the cursor to the end of the row: 3 bytes. The terminal loses the row's flag.
    pub(crate) fn clear(&mut self, run: &mut TextRun)
        requires { length run.old + 3 ≤ 192 }
        ensures written { Wrote clearing self.old run.old self.new run.new }
        ensures room { length run.new ≤ length run.old + 3 }
    {
        run.push_str("\x1b[K");
        self.erase = None;
        self.lost = true;
    }
}

/// How many columns a cell covers.
#[inline]
pub(crate) fn span(cell: &Cell) -> u16
    ensures { result ≡ span_of cell.now }
{
    if cell.is_wide() { 2 } else { 1 }
}
