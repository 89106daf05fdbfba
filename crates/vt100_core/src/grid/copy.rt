//! Copies of what is drawn on and of what is shown, and comparisons of what is drawn on, without the kept rows.
ghost use Rattle.std.specs.Prelude.{◌≡◌, ◌<◌, ◌↔◌, length, IsTrue, IfOk};
ghost use Rattle.vt100_rows.specs.Sheet.{IsSheet};
ghost use Rattle.vt100_core.specs.Grid.{IsAllocated};
ghost use Rattle.vt100_core.specs.Copy.{nothing_kept, without_kept, fitted_row, visible_as_drawn, AreDrawnAlike};
ghost use Rattle.vt100_core.specs.KeptFields.{kept_of};

use crate::grid::Grid;
use crate::scrollback::ScrollbackState;
use std::alloc::Global;
use std::collections::VecDeque;
use vt100_forms::GridError;
use vt100_rows::{Cell, Row, Sheet};

impl Grid {
    /// A grid with the same rows, cursor and scroll region, which keeps no rows.
    pub fn clone_drawn(&self) -> Result<Self, GridError>
        requires { IsAllocated self.now }
        ensures { IfOk result (λ g. g ≡ without_kept self.now) }
    {
        let rows = self.rows.clone()?;
        Ok(self.with_rows(rows))
    }

    /// A grid that draws on copies of the rows that are shown, with the same cursor and scroll region, which keeps no
    /// rows. Each copy is as wide as the screen: of a wider row a wide character that the edge cuts is blank, and the
    /// row goes on in the next one only if its last column shows something. The last row goes on in none.
    pub fn clone_visible(&self) -> Result<Self, GridError>
        requires { IsAllocated self.now }
        ensures { IfOk result (λ g. g ≡ visible_as_drawn self.now) }
    {
        let rows = self.clone_shown_rows()?;
        Ok(self.with_rows(rows))
    }

    /// Copies of the rows that are shown, each as wide as the screen.
    fn clone_shown_rows(&self) -> Result<Sheet, GridError>
        requires { IsAllocated self.now }
        ensures rows { IfOk result (λ rows. rows ≡ (visible_as_drawn self.now).rows) }
        ensures sheet { IfOk result (λ rows. IsSheet self.now.height self.now.width rows) }
        ensures some { IfOk result (λ rows. 0 < length rows) }
    {
        let height = self.size.rows();
        let mut rows = Sheet::with_capacity(self.rows.allocator(), usize::from(height))?;
        for r in 0..height {
            let followed = r + 1 < height;
            rows.push(clone_fitted(self.shown_row(r), self.size.cols(), followed)?)?;
        }
        Ok(rows)
    }

    /// A grid with these rows and the same cursor and scroll region, which keeps no rows.
    fn with_rows(&self, rows: Sheet) -> Self
        requires sheet { IsSheet self.now.height self.now.width rows }
        requires some { 0 < length rows }
        ensures { result ≡ record (without_kept self.now) { rows = rows } }
    {
        let alloc = rows.allocator();
        Grid {
            size: self.size,
            pos: self.pos,
            saved_pos: self.saved_pos,
            rows,
            scroll_top: self.scroll_top,
            scroll_bottom: self.scroll_bottom,
            origin_mode: self.origin_mode,
            saved_origin_mode: self.saved_origin_mode,
            scrollback: nothing_kept(alloc),
        }
    }

    /// Makes the grid what [`clone_drawn`](Self::clone_drawn) makes of another one of its size. It keeps the memory of
    /// its rows and takes none.
    pub fn copy_drawn(&mut self, other: &Self)
        requires drawn { IsAllocated self.old }
        requires other { IsAllocated other.now }
        requires height { self.old.height ≡ other.now.height }
        requires width { self.old.width ≡ other.now.width }
        ensures { self.new ≡ without_kept other.now }
    {
        self.rows.copy_from(&other.rows);
        self.size = other.size;
        self.pos = other.pos;
        self.saved_pos = other.saved_pos;
        self.scroll_top = other.scroll_top;
        self.scroll_bottom = other.scroll_bottom;
        self.origin_mode = other.origin_mode;
        self.saved_origin_mode = other.saved_origin_mode;
        self.scrollback = nothing_kept(self.rows.allocator());
    }

    /// Whether both grids have one size, the same rows that are drawn on and the same cursor. The comparison stops at
    /// the first difference.
    pub fn is_drawn_alike(&self, other: &Self) -> bool
        requires drawn { IsAllocated self.now }
        requires other { IsAllocated other.now }
        ensures { IsTrue result ↔ AreDrawnAlike self.now other.now }
    {
        if self.size != other.size || self.pos != other.pos {
            return false;
        }
        self.rows.is_same(&other.rows)
    }
}

/// A copy of a row, with `width` columns. It goes on in the next row if the row does, one follows, and its last
/// column shows something.
fn clone_fitted(row: &Row, width: u16, followed: bool) -> Result<Row, GridError>
    ensures { IfOk result (λ copy. copy ≡ fitted_row row.now width followed) }
{
    let mut copy = row.clone()?;
    copy.resize(width, Cell::new())?;
    copy.wrap(row.wrapped() && followed);
    Ok(copy)
}

/// The scrollback of a grid that keeps no rows.
fn nothing_kept(alloc: Global) -> ScrollbackState
    ensures { kept_of result ≡ nothing_kept }
{
    ScrollbackState {
        enabled: true,
        rows: VecDeque::new(alloc),
        capacity: 0,
        offset: 0,
        unbounded_len: 0,
    }
}
