//! A grid of rows with a cursor.
ghost use Rattle.std.specs.Prelude.{◌≡◌, ℕ, ◌+◌, ◌-◌, ◌<◌, ◌≤◌, ◌==◌, List, [], length, true, false, IsOk, OnOk, OnErr};
ghost use Rattle.std.specs.Prelude.{IfOk};

mod capture;
mod contents;
mod copy;
mod cursor;
mod erase;
mod lengthen;
mod lines;
mod placing;
mod resize;
mod scroll;
mod show;
mod text;
mod writers;

use crate::scrollback::{Scrollback, ScrollbackState};
use std::alloc::Global;
use std::collections::VecDeque;
use std::marker::Model;
use vt100_forms::{GridError, Pos};
use vt100_rows::kept_rows::clone_kept;
use vt100_rows::{Sheet, Size};

/// The rows of a screen, its cursor, and the rows that scrolled off at its top.
#[derive(Debug, Drop)]
pub struct Grid {
    size: Size,
    pos: Pos,
    saved_pos: Pos,
    rows: Sheet,
    scroll_top: u16,
    scroll_bottom: u16,
    origin_mode: bool,
    saved_origin_mode: bool,
    scrollback: ScrollbackState,
}

impl Model for Grid {
    ghost use Rattle.vt100_core.specs.Grid.{GridView};

    ghost Value = { GridView };

    ghost use Rattle.vt100_core.specs.GridFields.{grid_of, IsGridFields};

    ghost view = { grid_of };

    ghost invariant = { IsGridFields };
}

impl Grid {
    ghost use Rattle.vt100_core.specs.Grid.{GridView, IsGrid, new_grid, allocated, cleared, is_in_region, IsAllocated};
    ghost use Rattle.vt100_core.specs.Cursor.{cursor_at, with_origin, cursor_saved, cursor_restored, with_region};
    ghost use Rattle.vt100_core.specs.Cursor.{moved_rows_down, moved_rows_up, tab_stop};

    /// A grid with no rows yet: `allocate_rows` creates them.
    pub fn new(alloc: Global, size: Size, scrollback: Scrollback) -> Self
        ensures { result ≡ new_grid size.rows.value size.cols.value scrollback }
    {
        let (enabled, capacity) = match scrollback {
            Scrollback::Disabled => (false, 0),
            Scrollback::Enabled { capacity } => (true, capacity),
        };
        Grid {
            size,
            pos: Pos { row: 0, col: 0 },
            saved_pos: Pos { row: 0, col: 0 },
            rows: Sheet::new(alloc),
            scroll_top: 0,
            scroll_bottom: size.rows() - 1,
            origin_mode: false,
            saved_origin_mode: false,
            scrollback: ScrollbackState {
                enabled,
                rows: VecDeque::new(alloc),
                capacity,
                offset: 0,
                unbounded_len: 0,
            },
        }
    }

    /// How many rows and columns the screen has.
    pub fn size(&self) -> Size
        ensures rows { result.rows.value ≡ self.now.height }
        ensures cols { result.cols.value ≡ self.now.width }
    {
        self.size
    }

    /// Whether the grid has its rows, as most calls require. What is true of every grid holds either way.
    pub fn is_allocated(&self) -> bool
        ensures yes { result ≡ true → IsAllocated self.now }
        ensures no { result ≡ false → self.now.rows ≡ [] }
        ensures valid { IsGrid self.now }
    {
        !self.rows.is_empty()
    }

    /// Creates the rows, if the grid has none yet. If there isn't memory for them, nothing changes.
    pub fn allocate_rows(&mut self) -> Result<(), GridError>
        ensures allocated { OnOk result (self.new ≡ allocated self.old) }
        ensures some { OnOk result (IsAllocated self.new) }
        ensures refused { OnErr result (self.new ≡ self.old) }
        ensures enough { IsAllocated self.old → IsOk result }
    {
        if self.rows.is_empty() {
            self.rows = Sheet::blank(self.rows.allocator(), self.size)?;
        }
        Ok(())
    }

    /// Makes every row blank, and resets cursor, scroll region and modes to those of a new grid. The kept rows stay.
    pub fn clear(&mut self)
        ensures { self.new ≡ cleared self.old }
    {
        self.pos = Pos { row: 0, col: 0 };
        self.saved_pos = Pos { row: 0, col: 0 };
        self.rows.reset_all();
        self.scroll_top = 0;
        self.scroll_bottom = self.size.rows() - 1;
        self.origin_mode = false;
        self.saved_origin_mode = false;
    }

    /// An equal grid.
    pub fn clone(&self) -> Result<Self, GridError>
        ensures { IfOk result (λ g. g ≡ self.now) }
    {
        let rows = self.rows.clone()?;
        let kept = clone_kept(self.rows.allocator(), &self.scrollback.rows)?;
        Ok(Grid {
            size: self.size,
            pos: self.pos,
            saved_pos: self.saved_pos,
            rows,
            scroll_top: self.scroll_top,
            scroll_bottom: self.scroll_bottom,
            origin_mode: self.origin_mode,
            saved_origin_mode: self.saved_origin_mode,
            scrollback: ScrollbackState {
                enabled: self.scrollback.enabled,
                rows: kept,
                capacity: self.scrollback.capacity,
                offset: self.scrollback.offset,
                unbounded_len: self.scrollback.unbounded_len,
            },
        })
    }
}
