//! Copies of what a screen shows, and whether two screens show the same.
ghost use Rattle.std.specs.Prelude.{◌≡◌, ◌↔◌, true, false, IsTrue, IsOk, IfOk, OnOk, OnErr, Err};
ghost use Rattle.vt100_core.specs.Grid.{IsAllocated};
ghost use Rattle.vt100_core.specs.Picture.{grid_size};
ghost use Rattle.vt100_forms.specs.Attrs.{attrs_eq};
ghost use Rattle.screen_model.specs.State.{IsProperSheet};
ghost use Rattle.vt100.specs.Copies.{with_sheet, copy_of, visible_copy_of, same_modes, same_extras};
ghost use Rattle.vt100.specs.Copies.{DrawTheSame, ShowTheSame};
ghost use Rattle.vt100.specs.WriterLaws.{IsUnscrolled};
ghost use Rattle.vt100.specs.declared.error.ScreenError.TheVariants.{Memory};

use crate::error::ScreenError;
use crate::screen::Screen;
use vt100_core::{Grid, Scrollback};

impl Screen {
    /// A screen of one sheet, which is a copy of the sheet that is shown. It has the same cursor, attributes and modes,
    /// but no kept rows, and no copy of the sheet that is hidden. If the screen shows no kept row, both show the same;
    /// [`clone_visible`](Self::clone_visible) copies what is shown where kept rows are.
    pub fn clone_shown(&self) -> Result<Screen, ScreenError>
        ensures screen { IfOk result (λ screen. screen ≡ copy_of self.now) }
        ensures memory { OnErr result (result ≡ Err Memory) }
    {
        prove!(self.grid.is_allocated());
        let grid = self.grid.clone_drawn()?;
        Ok(self.with_sheet(grid))
    }

    /// Makes the screen what [`clone_shown`](Self::clone_shown) makes of another one. If both have one size, the rows
    /// keep their memory, and the call isn't refused. If an allocation fails, nothing has changed.
    pub fn copy_shown(&mut self, other: &Screen) -> Result<(), ScreenError>
        ensures screen { OnOk result (self.new ≡ copy_of other.now) }
        ensures memory { OnErr result (result ≡ Err Memory) }
        ensures same { OnErr result (self.new ≡ self.old) }
        ensures one_size { grid_size self.old.state.shown ≡ grid_size other.now.state.shown → IsOk result }
    {
        prove!(self.grid.is_allocated());
        prove!(other.grid.is_allocated());
        let size = other.grid.size();
        if self.grid.size() != size {
            *self = other.clone_shown()?;
            return Ok(());
        }
        let none = Grid::new(self.alloc, size, Scrollback::Disabled);
        let mut grid = std::mem::replace(&mut self.grid, none);
        grid.copy_drawn(&other.grid);
        *self = other.with_sheet(grid);
        Ok(())
    }

    /// A screen of one sheet, which draws on copies of the rows that are shown, kept ones too. It has the same cursor,
    /// attributes and modes, but no kept rows. So its redraws and differences lead a terminal to what the screen
    /// shows, whether kept rows are shown or not.
    ///
    /// A kept row can be wider than the screen. Of such a row a wide character that the right edge cuts is blank, and
    /// the row is wrapped only if its last column shows something. The last row isn't wrapped. All else is the same.
    pub fn clone_visible(&self) -> Result<Screen, ScreenError>
        ensures screen { IfOk result (λ screen. screen ≡ visible_copy_of self.now) }
        ensures memory { OnErr result (result ≡ Err Memory) }
    {
        prove!(self.grid.is_allocated());
        let grid = self.grid.clone_visible()?;
        Ok(self.with_sheet(grid))
    }

    /// A screen with this sheet in place of the one that is shown, and without the other one.
    fn with_sheet(&self, grid: Grid) -> Screen
        requires drawn { IsAllocated grid }
        requires keeps { grid.kept.keeps ≡ true }
        requires proper { self.now.failed ≡ false → IsProperSheet grid }
        ensures { result ≡ record self.now { state = with_sheet self.now.state grid } }
    {
        let other_grid = Grid::new(self.alloc, grid.size(), Scrollback::Disabled);
        Screen {
            grid,
            other_grid,
            alternate_screen: false,
            attrs: self.attrs,
            saved_attrs: self.saved_attrs,
            hide_cursor: self.hide_cursor,
            modes: self.modes,
            synchronized_update: self.synchronized_update,
            cursor_style: self.cursor_style,
            last_char: self.last_char,
            alloc: self.alloc,
            failed: self.failed,
        }
    }

    /// Whether both screens have one size and show the same: cells, wrapped rows, cursor, attributes, input modes and
    /// cursor style. Of a screen that shows kept rows, the rows that are drawn on are compared. The comparison stops at
    /// the first difference.
    pub fn shows_same(&self, other: &Screen) -> bool
        ensures drawn { IsTrue result ↔ DrawTheSame self.now.state other.now.state }
        ensures shown { IsUnscrolled self.now.state → IsUnscrolled other.now.state
            → IsTrue result ↔ ShowTheSame self.now.state other.now.state }
    {
        prove!(self.grid.is_allocated());
        prove!(other.grid.is_allocated());
        self.has_same_extras(other) && self.grid.is_drawn_alike(&other.grid)
    }

    /// Whether both screens have the same hiding and style of the cursor, modes and attributes.
    fn has_same_extras(&self, other: &Screen) -> bool
        ensures { result ≡ same_extras self.now.state other.now.state }
    {
        self.hide_cursor() == other.hide_cursor()
            && self.cursor_style() == other.cursor_style()
            && self.has_same_modes(other)
            && self.has_same_attributes(other)
    }

    /// Whether both screens have the same modes of the keys, of pasting and of the mouse.
    fn has_same_modes(&self, other: &Screen) -> bool
        ensures { result ≡ same_modes self.now.state.modes other.now.state.modes }
    {
        self.modes == other.modes
    }

    /// Whether both screens draw with the same attributes.
    fn has_same_attributes(&self, other: &Screen) -> bool
        ensures { result ≡ attrs_eq self.now.state.attrs other.now.state.attrs }
    {
        self.attrs.attrs() == other.attrs.attrs()
    }
}
