//! What a screen reports about itself.
ghost use Rattle.std.specs.Prelude.{not, ◌≡◌, length, false, unwrap_or, MatchOption};
ghost use Rattle.std.specs.Option.{option_copied, option_map};
ghost use Rattle.vt100_forms.specs.Attrs.{is_bold, is_dim, is_italic, is_underlined, is_inverse};
ghost use Rattle.vt100_rows.specs.Row.{IsBlankFrom};
ghost use Rattle.vt100_core.specs.Grid.{IsGrid, cell_in, visible_row_at};
ghost use Rattle.screen_model.specs.State.{IsState};

use crate::screen::Screen;
use std::num::NonZeroU16;
use vt100_core::{Cell, Color, CursorStyle, MouseProtocolEncoding, MouseProtocolMode, Pos};

impl Screen {
    /// Whether an allocation failed in a call. What a failed screen shows is unspecified, and it doesn't change any
    /// more.
    pub fn failed(&self) -> bool
        ensures { result ≡ self.now.failed }
    {
        self.failed
    }

    /// Whether the screen is usable: no allocation has failed in an earlier call. Such a screen is in a state of a
    /// terminal: its sheets are grids of one size, only the main one keeps rows, and its attributes and those of the
    /// cells are proper. The sheets of a failed screen are grids too.
    pub fn is_live(&self) -> bool
        ensures answer { result ≡ not self.now.failed }
        ensures live { self.now.failed ≡ false → IsState self.now.state }
        ensures sheets { IsGrid self.now.state.shown × IsGrid self.now.state.other }
    {
        prove!(self.grid.is_allocated());
        prove!(self.other_grid.is_allocated() || !self.alternate_screen);
        !self.failed
    }

    /// How many rows and columns the screen has.
    pub fn size(&self) -> (NonZeroU16, NonZeroU16)
        ensures rows { result.0.value ≡ self.now.state.shown.height }
        ensures cols { result.1.value ≡ self.now.state.shown.width }
    {
        let size = self.grid.size();
        (size.rows, size.cols)
    }

    /// How many rows the shown sheet keeps.
    pub fn scrollback_len(&self) -> usize
        ensures { result ≡ length self.now.state.shown.kept.rows }
    {
        self.grid.scrollback_len()
    }

    /// How many rows the shown sheet keeps at most.
    pub fn scrollback_capacity(&self) -> usize
        ensures { result ≡ self.now.state.shown.kept.capacity }
    {
        self.grid.scrollback_capacity()
    }

    /// How many of the kept rows, from the newest back, are shown above the others.
    pub fn scrollback(&self) -> usize
        ensures { result ≡ self.now.state.shown.kept.offset }
    {
        self.grid.scrollback()
    }

    /// The cursor's row and column, counted from 0. The column equals the number of columns if the next character
    /// wraps first.
    pub fn cursor_position(&self) -> (u16, u16)
        ensures { result ≡ (self.now.state.shown.row, self.now.state.shown.col) }
    {
        let pos = self.grid.pos();
        (pos.row, pos.col)
    }

    /// The cell that is shown at a place, counted from 0, if there is one. A kept row can be wider than the screen.
    pub fn cell(&self, row: u16, col: u16) -> Option<&Cell>
        ensures { option_copied result ≡ cell_in (visible_row_at self.now.state.shown row) col }
    {
        self.grid.visible_cell(Pos { row, col })
    }

    /// The cells of the row that is shown at `row`, counted from 0, from the left: those that [`cell`](Self::cell)
    /// returns one by one. A kept row can be wider than the screen.
    pub fn row_cells(&self, row: u16) -> Option<&[Cell]>
        ensures { option_copied result ≡ option_map (λ v. v.cells) (visible_row_at self.now.state.shown row) }
    {
        match self.grid.visible_row(row) {
            Some(row) => Some(row.cells()),
            None => None,
        }
    }

    /// A column from which on each cell of the row that is shown at `row` is a default cell. Both are counted from 0.
    /// It is 65,535 if no such column is known, and 0 if there is no such row.
    pub fn row_filled(&self, row: u16) -> u16
        ensures { MatchOption (visible_row_at self.now.state.shown row) (result ≡ 0)
            (λ v. IsBlankFrom v.cells result) }
    {
        match self.grid.visible_row(row) {
            Some(row) => row.filled(),
            None => 0,
        }
    }

    /// Whether the text of the row that is shown at `row`, counted from 0, goes on in the next one.
    pub fn row_wrapped(&self, row: u16) -> bool
        ensures { result ≡ unwrap_or (option_map (λ v. v.wrapped) (visible_row_at self.now.state.shown row)) false }
    {
        match self.grid.visible_row(row) {
            Some(row) => row.wrapped(),
            None => false,
        }
    }

    /// Whether the alternate sheet is shown (modes 47 and 1049).
    pub fn alternate_screen(&self) -> bool
        ensures { result ≡ self.now.state.alternate }
    {
        self.alternate_screen
    }

    /// Whether the keypad sends application sequences (DECKPAM).
    pub fn application_keypad(&self) -> bool
        ensures { result ≡ self.now.state.modes.keypad }
    {
        self.modes.application_keypad
    }

    /// Whether the cursor keys send application sequences (DECCKM, mode 1).
    pub fn application_cursor(&self) -> bool
        ensures { result ≡ self.now.state.modes.cursor_keys }
    {
        self.modes.application_cursor
    }

    /// Whether the cursor is hidden (mode 25 reset).
    pub fn hide_cursor(&self) -> bool
        ensures { result ≡ self.now.state.hidden }
    {
        self.hide_cursor
    }

    /// Whether a paste comes between marks (mode 2004).
    pub fn bracketed_paste(&self) -> bool
        ensures { result ≡ self.now.state.modes.paste }
    {
        self.modes.bracketed_paste
    }

    /// Whether the program is in a synchronized update: it is drawing, and asks that nothing be shown until it has
    /// ended (mode 2026). A full reset ends it too, and so does another size, or the same one set again. No text of
    /// the screen contains it.
    pub fn synchronized_update(&self) -> bool
        ensures { result ≡ self.now.state.updating }
    {
        self.synchronized_update
    }

    /// Which events of the mouse are reported to the program.
    pub fn mouse_protocol_mode(&self) -> MouseProtocolMode
        ensures { result ≡ self.now.state.modes.mouse }
    {
        self.modes.mouse_protocol_mode
    }

    /// How they are reported.
    pub fn mouse_protocol_encoding(&self) -> MouseProtocolEncoding
        ensures { result ≡ self.now.state.modes.encoding }
    {
        self.modes.mouse_protocol_encoding
    }

    /// How the cursor looks (DECSCUSR).
    pub fn cursor_style(&self) -> CursorStyle
        ensures { result ≡ self.now.state.style }
    {
        self.cursor_style
    }

    /// The foreground colour with which the next character is drawn.
    pub fn fgcolor(&self) -> Color
        ensures { result ≡ self.now.state.attrs.fgcolor }
    {
        self.attrs.attrs().fgcolor
    }

    /// The background colour with which the next character is drawn.
    pub fn bgcolor(&self) -> Color
        ensures { result ≡ self.now.state.attrs.bgcolor }
    {
        self.attrs.attrs().bgcolor
    }

    /// Whether the next character is drawn bold.
    pub fn bold(&self) -> bool
        ensures { result ≡ is_bold self.now.state.attrs }
    {
        self.attrs.attrs().bold()
    }

    /// Whether the next character is drawn dim.
    pub fn dim(&self) -> bool
        ensures { result ≡ is_dim self.now.state.attrs }
    {
        self.attrs.attrs().dim()
    }

    /// Whether the next character is drawn in italics.
    pub fn italic(&self) -> bool
        ensures { result ≡ is_italic self.now.state.attrs }
    {
        self.attrs.attrs().italic()
    }

    /// Whether the next character is drawn underlined.
    pub fn underline(&self) -> bool
        ensures { result ≡ is_underlined self.now.state.attrs }
    {
        self.attrs.attrs().underline()
    }

    /// Whether the next character is drawn with foreground and background swapped.
    pub fn inverse(&self) -> bool
        ensures { result ≡ is_inverse self.now.state.attrs }
    {
        self.attrs.attrs().inverse()
    }
}
