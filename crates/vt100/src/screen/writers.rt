//! What a screen shows, as forms for a terminal.
ghost use Rattle.std.specs.Prelude.{◌≡◌, ◌≤◌, [], OnErr, OnOk, IfOk, IsOk, Err, if◌then◌else◌};
ghost use Rattle.std.specs.Prelude.{string_bytes, string_capacity};
ghost use Rattle.vt100_forms.specs.Form.{bytes_of};
ghost use Rattle.vt100_cells.specs.Cell.{bool_eq};
ghost use Rattle.screen_drawing.specs.Modes.{input_mode_formatted, input_mode_diff, attributes_formatted};
ghost use Rattle.screen_drawing.specs.Screen as picture;
ghost use Rattle.vt100_core.specs.Picture.{grid_size};
ghost use Rattle.vt100_core.specs.Writers.{RefusedForms};
ghost use Rattle.screen_model.specs.Shown.{shown_state};
ghost use Rattle.vt100.specs.Writers.{contents_formatted, state_formatted, contents_diff, state_diff};
ghost use Rattle.vt100.specs.Writers.{cursor_state_formatted, rows_formatted, rows_diff};
ghost use Rattle.vt100.specs.WriterLaws.{IsUnscrolled};
ghost use Rattle.vt100.specs.Texts.{Gives};
ghost use Rattle.vt100.specs.Written.{Writes, GivesModes, GivesRedraw, GivesDifference, AppendsRedraw};
ghost use Rattle.vt100.specs.Written.{AppendsDifference};
ghost use Rattle.vt100.specs.declared.error.ScreenError.TheVariants.{Memory};

use crate::error::ScreenError;
use crate::screen::Screen;
use crate::screen::rows::{Rows, RowsDiff, RowsFormatted, Writing};
use vt100_core::attrs::Attrs;
use vt100_core::term::{
    ApplicationCursor, ApplicationKeypad, BracketedPaste, BufWrite, ClearAttrs, HideCursor,
};
use vt100_core::{CursorStyle, GridError, MouseProtocolEncoding, MouseProtocolMode, term};

impl Screen {
    /// The escape sequences that take a terminal to all that the screen shows, whatever it showed before, if its
    /// mouse mode and encoding and its cursor's style are the initial ones:
    /// [`contents_formatted`](Self::contents_formatted), and [`input_mode_formatted`](Self::input_mode_formatted)
    /// after it. They are at most 1,024 bytes for each cell of the screen, and 1,008 more (`short`).
    ///
    /// Where kept rows are shown, a terminal may come to another picture. A copy by
    /// [`clone_visible`](Self::clone_visible) leads it to what is shown.
    pub fn state_formatted(&self) -> Result<String, ScreenError>
        ensures { GivesRedraw state_formatted picture.state_formatted 1008 self.now.state result }
    {
        let mut contents = String::new(self.alloc);
        self.write_state_formatted(&mut contents)?;
        Ok(contents)
    }

    /// Appends the escape sequences of [`state_formatted`](Self::state_formatted) to a text. It is refused only where
    /// they don't fit in the capacity of `contents` and there is no memory for more. Then a prefix of them may have
    /// been appended.
    pub fn write_state_formatted(&self, contents: &mut String) -> Result<(), ScreenError>
        ensures { AppendsRedraw state_formatted picture.state_formatted 1008 self.now.state contents.old result
            contents.new }
    {
        self.write_contents_formatted(contents)?;
        self.write_input_mode_formatted(contents)?;
        Ok(())
    }

    /// The escape sequences that take a terminal from all that `prev` shows to all that the screen shows:
    /// [`contents_diff`](Self::contents_diff), and [`input_mode_diff`](Self::input_mode_diff) after it. Both screens
    /// have one size.
    ///
    /// They are at most 1,024 bytes for each cell of the screen, and 1,008 more (`short`).
    ///
    /// Where neither shows a kept row and no cell shows U+FE0F, they touch local cells alone: those that differ, and,
    /// in rows that differ and right below them, empty ones and those of the first and the last column; each with its
    /// other half. Where the cursor waits at the end of a row, they may also touch the last cell of one row (`local`).
    ///
    /// Where either shows kept rows, a terminal may come to another picture. Copies by
    /// [`clone_visible`](Self::clone_visible) of both lead it to what is shown.
    pub fn state_diff(&self, prev: &Self) -> Result<String, ScreenError>
        ensures { GivesDifference state_diff picture.state_diff 1008 prev.now.state self.now.state result }
    {
        let mut contents = String::new(self.alloc);
        self.write_state_diff(&mut contents, prev)?;
        Ok(contents)
    }

    /// Appends the escape sequences of [`state_diff`](Self::state_diff) to a text. It is refused only where they don't
    /// fit in the capacity of `contents` and there is no memory for more. Then a prefix of them may have been appended.
    pub fn write_state_diff(&self, contents: &mut String, prev: &Self) -> Result<(), ScreenError>
        ensures { AppendsDifference state_diff picture.state_diff 1008 prev.now.state self.now.state contents.old result
            contents.new }
    {
        let _prev_attrs = &prev.attrs;
        self.write_contents_diff(contents, prev)?;
        self.write_input_mode_diff(contents, prev)?;
        Ok(())
    }

    /// The escape sequences that take a terminal to the picture that the screen shows, whatever it showed before:
    /// whether the cursor is hidden, the rows, the cursor, and the attributes that are drawn with. Rows are drawn as
    /// they are shown; the cursor is that of the rows that are drawn on. They are at most 1,024 bytes for each cell of
    /// the screen, and 512 more (`short`).
    ///
    /// Where kept rows are shown, use [`clone_visible`](Self::clone_visible), as
    /// [`state_formatted`](Self::state_formatted) says.
    pub fn contents_formatted(&self) -> Result<String, ScreenError>
        ensures { GivesRedraw contents_formatted picture.contents_formatted 512 self.now.state result }
    {
        let mut contents = String::new(self.alloc);
        self.write_contents_formatted(&mut contents)?;
        Ok(contents)
    }

    fn write_contents_formatted(&self, contents: &mut String) -> Result<(), GridError>
        ensures text { Writes (contents_formatted self.now.state) contents.old result contents.new }
        ensures refused { OnErr result (RefusedForms (contents_formatted self.now.state) contents.old contents.new) }
        ensures capacity { OnOk result (string_capacity contents.old ≤ string_capacity contents.new) }
    {
        HideCursor::new(self.hide_cursor).write_buf(contents)?;
        let prev_attrs = self.grid.write_contents_formatted(contents)?;
        self.attrs
            .attrs()
            .write_escape_code_diff(contents, &prev_attrs)
    }

    /// The escape sequences that draw each row that is shown, from the top, on a row of default cells: `width`
    /// columns from column `start` on, or as many as the row has. A row that ends before `start` has none.
    ///
    /// Before each row the cursor is brought to the row's column `start`, and the attributes are the default ones.
    /// Where whole rows are asked for, a row that goes on from the one above is drawn with the cursor at the end of
    /// that one. Of a kept row that is wider than the screen, [`clone_visible`](Self::clone_visible) gives the screen's
    /// columns.
    pub fn rows_formatted(&self, start: u16, width: u16) -> RowsFormatted<'_>
        ensures { result ≡ rows_formatted self.now.state.shown start width }
    {
        prove!(self.grid.is_allocated());
        let whole = start == 0 && width == self.grid.size().cols();
        let writing = Writing::Formatted(whole);
        Rows::new(self.alloc, self.grid.visible_rows(), writing, start, width)
    }

    /// The escape sequences that take a terminal from the picture that `prev` shows to the one that the screen shows.
    /// What is alike isn't drawn again. Both screens have one size; otherwise the rows and columns that both have are
    /// compared.
    ///
    /// They are at most 1,024 bytes for each cell of the screen, and 512 more (`short`), and touch the cells that
    /// [`state_diff`](Self::state_diff) says (`local`). Where either shows kept rows, use
    /// [`clone_visible`](Self::clone_visible), as it says too.
    pub fn contents_diff(&self, prev: &Self) -> Result<String, ScreenError>
        ensures { GivesDifference contents_diff picture.contents_diff 512 prev.now.state self.now.state result }
    {
        let _prev_attrs = &prev.attrs;
        let mut contents = String::new(self.alloc);
        self.write_contents_diff(&mut contents, prev)?;
        Ok(contents)
    }

    fn write_contents_diff(&self, contents: &mut String, prev: &Self) -> Result<(), GridError>
        ensures text { Writes (contents_diff prev.now.state self.now.state) contents.old result contents.new }
        ensures refused { OnErr result (RefusedForms (contents_diff prev.now.state self.now.state) contents.old
            contents.new) }
        ensures capacity { OnOk result (string_capacity contents.old ≤ string_capacity contents.new) }
        ensures empty { bytes_of (contents_diff prev.now.state self.now.state) ≡ [] → IsOk result }
    {
        let hiding = HideCursor::new(self.hide_cursor);
        write_change(contents, prev.hide_cursor, self.hide_cursor, &hiding)?;
        let prev_attrs = self
            .grid
            .write_contents_diff(contents, &prev.grid, prev.attrs.attrs())?;
        self.attrs
            .attrs()
            .write_escape_code_diff(contents, &prev_attrs)
    }

    /// The escape sequences that draw each row that is shown over the one that `prev` shows there, from the top,
    /// where they differ: `width` columns from column `start` on, or as many as both rows have. Rows that one of the
    /// screens alone has have no item.
    ///
    /// Before each row the cursor is brought to the row's column `start`, and the attributes are the default ones.
    pub fn rows_diff<'a>(&'a self, prev: &'a Self, start: u16, width: u16) -> RowsDiff<'a>
        ensures { result ≡ rows_diff prev.now.state.shown self.now.state.shown start width }
    {
        prove!(self.grid.is_allocated());
        let rows = self.grid.visible_rows();
        let writing = Writing::Diff(prev.grid.visible_rows());
        Rows::new(self.alloc, rows, writing, start, width)
    }

    /// The escape sequences that set a terminal's modes: the keypad's and the cursor keys' application mode and
    /// bracketed paste; and, where they aren't the initial ones, the mouse's mode and encoding and the cursor's
    /// style. They are at most 128 bytes (`short`).
    pub fn input_mode_formatted(&self) -> Result<String, ScreenError>
        ensures { GivesModes (input_mode_formatted (shown_state self.now.state)) 128 result }
    {
        let mut contents = String::new(self.alloc);
        self.write_input_mode_formatted(&mut contents)?;
        Ok(contents)
    }

    fn write_input_mode_formatted(&self, contents: &mut String) -> Result<(), GridError>
        ensures text { Writes (input_mode_formatted (shown_state self.now.state)) contents.old result contents.new }
        ensures refused { OnErr result (RefusedForms (input_mode_formatted (shown_state self.now.state)) contents.old
            contents.new) }
        ensures capacity { OnOk result (string_capacity contents.old ≤ string_capacity contents.new) }
    {
        let modes = self.modes;
        ApplicationKeypad::new(modes.application_keypad).write_buf(contents)?;
        ApplicationCursor::new(modes.application_cursor).write_buf(contents)?;
        BracketedPaste::new(modes.bracketed_paste).write_buf(contents)?;
        term::MouseProtocolMode::new(modes.mouse_protocol_mode, MouseProtocolMode::None).write_buf(
            contents,
        )?;
        term::MouseProtocolEncoding::new(
            modes.mouse_protocol_encoding,
            MouseProtocolEncoding::Default,
        )
        .write_buf(contents)?;
        term::CursorStyle::new(self.cursor_style, CursorStyle::Default).write_buf(contents)
    }

    /// The escape sequences that change the modes of a terminal from those of `prev` to those of the screen: at most
    /// 128 bytes (`short`).
    pub fn input_mode_diff(&self, prev: &Self) -> Result<String, ScreenError>
        ensures { GivesModes (input_mode_diff (shown_state prev.now.state) (shown_state self.now.state)) 128 result }
    {
        let mut contents = String::new(self.alloc);
        self.write_input_mode_diff(&mut contents, prev)?;
        Ok(contents)
    }

    fn write_input_mode_diff(&self, contents: &mut String, prev: &Self) -> Result<(), GridError>
        ensures text { Writes (input_mode_diff (shown_state prev.now.state) (shown_state self.now.state)) contents.old
            result contents.new }
        ensures refused { OnErr result (RefusedForms (input_mode_diff (shown_state prev.now.state)
            (shown_state self.now.state)) contents.old contents.new) }
        ensures capacity { OnOk result (string_capacity contents.old ≤ string_capacity contents.new) }
        ensures empty { bytes_of (input_mode_diff (shown_state prev.now.state) (shown_state self.now.state)) ≡ []
            → IsOk result }
    {
        let old = prev.modes;
        let now = self.modes;
        let keypad = ApplicationKeypad::new(now.application_keypad);
        write_change(
            contents,
            old.application_keypad,
            now.application_keypad,
            &keypad,
        )?;
        let cursor_keys = ApplicationCursor::new(now.application_cursor);
        write_change(
            contents,
            old.application_cursor,
            now.application_cursor,
            &cursor_keys,
        )?;
        let paste = BracketedPaste::new(now.bracketed_paste);
        write_change(contents, old.bracketed_paste, now.bracketed_paste, &paste)?;
        term::MouseProtocolMode::new(now.mouse_protocol_mode, old.mouse_protocol_mode).write_buf(
            contents,
        )?;
        term::MouseProtocolEncoding::new(
            now.mouse_protocol_encoding,
            old.mouse_protocol_encoding,
        ).write_buf(contents)?;
        term::CursorStyle::new(self.cursor_style, prev.cursor_style).write_buf(contents)
    }

    /// The escape sequences that set the attributes with which a terminal draws, whatever they were before.
    pub fn attributes_formatted(&self) -> Result<String, ScreenError>
        ensures { Gives (bytes_of (attributes_formatted (shown_state self.now.state))) result }
    {
        let mut contents = String::new(self.alloc);
        self.write_attributes_formatted(&mut contents)?;
        Ok(contents)
    }

    fn write_attributes_formatted(&self, contents: &mut String) -> Result<(), GridError>
        ensures { Writes (attributes_formatted (shown_state self.now.state)) contents.old result contents.new }
    {
        ClearAttrs.write_buf(contents)?;
        self.attrs
            .attrs()
            .write_escape_code_diff(contents, &Attrs::new())
    }

    /// The escape sequences that bring a terminal's cursor, which may be anywhere, to the screen's, and hide or show
    /// it. The terminal shows the rows that are drawn on, and draws with the default attributes, before and
    /// afterwards. Where kept rows are shown, use those of a [`clone_visible`](Self::clone_visible).
    pub fn cursor_state_formatted(&self) -> Result<String, ScreenError>
        ensures text { IfOk result (λ contents. string_bytes contents
            ≡ bytes_of (cursor_state_formatted self.now.state)) }
        ensures shown { IsUnscrolled self.now.state → IfOk result (λ contents. string_bytes contents
            ≡ bytes_of (picture.cursor_state_formatted (grid_size self.now.state.shown) (shown_state self.now.state))) }
        ensures memory { OnErr result (result ≡ Err Memory) }
    {
        let mut contents = String::new(self.alloc);
        self.write_cursor_state_formatted(&mut contents)?;
        Ok(contents)
    }

    fn write_cursor_state_formatted(&self, contents: &mut String) -> Result<(), GridError>
        ensures { Writes (cursor_state_formatted self.now.state) contents.old result contents.new }
    {
        HideCursor::new(self.hide_cursor).write_buf(contents)?;
        self.grid
            .write_cursor_position_formatted(contents, None, None)
    }
}

/// Appends a form, if a switch changes.
fn write_change<F: BufWrite>(
    contents: &mut String,
    prev: bool,
    now: bool,
    form: &F,
) -> Result<(), GridError>
    ensures text { Writes (if bool_eq now prev then [] else F.forms form.now) contents.old result contents.new }
    ensures refused { OnErr result (RefusedForms (if bool_eq now prev then [] else F.forms form.now) contents.old
        contents.new) }
    ensures capacity { OnOk result (string_capacity contents.old ≤ string_capacity contents.new) }
    ensures empty { bytes_of (if bool_eq now prev then [] else F.forms form.now) ≡ [] → IsOk result }
{
    if now == prev {
        return Ok(());
    }
    form.write_buf(contents)
}
