//! The texts that a screen shows.
ghost use Rattle.std.specs.Prelude.{◌≡◌, ◌++◌, OnOk, length, string_bytes};
ghost use Rattle.std.specs.Prelude.{encode_utf8_all, [], IsOk};
ghost use Rattle.std.specs.Fmt.{WritesInCalls};
ghost use Rattle.vt100_capture.specs.Capture.{captured, after_rows, new_capture};
ghost use Rattle.vt100_capture.specs.Range.{start_of, LeavesState};
ghost use Rattle.vt100_core.specs.Basic.{rows_in};
ghost use Rattle.vt100_core.specs.Grid.{visible};
ghost use Rattle.vt100_core.specs.Contents.{newlines_cut, text_lines};
ghost use Rattle.vt100.specs.Texts.{Gives, row_texts, rest_of_row, text_between};

use crate::error::ScreenError;
use crate::screen::Screen;
use crate::screen::rows::{Rows, Writing};
use std::fmt;
use vt100_core::capture::BasicFormattedCaptureRange;
use vt100_core::{GridError, Row};

impl Screen {
    /// The text of the rows that are shown, in the screen's columns: without the empty columns at a row's end, with a
    /// newline after each row that doesn't go on in the next, and without newlines at its own end.
    pub fn contents(&self) -> Result<String, ScreenError>
        ensures { Gives (newlines_cut (encode_utf8_all
            (text_lines self.now.state.shown (length self.now.state.shown.rows)))) result }
    {
        let mut contents = String::new(self.alloc);
        self.grid.write_contents(&mut contents)?;
        Ok(contents)
    }

    /// The text of each row that is shown, from the top: `width` columns from column `start` on, without the empty
    /// columns at its end and without newlines. Of a wide character that begins before `start` the second half counts
    /// as an empty column.
    pub fn rows(&self, start: u16, width: u16) -> Rows<'_>
        ensures { result ≡ row_texts start width (visible self.now.state.shown) }
    {
        prove!(self.grid.is_allocated());
        Rows::new(
            self.alloc,
            self.grid.visible_rows(),
            Writing::Text,
            start,
            width,
        )
    }

    /// The text from one place up to another: the rest of row `start_row` from `start_col` on, the rows between the
    /// two, and row `end_row` up to `end_col`, with a newline after each row before the last one that doesn't go on in
    /// the next. Rows and columns are counted from 0, and those past the screen's size show nothing. Where the end
    /// doesn't come after the start the text is empty.
    pub fn contents_between(
        &self,
        start_row: u16,
        start_col: u16,
        end_row: u16,
        end_col: u16,
    ) -> Result<String, ScreenError>
        ensures { Gives (encode_utf8_all (text_between self.now.state.shown start_row start_col end_row end_col))
            result }
    {
        let mut contents = String::new(self.alloc);
        if end_row < start_row {
            return Ok(contents);
        }
        let cols = self.grid.size().cols();
        let mut start = start_col;
        for r in start_row..end_row {
            let Some(row) = self.grid.visible_row(r) else {
                return Ok(contents);
            };
            write_rest(row, &mut contents, start, cols)?;
            start = 0;
        }
        if let Some(row) = self.grid.visible_row(end_row) {
            row.write_contents(&mut contents, start, end_col.saturating_sub(start), false)?;
        }
        Ok(contents)
    }

    /// The rows that are shown, as text with its attributes: no control sequences but SGR, and no control characters
    /// but a newline after each row but the last that doesn't go on in the next. The attributes that are set before it
    /// have to be the default ones, and aren't reset at the end.
    pub fn contents_formatted_basic(&self) -> Result<String, ScreenError>
        ensures { Gives (captured new_capture (visible self.now.state.shown)) result }
    {
        let mut contents = String::new(self.alloc);
        let written = self.write_contents_formatted_basic(
            &mut contents,
            BasicFormattedCaptureRange::Visible,
        );
        match written {
            Ok(()) => Ok(contents),
            Err(_) => Err(ScreenError::Memory),
        }
    }

    /// Writes the rows of a range in that format: those that are shown, as [`contents_formatted_basic`] does, or the
    /// kept rows and those that are drawn on, from the state that is passed in. The only error is the writer's, after
    /// which that state is unspecified. There is no error if there is nothing to write.
    ///
    /// [`contents_formatted_basic`]: Self::contents_formatted_basic
    pub fn write_contents_formatted_basic<W: fmt::Write>(
        &self,
        writer: &mut W,
        range: BasicFormattedCaptureRange<'_>,
    ) -> fmt::Result
        ensures text { OnOk result (WritesInCalls W.write_str_gives writer.old
            (captured (start_of range.entry) (rows_in self.now.state.shown range.entry)) writer.new) }
        ensures state { OnOk result (LeavesState
            (after_rows (start_of range.entry) (rows_in self.now.state.shown range.entry)) range.entry range.exit) }
        ensures empty { captured (start_of range.entry) (rows_in self.now.state.shown range.entry) ≡ [] → IsOk result }
    {
        match range {
            BasicFormattedCaptureRange::Full(state) => self.grid.write_all_rows(writer, state),
            BasicFormattedCaptureRange::Visible => self.grid.write_visible_rows(writer),
        }
    }
}

/// Appends the text of a row from column `start` on, on a screen of `cols` columns, and a newline unless it goes on in
/// the next.
fn write_rest(row: &Row, contents: &mut String, start: u16, cols: u16) -> Result<(), GridError>
    ensures text { OnOk result (string_bytes contents.new ≡ string_bytes contents.old
        ++ encode_utf8_all (rest_of_row row.now start cols)) }
    ensures empty { rest_of_row row.now start cols ≡ [] → IsOk result }
{
    row.write_contents(contents, start, cols.saturating_sub(start), false)?;
    if !row.wrapped() {
        contents.push('\n')?;
    }
    Ok(())
}
