//! What a grid shows, as forms.
ghost use Rattle.std.specs.Prelude.{◌≡◌, ◌&&◌, not, length, min, is_ok, IfOk, string_bytes};
ghost use Rattle.vt100_forms.specs.Attrs.{IsProper, HasByteColors};
ghost use Rattle.row_drawing.specs.Writes.{Writes};
ghost use Rattle.screen_drawing.specs.Rows.{pen_at};
ghost use Rattle.vt100_core.specs.Writers.{Appends, contents_formatted, redrawn, lines_redraw, differing};
ghost use Rattle.vt100_core.specs.Writers.{lines_difference};
ghost use Rattle.vt100_core.specs.Picture.{grid_size};
ghost use Rattle.vt100_core.specs.WriterLaws.{IsUnscrolledGrid, IsDrawableGrid};
ghost use Rattle.vt100_core.specs.FormLists.{HasByteCells, HasByteVisibleCells, IsShortGrowth, AppendsLocal};

use crate::grid::Grid;
use row_drawing::{Pen, Place};
use vt100_forms::attrs::Attrs;
use vt100_forms::term::{BufWrite, ClearAttrs, ClearScreen};
use vt100_forms::{GridError, Pos};

impl Grid {
    /// Appends the forms by which a terminal comes to show what the grid shows, whatever it showed before, and the
    /// terminal's cursor comes to the grid's: attributes and screen are cleared, each row is drawn, and the cursor is
    /// placed as [`write_cursor_position_formatted`](Self::write_cursor_position_formatted) does. Returns the
    /// attributes with which the terminal draws afterwards.
    ///
    /// Kept rows that are shown are drawn in the screen's columns; the cursor is that of the rows that are drawn on.
    ///
    /// They are at most 1,024 bytes for each cell of the screen, and 256 more (`short`).
    ///
    /// It is refused only where the forms don't fit in the capacity of `contents` and there is no memory for more. Then
    /// a part of them may have been appended.
    pub fn write_contents_formatted(&self, contents: &mut String) -> Result<Attrs, GridError>
        ensures text { Appends (contents_formatted self.now) contents.old (is_ok result)
            contents.new }
        ensures attrs { IfOk result (λ answer. answer ≡ (redrawn self.now).pen.attrs) }
        ensures short { HasByteCells self.now → HasByteVisibleCells self.now → IfOk result (λ answer.
            IsShortGrowth self.now (string_bytes contents.old) (string_bytes contents.new)) }
    {
        // For the proof: the rows' own facts.
        let _rows = &self.rows;
        ClearAttrs.write_buf(contents)?;
        ClearScreen.write_buf(contents)?;
        let mut pen = pen_at(Pos { row: 0, col: 0 }, Attrs::new());
        self.redraw_rows(&mut pen, contents)?;
        self.write_cursor_position_formatted(contents, Some(pen.pos), Some(pen.attrs))?;
        Ok(pen.attrs)
    }

    /// Appends the forms by which a terminal that shows what `prev` shows, and whose cursor is that of `prev`, comes to
    /// show what the grid shows: where rows differ they are drawn, and the cursor is placed as
    /// [`write_cursor_position_formatted`](Self::write_cursor_position_formatted) does. `prev_attrs` are the attributes
    /// with which the terminal draws; the call returns those with which it draws afterwards. Both grids have one
    /// size; otherwise the rows and columns that both have are compared.
    ///
    /// They are at most 1,024 bytes for each cell of the screen, and 256 more (`short`).
    ///
    /// Where no kept row is shown, they touch local cells alone: those that differ, and, in rows that differ and right
    /// below them, empty ones and those of the first and the last column; each with its other half. Where the cursor
    /// waits at the end of a row, they may also touch the last cell of one row (`local`).
    ///
    /// It is refused only where the forms don't fit in the capacity of `contents` and there is no memory for more. Then
    /// a part of them may have been appended.
    pub fn write_contents_diff(
        &self,
        contents: &mut String,
        prev: &Self,
        prev_attrs: Attrs,
    ) -> Result<Attrs, GridError>
        ensures text { Appends (differing self.now prev.now prev_attrs).forms contents.old (is_ok result)
            contents.new }
        ensures attrs { IfOk result (λ answer. answer ≡ (differing self.now prev.now prev_attrs).pen.attrs) }
        ensures short { HasByteCells self.now → HasByteVisibleCells self.now → HasByteColors prev_attrs
            → IfOk result (λ answer. IsShortGrowth self.now (string_bytes contents.old) (string_bytes contents.new)) }
        ensures local { IsDrawableGrid self.now → IsUnscrolledGrid prev.now → grid_size prev.now ≡ grid_size self.now
            → IsProper prev_attrs → IfOk result (λ answer.
            AppendsLocal (differing self.now prev.now prev_attrs).forms self.now prev.now prev_attrs
            (string_bytes contents.old) (string_bytes contents.new)) }
    {
        // For the proof: the rows' own facts.
        let _rows = &self.rows;
        let mut pen = pen_at(prev.pos, prev_attrs);
        self.rows_diff(prev, &mut pen, contents)?;
        self.write_cursor_position_formatted(contents, Some(pen.pos), Some(pen.attrs))?;
        Ok(pen.attrs)
    }

    /// Draws the rows that are shown, on a cleared screen.
    fn redraw_rows(&self, pen: &mut Pen, contents: &mut String) -> Result<(), GridError>
        ensures { Writes (lines_redraw self.now (length self.now.rows)) pen.old contents.old
            (is_ok result) pen.new contents.new }
    {
        let mut wrapping = false;
        for i in 0..self.rows.len() as u16 {
            let row = self.shown_row(i);
            let place = self.place(i, wrapping, false);
            pen.lost = false;
            row.redraw(pen, contents, place)?;
            wrapping = row.wrapped();
        }
        Ok(())
    }

    /// Draws the rows that are shown over those that `prev` shows.
    fn rows_diff(&self, prev: &Self, pen: &mut Pen, contents: &mut String) -> Result<(), GridError>
        ensures { Writes (lines_difference self.now prev.now (min (length self.now.rows) (length prev.now.rows)))
            pen.old contents.old (is_ok result) pen.new contents.new }
    {
        let mut wrapping = false;
        let mut prev_wrapping = false;
        for i in 0..self.rows.len().min(prev.rows.len()) as u16 {
            let row = self.shown_row(i);
            let prev_row = prev.shown_row(i);
            let place = self.place(i, wrapping, has_flag(prev_wrapping, pen));
            pen.lost = false;
            row.difference(prev_row, pen, contents, place)?;
            wrapping = row.wrapped();
            prev_wrapping = prev_row.wrapped();
        }
        Ok(())
    }

    /// The place of a whole row. `above` says whether the row above wraps into it, `was_above` whether the terminal has
    /// that flag.
    #[inline(always)]
    fn place(&self, row: u16, above: bool, was_above: bool) -> Place
        ensures { result ≡ record {
          row = row;
          start = 0;
          width = self.now.width;
          above = above;
          was_above = was_above;
        } }
    {
        Place {
            row,
            start: 0,
            width: self.size.cols(),
            above,
            was_above,
        }
    }
}

/// Whether the row above still has the flag that it had.
fn has_flag(prev_wrapping: bool, pen: &Pen) -> bool
    ensures { result ≡ (prev_wrapping && not pen.now.lost) }
{
    prev_wrapping && !pen.lost
}

/// What is known of a terminal whose cursor is here and which draws with these attributes.
fn pen_at(pos: Pos, attrs: Attrs) -> Pen
    ensures { result ≡ pen_at pos.row pos.col attrs }
{
    Pen {
        pos,
        attrs,
        erase: None,
        lost: false,
    }
}
