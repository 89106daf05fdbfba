//! A row as forms.
ghost use Rattle.std.specs.Prelude.{◌≡◌, ◌+◌, ◌<◌, ◌++◌, length, is_ok, OnOk, IfOk, OnErr};
ghost use Rattle.std.specs.Prelude.{string_bytes, string_len, string_capacity};
ghost use Rattle.vt100_forms.specs.Form.{bytes_of};
ghost use Rattle.row_drawing.specs.Writes.{Writes};
ghost use Rattle.vt100_rows.specs.Forms.{redraw, pen_before, formatted, difference, differing};
ghost use Rattle.row_drawing.specs.Writes.{IsBegun};

use crate::row::Row;
use row_drawing::{Drawing, Pen, Place};
use vt100_forms::GridError;
use vt100_forms::attrs::Attrs;
use vt100_forms::position::Pos;

impl Row {
    /// Appends the forms that draw `width` columns of the row from column `start` on, as row `row` of a terminal that
    /// shows default cells there. `wrapping` says whether the row above goes on in this one; then it gets its flag from
    /// the first character, if the cursor waits at its end.
    ///
    /// `prev_pos` is where the terminal's cursor is before: if it isn't given, at column `start`, or at the end of
    /// the row above if `wrapping` is set. `prev_attrs` are the attributes that it draws with, the default ones if
    /// they aren't given. The call returns both as they are afterwards. A row that ends before `start` appends
    /// nothing.
    ///
    /// It is refused only where the forms don't fit in the capacity of `contents` and there is no memory for more
    /// (`full`). Then a part of them may have been appended.
    pub fn write_contents_formatted(
        &self,
        contents: &mut String,
        start: u16,
        width: u16,
        row: u16,
        wrapping: bool,
        prev_pos: Option<Pos>,
        prev_attrs: Option<Attrs>,
    ) -> Result<(Pos, Attrs), GridError>
        ensures text { OnOk result (string_bytes contents.new ≡ string_bytes contents.old
            ++ bytes_of (formatted self.now start width row wrapping prev_pos prev_attrs).forms) }
        ensures pos { IfOk result (λ answer. answer.0
            ≡ (formatted self.now start width row wrapping prev_pos prev_attrs).pen.pos) }
        ensures attrs { IfOk result (λ answer. answer.1
            ≡ (formatted self.now start width row wrapping prev_pos prev_attrs).pen.attrs) }
        ensures begun { OnErr result (IsBegun (string_bytes contents.old)
            (bytes_of (formatted self.now start width row wrapping prev_pos prev_attrs).forms)
            (string_bytes contents.new)) }
        ensures full { OnErr result (string_capacity contents.old < string_len contents.old
            + length (bytes_of (formatted self.now start width row wrapping prev_pos prev_attrs).forms)) }
    {
        let place = Place {
            row,
            start,
            width,
            above: wrapping,
            was_above: false,
        };
        let mut pen = self.pen_before(place, prev_pos, prev_attrs);
        self.redraw(&mut pen, contents, place)?;
        Ok((pen.pos, pen.attrs))
    }

    /// Appends the forms that draw `width` columns of the row from column `start` on where they differ from those of
    /// `prev`, and the row's flag. Row `row` of the terminal shows `prev`; `wrapping` says whether the row above goes
    /// on in this one, `prev_wrapping` whether the terminal has the flag for it. If it hasn't, that row gets its flag
    /// from the first character, if the cursor waits at its end.
    ///
    /// `prev_pos` is where the terminal's cursor is before, and `prev_attrs` are the attributes that it draws with.
    /// The call returns both as they are afterwards. Of rows of different lengths the columns that both have are
    /// compared; where one of them ends before `start` nothing is appended.
    ///
    /// It is refused only where the forms don't fit in the capacity of `contents` and there is no memory for more
    /// (`full`). Then a part of them may have been appended.
    pub fn write_contents_diff(
        &self,
        contents: &mut String,
        prev: &Self,
        start: u16,
        width: u16,
        row: u16,
        wrapping: bool,
        prev_wrapping: bool,
        prev_pos: Pos,
        prev_attrs: Attrs,
    ) -> Result<(Pos, Attrs), GridError>
        ensures text { OnOk result (string_bytes contents.new ≡ string_bytes contents.old ++ bytes_of
            (differing self.now prev.now start width row wrapping prev_wrapping prev_pos prev_attrs).forms) }
        ensures pos { IfOk result (λ answer. answer.0
            ≡ (differing self.now prev.now start width row wrapping prev_wrapping prev_pos prev_attrs).pen.pos) }
        ensures attrs { IfOk result (λ answer. answer.1
            ≡ (differing self.now prev.now start width row wrapping prev_wrapping prev_pos prev_attrs).pen.attrs) }
        ensures begun { OnErr result (IsBegun (string_bytes contents.old) (bytes_of
            (differing self.now prev.now start width row wrapping prev_wrapping prev_pos prev_attrs).forms)
            (string_bytes contents.new)) }
        ensures full { OnErr result (string_capacity contents.old < string_len contents.old + length (bytes_of
            (differing self.now prev.now start width row wrapping prev_wrapping prev_pos prev_attrs).forms)) }
    {
        let mut pen = Pen {
            pos: prev_pos,
            attrs: prev_attrs,
            erase: None,
            lost: false,
        };
        let place = Place {
            row,
            start,
            width,
            above: wrapping,
            was_above: prev_wrapping,
        };
        self.difference(prev, &mut pen, contents, place)?;
        Ok((pen.pos, pen.attrs))
    }

    /// The pen before the row is drawn.
    fn pen_before(&self, place: Place, prev_pos: Option<Pos>, prev_attrs: Option<Attrs>) -> Pen
        ensures { result ≡ pen_before self.now place.start place.row place.above prev_pos prev_attrs }
    {
        let pos = if place.above {
            Pos {
                row: place.row.saturating_sub(1),
                col: self.cols(),
            }
        } else {
            Pos {
                row: place.row,
                col: place.start,
            }
        };
        Pen {
            pos: prev_pos.unwrap_or(pos),
            attrs: prev_attrs.unwrap_or(Attrs::new()),
            erase: None,
            lost: false,
        }
    }
}

/// Redraws and differences with the whole pen, for the grid.
impl Row {
    /// Draws the row as [`write_contents_formatted`](Self::write_contents_formatted) does.
    #[doc(hidden)]
    pub fn redraw(
        &self,
        pen: &mut Pen,
        contents: &mut String,
        place: Place,
    ) -> Result<(), GridError>
        ensures { Writes (redraw self.now place.start place.width place.row place.above) pen.old contents.old
            (is_ok result) pen.new contents.new }
    {
        let cols = self.cols();
        if cols <= place.start {
            return Ok(());
        }
        let drawing = Drawing {
            cells: &self.cells,
            earlier: &[],
            wrapped: self.wrapped,
            was_wrapped: false,
            above: place.above,
            was_above: false,
            row: place.row,
            start: place.start,
        };
        drawing.redraw(pen, contents, place.width.min(cols - place.start))?;
        Ok(())
    }

    /// Draws the row over `prev` as [`write_contents_diff`](Self::write_contents_diff) does.
    #[doc(hidden)]
    pub fn difference(
        &self,
        prev: &Self,
        pen: &mut Pen,
        contents: &mut String,
        place: Place,
    ) -> Result<(), GridError>
        ensures { Writes
            (difference self.now prev.now place.start place.width place.row place.above place.was_above) pen.old
            contents.old (is_ok result) pen.new contents.new }
    {
        if self.is_drawn(prev, pen, place) {
            return Ok(());
        }
        let cols = self.cols().min(prev.cols());
        if cols <= place.start {
            return Ok(());
        }
        let drawing = Drawing {
            cells: &self.cells,
            earlier: &prev.cells,
            wrapped: self.wrapped,
            was_wrapped: prev.wrapped,
            above: place.above,
            was_above: place.was_above,
            row: place.row,
            start: place.start,
        };
        drawing.difference(pen, contents, place.width.min(cols - place.start))?;
        Ok(())
    }
}
