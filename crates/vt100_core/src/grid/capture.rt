//! The rows of a grid as a capture.
ghost use Rattle.std.specs.Prelude.{◌≡◌, ◌++◌, [], OnOk, IsOk};
ghost use Rattle.std.specs.Fmt.{WritesInCalls};
ghost use Rattle.vt100_capture.specs.Capture.{captured, after_rows, new_capture};
ghost use Rattle.vt100_capture.specs.Range.{start_of, LeavesState};
ghost use Rattle.vt100_core.specs.Grid.{visible};
ghost use Rattle.vt100_core.specs.Basic.{rows_in};

use crate::capture::{BasicFormattedCaptureRange, BasicFormattedCaptureState, RowContents};
use crate::grid::Grid;
use std::collections::VecDeque;
use std::fmt;
use vt100_capture::several::write_rows;
use vt100_rows::Row;
use vt100_rows::kept_rows::kept_at;

impl Grid {
    /// Writes the rows of a range with their attributes: no control sequences but SGR, and no control characters but a
    /// newline before each row whose predecessor isn't wrapped. Attributes run on from row to row, and aren't reset at
    /// the end. The only error is the writer's, after which the state that was passed in is unspecified. There is no
    /// error if there is nothing to write.
    pub fn write_contents_formatted_basic<W: fmt::Write>(
        &self,
        writer: &mut W,
        range: BasicFormattedCaptureRange<'_>,
    ) -> fmt::Result
        ensures text { OnOk result (WritesInCalls W.write_str_gives writer.old
            (captured (start_of range.entry) (rows_in self.now range.entry)) writer.new) }
        ensures state { OnOk result (LeavesState
            (after_rows (start_of range.entry) (rows_in self.now range.entry)) range.entry range.exit) }
        ensures empty { captured (start_of range.entry) (rows_in self.now range.entry) ≡ [] → IsOk result }
    {
        match range {
            BasicFormattedCaptureRange::Full(state) => self.write_all_rows(writer, state),
            BasicFormattedCaptureRange::Visible => self.write_visible_rows(writer),
        }
    }

    /// Writes the kept rows, and those that are drawn on. For the screen alone.
    #[doc(hidden)]
    pub fn write_all_rows<W: fmt::Write>(
        &self,
        writer: &mut W,
        state: &mut BasicFormattedCaptureState,
    ) -> fmt::Result
        ensures text { OnOk result (WritesInCalls W.write_str_gives writer.old
            (captured state.old (self.now.kept.rows ++ self.now.rows)) writer.new) }
        ensures state { OnOk result (state.new ≡ after_rows state.old (self.now.kept.rows ++ self.now.rows)) }
        ensures empty { captured state.old (self.now.kept.rows ++ self.now.rows) ≡ [] → IsOk result }
    {
        write_kept_rows(&self.scrollback.rows, writer, state)?;
        write_rows(&self.rows, writer, state)
    }

    /// Writes the rows that are shown. For the screen alone.
    #[doc(hidden)]
    pub fn write_visible_rows<W: fmt::Write>(&self, writer: &mut W) -> fmt::Result
        ensures text { OnOk result (WritesInCalls W.write_str_gives writer.old
            (captured new_capture (visible self.now)) writer.new) }
        ensures empty { captured new_capture (visible self.now) ≡ [] → IsOk result }
    {
        let mut state = BasicFormattedCaptureState::new();
        for row in self.visible_rows() {
            RowContents::new(row).write_formatted_basic(writer, &mut state)?;
        }
        Ok(())
    }
}

/// Writes kept rows one after another, as parts of the capture that goes on at `state`.
fn write_kept_rows<W: fmt::Write>(
    rows: &VecDeque<Row>,
    writer: &mut W,
    state: &mut BasicFormattedCaptureState,
) -> fmt::Result
    ensures text { OnOk result (WritesInCalls W.write_str_gives writer.old
        (captured state.old rows.now.items) writer.new) }
    ensures state { OnOk result (state.new ≡ after_rows state.old rows.now.items) }
    ensures empty { captured state.old rows.now.items ≡ [] → IsOk result }
{
    for j in 0..rows.len() {
        RowContents::new(kept_at(rows, j)).write_formatted_basic(writer, state)?;
    }
    Ok(())
}
