//! Which rows a capture has, and the state between its parts.
ghost use Rattle.std.specs.Prelude.{◌≡◌, OnOk};
ghost use Rattle.std.specs.Fmt.{WritesInCalls};
ghost use Rattle.vt100_capture.specs.Capture.{CaptureView, new_capture, captured_row, after_row};

use std::fmt;
use std::marker::Model;
use vt100_forms::attrs::Attrs;
use vt100_rows::Row;

/// Which rows a capture has.
#[derive(Debug, Drop)]
pub enum BasicFormattedCaptureRange<'a> {
    /// All rows: those that have scrolled off and are kept, and those of the screen. The capture continues from this
    /// state, and updates it. Use the state with which rows that left the screen were written, or a new one.
    Full(&'a mut BasicFormattedCaptureState),
    /// The rows that are shown, as a capture of its own.
    Visible,
}

/// The state between the parts of a capture: the attributes that are set, and whether a newline is due before the next
/// row.
#[derive(Clone, Debug, Drop)]
pub struct BasicFormattedCaptureState {
    attrs: Attrs,
    newline_pending: bool,
}

impl Model for BasicFormattedCaptureState {
    ghost use Rattle.vt100_capture.specs.Capture.{CaptureView};

    ghost Value = { CaptureView };

    ghost view = { λ s. record { attrs = s.attrs; newline_pending = s.newline_pending } };
}

impl BasicFormattedCaptureState {
    /// The state before a capture: the default attributes, and no row yet.
    pub fn new() -> Self
        ensures { result ≡ new_capture }
    {
        BasicFormattedCaptureState {
            attrs: Attrs::new(),
            newline_pending: false,
        }
    }
}

impl Default for BasicFormattedCaptureState {
    ghost use Rattle.vt100_capture.specs.Capture.{new_capture};

    ghost is_default = { λ s. s ≡ new_capture };

    fn default() -> Self {
        Self::new()
    }
}

/// A row that leaves a screen for good.
#[derive(Drop)]
pub struct RowContents<'a> {
    row: &'a Row,
}

impl<'a> Model for RowContents<'a> {
    ghost use Rattle.vt100_rows.specs.Row.{RowView};

    ghost Value = { RowView };

    ghost view = { λ r. r.row.now };
}

impl<'a> RowContents<'a> {
    ghost use Rattle.std.specs.Prelude.{◌≡◌, [], OnOk, IsOk};
    ghost use Rattle.std.specs.Fmt.{WritesInCalls};
    ghost use Rattle.vt100_capture.specs.Capture.{captured_row, after_row};

    /// Borrows a row.
    pub fn new(row: &'a Row) -> Self
        ensures { result ≡ row.now }
    {
        RowContents { row }
    }

    /// Writes the row's text with its attributes, as the next part of the capture that has got to `state`. A newline
    /// comes before it if the row before isn't wrapped, and none after it. The only error is the writer's; what `state`
    /// is then is unspecified. There is no error if there is nothing to write.
    pub fn write_formatted_basic<W: fmt::Write>(
        &self,
        writer: &mut W,
        state: &mut BasicFormattedCaptureState,
    ) -> fmt::Result
        ensures text { OnOk result (WritesInCalls W.write_str_gives writer.old
            (captured_row state.old self.now) writer.new) }
        ensures state { OnOk result (state.new ≡ after_row state.old self.now) }
        ensures empty { captured_row state.old self.now ≡ [] → IsOk result }
    {
        if state.newline_pending {
            writer.write_char('\n')?;
        }
        self.row
            .write_contents_formatted_basic(writer, &mut state.attrs)?;
        state.newline_pending = !self.row.wrapped();
        Ok(())
    }
}
