//! Several rows of a capture.
ghost use Rattle.std.specs.Prelude.{◌≡◌, [], OnOk, IsOk};
ghost use Rattle.std.specs.Fmt.{WritesInCalls};
ghost use Rattle.vt100_capture.specs.Capture.{captured, after_rows};

use crate::state::{BasicFormattedCaptureState, RowContents};
use std::fmt;
use vt100_rows::Sheet;

/// Writes rows one after another, as the next part of the capture that has got to `state`. For the grid only.
#[doc(hidden)]
pub fn write_rows<W: fmt::Write>(
    rows: &Sheet,
    writer: &mut W,
    state: &mut BasicFormattedCaptureState,
) -> fmt::Result
    ensures text { OnOk result (WritesInCalls W.write_str_gives writer.old (captured state.old rows.now) writer.new) }
    ensures state { OnOk result (state.new ≡ after_rows state.old rows.now) }
    ensures empty { captured state.old rows.now ≡ [] → IsOk result }
{
    for r in 0..rows.len() {
        RowContents::new(&rows[r]).write_formatted_basic(writer, state)?;
    }
    Ok(())
}
