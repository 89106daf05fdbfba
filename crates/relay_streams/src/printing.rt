//! Writing a text as a whole output.

ghost use Rattle.std.specs.Prelude.{OnOk};
ghost use Rattle.std.specs.Io.KnownBytes.{Appends};
ghost use Rattle.relay_streams.specs.Shown.{Prints};

use crate::error::RelayError;
use byte_streams::{FlushSink, pump};

/// Writes a text, and flushes the output. A write that fails or takes nothing ends the call. What was taken by then
/// stays written.
pub fn print_text<W: FlushSink>(text: &[u8], output: &mut W) -> Result<(), RelayError>
    ensures prints { Prints W.takes W.flushes output.old text.now result output.new }
    ensures written { OnOk result (Appends (W.contents output.old) (W.contents output.new) text.now) }
{
    match pump(text, output).1 {
        Ok(()) => (),
        Err(_) => return Err(RelayError::Write),
    }
    match output.finish() {
        Ok(()) => Ok(()),
        Err(_) => Err(RelayError::Write),
    }
}
