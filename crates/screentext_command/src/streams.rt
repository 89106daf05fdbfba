//! Whole output, and lines that are written in parts.

ghost use Rattle.std.specs.List.{flat_map};
ghost use Rattle.screentext_command.specs.Command.{Prints, PrintsWith, TellsInParts};

use crate::error::TextError;
use byte_streams::{ByteSink, FlushSink, pump};

/// Writes all of these bytes, and flushes. Then `remark` is still to be reported.
pub(crate) fn print<W: FlushSink>(
    output: &mut W,
    text: &[u8],
    remark: Option<TextError>,
) -> Result<Option<TextError>, TextError>
    ensures { PrintsWith W.takes W.flushes output.old text.now remark result output.new }
{
    write_all(output, text)?;
    Ok(remark)
}

// Writes all of these bytes, and flushes.
fn write_all<W: FlushSink>(output: &mut W, text: &[u8]) -> Result<(), TextError>
    ensures { Prints W.takes W.flushes output.old text.now result output.new }
{
    match pump(text, output).1 {
        Ok(()) => (),
        Err(_) => return Err(TextError::Write),
    }
    match output.finish() {
        Ok(()) => Ok(()),
        Err(_) => Err(TextError::Write),
    }
}

/// Writes the parts of a line one after another. A write that fails or takes nothing ends it.
pub(crate) fn tell<V: ByteSink>(errors: &mut V, parts: &[&str])
    ensures { TellsInParts V.takes errors.old (flat_map (λ part. part.now) parts.now) errors.new }
{
    for part in parts {
        match pump(part.as_bytes(), errors).1 {
            Ok(()) => (),
            Err(_) => return,
        }
    }
}
