//! The state that a stream leaves.

ghost use Rattle.std.specs.Prelude.{◌≡◌, ◌∷◌, [], IfOk, IsOk, true, nat_lt, if◌then◌else◌};
ghost use Rattle.screen_model.specs.Made.{Fed};
ghost use Rattle.vt100.specs.Parsing.{ParserIsAfter};
ghost use Rattle.screen_probe_command.specs.Command.{IsReadToItsEnd};

use crate::dump::push_screen;
use crate::error::DumpError;
use byte_streams::{FlushSink, Source, pump};
use command_line::read_all;
use std::alloc::Global;
use std::num::NonZeroU16;
use vt100::Parser;

/// How a stream is processed.
#[derive(Clone, Copy, Debug, PartialEq, Eq)]
pub struct Dump {
    /// How many rows the screen has.
    pub rows: NonZeroU16,
    /// How many columns it has.
    pub cols: NonZeroU16,
    /// How many rows it keeps at most that have left it.
    pub capacity: usize,
    /// How often the stream is processed, each time on a fresh screen.
    pub times: usize,
}

/// Reads a stream to its end, processes it as often as is asked for, each time on a fresh screen, and writes the state
/// that it leaves.
///
/// A fault ends it. What was written by then stays written.
pub fn dump_stream<R: Source, W: FlushSink>(
    alloc: Global,
    dump: Dump,
    input: &mut R,
    output: &mut W,
) -> Result<(), DumpError>
    ensures { IsOk result → IsReadToItsEnd R.gives input.old input.new }
{
    let bytes = read_all(alloc, input)?;
    let parser = parser_of(alloc, dump, &bytes)?;
    let mut text = String::new(alloc);
    push_screen(&mut text, parser.screen())?;
    write_text(output, &text)?;
    flush(output)
}

// A parser that has processed the whole stream: the last of `dump.times` parsers. For 0, it has processed nothing.
fn parser_of(alloc: Global, dump: Dump, bytes: &[u8]) -> Result<Parser<()>, DumpError>
    ensures { IfOk result (λ parser. ParserIsAfter parser dump.rows.value dump.cols.value dump.capacity
        (if nat_lt 0 dump.times then Fed bytes.now ∷ [] else [])) }
{
    for _ in 1..dump.times {
        processed(alloc, dump, bytes)?;
    }
    if dump.times > 0 {
        processed(alloc, dump, bytes)
    } else {
        new_parser(alloc, dump)
    }
}

fn processed(alloc: Global, dump: Dump, bytes: &[u8]) -> Result<Parser<()>, DumpError>
    ensures { IfOk result (λ parser. ParserIsAfter parser dump.rows.value dump.cols.value dump.capacity
        (Fed bytes.now ∷ [])) }
{
    let mut parser = new_parser(alloc, dump)?;
    parser.process(bytes)?;
    Ok(parser)
}

fn new_parser(alloc: Global, dump: Dump) -> Result<Parser<()>, DumpError>
    ensures { IfOk result (λ parser. ParserIsAfter parser dump.rows.value dump.cols.value dump.capacity []) }
{
    Ok(Parser::new(alloc, dump.rows, dump.cols, dump.capacity)?)
}

/// Writes the whole text.
pub(crate) fn write_text<W: FlushSink>(output: &mut W, text: &str) -> Result<(), DumpError> {
    match pump(text.as_bytes(), output).1 {
        Ok(()) => Ok(()),
        Err(_) => Err(DumpError::Write),
    }
}

pub(crate) fn flush<W: FlushSink>(output: &mut W) -> Result<(), DumpError> {
    match output.finish() {
        Ok(()) => Ok(()),
        Err(_) => Err(DumpError::Write),
    }
}
