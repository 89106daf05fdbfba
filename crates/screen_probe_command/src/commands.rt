//! The command line.

ghost use Rattle.std.specs.Prelude.{◌≡◌, ◌≤◌, ◌↔◌, IsOk, map, false};
ghost use Rattle.screen_probe_command.specs.Command.{IsReadToItsEnd, is_invocation};

use crate::dumping::dump_stream;
use crate::error::DumpError;
use crate::script::run_script;
use crate::words::{Invocation, parse};
use byte_streams::{ByteSink, FlushSink, Source};
use command_line::{FAULT, SUCCESS, USAGE, report};
use std::alloc::Global;

/// Runs the program on the arguments after its name, and returns its exit status: 0 once the input is read to its end
/// and all is written, 1 at a fault, 2 for arguments that aren't understood.
///
/// A fault is reported in a line on `errors`: `screen_probe: read`, `write`, `memory` or `script`. Any other command
/// line than `ROWS COLS [CAPACITY [TIMES]]` and `run` gets the usage line there, and then nothing is read or written.
pub fn command<R: Source, W: FlushSink, V: ByteSink>(
    alloc: Global,
    words: &[&str],
    input: &mut R,
    output: &mut W,
    errors: &mut V,
) -> u8
    ensures status { result ≤ 2 }
    ensures usage { (result ≡ 2) ↔ (is_invocation (map (λ w. w.now) words.now) ≡ false) }
    ensures unused { result ≡ 2 → (input.new ≡ input.old) × (output.new ≡ output.old) }
    ensures done { result ≡ 0 → IsReadToItsEnd R.gives input.old input.new × (errors.new ≡ errors.old) }
{
    let Some(invocation) = parse(words) else {
        report(
            errors,
            b"usage: screen_probe run|ROWS COLS [CAPACITY [TIMES]]\n",
        );
        return USAGE;
    };
    match obey(alloc, invocation, input, output) {
        Ok(()) => SUCCESS,
        Err(error) => report_fault(errors, error),
    }
}

fn obey<R: Source, W: FlushSink>(
    alloc: Global,
    invocation: Invocation,
    input: &mut R,
    output: &mut W,
) -> Result<(), DumpError>
    ensures { IsOk result → IsReadToItsEnd R.gives input.old input.new }
{
    match invocation {
        Invocation::Dump(dump) => dump_stream(alloc, dump, input, output),
        Invocation::Run => run_script(alloc, input, output),
    }
}

/// Reports a fault in a line on `errors`, and returns its exit status.
pub fn report_fault<V: ByteSink>(errors: &mut V, error: DumpError) -> u8
    ensures { result ≡ 1 }
{
    report(errors, fault_line(error));
    FAULT
}

fn fault_line(error: DumpError) -> &'static [u8] {
    match error {
        DumpError::Read => b"screen_probe: read\n",
        DumpError::Write => b"screen_probe: write\n",
        DumpError::Memory => b"screen_probe: memory\n",
        DumpError::Script => b"screen_probe: script\n",
    }
}
