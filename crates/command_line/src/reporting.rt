//! Exit statuses, and the lines on the error output.

ghost use Rattle.byte_streams.specs.Pump.{Tells};

use byte_streams::{ByteSink, pump};

/// The exit status of a command that did its work.
pub const SUCCESS: u8 = 0;

/// The exit status of a command that ended with an error.
pub const FAULT: u8 = 1;

/// The exit status of a command line that isn't understood.
pub const USAGE: u8 = 2;

/// Writes a line: all of it, unless a write of it fails or takes nothing.
pub fn report<T: ByteSink>(errors: &mut T, line: &[u8])
    ensures { Tells T.takes errors.old line.now errors.new }
{
    // A line that can't be written is given up: the exit status reports the error too.
    let _ = pump(line, errors);
}
