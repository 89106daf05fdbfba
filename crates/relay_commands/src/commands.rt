//! Commands: what the arguments ask for is carried out, and its fault is reported.

ghost use Rattle.std.specs.Prelude.{◌≡◌, map, None, IfSome, OnOk};
ghost use Rattle.byte_streams.specs.Pump.{Tells};
ghost use Rattle.relay_commands.specs.Command.{CarriesOut, Does, HasWritten};
ghost use Rattle.relay_commands.specs.Ends.{from, onto};
ghost use Rattle.relay_commands.specs.Programs.{fault_line, usage_line};
ghost use Rattle.relay_commands.specs.Words.{invocation_of, with_numbers};

use crate::far_screen::print_far_screen;
use crate::help::{SCREENCAT_HELP, SCREENLIVE_HELP};
use crate::program::Program;
use crate::words::{Invocation, Job, parse};
use byte_streams::{ByteSink, FlushSink};
use command_line::{FAULT, SUCCESS, USAGE, report};
use relay_streams::{RelayError, Source, print_text, relay, relay_live_with, show};
use std::alloc::Global;

impl Program {
    /// Runs the program on `words`, the arguments after its name. Returns the exit status: 0 for success, 1 for a
    /// fault, 2 for arguments that it doesn't understand.
    ///
    /// `screenrelay` understands `relay ROWS COLS` and `show ROWS COLS`. `screenlive` and `screencat` understand
    /// `ROWS COLS`, these with `--no-line-drawing` before or after them, and `--help` or `-h`, which prints the help
    /// and reads nothing. For other arguments the usage line is written to `errors`, and nothing else is read or
    /// written.
    ///
    /// A fault is reported in a line on `errors`, such as `screencat: read`: the program's name, and `read`, `write`,
    /// `memory`, `too many reads` or `frame too long`. A line on `errors` is written whole, unless a write of it
    /// fails or takes nothing; that changes nothing else.
    pub fn command<S: Source, W: FlushSink, V: ByteSink>(
        self,
        alloc: Global,
        words: &[&str],
        input: &mut S,
        output: &mut W,
        errors: &mut V,
    ) -> u8
        ensures usage { invocation_of self (map (λ w. w.now) words.now) ≡ None → (result ≡ 2)
            × (input.new ≡ input.old) × (output.new ≡ output.old)
            × Tells V.takes errors.old (usage_line self) errors.new }
        ensures does { IfSome (invocation_of self (map (λ w. w.now) words.now)) (λ invocation. CarriesOut
            (from S.gives input.old input.new) (onto W.takes output.old output.new) W.flushes
            (onto V.takes errors.old errors.new) self invocation result) }
        ensures done { result ≡ 0 → IfSome (invocation_of self (map (λ w. w.now) words.now))
            (λ invocation. HasWritten invocation (S.left input.old) (W.contents output.old) (W.contents output.new)) }
    {
        let Some(invocation) = parse(self, words) else {
            report(errors, self.usage_line().as_bytes());
            return USAGE;
        };
        match carry_out(alloc, invocation, input, output) {
            Ok(()) => SUCCESS,
            Err(error) => self.report_fault(errors, error),
        }
    }

    /// Reports a fault in a line on `errors`. Returns its exit status, 1.
    pub fn report_fault<V: ByteSink>(self, errors: &mut V, error: RelayError) -> u8
        ensures status { result ≡ 1 }
        ensures reports { Tells V.takes errors.old (fault_line self error) errors.new }
    {
        report(errors, self.fault_line(error).as_bytes());
        FAULT
    }
}

// Prints the help, or does the job that is asked for.
fn carry_out<S: Source, W: FlushSink>(
    alloc: Global,
    invocation: Invocation,
    input: &mut S,
    output: &mut W,
) -> Result<(), RelayError>
    ensures does { Does (from S.gives input.old input.new) (onto W.takes output.old output.new) W.flushes
        (with_numbers invocation) result }
    ensures done { OnOk result (HasWritten (with_numbers invocation) (S.left input.old) (W.contents output.old)
        (W.contents output.new)) }
{
    match invocation {
        Invocation::ScreenliveHelp => print_text(SCREENLIVE_HELP, output),
        Invocation::ScreencatHelp => print_text(SCREENCAT_HELP, output),
        Invocation::Run(job, rows, cols) => match job {
            Job::Relay => relay(alloc, rows, cols, input, output),
            Job::Show => show(alloc, rows, cols, input, output),
            Job::RelayLive(lines) => relay_live_with(alloc, rows, cols, lines, input, output),
            Job::PrintFar(lines) => print_far_screen(alloc, rows, cols, lines, input, output),
        },
    }
}
