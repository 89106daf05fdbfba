//! The command line.

ghost use Rattle.std.specs.Prelude.{◌≡◌, ◌≤◌, ◌⊎◌, map, true, false, List};
ghost use Rattle.clap.specs.Words.{Text};
ghost use Rattle.screentext_command.specs.Asked.{AskFor, IsMeant, origin_of, wish_of};
ghost use Rattle.screentext_command.specs.Command.{CarriesOut, Does, Reports, TellsFault};
ghost use Rattle.screentext_command.specs.Misuse.{TellsMisuse};
ghost use Rattle.screentext_command.specs.Words.{is_invocation};
ghost use Rattle.screentext_command.specs.declared.error.TextError.TheVariants.{Memory};

use crate::error::TextError;
use crate::files::{Files, NoFiles};
use crate::help::{HELP, VERSION};
use crate::misuse::tell_misuse;
use crate::pictures::Pictures;
use crate::reading::answer_to;
use crate::reasons::tell_fault;
use crate::source::Source as Asked;
use crate::streams::print;
use crate::words::{Invocation, Request, parse};
use byte_streams::{ByteSink, FlushSink, Source};
use command_line::{FAULT, SUCCESS, USAGE, read_all};
use std::alloc::Global;

/// The status where only a part of the recording was read.
const PARTLY_READ: u8 = 3;

/// Runs the program where no file can be read: [`command_with`] without a timing file.
pub fn command<R: Source, W: FlushSink, V: ByteSink>(
    alloc: Global,
    words: &[&str],
    input: &mut R,
    output: &mut W,
    errors: &mut V,
) -> u8
    ensures refused { is_invocation (map (λ w. w.now) words.now) ≡ false → (input.new ≡ input.old)
        × (output.new ≡ output.old) × ((result ≡ 2)
        ⊎ ((result ≡ 1) × TellsFault V.takes errors.old Memory errors.new)) }
    ensures does { is_invocation (map (λ w. w.now) words.now) ≡ true → CarriesOut (λ path bytes. ⊥)
        (λ path. Unit {0}) (map (λ w. w.now) words.now) R.gives W.takes W.flushes V.takes input.old output.old
        errors.old result input.new output.new errors.new }
    ensures understood { is_invocation (map (λ w. w.now) words.now) ≡ true → (result ≤ 1) ⊎ (result ≡ 3) }

    // Whatever the arguments are:
    ensures usage { result ≡ 2 → (input.new ≡ input.old) × (output.new ≡ output.old)
        × TellsMisuse V.takes (map (λ w. w.now) words.now) errors.old errors.new }
    ensures done { result ≡ 0 → errors.new ≡ errors.old }
    ensures status { result ≤ 3 }
{
    command_with(alloc, words, &NoFiles, input, output, errors)
}

/// Runs the program on the arguments after its name, and returns its exit status.
///
/// A fault is reported in a line on `errors`. So is the reason why only a part of the recording was read, with
/// status 3. A line there says what is wrong with arguments that aren't understood. Then nothing is read or written.
/// If an allocation fails before that is known, it is a fault instead. Such a line is written whole, unless a write
/// of it fails or takes nothing. That changes nothing else.
pub fn command_with<F: Files, R: Source, W: FlushSink, V: ByteSink>(
    alloc: Global,
    words: &[&str],
    files: &F,
    input: &mut R,
    output: &mut W,
    errors: &mut V,
) -> u8
    ensures refused { is_invocation (map (λ w. w.now) words.now) ≡ false → (input.new ≡ input.old)
        × (output.new ≡ output.old) × ((result ≡ 2)
        ⊎ ((result ≡ 1) × TellsFault V.takes errors.old Memory errors.new)) }
    ensures does { is_invocation (map (λ w. w.now) words.now) ≡ true → CarriesOut (F.holds files.now)
        (F.lacks files.now) (map (λ w. w.now) words.now) R.gives W.takes W.flushes V.takes input.old output.old
        errors.old result input.new output.new errors.new }
    ensures understood { is_invocation (map (λ w. w.now) words.now) ≡ true → (result ≤ 1) ⊎ (result ≡ 3) }

    // Whatever the arguments are:
    ensures usage { result ≡ 2 → (input.new ≡ input.old) × (output.new ≡ output.old)
        × TellsMisuse V.takes (map (λ w. w.now) words.now) errors.old errors.new }
    ensures done { result ≡ 0 → errors.new ≡ errors.old }
    ensures status { result ≤ 3 }
{
    match parse(alloc, words) {
        Ok(Some(invocation)) => {
            let answer = obey(alloc, files, invocation, input, output);
            report_answer(errors, answer)
        }
        Ok(None) => match tell_misuse(alloc, words, errors) {
            Ok(()) => USAGE,
            Err(error) => report_fault(errors, error),
        },
        Err(error) => report_fault(errors, error),
    }
}

// Reports the fault or the remark that a result has, if any, and returns its exit status.
fn report_answer<V: ByteSink>(errors: &mut V, answer: Result<Option<TextError>, TextError>) -> u8
    ensures reports { Reports V.takes errors.old answer result errors.new }
    ensures status { (result ≤ 1) ⊎ (result ≡ 3) }
    ensures done { result ≡ 0 → errors.new ≡ errors.old }
{
    match answer {
        Ok(None) => SUCCESS,
        Ok(Some(note)) => {
            report_fault(errors, note);
            PARTLY_READ
        }
        Err(error) => report_fault(errors, error),
    }
}

/// Reports a fault in a line on `errors`, and returns its exit status.
pub fn report_fault<V: ByteSink>(errors: &mut V, error: TextError) -> u8
    ensures status { result ≡ 1 }
    ensures reports { TellsFault V.takes errors.old error errors.new }
{
    tell_fault(errors, error);
    FAULT
}

// Does what the arguments ask for.
fn obey<F: Files, R: Source, W: FlushSink>(
    alloc: Global,
    files: &F,
    invocation: Invocation,
    input: &mut R,
    output: &mut W,
) -> Result<Option<TextError>, TextError>
    ensures { (words : List Text) → IsMeant words invocation → Does (F.holds files.now) (F.lacks files.now) words
        R.gives W.takes W.flushes input.old output.old result input.new output.new }
{
    match invocation {
        Invocation::Help => print(output, HELP, None),
        Invocation::Version => print(output, VERSION, None),
        Invocation::Print(request, source, pictures) => {
            print_answer(alloc, files, (request, source, pictures), input, output)
        }
    }
}

// Reads the input to its end, and prints the text of it that is asked for.
fn print_answer<F: Files, R: Source, W: FlushSink>(
    alloc: Global,
    files: &F,
    asked: (Request, Asked, Pictures),
    input: &mut R,
    output: &mut W,
) -> Result<Option<TextError>, TextError>
    ensures { (words : List Text) → AskFor words (origin_of asked.1) (wish_of asked.0 asked.2) → Does
        (F.holds files.now) (F.lacks files.now) words R.gives W.takes W.flushes input.old output.old result input.new
        output.new }
{
    let (request, source, pictures) = asked;
    let bytes = read_all(alloc, input)?;
    let answer = answer_to(alloc, files, bytes, request, &source, &pictures)?;
    print(output, &answer.text, answer.note)
}
