//! What is reported of a fault.

ghost use Rattle.std.specs.Prelude.{◌≡◌, ◌++◌, codes};
ghost use Rattle.std.specs.Fmt.{decimal};
ghost use Rattle.recordings.specs.declared.error.RecordingError.TheVariants.{Packed};
ghost use Rattle.recordings.specs.Faults.{fault_text as recording_fault_text};
ghost use Rattle.screentext_command.specs.Command.{TellsFault, TellsInParts};
ghost use Rattle.screentext_command.specs.Faults.{fault_text, said_of};

use crate::error::TextError;
use crate::streams::tell;
use byte_streams::ByteSink;
use itoa::Buffer;
use recordings::{Packer, RecordingError};

/// Reports a fault in a line, for which no memory is needed.
pub(crate) fn tell_fault<V: ByteSink>(errors: &mut V, error: TextError)
    ensures { TellsFault V.takes errors.old error errors.new }
{
    tell_reason(errors, reason_of(error));
}

// What is reported: a text with a number in it, where there is one, and a text after these.
#[derive(Clone, Copy)]
struct Reason {
    before: &'static str,
    number: Option<u64>,
    after: &'static str,
    end: &'static str,
}

fn tell_reason<V: ByteSink>(errors: &mut V, reason: Reason)
    ensures { TellsInParts V.takes errors.old (codes "screentext: " ++ (said_of reason ++ codes "\n")) errors.new }
{
    let Reason {
        before,
        number,
        after,
        end,
    } = reason;
    match number {
        Some(number) => {
            let mut buffer = Buffer::new();
            let digits = buffer.format(number);
            tell(errors, &["screentext: ", before, digits, after, end, "\n"]);
        }
        None => tell(errors, &["screentext: ", before, after, end, "\n"]),
    }
}

fn reason_of(error: TextError) -> Reason
    ensures { said_of result ≡ fault_text error }
{
    match error {
        TextError::Read => plain("read"),
        TextError::Write => plain("write"),
        TextError::Memory => plain("memory"),
        TextError::File => plain("the timing file can't be read"),
        TextError::Marker => plain("no such time or marker; --list shows the markers"),
        TextError::Film => plain("the film has more than 8 MiB"),
        TextError::Late => plain("--from is later than the end of the film"),
        TextError::Player => plain("the page has more than 32 MiB"),
        TextError::Cells(most) => cells_reason(most as u64),
        TextError::Cut(error) => recording_reason(error, "; what comes before it is shown"),
        TextError::Guessed => {
            plain("it begins as an asciicast, but line 1 is no header: shown as raw bytes")
        }
        TextError::Recording(error) => recording_reason(error, ""),
    }
}

fn cells_reason(most: u64) -> Reason
    ensures { said_of result ≡ codes "a size in the recording has more than "
        ++ (decimal most ++ codes " cells: --max-cells N allows more") }
{
    numbered(
        "a size in the recording has more than ",
        most,
        " cells: --max-cells N allows more",
        "",
    )
}

// What is reported of a fault of a recording: the same words as in its own text, and a text after it.
fn recording_reason(error: RecordingError, end: &'static str) -> Reason
    ensures { said_of result ≡ recording_fault_text error ++ end.entry.now }
{
    match error {
        RecordingError::Memory => ended("memory", end),
        RecordingError::Header => ended("line 1: not a header of an asciicast", end),
        RecordingError::Line(line) => numbered("line ", line, ": not an event of asciicast", end),
        RecordingError::Byte(byte) => numbered("byte ", byte, ": not a frame of ttyrec", end),
        RecordingError::Step(line) => {
            let wanted = " of the timing file: not a step of the typescript";
            numbered("line ", line, wanted, end)
        }
        RecordingError::NoTiming => {
            ended("a typescript needs its timing file: --timing FILE", end)
        }
        RecordingError::Packed(packer) => ended(packed_reason(packer), end),
    }
}

fn packed_reason(packer: Packer) -> &'static str
    ensures { result.now ≡ recording_fault_text (Packed packer) }
{
    match packer {
        Packer::Gzip => "compressed by gzip: use `zcat FILE |`",
        Packer::Bzip2 => "compressed by bzip2: use `bzcat FILE |`",
        Packer::Xz => "compressed by xz: use `xzcat FILE |`",
        Packer::Zstd => "compressed by zstd: use `zstdcat FILE |`",
    }
}

fn plain(text: &'static str) -> Reason
    ensures { said_of result ≡ text.entry.now }
{
    ended(text, "")
}

fn ended(text: &'static str, end: &'static str) -> Reason
    ensures { said_of result ≡ text.entry.now ++ end.entry.now }
{
    Reason {
        before: text,
        number: None,
        after: "",
        end,
    }
}

fn numbered(before: &'static str, number: u64, after: &'static str, end: &'static str) -> Reason
    ensures { said_of result ≡ before.entry.now ++ (decimal number ++ (after.entry.now ++ end.entry.now)) }
{
    Reason {
        before,
        number: Some(number),
        after,
        end,
    }
}
