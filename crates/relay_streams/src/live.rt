//! A live program's output as frames of its screen, each as soon as it is due.

ghost use Rattle.std.specs.Prelude.{◌≡◌, ◌≤◌, ◌++◌, ℕ, List, [], None, Option, OnOk, IfSome, length};
ghost use Rattle.std.specs.Io.KnownBytes.{Appends};
ghost use Rattle.relay_streams.specs.Fill.{max_reads};
ghost use Rattle.charset_filter.specs.Lines.{HasPassed, passed};
ghost use Rattle.terminal_model.specs.Term.{Shown};
ghost use Rattle.relay_streams.specs.Live.{IsLiveText, PassedOn, PassedPart, RelaysLive, RelaysThrough, StreamsThrough};
ghost use Rattle.relay_streams.specs.Live.{TakesLive, TriesOnce, farewell};
ghost use Rattle.relay_streams.specs.Turns.{Relaying};

use crate::error::RelayError;
use crate::filling::MAX_READS;
use crate::relaying::turn;
use crate::updates::UpdateEnds;
use byte_streams::{FlushSink, Source};
use charset_filter::{LineDrawing, PieceFilter};
use std::alloc::Global;
use std::io::ErrorKind;
use std::num::NonZeroU16;
use termrelay::{Client, Hub};

/// The size of the buffer of one read of a live input, in bytes.
pub const LIVE_LEN: usize = 65_536;

/// Reads a program's output to its end. After each read that gives something, it writes the frame that is then due,
/// if there is one, and flushes. If a synchronized update of the program's own ended in what was read, the frame that
/// is due at the last end is written first. So an update is shown even if the next one begins in the same read. The
/// output equals the bytes that a hub sends to a client that attaches before the first read, and asks for a frame at
/// each of these places.
///
/// The buffer of a read has 65,536 bytes, so the output of a fast program is gathered while a write waits. No frame
/// is due while an update is open. At the end of the input the program is gone, so what it left on is ended
/// ([`farewell`]), and the frame that is then due is written. A frame that would be longer than 2,097,150 bytes is a
/// fault, [`RelayError::FrameTooLong`], and nothing of it is written.
///
/// At most 2^40 reads are made; an interrupted one is tried again and counted. A fault ends the relay. What was
/// written by then stays written.
pub fn relay_live<S: Source, W: FlushSink>(
    alloc: Global,
    rows: NonZeroU16,
    cols: NonZeroU16,
    input: &mut S,
    output: &mut W,
) -> Result<(), RelayError>
    ensures relays { RelaysLive S.gives W.takes W.flushes rows.value cols.value input.old output.old result input.new
        output.new }
    ensures text { OnOk result (IfSome (S.left input.old) (λ bytes. (text : List ℕ)
        × IsLiveText rows.value cols.value (bytes ++ farewell) text
        × Appends (W.contents output.old) (W.contents output.new) text)) }
    ensures prefix { IfSome (S.left input.old) (λ bytes.
        TakesLive rows.value cols.value (bytes ++ farewell) (W.contents output.old) (W.contents output.new)) }
{
    relay_live_with(alloc, rows, cols, LineDrawing::Kept, input, output)
}

/// Does what [`relay_live`] does, but each piece first passes a [`PieceFilter`]. With [`LineDrawing::Kept`] pieces
/// pass unchanged. With [`LineDrawing::Drawn`] the output is what [`relay_live`] writes for the bytes that
/// `charset_filter` gives. Each read still brings a frame at once.
///
/// A filtered piece has up to eight times as many bytes as were read, and 512 more.
pub fn relay_live_with<S: Source, W: FlushSink>(
    alloc: Global,
    rows: NonZeroU16,
    cols: NonZeroU16,
    lines: LineDrawing,
    input: &mut S,
    output: &mut W,
) -> Result<(), RelayError>
    ensures relays { RelaysThrough lines S.gives W.takes W.flushes rows.value cols.value input.old output.old result
        input.new output.new }
    ensures text { OnOk result (IfSome (S.left input.old) (λ bytes. (text : List ℕ)
        × IsLiveText rows.value cols.value (passed lines [] (bytes ++ farewell)) text
        × Appends (W.contents output.old) (W.contents output.new) text)) }
    ensures prefix { IfSome (S.left input.old) (λ bytes.
        TakesLive rows.value cols.value (passed lines [] (bytes ++ farewell)) (W.contents output.old)
        (W.contents output.new)) }
{
    let mut hub = Hub::new(alloc, rows, cols)?;
    let client = hub.attach()?;
    let mut filter = PieceFilter::new(alloc, lines);
    relay_reads(&mut hub, client, &mut filter, input, output)
}

// Reads the whole input. The bytes of each read are passed on up to the last end of an update in them, and then the
// rest. At the end the farewell is passed on.
fn relay_reads<S: Source, W: FlushSink>(
    hub: &mut Hub,
    client: Client,
    filter: &mut PieceFilter,
    input: &mut S,
    output: &mut W,
) -> Result<(), RelayError>
    ensures { (rows cols : ℕ) (lines : LineDrawing) → Relaying rows cols [] None hub.old client
        → HasPassed filter.old lines []
        → StreamsThrough lines S.gives W.takes W.flushes rows cols input.old output.old result input.new output.new }
{
    let mut ends = UpdateEnds::new();
    let mut piece = [0; LIVE_LEN];
    let mut reads = 0;
    // The label names the loop's invariant.
    'reads: loop {
        let n = read_some(input, &mut piece, &mut reads)?;
        if n == 0 {
            return pass_on(hub, client, filter, farewell(), output);
        }
        let end = ends.last_end(&piece[..n]);
        let (ended, rest) = piece[..n].split_at(end);
        pass_part(hub, client, filter, ended, output)?;
        pass_part(hub, client, filter, rest, output)?;
    }
}

/// The bytes that end all that a program may have left on.
pub const FAREWELL: &[u8] =
    b"\x1b[?9;1000;1002;1003;1005;1006;2004;1l\x1b>\x1b[?25h\x1b[0 q\x1b[?2026l";

/// The bytes that end all that a program may have left on: mouse reports, bracketed paste, application keys and
/// keypad, a hidden cursor and its style, and a synchronized update. The law `farewell_ends_all` says that they do.
pub fn farewell() -> &'static [u8]
    ensures { result.now ≡ farewell }
{
    FAREWELL
}

// Passes a part of a piece on, unless it is empty.
fn pass_part<W: FlushSink>(
    hub: &mut Hub,
    client: Client,
    filter: &mut PieceFilter,
    part: &[u8],
    output: &mut W,
) -> Result<(), RelayError>
    ensures sent { (rows cols : ℕ) (lines : LineDrawing) (past : List ℕ) (fed : List (List ℕ)) (base : Option Shown)
        → Relaying rows cols fed base hub.old client → HasPassed filter.old lines past
        → PassedPart lines W.takes W.flushes rows cols fed past part.now base client output.old hub.old result
        output.new hub.new }
    ensures passed { OnOk result ((lines : LineDrawing) (past : List ℕ) → HasPassed filter.old lines past
        → HasPassed filter.new lines (past ++ part.now)) }
{
    if part.is_empty() {
        return Ok(());
    }
    pass_on(hub, client, filter, part, output)
}

// Passes a piece through the filter, feeds the result, sends the frame that is then due, and flushes the writer.
fn pass_on<W: FlushSink>(
    hub: &mut Hub,
    client: Client,
    filter: &mut PieceFilter,
    piece: &[u8],
    output: &mut W,
) -> Result<(), RelayError>
    ensures sent { (rows cols : ℕ) (lines : LineDrawing) (past : List ℕ) (fed : List (List ℕ)) (base : Option Shown)
        → Relaying rows cols fed base hub.old client → HasPassed filter.old lines past
        → PassedOn lines W.takes W.flushes rows cols fed (passed lines past piece.now) base client output.old result
        output.new hub.new }
    ensures passed { OnOk result ((lines : LineDrawing) (past : List ℕ) → HasPassed filter.old lines past
        → HasPassed filter.new lines (past ++ piece.now)) }
{
    filter.pass(piece)?;
    turn(hub, client, filter.given(piece), output)?;
    match output.finish() {
        Ok(()) => Ok(()),
        Err(_) => Err(RelayError::Write),
    }
}

// Makes one read that isn't interrupted. `reads` counts all reads, also those made before.
fn read_some<S: Source>(
    input: &mut S,
    room: &mut [u8],
    reads: &mut u64,
) -> Result<usize, RelayError>
    requires { reads.old ≤ max_reads }
    ensures { TriesOnce S.gives input.old (length room.old) reads.old result input.new room.new reads.new }
{
    // The label names the loop's invariant.
    'reading: while *reads < MAX_READS {
        *reads += 1;
        match input.give(room) {
            Ok(n) => return Ok(n),
            Err(error) => {
                if error.kind() != ErrorKind::Interrupted {
                    return Err(RelayError::Read);
                }
            }
        }
    }
    Err(RelayError::TooManyReads)
}
