//! A program's output as frames of its screen.

ghost use Rattle.std.specs.Prelude.{◌≡◌, ℕ, [], List, true, Err, None, OnOk, Option, IfSome};
ghost use Rattle.std.specs.Io.KnownBytes.{Appends};
ghost use Rattle.terminal_model.specs.Term.{Shown};
ghost use Rattle.byte_streams.specs.Output.{TakesPrefix};
ghost use Rattle.relay_theorem.specs.History.{Story};
ghost use Rattle.relay_streams.specs.Frames.{is_overlong as overlong};
ghost use Rattle.relay_streams.specs.Pieces.{pieces_of};
ghost use Rattle.relay_streams.specs.Relayed.{Relays, Streams};
ghost use Rattle.relay_streams.specs.Sessions.{IsRelayed, IsRelayText, has_overlong};
ghost use Rattle.relay_streams.specs.Turns.{Relaying, Turned};
ghost use Rattle.relay_streams.specs.declared.error.RelayError.TheVariants.{FrameTooLong};

use crate::error::RelayError;
use crate::pieces::{TakesPieces, each_piece};
use byte_streams::{FlushSink, Source};
use std::alloc::Global;
use std::num::NonZeroU16;
use termrelay::{Answer, Client, Hub};

/// Reads a program's output to its end, and writes frames of the screen of this size that it makes: after each full
/// piece of 4,096 bytes, and at the end, the frame that is then due, if there is one. Then the output is flushed. The
/// output equals the bytes that a hub sends to a client that attaches before the first piece and asks for a frame after
/// each.
///
/// No frame is due while the program is in a synchronized update of its own. A frame that would be longer than
/// 2,097,150 bytes is a fault, [`RelayError::FrameTooLong`], and nothing of it is written.
///
/// Pieces are full however the reader cuts, and are read by at most 2^40 reads; an interrupted read is tried again and
/// counted. A fault ends it. What was written by then stays written.
pub fn relay<S: Source, W: FlushSink>(
    alloc: Global,
    rows: NonZeroU16,
    cols: NonZeroU16,
    input: &mut S,
    output: &mut W,
) -> Result<(), RelayError>
    ensures relays { Relays S.gives W.takes W.flushes rows.value cols.value input.old output.old result input.new
        output.new }
    ensures text { OnOk result (IfSome (S.left input.old) (λ bytes. (text : List ℕ)
        × IsRelayText rows.value cols.value bytes text
        × Appends (W.contents output.old) (W.contents output.new) text)) }
    ensures prefix { IfSome (S.left input.old) (λ bytes. (key : ℕ) (t : Story)
        → IsRelayed rows.value cols.value key (pieces_of bytes) t
        → TakesPrefix (W.contents output.old) (W.contents output.new) t.session.pumped) }
    ensures too_long { result ≡ Err FrameTooLong → IfSome (S.left input.old) (λ bytes. (key : ℕ) (t : Story)
        → IsRelayed rows.value cols.value key (pieces_of bytes) t → has_overlong t ≡ true) }
{
    let mut hub = Hub::new(alloc, rows, cols)?;
    let client = hub.attach()?;
    relay_pieces(hub, client, input, output)?;
    match output.finish() {
        Ok(()) => Ok(()),
        Err(_) => Err(RelayError::Write),
    }
}

// Reads the whole input in full pieces, and makes a turn with each.
fn relay_pieces<S: Source, W: FlushSink>(
    hub: Hub,
    client: Client,
    input: &mut S,
    output: &mut W,
) -> Result<(), RelayError>
    ensures { (rows cols : ℕ) → Relaying rows cols [] None hub client
        → Streams S.gives W.takes rows cols input.old output.old result input.new output.new }
{
    each_piece(input, &mut OneClientHub { hub, client }, output)
}

/// A hub with one client, which is sent the frame that is due after each piece.
#[derive(Drop)]
struct OneClientHub {
    hub: Hub,
    client: Client,
}

impl<W: FlushSink> TakesPieces<W> for OneClientHub {
    ghost use Rattle.relay_streams.specs.Turns.{TakesTurn};

    ghost step = { TakesTurn W.takes };

    fn take_piece(&mut self, piece: &[u8], output: &mut W) -> Result<(), RelayError> {
        turn(&mut self.hub, self.client, piece, output)
    }
}

// Feeds a piece, and sends the frame that is then due.
pub(crate) fn turn<W: FlushSink>(
    hub: &mut Hub,
    client: Client,
    piece: &[u8],
    output: &mut W,
) -> Result<(), RelayError>
    ensures { (rows cols : ℕ) (past : List (List ℕ)) (base : Option Shown)
        → Relaying rows cols past base hub.old client
        → Turned W.takes rows cols past piece.now base client output.old result output.new hub.new }
{
    hub.feed(piece)?;
    let answer = hub.frame(client)?;
    if is_overlong(answer) {
        return Err(RelayError::FrameTooLong);
    }
    hub.pump(client, output)?;
    Ok(())
}

/// Whether a client that asked for a frame gets none because it would be too long.
pub fn is_overlong(answer: Answer) -> bool
    ensures { result ≡ overlong answer }
{
    match answer {
        Answer::TooLong => true,
        Answer::Full | Answer::Difference | Answer::Unsure => false,
        Answer::Unchanged | Answer::Behind | Answer::Held => false,
    }
}
