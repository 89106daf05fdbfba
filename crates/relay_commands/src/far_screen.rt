//! A program's screen, carried to a far terminal and printed there.

ghost use Rattle.std.specs.Prelude.{ℕ, [], List, Option, None, OnOk, IfSome};
ghost use Rattle.std.specs.List.{concat};
ghost use Rattle.std.specs.Io.KnownBytes.{Appends};
ghost use Rattle.terminal_model.specs.Term.{Shown};
ghost use Rattle.charset_filter.specs.Lines.{HasPassed};
ghost use Rattle.charset_filter.specs.declared.lines.LineDrawing.TheVariants.{Kept};
ghost use Rattle.relay_streams.specs.Turns.{Relaying};
ghost use Rattle.relay_commands.specs.Carried.{AppendsScreen, Carried, Carries, Follows, IsFarText, PrintsFar};
ghost use Rattle.relay_commands.specs.Ends.{from, onto};

use relay_streams::{
    FlushSink, LineDrawing, PieceFilter, RelayError, Source, TakesPieces, each_piece, farewell,
    is_overlong, print_view,
};
use std::alloc::Global;
use std::num::NonZeroU16;
use termrelay::{Client, Hub};
use termview::laws::until_cleared_is_exact;
use termview::{UntilCleared, View};

/// How many bytes of a frame reach the far terminal at a time: few, so that every form is cut somewhere.
const STEP: usize = 7;

/// Reads a program's output to its end, and writes the rows of the screen that it makes, as a far terminal of this size
/// shows them, with a newline each. Then the output is flushed.
///
/// Each piece first passes a [`PieceFilter`], which draws the line drawing set's characters or keeps the letters. At
/// the end of the input the program is gone, so what it left on is ended ([`farewell`]), a synchronized update too.
///
/// The rows that are written are those of the screen that the output makes, with its lines drawn or not (`shows`).
/// This holds unless that screen shows U+FE0F.
///
/// Full pieces of 4,096 bytes are read, by at most 2^40 reads; an interrupted read is tried again and counted. A frame
/// that would be longer than 2,097,150 bytes is a fault. Nothing is written before the input has ended. What was
/// written when a fault came stays written.
pub fn print_far_screen<S: Source, W: FlushSink>(
    alloc: Global,
    rows: NonZeroU16,
    cols: NonZeroU16,
    lines: LineDrawing,
    input: &mut S,
    output: &mut W,
) -> Result<(), RelayError>
    ensures prints { PrintsFar lines (from S.gives input.old input.new) (onto W.takes output.old output.new) W.flushes
        rows.value cols.value result }
    ensures text { OnOk result (IfSome (S.left input.old) (λ bytes. (text : List ℕ)
        × IsFarText lines rows.value cols.value bytes text
        × Appends (W.contents output.old) (W.contents output.new) text)) }
    ensures shows { OnOk result (IfSome (S.left input.old) (λ bytes.
        AppendsScreen lines rows.value cols.value bytes (W.contents output.old) (W.contents output.new))) }
{
    let mut hub = Hub::new(alloc, rows, cols)?;
    let client = hub.attach()?;
    let mut view = View::new(alloc, rows, cols, UntilCleared::new())?;
    let filter = PieceFilter::new(alloc, lines);
    carry_frames(
        FilteredHub {
            alloc,
            filter,
            hub,
            client,
        },
        input,
        &mut view,
    )?;
    print_view(&view, output)
}

/// A hub with one client, and a filter that its input passes first.
#[derive(Drop)]
struct FilteredHub {
    alloc: Global,
    filter: PieceFilter,
    hub: Hub,
    client: Client,
}

// Reads the whole input in full pieces, and brings the view the frame that is due after each. At its end the farewell
// is fed, and the view gets the frame that is then due.
fn carry_frames<S: Source>(
    mut relay: FilteredHub,
    input: &mut S,
    view: &mut View<UntilCleared>,
) -> Result<(), RelayError>
    ensures { (rows cols : ℕ) (lines : LineDrawing) → Relaying rows cols [] None relay.hub relay.client
        → HasPassed relay.filter lines [] → (frames : List (List ℕ))
        × Follows lines S.gives rows cols input.old frames result input.new
        × OnOk result (Carries view.old (concat frames) view.new) }
{
    each_piece(input, &mut relay, view)?;
    relay.take_piece(farewell(), view)
}

impl TakesPieces<View<UntilCleared>> for FilteredHub {
    ghost use Rattle.relay_commands.specs.Carried.{CarriesPiece};

    ghost step = { CarriesPiece };

    // The piece passes the filter, and the view gets the frame that is then due.
    fn take_piece(
        &mut self,
        piece: &[u8],
        view: &mut View<UntilCleared>,
    ) -> Result<(), RelayError> {
        self.filter.pass(piece)?;
        carry_frame(
            self.alloc,
            &mut self.hub,
            self.client,
            self.filter.given(piece),
            view,
        )
    }
}

// Feeds a piece to the hub, and brings the view the client's frame that is then due.
fn carry_frame(
    alloc: Global,
    hub: &mut Hub,
    client: Client,
    piece: &[u8],
    view: &mut View<UntilCleared>,
) -> Result<(), RelayError>
    ensures { (rows cols : ℕ) (past : List (List ℕ)) (base : Option Shown)
        → Relaying rows cols past base hub.old client
        → Carried Kept rows cols past piece.now base client view.old result view.new hub.new }
{
    hub.feed(piece)?;
    let answer = hub.frame(client)?;
    if is_overlong(answer) {
        return Err(RelayError::FrameTooLong);
    }
    let mut line = Vec::new(alloc);
    match hub.pump(client, &mut line) {
        Ok(()) => {
            read_line(view, &line);
            Ok(())
        }
        // A line in memory takes whatever it finds room for.
        Err(_) => Err(RelayError::Memory),
    }
}

// Gives the view what comes over a line, a few bytes at a time.
fn read_line(view: &mut View<UntilCleared>, line: &[u8])
    ensures { Carries view.old line.now view.new }
{
    // A law for the proof; it does nothing at run time.
    until_cleared_is_exact();
    for bytes in line.chunks(STEP) {
        view.advance(bytes);
    }
}
