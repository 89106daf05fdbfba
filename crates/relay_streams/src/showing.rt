//! A relayed stream as text.

ghost use Rattle.std.specs.Prelude.{◌≡◌, ℕ, List, OnOk, IfSome};
ghost use Rattle.std.specs.Io.KnownBytes.{Appends};
ghost use Rattle.byte_streams.specs.Output.{TakesPrefix};
ghost use Rattle.byte_streams.specs.Sent.{SendsText};
ghost use Rattle.termview.specs.Standing.{shown_by, view_size};
ghost use Rattle.relay_streams.specs.Led.{Led};
ghost use Rattle.relay_streams.specs.Pieces.{Drained, piece_len, pieces_of};
ghost use Rattle.relay_streams.specs.Shown.{IsTextShown, Prints, Shows, row_line, screen_text, sized};

use crate::error::RelayError;
use crate::pieces::{TakesPieces, each_piece};
use byte_streams::{ByteSink, FlushSink, Source, pump};
use std::alloc::Global;
use std::io;
use std::num::NonZeroU16;
use termview::laws::until_cleared_is_exact;
use termview::{UntilCleared, View};

/// Reads a relayed stream to its end, and writes the text of each row of what a far terminal of this size shows of it,
/// with a newline each. Then the output is flushed. An update that isn't closed at the end is held back, and so isn't
/// shown.
///
/// The input is read in full pieces of 4,096 bytes, by at most 2^40 reads; an interrupted read is tried again and
/// counted. A fault ends it. What was written by then stays written, and nothing is written before the input has ended.
pub fn show<S: Source, W: FlushSink>(
    alloc: Global,
    rows: NonZeroU16,
    cols: NonZeroU16,
    input: &mut S,
    output: &mut W,
) -> Result<(), RelayError>
    ensures shows { Shows S.gives W.takes W.flushes (sized rows.value cols.value) input.old output.old result input.new
        output.new }
    ensures text { OnOk result (IfSome (S.left input.old) (λ bytes. (text : List ℕ)
        × IsTextShown (sized rows.value cols.value) (pieces_of bytes) text
        × Appends (W.contents output.old) (W.contents output.new) text)) }
    ensures prefix { IfSome (S.left input.old) (λ bytes. (text : List ℕ)
        → IsTextShown (sized rows.value cols.value) (pieces_of bytes) text
        → TakesPrefix (W.contents output.old) (W.contents output.new) text) }
{
    let mut view = View::new(alloc, rows, cols, UntilCleared::new())?;
    read_view(&mut view, input)?;
    print_view(&view, output)
}

// Gives the view the whole input, in full pieces and then the rest.
fn read_view<S: Source>(view: &mut View<UntilCleared>, input: &mut S) -> Result<(), RelayError>
    ensures { (pieces : List (List ℕ)) × Drained S.gives piece_len input.old pieces result input.new
        × OnOk result (Led view.old pieces view.new) }
{
    each_piece(input, &mut Unchanged, view)
}

/// Passes pieces to a view unchanged.
#[derive(Clone, Copy)]
struct Unchanged;

impl TakesPieces<View<UntilCleared>> for Unchanged {
    ghost use Rattle.relay_streams.specs.Led.{GivesPiece};

    ghost step = { λ _ view piece answer _ new. GivesPiece view piece answer new };

    fn take_piece(
        &mut self,
        piece: &[u8],
        view: &mut View<UntilCleared>,
    ) -> Result<(), RelayError> {
        // A law for the proof; it does nothing at run time.
        until_cleared_is_exact();
        view.advance(piece);
        Ok(())
    }
}

/// Writes the text of each row of what the view shows, with a newline each, and flushes the output. A write that fails
/// or takes nothing ends it, and what was taken by then stays written.
pub fn print_view<W: FlushSink>(view: &View<UntilCleared>, output: &mut W) -> Result<(), RelayError>
    ensures { Prints W.takes W.flushes output.old (screen_text (view_size view.now) (shown_by view.now).cell) result
        output.new }
{
    match write_view(view, output) {
        Ok(()) => (),
        Err(_) => return Err(RelayError::Write),
    }
    match output.finish() {
        Ok(()) => Ok(()),
        Err(_) => Err(RelayError::Write),
    }
}

/// Writes the text of each row of what the view shows, and a newline after it. Any fault of a write ends it, and so
/// does a write that takes nothing; what was taken by then stays written.
pub fn write_view<T: ByteSink>(view: &View<UntilCleared>, output: &mut T) -> io::Result<()>
    ensures { SendsText T.takes output.old (screen_text (view_size view.now) (shown_by view.now).cell) result
        output.new }
{
    let (rows, _) = view.size();
    for row in 0..rows.get() {
        write_row(view, row, output)?;
    }
    Ok(())
}

// Writes the text of a row and a newline.
fn write_row<T: ByteSink>(view: &View<UntilCleared>, row: u16, output: &mut T) -> io::Result<()>
    ensures { SendsText T.takes output.old (row_line (view_size view.now) (shown_by view.now).cell row) result
        output.new }
{
    view.row_text(row, output)?;
    pump(b"\n", output).1
}
