//! What a far terminal makes of a run's bytes, which reach it in pieces.

ghost use Rattle.std.specs.Prelude.{◌≡◌, Err, map, IfOk, IfSome, OnErr};
ghost use Rattle.std.specs.List.{list_any};
ghost use Rattle.termrelay.specs.Calls.{call_of};
ghost use Rattle.relay_theorem.specs.Isolation.{is_out_of_memory as out_of_memory};
ghost use Rattle.relay_streams.specs.Far.{HasRead, HasReadFirst, IsFarView, ShowsJudged};
ghost use Rattle.relay_streams.specs.Led.{Led};
ghost use Rattle.relay_streams.specs.Pieces.{cut_by};
ghost use Rattle.relay_streams.specs.Shown.{sized};
ghost use Rattle.relay_streams.specs.declared.error.RelayError.TheVariants.{Memory};

use crate::error::RelayError;
use std::alloc::Global;
use std::num::NonZeroU16;
use termrelay::runs::{Call, Log, Reply, Session, run};
use termrelay::{Hub, HubError};
use termview::laws::until_cleared_is_exact;
use termview::{UntilCleared, View};

/// What a far terminal makes of a session of a run.
///
/// The calls are made in order on a new hub of this size. A fresh view of the session's size is given the first
/// `take` bytes that were pumped to the session, or all if there are fewer. They come in pieces of the lengths
/// `cuts`, each cut to what is left, and then the rest. Returns `None` if the run began no such session. Refused
/// only for memory, also if a call of the run was.
///
/// The view shows what the program's bytes and the resizes had made when a frame was taken: the last one that lies
/// wholly in the bytes given. If there is no such frame, the view shows a blank screen. This holds (`shows`) unless
/// that frame's screen showed U+FE0F.
pub fn far_view(
    alloc: Global,
    rows: NonZeroU16,
    cols: NonZeroU16,
    calls: &[Call<'_>],
    session: usize,
    take: usize,
    cuts: &[usize],
) -> Result<Option<View<UntilCleared>>, RelayError>
    ensures view { IfOk result (λ found. IsFarView rows.value cols.value (map call_of calls.now) session take cuts.now
        found) }
    ensures shows { IfOk result (λ found. IfSome found (ShowsJudged rows.value cols.value (map call_of calls.now)
        session
        take)) }
    ensures memory { OnErr result (result ≡ Err Memory) }
{
    let mut hub = Hub::new(alloc, rows, cols)?;
    let mut log = Log::new(alloc);
    run(&mut hub, calls, &mut log)?;
    if ran_out_of_memory(log.replies()) {
        return Err(RelayError::Memory);
    }
    match log.sessions().get(session) {
        Some(session) => Ok(Some(view_session(alloc, session, take, cuts)?)),
        None => Ok(None),
    }
}

// Returns a fresh view of a session's size that was given the session's first bytes, in pieces of these lengths.
fn view_session(
    alloc: Global,
    session: &Session,
    most: usize,
    cuts: &[usize],
) -> Result<View<UntilCleared>, RelayError>
    ensures reads { IfOk result (HasReadFirst session.now most cuts.now) }
    ensures memory { OnErr result (result ≡ Err Memory) }
{
    let pumped = session.pumped();
    let given = &pumped[..most.min(pumped.len())];
    view_of(alloc, session.rows(), session.cols(), given, cuts)
}

// Whether there was no memory for one of the calls.
fn ran_out_of_memory(replies: &[Reply]) -> bool
    ensures { result ≡ list_any out_of_memory replies.now }
{
    for reply in replies {
        if is_out_of_memory(reply) {
            return true;
        }
    }
    false
}

fn is_out_of_memory(reply: &Reply) -> bool
    ensures { result ≡ out_of_memory reply.now }
{
    match reply {
        Reply::Refused(HubError::Memory) => true,
        Reply::Refused(HubError::Failed | HubError::UnknownClient | HubError::Write(_)) => false,
        Reply::Done | Reply::Attached(_) | Reply::Answered(_) | Reply::Redrawn(_) => false,
    }
}

/// A fresh view of this size that was given these bytes, in pieces of the lengths `cuts`, each cut to what is left, and
/// then the rest. It is refused only for memory.
pub fn view_of(
    alloc: Global,
    rows: NonZeroU16,
    cols: NonZeroU16,
    bytes: &[u8],
    cuts: &[usize],
) -> Result<View<UntilCleared>, RelayError>
    ensures reads { IfOk result (HasRead (sized rows.value cols.value) bytes.now cuts.now) }
    ensures memory { OnErr result (result ≡ Err Memory) }
{
    let mut view = View::new(alloc, rows, cols, UntilCleared::new())?;
    give_pieces(&mut view, bytes, cuts);
    Ok(view)
}

// Gives a view the bytes in these pieces, and then the rest.
fn give_pieces(view: &mut View<UntilCleared>, bytes: &[u8], cuts: &[usize])
    ensures { Led view.old (cut_by cuts.now bytes.now) view.new }
{
    // A law for the proof; it does nothing at run time.
    until_cleared_is_exact();
    let mut left = bytes;
    for cut in cuts {
        let (piece, rest) = left.split_at((*cut).min(left.len()));
        view.advance(piece);
        left = rest;
    }
    view.advance(left);
}
