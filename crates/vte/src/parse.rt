//! Parsing bytes for a handler.
ghost use Rattle.std.specs.Prelude.{◌≡◌, ◌≤◌, ◌<◌, ◌++◌, ℕ, List, take, length, false, true};
ghost use Rattle.std.specs.List.{list_any};
ghost use Rattle.vte_core.specs.Standing.{IsAfter};
ghost use Rattle.vte_core.specs.Stopping.{asks_after};
ghost use Rattle.vte.specs.Performed.{PerformedAll};
ghost use Rattle.vte.specs.Table.{opens};
ghost use Rattle.vte.specs.Stretch.{added, opens_in};

use crate::performer::{Performer, ProcessorState};
use crate::timeout::Timeout;
use vte_core::{Parser, Perform};
use vte_types::handler::Handler;

/// Parses all bytes for a performer.
fn advance<T: Timeout, H: Handler>(
    parser: &mut Parser<1024>,
    performer: &mut Performer<'_, H, T>,
    bytes: &[u8],
)
    ensures same_handler { performer.new.handler.ghost_name ≡ performer.old.handler.ghost_name }
    ensures same_state { performer.new.state.ghost_name ≡ performer.old.state.ghost_name }
    ensures state_after { (past : List ℕ) → IsAfter 1024 parser.old past → IsAfter 1024 parser.new (past ++ bytes.now) }
    ensures performed { (past : List ℕ) → IsAfter 1024 parser.old past
        → PerformedAll H.step T.ticking (added past bytes.now)
        performer.old.handler.now performer.old.state.now performer.old.terminated
        performer.new.handler.now performer.new.state.now performer.new.terminated }
{
    parser.advance(performer, bytes);
}

/// Parses all bytes, and makes their calls on `handler`.
pub fn parse<T: Timeout, H: Handler>(
    parser: &mut Parser<1024>,
    state: &mut ProcessorState<T>,
    handler: &mut H,
    bytes: &[u8],
)
    ensures state_after { (past : List ℕ) → IsAfter 1024 parser.old past → IsAfter 1024 parser.new (past ++ bytes.now) }
    ensures performed { (past : List ℕ) → IsAfter 1024 parser.old past
        → PerformedAll H.step T.ticking (added past bytes.now)
        handler.old state.old false handler.new state.new (list_any opens (added past bytes.now)) }
{
    let mut performer = Performer {
        state,
        handler,
        terminated: false,
    };
    advance(parser, &mut performer, bytes);
}

/// Parses until the performer is terminated, or to the end. Returns how many bytes that was.
fn advance_until_terminated<T: Timeout, H: Handler>(
    parser: &mut Parser<1024>,
    performer: &mut Performer<'_, H, T>,
    bytes: &[u8],
) -> usize
    ensures within { result ≤ length bytes.now }
    ensures same_handler { performer.new.handler.ghost_name ≡ performer.old.handler.ghost_name }
    ensures same_state { performer.new.state.ghost_name ≡ performer.old.state.ghost_name }
    ensures state_after { (past : List ℕ) → IsAfter 1024 parser.old past
        → IsAfter 1024 parser.new (past ++ take result bytes.now) }
    ensures performed { (past : List ℕ) → IsAfter 1024 parser.old past
        → PerformedAll H.step T.ticking (added past (take result bytes.now))
        performer.old.handler.now performer.old.state.now performer.old.terminated
        performer.new.handler.now performer.new.state.now performer.new.terminated }
    ensures ended { result < length bytes.now → performer.new.terminated ≡ true }
    ensures some { performer.old.terminated ≡ false → performer.new.terminated ≡ true → 0 < result }
    ensures first { (past : List ℕ) → IsAfter 1024 parser.old past → performer.old.terminated ≡ false
        → (m : ℕ) → m < result → asks_after past bytes.now m ≡ true → opens_in past (take m bytes.now) ≡ false }
{
    parser.advance_until_terminated(performer, bytes)
}

/// Parses up to the byte that opens an update, or to the end. Returns how many bytes that was, and whether an update
/// was opened.
pub fn parse_until_opened<T: Timeout, H: Handler>(
    parser: &mut Parser<1024>,
    state: &mut ProcessorState<T>,
    handler: &mut H,
    bytes: &[u8],
) -> (usize, bool)
    ensures within { result.0 ≤ length bytes.now }
    ensures state_after { (past : List ℕ) → IsAfter 1024 parser.old past
        → IsAfter 1024 parser.new (past ++ take result.0 bytes.now) }
    ensures performed { (past : List ℕ) → IsAfter 1024 parser.old past
        → PerformedAll H.step T.ticking (added past (take result.0 bytes.now))
        handler.old state.old false handler.new state.new result.1 }
    ensures whole { result.1 ≡ false → result.0 ≡ length bytes.now }
    ensures some { result.1 ≡ true → 0 < result.0 }
    ensures first { (past : List ℕ) → IsAfter 1024 parser.old past
        → (m : ℕ) → m < result.0 → asks_after past bytes.now m ≡ true → opens_in past (take m bytes.now) ≡ false }
{
    let mut performer = Performer {
        state,
        handler,
        terminated: false,
    };
    let read = advance_until_terminated(parser, &mut performer, bytes);
    (read, performer.terminated)
}
