//! The processor: parses a terminal's input, and holds back synchronized updates.
ghost use Rattle.std.specs.Prelude.{◌≡◌, ◌≤◌, ◌<◌, ◌+◌, ◌-◌, ◌++◌, ℕ, List, [], Option, drop, length, vec_len};
ghost use Rattle.std.specs.Prelude.{vec_capacity, MatchOption, IfOk, IfSome};
ghost use Rattle.vte.specs.Hold.{Renewed};

use crate::csi::SYNC_UPDATE_TIMEOUT_MILLIS;
use crate::error::OutOfMemory;
use crate::marks::{END, START, first_mark, last_mark};
use crate::parse::{parse, parse_until_opened};
use crate::performer::ProcessorState;
use crate::timeout::Timeout;
use std::alloc::Allocator;
use std::time::Duration;
use vte_core::Parser;
use vte_types::handler::Handler;
use vte_types::mode::{NamedPrivateMode, PrivateMode};

/// The most bytes that are held.
const SYNC_BUFFER_SIZE: usize = 2_097_150;

/// Parses a terminal's input, and makes its calls on a handler. The bytes of a synchronized update (private mode 2026)
/// are held until it is closed, stopped or over its time.
#[derive(Drop)]
pub struct Processor<T, A: Allocator> {
    parser: Parser<1024>,
    state: ProcessorState<T>,
    held: Vec<u8, A>,
    ghost room: { 2_097_150 ≤ vec_capacity held },
    ghost bounded: { vec_len held ≤ 2_097_150 },
}

impl<T: Timeout + Drop, A: Allocator> Processor<T, A> {
    ghost use Rattle.vte.specs.Timeout.{IsExact, Awaits};
    ghost use Rattle.vte.specs.Hold.{limit, held_of};
    ghost use Rattle.vte_core.specs.Standing.{IsAfter};
    ghost use Rattle.vte.specs.Marks.{end_mark, NoneFrom};
    ghost use Rattle.vte.specs.Stretch.{last_of};
    ghost use Rattle.vte.specs.Standing.{timeout_of, IsStateAfter, HoldsAt, Advanced, Taken, Emptied, Held, Parsed};
    ghost use Rattle.vte.specs.Standing.{Begun, Unopened, GoesOn};
    ghost use Rattle.std.specs.Prelude.{None, Some, true, false, take};

    /// A processor that has read nothing. It reserves 2,097,150 bytes for held bytes, so that no later call needs
    /// memory. Fails only if that allocation fails.
    pub fn new(alloc: A, timeout: T) -> Result<Self, OutOfMemory>
        ensures state_after { IfOk result (λ p. IsStateAfter p [] []) }
        ensures exact { IfOk result (λ p. Awaits T.ticking timeout false → HoldsAt T.ticking p [] None) }
        ensures timeout { IfOk result (λ p. timeout_of p ≡ timeout) }
    {
        let held = Vec::with_capacity(alloc, SYNC_BUFFER_SIZE)?;
        Ok(Processor {
            parser: Parser::new(),
            state: ProcessorState {
                preceding_char: None,
                timeout,
            },
            held,
        })
    }

    /// The timeout that was given to `new`, as it is now.
    pub fn sync_timeout(&self) -> &T
        ensures { result.now ≡ timeout_of self.now }
    {
        &self.state.timeout
    }

    /// How many bytes are held, at most 2,097,150.
    pub fn sync_bytes_count(&self) -> usize
        ensures count { (parsed held : List ℕ) → IsStateAfter self.now parsed held → result ≡ length held }
        ensures most { result ≤ 2_097_150 }
    {
        self.held.len()
    }

    /// Reads the next piece of the stream. Held bytes are parsed before later ones. The hold is emptied first, as by
    /// `stop_sync`, if the piece doesn't fit, or if bytes are held and the timeout is no longer pending.
    pub fn advance<H: Handler>(&mut self, handler: &mut H, bytes: &[u8])
        ensures advanced { (parsed held : List ℕ) → IsStateAfter self.old parsed held
            → Advanced T.ticking H.step false self.old parsed held bytes.now handler.old self.new handler.new }
        ensures exact { (parsed : List ℕ) (hold : Option (List ℕ)) → IsExact T.ticking
            → HoldsAt T.ticking self.old parsed hold
            → Taken T.ticking H.step self.old parsed hold bytes.now handler.old self.new handler.new }
    {
        let mut rest = bytes;
        while let Some(read) = self.turn(handler, rest) {
            rest = past(rest, read);
        }
    }

    /// Parses all held bytes, closes the update (`unset_private_mode` of `SyncUpdate`), and clears the timeout.
    pub fn stop_sync<H: Handler>(&mut self, handler: &mut H)
        ensures emptied { (parsed held : List ℕ) → IsStateAfter self.old parsed held
            → Emptied T.ticking H.step self.old parsed held handler.old self.new handler.new }
        ensures exact { (parsed : List ℕ) (hold : Option (List ℕ)) → IsExact T.ticking
            → HoldsAt T.ticking self.old parsed hold
            → HoldsAt T.ticking self.new (parsed ++ held_of hold) None }
    {
        self.empty(handler);
    }

    /// Reads a piece up to the byte that opens an update, and returns how many bytes that was. Or reads all of it, and
    /// returns `None`.
    fn turn<H: Handler>(&mut self, handler: &mut H, piece: &[u8]) -> Option<usize>
        ensures led { (parsed held : List ℕ) → IsStateAfter self.old parsed held → MatchOption result
            (Advanced T.ticking H.step false self.old parsed held piece.now handler.old self.new
            handler.new)
            (λ n. GoesOn T.ticking H.step self.old parsed held piece.now (drop n piece.now) handler.old
            self.new handler.new) }
        ensures progress { IfSome result (λ n. (0 < n) × (n ≤ length piece.now)) }
    {
        if self.state.timeout.pending_timeout() {
            if piece.len() <= SYNC_BUFFER_SIZE - self.held.len() {
                self.hold(handler, piece);
                return None;
            }
        } else if self.held.is_empty() {
            return self.begin(handler, piece);
        }
        // The piece doesn't fit, or the update's time is over.
        self.empty(handler);
        self.begin(handler, piece)
    }

    /// Parses a piece while no update is open, up to the byte that opens one. Returns how many bytes that was, if one
    /// is opened.
    fn begin<H: Handler>(&mut self, handler: &mut H, piece: &[u8]) -> Option<usize>
        ensures led { (parsed held : List ℕ) → IsStateAfter self.old parsed held → MatchOption result
            (Unopened T.ticking H.step self.old parsed held piece.now handler.old self.new handler.new)
            (λ n. Begun T.ticking H.step self.old parsed held piece.now n handler.old self.new handler.new) }
        ensures progress { IfSome result (λ n. (0 < n) × (n ≤ length piece.now)) }
    {
        let (read, opened) = parse_until_opened(&mut self.parser, &mut self.state, handler, piece);
        if opened { Some(read) } else { None }
    }

    /// Reads a piece that fits into the hold, while an update is open.
    fn hold<H: Handler>(&mut self, handler: &mut H, piece: &[u8])
        requires { vec_len self.old.held + length piece.now < limit }
        ensures { (parsed held : List ℕ) → IsStateAfter self.old parsed held
            → Held T.ticking H.step self.old parsed held piece.now handler.old self.new handler.new }
    {
        // A mark may begin in the last 7 held bytes. One that began sooner would be whole in them.
        let seen = self.held.len().saturating_sub(START.len() - 1);
        take_in(&mut self.held, piece);
        renew(&mut self.state.timeout, self.held.as_slice(), seen);
        let Some(end) = last_mark(self.held.as_slice(), &END, seen) else {
            return;
        };
        match first_mark(self.held.as_slice(), &START, end + 1) {
            Some(start) => self.release(handler, start),
            None => self.empty(handler),
        }
    }

    /// Parses the first `n` held bytes, and keeps the rest.
    fn release<H: Handler>(&mut self, handler: &mut H, n: usize)
        requires { n ≤ vec_len self.old.held }
        ensures { (parsed held : List ℕ) → IsAfter 1024 self.old.parser parsed
            → self.old.state.preceding_char ≡ last_of parsed → self.old.held.items ≡ held → NoneFrom end_mark held n
            → Parsed T.ticking H.step self.old parsed (take n held) (drop n held) handler.old self.new
            handler.new }
    {
        parse(
            &mut self.parser,
            &mut self.state,
            handler,
            &self.held.as_slice()[..n],
        );
        drop_prefix(&mut self.held, n);
    }

    /// Parses all held bytes, and closes the update.
    fn empty<H: Handler>(&mut self, handler: &mut H)
        ensures { (parsed held : List ℕ) → IsAfter 1024 self.old.parser parsed
            → self.old.state.preceding_char ≡ last_of parsed → self.old.held.items ≡ held
            → Emptied T.ticking H.step self.old parsed held handler.old self.new handler.new }
    {
        parse(
            &mut self.parser,
            &mut self.state,
            handler,
            self.held.as_slice(),
        );
        self.held.clear();
        handler.unset_private_mode(PrivateMode::Named(NamedPrivateMode::SyncUpdate));
        self.state.timeout.clear_timeout();
    }
}

/// Sets the timeout again if a start mark begins at `seen` or later.
fn renew<T: Timeout>(timeout: &mut T, text: &[u8], seen: usize)
    requires { seen ≤ length text.now }
    ensures { Renewed T.ticking timeout.old text.now seen timeout.new }
{
    if let Some(_mark) = first_mark(text, &START, seen) {
        timeout.set_timeout(Duration::from_millis(SYNC_UPDATE_TIMEOUT_MILLIS));
    }
}

/// Appends bytes that fit into the capacity.
fn take_in<A: Allocator>(held: &mut Vec<u8, A>, piece: &[u8])
    requires { vec_len held.old + length piece.now ≤ vec_capacity held.old }
    ensures items { held.new.items ≡ held.old.items ++ piece.now }
    ensures capacity { vec_capacity held.old ≤ vec_capacity held.new }
{
    // It fits, and so can't be refused.
    let _ = held.extend_from_slice(piece);
}

/// Removes the first `n` bytes.
fn drop_prefix<A: Allocator>(held: &mut Vec<u8, A>, n: usize)
    requires { n ≤ vec_len held.old }
    ensures items { held.new.items ≡ drop n held.old.items }
    ensures capacity { vec_capacity held.new ≡ vec_capacity held.old }
{
    let left = held.len() - n;
    held.copy_within(n.., 0);
    held.truncate(left);
}

/// The bytes after the first `n`.
fn past(text: &[u8], n: usize) -> &[u8]
    requires { n ≤ length text.now }
    ensures { result.now ≡ drop n text.now }
{
    &text[n..]
}
