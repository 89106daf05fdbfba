//! Where a program's synchronized updates end.

ghost use Rattle.std.specs.Prelude.{◌≡◌, ◌≤◌, ℕ, List, [], ◌++◌, length};
ghost use Rattle.std.specs.List.{list_any};
ghost use Rattle.vte_core.specs.EventOf.{event_of};
ghost use Rattle.relay_streams.specs.Updates as specs;
ghost use Rattle.relay_streams.specs.Updates.{HasSearched, is_update_mode, last_end};

use vte_core::{Event, Params, Parser, Perform};

/// Finds the ends of a program's synchronized updates in its output, which comes in pieces.
#[derive(Drop)]
pub struct UpdateEnds {
    parser: Parser<1024>,
}

impl UpdateEnds {
    /// A search that begins with the first byte of an output.
    pub fn new() -> Self
        ensures { HasSearched result [] }
    {
        UpdateEnds {
            parser: Parser::new(),
        }
    }

    /// Searches the next bytes, and returns how many of them there are up to the last end of an update, or 0 if no
    /// update ends in them. An end is found wherever its sequence is cut into pieces.
    pub fn last_end(&mut self, bytes: &[u8]) -> usize
        ensures searched { (past : List ℕ) → HasSearched self.old past → HasSearched self.new (past ++ bytes.now) }
        ensures within { result ≤ length bytes.now }
        ensures end { (past : List ℕ) → HasSearched self.old past → result ≡ last_end past bytes.now }
    {
        let mut end = 0;
        let mut read = 0;
        while read < bytes.len() {
            let mut seen = EndSeen { ended: false };
            read += self
                .parser
                .advance_until_terminated(&mut seen, &bytes[read..]);
            if seen.ended {
                end = read;
            }
        }
        end
    }
}

/// Whether an update has ended. The parser stops there.
#[derive(Drop)]
struct EndSeen {
    ended: bool,
}

impl Perform for EndSeen {
    ghost use Rattle.std.specs.Prelude.{◌≡◌, ◌||◌};
    ghost use Rattle.relay_streams.specs.Updates.{ends_update};

    ghost step = { λ p e q. q.ended ≡ (p.ended || ends_update e) };

    ghost is_terminated = { λ p. p.ended };

    fn event(&mut self, event: Event<'_>) {
        if ends_update(event) {
            self.ended = true;
        }
    }

    fn terminated(&self) -> bool {
        self.ended
    }

    // Characters and controls end nothing, so runs of them are passed over.
    fn print_str(&mut self, _text: &str) {}

    fn print_ascii(&mut self, _text: &str) {}

    fn execute_all(&mut self, _controls: &[u8]) {}
}

// Whether an event ends an update: private mode 2026 is reset, or the whole terminal is.
fn ends_update(event: Event<'_>) -> bool
    ensures { result ≡ specs.ends_update (event_of event.entry) }
{
    match event {
        Event::CsiDispatch {
            params,
            intermediates,
            action,
            ..
        } => match (intermediates, action) {
            ([b'?', ..], 'l') => has_update_mode(params),
            _ => false,
        },
        Event::EscDispatch {
            intermediates,
            byte,
            ..
        } => intermediates.is_empty() && byte == b'c',
        _ => false,
    }
}

// Whether private mode 2026 is among the parameters.
fn has_update_mode(params: &Params) -> bool
    ensures { result ≡ list_any is_update_mode params.now }
{
    let mut groups = params.iter();
    while let Some(group) = groups.next() {
        if matches!(group, [2026]) {
            return true;
        }
    }
    false
}
