//! What a byte prints, and the bytes behind its event.

use crate::behind::{Behind, push_csi, push_escape};
use crate::sets::CharacterSets;
use vte_core::{Event, Perform};

/// The character sets, what is drawn of the last character that was printed, and the bytes behind the last event.
#[derive(Drop)]
pub struct Listener {
    pub sets: CharacterSets,
    pub drawn: Option<char>,
    pub behind: Behind,
}

impl Listener {
    ghost use Rattle.std.specs.Prelude.{◌≡◌, [], None};
    ghost use Rattle.charset_filter.specs.Sets.{first_sets};

    /// ASCII alone, and no event.
    pub fn new() -> Self
        ensures { result.sets ≡ first_sets }
    {
        Listener {
            sets: CharacterSets::new(),
            drawn: None,
            behind: Behind::new(),
        }
    }

    /// Forgets the events, but keeps the sets after them.
    pub fn forget(&mut self)
        ensures sets { self.new.sets ≡ self.old.sets }
        ensures drawn { self.new.drawn ≡ None }
        ensures behind { self.new.behind.items ≡ [] }
    {
        self.drawn = None;
        self.behind.clear();
    }
}

impl Perform for Listener {
    ghost use Rattle.std.specs.Prelude.{◌≡◌, ◌≤◌, length, false};
    ghost use Rattle.charset_filter.specs.Behind.{behind};
    ghost use Rattle.charset_filter.specs.Given.{drawn_by};
    ghost use Rattle.charset_filter.specs.Sets.{after_event};

    ghost step = { λ p e q. (q.sets ≡ after_event p.sets e) × (q.drawn ≡ drawn_by p.sets p.drawn e)
        × (length (behind p.sets e) ≤ 252 → q.behind.items ≡ behind p.sets e) };

    ghost is_terminated = { λ p. false };

    fn event(&mut self, event: Event<'_>) {
        self.behind.clear();
        match event {
            Event::Print(c) => self.drawn = Some(self.sets.drawing_set().map(c)),
            Event::CsiDispatch {
                params,
                intermediates,
                ignore,
                action,
            } => push_csi(
                &mut self.behind,
                self.sets,
                params,
                intermediates,
                ignore,
                action,
            ),
            Event::EscDispatch {
                intermediates,
                byte,
                ..
            } => push_escape(&mut self.behind, intermediates, byte),
            _ => {}
        }
        self.sets.event(event);
    }

    fn terminated(&self) -> bool {
        false
    }
}
