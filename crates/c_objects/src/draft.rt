//! The text of a request while it is put together.
ghost use Rattle.std.specs.Prelude.{◌≡◌, ◌++◌, [], IfOk};
ghost use Rattle.c_objects.specs.Queue.{drafted};

use std::alloc::{AllocError, Global};
use std::marker::Model;

/// The most bytes of a request's text. The parser keeps 1,024 bytes of an operating system command, its number among
/// them, so a longer text may have been cut.
pub(crate) const MOST_BYTES: usize = 1021;

/// The start of a text, which shows whether the text is too long for a request. It has at most one byte more than a
/// request may have.
#[derive(Drop)]
pub struct Draft {
    text: Vec<u8>,
}

impl Model for Draft {
    ghost use Rattle.std.specs.Prelude.{◌≤◌, ℕ, List, length, vec_capacity};

    ghost Value = { List ℕ };

    ghost view = { λ d. d.text.items };

    ghost invariant = { λ d. (1022 ≤ vec_capacity d.text) × (length d.text.items ≤ 1022) };
}

impl Draft {
    /// An empty text whose room is allocated. Refused if this allocation fails.
    pub(crate) fn new(alloc: Global) -> Result<Draft, AllocError>
        ensures { IfOk result (λ d. d ≡ []) }
    {
        Ok(Draft {
            text: Vec::with_capacity(alloc, MOST_BYTES + 1)?,
        })
    }

    /// Empties the text.
    pub(crate) fn clear(&mut self)
        ensures { self.new ≡ [] }
    {
        self.text.clear();
    }

    /// Appends the bytes, up to the most that are kept.
    pub(crate) fn push(&mut self, bytes: &[u8])
        ensures { drafted self.new ≡ drafted (self.old ++ bytes.now) }
    {
        let most = (MOST_BYTES + 1 - self.text.len()).min(bytes.len());
        let _room = self.text.extend_from_slice(&bytes[..most]);
    }

    /// The part of the text that is kept.
    #[tactic(auto, using(crate::proofs::Drafts::drafted_whole))]
    pub(crate) fn text(&self) -> &[u8]
        ensures { result.now ≡ drafted self.now }
    {
        &self.text
    }
}
