//! The pieces of an operating system command.
ghost use Rattle.std.specs.Prelude.{◌≡◌, ◌∷◌, [], ℕ, List, map, length, MatchOption};
ghost use Rattle.std.specs.Iterator.{YieldsFirstBy, item_count};

use std::marker::Model;

/// The pieces that are not read yet.
#[derive(Drop)]
pub struct Pieces<'a> {
    rest: &'a [&'a [u8]],
}

impl<'a> Model for Pieces<'a> {
    ghost Value = { List (List ℕ) };

    ghost view = { λ p. map (λ t. t.now) p.rest.now };
}

impl<'a> Pieces<'a> {
    /// Iterates over these pieces.
    pub fn new(rest: &'a [&'a [u8]]) -> Self
        ensures { result ≡ map (λ t. t.now) rest.now }
    {
        Pieces { rest }
    }

    /// How many pieces are left.
    pub fn len(&self) -> usize
        ensures { result ≡ length self.now }
    {
        self.rest.len()
    }

    /// The next piece, without reading it.
    pub fn peek(&self) -> Option<&'a [u8]>
        ensures { MatchOption result (self.now ≡ []) (λ p. (ps : List (List ℕ)) × (self.now ≡ p.now ∷ ps)) }
    {
        match self.rest {
            [] => None,
            [first, ..] => Some(*first),
        }
    }
}

impl<'a> Iterator for Pieces<'a> {
    type Item = &'a [u8];

    ghost next_gives = { YieldsFirstBy (λ piece. piece.now) (λ pieces. pieces) };

    ghost remaining = { item_count (λ pieces. pieces) };

    fn next(&mut self) -> Option<&'a [u8]> {
        match self.rest {
            [] => None,
            [first, rest @ ..] => {
                self.rest = rest;
                Some(*first)
            }
        }
    }
}
