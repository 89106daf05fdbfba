//! The intermediates of an escape sequence or a header: two are kept.

ghost use Rattle.std.specs.Prelude.{◌≡◌, List, ℕ, [], ◌∷◌, ◌++◌};
ghost use Rattle.vte_core.specs.Reading.{KeepsTwo};

use arrayvec::ArrayVec;

/// The first two intermediates.
#[derive(Drop)]
pub struct Intermediates {
    pub kept: ArrayVec<u8, 2>,
    /// There were more intermediates than the two that are kept.
    pub many: bool,
}

impl Intermediates {
    /// No intermediates.
    pub fn new() -> Self
        ensures { KeepsTwo result [] }
    {
        Intermediates {
            kept: ArrayVec::new(),
            many: false,
        }
    }

    /// Drops the intermediates.
    #[inline]
    pub fn clear(&mut self)
        ensures { KeepsTwo self.new [] }
    {
        self.kept = ArrayVec::new();
        self.many = false;
    }

    /// One more intermediate.
    #[inline]
    pub fn push(&mut self, byte: u8)
        ensures { (is : List ℕ) → KeepsTwo self.old is → KeepsTwo self.new (is ++ byte ∷ []) }
    {
        if self.kept.is_full() {
            self.many = true;
        } else {
            self.kept.push(byte);
        }
    }
}
