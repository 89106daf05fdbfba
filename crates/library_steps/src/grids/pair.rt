//! What a case works on, and the earlier one.
use std::mem;

/// A row or a grid, and the earlier one.
#[derive(Drop)]
pub struct Pair<T> {
    /// What the case works on.
    pub now: Option<T>,
    /// What it worked on before.
    pub earlier: Option<T>,
}

impl<T: Drop> Pair<T> {
    /// No row or grid yet.
    pub fn none() -> Pair<T> {
        Pair {
            now: None,
            earlier: None,
        }
    }

    /// The case works on this one from now on. The one before it becomes the earlier one.
    pub fn put(&mut self, new: T) {
        self.earlier = self.now.replace(new);
    }

    /// Exchanges both.
    pub fn exchange(&mut self) {
        mem::swap(&mut self.now, &mut self.earlier);
    }
}
