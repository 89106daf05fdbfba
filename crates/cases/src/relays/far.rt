//! Far views: what the bytes show that were sent to a client, wherever they are cut.

use crate::relays::cuts::{end_cut, push_drawn};
use crate::relays::hubs::Hubs;
use case_player::{Answer, StepError, Words};
use relay_streams::{RelayError, far_view};
use std::array;
use termrelay::runs::Call;
use termview::{UntilCleared, View};

/// How many calls can be made anew at most.
pub const MOST_CALLS: usize = 64;

impl Hubs {
    // The call with this number. After the last one there are attaches.
    fn call(&self, index: usize) -> Call<'_> {
        match self.calls.get(index) {
            Some(kept) => kept.call(),
            None => Call::Attach,
        }
    }

    /// The calls so far, with attaches after the last one.
    pub fn all_calls(&self) -> [Call<'_>; MOST_CALLS] {
        array::from_fn(|index| self.call(index))
    }

    /// What a view shows of the first bytes of a session, in pieces of these lengths and then the rest. The calls so
    /// far are made anew.
    pub fn far(
        &self,
        session: usize,
        take: usize,
        cuts: &[usize],
    ) -> Result<Option<View<UntilCleared>>, StepError> {
        let calls = self.all_calls();
        let Some(calls) = calls.get(..self.calls.len()) else {
            return Err(StepError::Wrong("a far view is made of at most 64 calls"));
        };
        let (rows, cols) = self.size;
        match far_view(self.alloc, rows, cols, calls, session, take, cuts) {
            Ok(found) => Ok(found),
            Err(RelayError::Memory) => Err(StepError::Memory),
            Err(_) => Err(StepError::Wrong("the far view fails otherwise than for memory")),
        }
    }

    /// What a cell of such views shows, and their cursor, where the bytes are cut once, at each place. The words are
    /// the session, how many of its bytes are taken, and the cell's row and column.
    pub fn cut_far(&self, words: &Words, answer: &mut Answer) -> Result<(), StepError> {
        let (session, take) = (words.count(), words.count());
        let place = (words.place(), words.place());
        let mut told = Answer::new(self.alloc)?;
        for cut in 0..=take {
            self.tell_far(session, take, cut, place, &mut told)?;
            end_cut(cut, &mut told, answer);
        }
        Ok(())
    }

    fn tell_far(
        &self,
        session: usize,
        take: usize,
        cut: usize,
        (row, col): (u16, u16),
        told: &mut Answer,
    ) -> Result<(), StepError> {
        match self.far(session, take, &[cut])? {
            Some(view) => push_drawn(told, &view, row, col),
            None => told.push("no view"),
        }
        Ok(())
    }
}
