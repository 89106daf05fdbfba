//! Steps that make all calls by one run.

use crate::relays::calls::{is_like, is_no_memory, is_run};
use crate::relays::hubs::{Hubs, new_hub};
use case_player::StepError;
use termrelay::Hub;
use termrelay::runs::{Call, Log, Reply};

const OTHERWISE: StepError = StepError::Wrong("one run is replied otherwise");

impl Hubs {
    /// Makes all calls so far anew by one run, on a fresh hub. It has to do what the hub does whose runs make one call
    /// each. If its log finds no room for a call, the run ends before that call, and another run can make the rest.
    pub fn run_at_once(&self) -> Result<(), StepError> {
        let mut hub = new_hub(self.alloc, self.size)?;
        let mut log = Log::new(self.alloc);
        self.run_on(&mut hub, &mut log)
    }

    fn run_on(&self, hub: &mut Hub, log: &mut Log) -> Result<(), StepError> {
        self.run_calls(hub, log)?;
        self.check_replies(log.replies())?;
        if self.is_alike(hub, log) {
            Ok(())
        } else {
            Err(StepError::Wrong("one run sends or owes something else"))
        }
    }

    fn run_calls(&self, hub: &mut Hub, log: &mut Log) -> Result<(), StepError> {
        let calls = self.all_calls();
        match calls.get(..self.calls.len()) {
            Some(calls) => run_all(hub, calls, log),
            None => Err(StepError::Wrong("at most 64 calls are made at once")),
        }
    }

    // Checks that these are the replies to the calls so far.
    fn check_replies(&self, replies: &[Reply]) -> Result<(), StepError> {
        let mut left = replies;
        for wanted in self.log.replies() {
            if is_no_memory(wanted) {
                continue;
            }
            match left {
                [reply, ..] if is_no_memory(reply) => return Err(StepError::Memory),
                [reply, rest @ ..] if is_like(reply, wanted) => left = rest,
                _ => return Err(OTHERWISE),
            }
        }
        if left.is_empty() {
            Ok(())
        } else {
            Err(OTHERWISE)
        }
    }

    // Whether the hub's clients have the right pending bytes, and its log has what was pumped.
    fn is_alike(&self, hub: &Hub, log: &Log) -> bool {
        let mut is_same = log.sessions().len() == self.log.sessions().len();
        for (session, wanted) in log.sessions().iter().zip(self.log.sessions()) {
            is_same &= session.pumped() == wanted.pumped();
        }
        for seat in &self.seats {
            is_same &= seat.is_owed(hub);
        }
        is_same
    }
}

// Makes calls by one run, and the rest by another one if the log found no room for a call.
fn run_all(hub: &mut Hub, calls: &[Call<'_>], log: &mut Log) -> Result<(), StepError> {
    if is_run(hub, calls, log) {
        return Ok(());
    }
    let Some(rest @ [_, ..]) = calls.get(log.replies().len()..) else {
        return Err(StepError::Wrong("a run that ended early made all calls"));
    };
    if is_run(hub, rest, log) {
        Ok(())
    } else {
        Err(StepError::Memory)
    }
}
