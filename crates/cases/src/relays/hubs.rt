//! Two hubs, on which the same calls are made: one by one, and by runs that are logged. They return the same.

use crate::relays::calls::{Kept, called, is_like, is_no_memory, is_run};
use crate::relays::cuts::Size;
use crate::relays::failing::refusal;
use crate::relays::sums::Sum;
use crate::relays::writers::{Pumped, Writer};
use case_player::StepError;
use std::alloc::Global;
use std::slice;
use termrelay::runs::{Call, Log, Reply};
use termrelay::{Client, Hub};

/// A client, and what has become of it.
#[derive(Clone, Copy)]
pub struct Seat {
    /// Its key, which is the same on both hubs.
    pub client: Client,
    /// The bytes that are pending for it.
    pub owed: Sum,
    /// What was pumped to it.
    pub pumped: Sum,
    /// Whether it has ended: neither hub knows it any longer.
    pub has_ended: bool,
}

impl Seat {
    /// Whether the client's pending bytes at the hub are the right ones. A client that has ended has none.
    pub fn is_owed(&self, hub: &Hub) -> bool {
        match hub.owed(self.client) {
            Ok(bytes) => self.has_ended || Sum::NONE.after(bytes) == self.owed,
            Err(_) => self.has_ended,
        }
    }
}

/// The hubs, the log of the second one, and their clients.
#[derive(Drop)]
pub struct Hubs {
    /// Where memory comes from.
    pub alloc: Global,
    /// The hub whose calls are made one by one.
    pub hub: Hub,
    /// The hub whose calls are made by runs.
    pub logged: Hub,
    /// What the runs logged.
    pub log: Log,
    /// The size that the hubs began with.
    pub size: Size,
    /// The clients that came, in this order.
    pub seats: Vec<Seat>,
    /// The calls so far.
    pub calls: Vec<Kept>,
    /// What the last pump did.
    pub pumped: Pumped,
    /// How many calls a step has made whose next one was refused memory.
    pub made: usize,
    // What the first hub replied, if the second one was refused memory.
    reply: Option<Reply>,
}

/// A hub of this size, without clients.
pub fn new_hub(alloc: Global, (rows, cols): Size) -> Result<Hub, StepError> {
    match Hub::new(alloc, rows, cols) {
        Ok(hub) => Ok(hub),
        Err(_) => Err(StepError::Memory),
    }
}

impl Hubs {
    /// These hubs of this size, which have no clients.
    pub fn new(alloc: Global, size: Size, hub: Hub, logged: Hub) -> Hubs {
        Hubs {
            alloc,
            hub,
            logged,
            log: Log::new(alloc),
            size,
            seats: Vec::new(alloc),
            calls: Vec::new(alloc),
            pumped: Pumped::after(Sum::NONE),
            made: 0,
            reply: None,
        }
    }

    /// A client, by its number. One that never came has its number as the key.
    pub fn seat(&self, index: usize) -> Seat {
        match self.seats.get(index) {
            Some(seat) => *seat,
            None => Seat {
                client: Client::from_key(index),
                owed: Sum::NONE,
                pumped: Sum::NONE,
                has_ended: true,
            },
        }
    }

    /// The bytes that are pending for a client.
    pub fn owed(&self, index: usize) -> &[u8] {
        self.hub.owed(self.seat(index).client).unwrap_or(b"")
    }

    /// Whether the first hub has made a call that the second one was refused memory for.
    pub fn is_pending(&self) -> bool {
        self.reply.is_some()
    }

    /// Makes a call on both hubs. The seats stay as they are.
    pub fn make(&mut self, kept: Kept) -> Result<Reply, StepError> {
        self.calls.reserve(1)?;
        let reply = self.make_twice(&kept)?;
        self.calls.push(kept)?;
        Ok(reply)
    }

    fn make_twice(&mut self, kept: &Kept) -> Result<Reply, StepError> {
        let reply = match self.reply.take() {
            Some(reply) => reply,
            None => self.make_directly(kept)?,
        };
        if !self.is_logged(kept) {
            drop(self.reply.replace(reply));
            return Err(refusal(&mut self.logged, &self.seats, false));
        }
        match self.log.replies().last() {
            Some(logged) if is_like(&reply, logged) => Ok(reply),
            _ => Err(StepError::Wrong("a logged run tells something else than the call")),
        }
    }

    fn make_directly(&mut self, kept: &Kept) -> Result<Reply, StepError> {
        let call = kept.call();
        let mut writer = Writer {
            takes: &kept.takes,
            most: kept.most,
            fault: kept.fault,
            pumped: self.pumped,
        };
        let reply = called(&mut self.hub, &call, &mut writer);
        self.pumped = writer.pumped;
        if is_no_memory(&reply) {
            let feeds = matches!(call, Call::Feed(_));
            return Err(refusal(&mut self.hub, &self.seats, feeds));
        }
        Ok(reply)
    }

    // Makes a call by a run, which logs it. Returns whether there was memory for the call and for the log.
    fn is_logged(&mut self, kept: &Kept) -> bool {
        let call = kept.call();
        if !is_run(&mut self.logged, slice::from_ref(&call), &mut self.log) {
            return false;
        }
        match self.log.replies().last() {
            Some(reply) => !is_no_memory(reply),
            None => false,
        }
    }

    /// The outcome of a step. Unless the case has ended, this checks that the right bytes are pending and were sent.
    pub fn checked(&self, outcome: Result<(), StepError>) -> Result<(), StepError> {
        match outcome {
            Err(StepError::Ended) => outcome,
            _ => self.check().and(outcome),
        }
    }

    // Checks that each client has the right pending bytes, and that the log has what was pumped to it.
    fn check(&self) -> Result<(), StepError> {
        if self.log.sessions().len() != self.seats.len() {
            return Err(StepError::Wrong("the log has other sessions than clients came"));
        }
        for (seat, session) in self.seats.iter().zip(self.log.sessions()) {
            if !self.is_pending() && !seat.is_owed(&self.hub) {
                return Err(StepError::Wrong("a client is owed something else than before"));
            }
            if !seat.is_owed(&self.logged) {
                return Err(StepError::Wrong("a client of the logged hub is owed something else"));
            }
            if Sum::NONE.after(session.pumped()) != seat.pumped {
                return Err(StepError::Wrong("the log has other bytes than were pumped"));
            }
        }
        Ok(())
    }
}
