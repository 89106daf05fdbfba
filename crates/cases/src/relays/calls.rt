//! Calls on hubs, and the replies to them.

use crate::relays::wordings::push_text;
use crate::relays::writers::Writer;
use case_player::Answer;
use std::alloc::Global;
use std::io::ErrorKind;
use std::num::NonZeroU16;
use termrelay::runs::{Call, Log, Reply, Take, run};
use termrelay::{Client, Hub, HubError};

/// What a call is, without what it borrows.
#[derive(Clone, Copy)]
pub enum Kind {
    Feed,
    Resize(NonZeroU16, NonZeroU16),
    Attach,
    Detach(Client),
    Frame(Client),
    Pump(Client),
    Fork(Client),
    Redraw(Client),
}

/// A call with what it borrows, kept so that it can be made again.
#[derive(Drop)]
pub struct Kept {
    kind: Kind,
    /// The bytes of a feed.
    pub bytes: Vec<u8>,
    /// What the first writes of a pump take.
    pub takes: Vec<Take>,
    /// What a later write of a pump takes at most.
    pub most: usize,
    /// The error of a pump's write that fails.
    pub fault: ErrorKind,
}

impl Kept {
    /// This call: a feed has no bytes yet, and the writes of a pump take all.
    pub fn new(alloc: Global, kind: Kind) -> Kept {
        Kept {
            kind,
            bytes: Vec::new(alloc),
            takes: Vec::new(alloc),
            most: usize::MAX,
            fault: ErrorKind::BrokenPipe,
        }
    }

    /// The call.
    pub fn call(&self) -> Call<'_> {
        match self.kind {
            Kind::Feed => Call::Feed(&self.bytes),
            Kind::Resize(rows, cols) => Call::Resize(rows, cols),
            Kind::Attach => Call::Attach,
            Kind::Detach(client) => Call::Detach(client),
            Kind::Frame(client) => Call::Frame(client),
            Kind::Pump(client) => Call::Pump(client, &self.takes),
            Kind::Fork(client) => Call::Fork(client),
            Kind::Redraw(client) => Call::Redraw(client),
        }
    }
}

/// Makes a call on a hub. What is pumped goes to the writer.
pub fn called(hub: &mut Hub, call: &Call<'_>, writer: &mut Writer<'_>) -> Reply {
    let made = match call {
        Call::Feed(bytes) => hub.feed(bytes).map(done),
        Call::Resize(rows, cols) => hub.resize(*rows, *cols).map(done),
        Call::Attach => hub.attach().map(Reply::Attached),
        Call::Detach(client) => hub.detach(*client).map(done),
        Call::Frame(client) => hub.frame(*client).map(Reply::Answered),
        Call::Pump(client, _) => hub.pump(*client, writer).map(done),
        Call::Fork(client) => hub.fork(*client).map(Reply::Attached),
        Call::Redraw(client) => hub.redraw(*client).map(Reply::Redrawn),
    };
    made.unwrap_or_else(Reply::Refused)
}

fn done(_nothing: ()) -> Reply {
    Reply::Done
}

/// Makes calls on a hub by a run. Returns whether the log found room for each of them.
pub fn is_run(hub: &mut Hub, calls: &[Call<'_>], log: &mut Log) -> bool {
    run(hub, calls, log).is_ok()
}

/// Whether a call was made that returns nothing.
pub fn is_done(reply: &Reply) -> bool {
    matches!(reply, Reply::Done)
}

/// Whether a call was refused memory.
pub fn is_no_memory(reply: &Reply) -> bool {
    matches!(reply, Reply::Refused(HubError::Memory))
}

/// Whether a logged run has the reply that a call on another hub has. The fault of a run's writer is of kind `Other`.
pub fn is_like(reply: &Reply, logged: &Reply) -> bool {
    match (reply, logged) {
        (Reply::Done, Reply::Done) => true,
        (Reply::Attached(client), Reply::Attached(other)) => client == other,
        (Reply::Answered(answer), Reply::Answered(other)) => answer == other,
        (Reply::Redrawn(text), Reply::Redrawn(other)) => text == other,
        (Reply::Refused(HubError::Write(fault)), Reply::Refused(HubError::Write(other))) => {
            other.kind() == ErrorKind::Other || fault.kind() == other.kind()
        }
        (Reply::Refused(HubError::Failed), Reply::Refused(HubError::Failed))
        | (Reply::Refused(HubError::UnknownClient), Reply::Refused(HubError::UnknownClient)) =>
            true,
        _ => false,
    }
}

/// Appends a reply in words.
pub fn push_reply(answer: &mut Answer, reply: &Reply) {
    match reply {
        Reply::Done => answer.push("done"),
        Reply::Attached(_) => answer.push("attached"),
        Reply::Answered(found) => answer.debug(found),
        Reply::Redrawn(Some(text)) => push_text(answer, text),
        Reply::Redrawn(None) => answer.push("none"),
        Reply::Refused(HubError::Write(error)) => answer.debug(&error.kind()),
        Reply::Refused(error) => answer.display(error),
    }
}
