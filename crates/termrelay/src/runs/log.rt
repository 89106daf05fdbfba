//! Sequences of calls on a hub, and a log of them.
ghost use Rattle.std.specs.Prelude.{◌≡◌, map, OnOk, OnErr, IfOk};
ghost use Rattle.termrelay.specs.Calls.{Feed, Resize, Attach, Detach, Frame, Pump, Fork, IsRedrawn, Serves, IsCall, call_of};
ghost use Rattle.termrelay.specs.Log.{empty_log, sessions_after, ServesLogged, RunsCalls};

use crate::client::Client;
use crate::error::HubError;
use crate::hub::Hub;
use crate::runs::call::{Call, Reply, Take};
use crate::runs::session::{Session, end_all, end_last, last_of, owed, pump};
use std::alloc::{AllocError, Global};
use std::marker::Model;
use std::num::NonZeroU16;

/// The log of one or more runs: the reply to each call, and a session for each client that a call attached or forked.
#[derive(Drop)]
pub struct Log {
    replies: Vec<Reply>,
    sessions: Vec<Session>,
    alloc: Global,
}

impl Model for Log {
    ghost use Rattle.termrelay.specs.Log.{LogView};

    ghost Value = { LogView };

    ghost view = { λ l. record { replies = l.replies.items; sessions = l.sessions.items } };
}

impl Log {
    /// An empty log. Nothing is allocated yet.
    pub fn new(alloc: Global) -> Self
        ensures { result ≡ empty_log }
    {
        Log {
            replies: Vec::new(alloc),
            sessions: Vec::new(alloc),
            alloc,
        }
    }

    /// The replies to the calls, in order.
    pub fn replies(&self) -> &[Reply]
        ensures { result.now ≡ self.now.replies }
    {
        &self.replies
    }

    /// A session for each client that a call attached or forked, in the order of these calls.
    pub fn sessions(&self) -> &[Session]
        ensures { result.now ≡ self.now.sessions }
    {
        &self.sessions
    }

    /// Makes a call on a hub, and keeps its reply. Fails only if an allocation for the log fails; then the call isn't
    /// made.
    fn serve(&mut self, hub: &mut Hub, call: &Call<'_>) -> Result<(), AllocError>
        ensures served { OnOk result (ServesLogged hub.old (call_of call.now) hub.new self.old self.new) }
        ensures hub { OnErr result (hub.new ≡ hub.old) }
        ensures same { OnErr result (self.new ≡ self.old) }
    {
        self.replies.reserve(1)?;
        let reply = serve(hub, self.alloc, call, &mut self.sessions)?;
        self.replies.push_reserved(reply);
        Ok(())
    }
}

/// Makes a call on a hub. Fails only if an allocation for the sessions fails; then the call isn't made.
fn serve(
    hub: &mut Hub,
    alloc: Global,
    call: &Call<'_>,
    sessions: &mut Vec<Session>,
) -> Result<Reply, AllocError>
    ensures call { OnOk result (IsCall (call_of call.now)) }
    ensures served { IfOk result (λ reply. Serves hub.old (call_of call.now) reply hub.new) }
    ensures sessions { IfOk result (λ reply. sessions.new.items
        ≡ sessions_after hub.old (call_of call.now) reply sessions.old.items) }
    ensures hub { OnErr result (hub.new ≡ hub.old) }
    ensures same { OnErr result (sessions.new.items ≡ sessions.old.items) }
{
    match call {
        Call::Feed(bytes) => Ok(feed(hub, bytes)),
        Call::Resize(rows, cols) => Ok(resize(hub, *rows, *cols, sessions)),
        Call::Attach => attach(hub, alloc, sessions),
        Call::Detach(client) => Ok(detach(hub, *client, sessions)),
        Call::Frame(client) => Ok(frame(hub, *client)),
        Call::Pump(client, takes) => pump_kept(hub, *client, takes, sessions),
        Call::Fork(client) => fork_kept(hub, alloc, *client, sessions),
        Call::Redraw(client) => Ok(redraw(hub, *client)),
    }
}

/// Feeds a hub.
fn feed(hub: &mut Hub, bytes: &[u8]) -> Reply
    ensures { Serves hub.old (Feed bytes.now) result hub.new }
{
    match hub.feed(bytes) {
        Ok(()) => Reply::Done,
        Err(error) => Reply::Refused(error),
    }
}

/// Gives a hub's screen another size. If the hub does so, every session ends.
fn resize(hub: &mut Hub, rows: NonZeroU16, cols: NonZeroU16, sessions: &mut [Session]) -> Reply
    ensures call { IsCall (Resize rows.value cols.value) }
    ensures served { Serves hub.old (Resize rows.value cols.value) result hub.new }
    ensures sessions { sessions.new
        ≡ sessions_after hub.old (Resize rows.value cols.value) result sessions.old }
{
    match hub.resize(rows, cols) {
        Ok(()) => {
            end_all(sessions);
            Reply::Done
        }
        Err(error) => Reply::Refused(error),
    }
}

/// Attaches a client to a hub, and begins a session of it. The memory for the session is allocated first.
fn attach(hub: &mut Hub, alloc: Global, sessions: &mut Vec<Session>) -> Result<Reply, AllocError>
    ensures served { IfOk result (λ reply. Serves hub.old Attach reply hub.new) }
    ensures sessions { IfOk result (λ reply. sessions.new.items
        ≡ sessions_after hub.old Attach reply sessions.old.items) }
    ensures hub { OnErr result (hub.new ≡ hub.old) }
    ensures same { OnErr result (sessions.new.items ≡ sessions.old.items) }
{
    sessions.reserve(1)?;
    match hub.attach() {
        Ok(client) => {
            let (rows, cols) = hub.screen().size();
            sessions.push_reserved(Session::new(alloc, client, rows, cols));
            Ok(Reply::Attached(client))
        }
        Err(error) => Ok(Reply::Refused(error)),
    }
}

/// Ends a client of a hub, and the last session of it that hasn't ended.
fn detach(hub: &mut Hub, client: Client, sessions: &mut [Session]) -> Reply
    ensures served { Serves hub.old (Detach client) result hub.new }
    ensures sessions { sessions.new ≡ sessions_after hub.old (Detach client) result sessions.old }
{
    match hub.detach(client) {
        Ok(()) => {
            end_last(sessions, client);
            Reply::Done
        }
        Err(error) => Reply::Refused(error),
    }
}

/// Asks a hub for a frame for a client.
fn frame(hub: &mut Hub, client: Client) -> Reply
    ensures { Serves hub.old (Frame client) result hub.new }
{
    match hub.frame(client) {
        Ok(answer) => Reply::Answered(answer),
        Err(error) => Reply::Refused(error),
    }
}

/// Pumps a client of a hub to a scripted writer. The bytes written are added to the last session of the client that
/// hasn't ended, if there is one.
fn pump_kept(
    hub: &mut Hub,
    client: Client,
    takes: &[Take],
    sessions: &mut [Session],
) -> Result<Reply, AllocError>
    ensures served { IfOk result (λ reply. Serves hub.old (Pump client takes.now) reply hub.new) }
    ensures sessions { IfOk result (λ reply. sessions.new
        ≡ sessions_after hub.old (Pump client takes.now) reply sessions.old) }
    ensures hub { OnErr result (hub.new ≡ hub.old) }
    ensures same { OnErr result (sessions.new ≡ sessions.old) }
{
    match last_of(sessions, client) {
        Some(at) => sessions[at].pump(hub, takes),
        None => Ok(pump(hub, client, takes)),
    }
}

/// Forks a client of a hub. The fork's session begins with what was pumped to the last session of the client that
/// hasn't ended, and with the client's pending bytes. If the client has no such session, none begins. The memory for
/// the session is allocated first.
fn fork_kept(
    hub: &mut Hub,
    alloc: Global,
    client: Client,
    sessions: &mut Vec<Session>,
) -> Result<Reply, AllocError>
    ensures served { IfOk result (λ reply. Serves hub.old (Fork client) reply hub.new) }
    ensures sessions { IfOk result (λ reply. sessions.new.items
        ≡ sessions_after hub.old (Fork client) reply sessions.old.items) }
    ensures hub { OnErr result (hub.new ≡ hub.old) }
    ensures same { OnErr result (sessions.new.items ≡ sessions.old.items) }
{
    let Some(at) = last_of(sessions, client) else {
        return Ok(fork(hub, client));
    };
    sessions.reserve(1)?;
    let pumped = sessions[at].pumped_with(alloc, owed(hub, client))?;
    match hub.fork(client) {
        Ok(fork) => {
            let session = sessions[at].branch(fork, pumped);
            sessions.push_reserved(session);
            Ok(Reply::Attached(fork))
        }
        Err(error) => Ok(Reply::Refused(error)),
    }
}

/// Forks a client of a hub.
fn fork(hub: &mut Hub, client: Client) -> Reply
    ensures { Serves hub.old (Fork client) result hub.new }
{
    match hub.fork(client) {
        Ok(fork) => Reply::Attached(fork),
        Err(error) => Reply::Refused(error),
    }
}

/// Asks a hub for a client's redraw.
fn redraw(hub: &Hub, client: Client) -> Reply
    ensures { IsRedrawn hub.now client result }
{
    match hub.redraw(client) {
        Ok(redraw) => Reply::Redrawn(redraw),
        Err(error) => Reply::Refused(error),
    }
}

/// Makes the calls in order. The log keeps the reply to each, and the bytes that were pumped.
///
/// An attach begins a session, and so does a fork: its session has the bytes of the last session of its client that
/// hasn't ended, and the bytes that waited for the client. A pump's bytes are added to the last session of its client
/// that hasn't ended. If a client has no such session, as one that was attached outside the log, no session changes. A
/// detach ends that last session, and a resize ends all sessions. A refused call is kept as its reply, and the run goes
/// on.
///
/// Fails only if an allocation for the log fails, with `Memory`. Then the calls before that one were made, and it and
/// the later ones weren't. Before a pump, memory is allocated for all pending bytes.
pub fn run(hub: &mut Hub, calls: &[Call<'_>], log: &mut Log) -> Result<(), HubError>
    ensures { RunsCalls hub.old log.old (map call_of calls.now) result hub.new log.new }
{
    for call in calls {
        log.serve(hub, call)?;
    }
    Ok(())
}
