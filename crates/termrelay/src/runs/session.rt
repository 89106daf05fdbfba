//! The log of one client of a run.
ghost use Rattle.std.specs.Prelude.{◌≡◌, ◌++◌, false, [], length, map, IfOk, OnOk, OnErr, MatchOption};
ghost use Rattle.std.specs.List.{list_any};
ghost use Rattle.termrelay.specs.Calls.{Pump, Serves};
ghost use Rattle.termrelay.specs.Hub.{clients_in};
ghost use Rattle.termrelay.specs.Log.{is_of, change_last, bytes_taken, bytes_owed, grown, ended as ended_now, IsLast};

use crate::client::Client;
use crate::hub::Hub;
use crate::runs::call::{Reply, Take};
use crate::runs::scripted_writer::ScriptedWriter;
use std::alloc::{AllocError, Global};
use std::marker::Model;
use std::num::NonZeroU16;

/// The log of one client, from its attach or fork on: the bytes pumped to it, and whether it has ended.
#[derive(Drop)]
pub struct Session {
    client: Client,
    rows: NonZeroU16,
    cols: NonZeroU16,
    pumped: Vec<u8>,
    ended: bool,
}

impl Model for Session {
    ghost use Rattle.termrelay.specs.Log.{SessionView};

    ghost Value = { SessionView };

    ghost view = { λ s. record {
      client = s.client;
      rows = s.rows.value;
      cols = s.cols.value;
      pumped = s.pumped.items;
      ended = s.ended;
    } };
}

impl Session {
    /// A session without bytes, of a client that was attached to a screen of this size.
    pub(crate) fn new(alloc: Global, client: Client, rows: NonZeroU16, cols: NonZeroU16) -> Self
        ensures { result ≡ record {
          client = client;
          rows = rows.value;
          cols = cols.value;
          pumped = [];
          ended = false;
        } }
    {
        Session {
            client,
            rows,
            cols,
            pumped: Vec::new(alloc),
            ended: false,
        }
    }

    /// The client whose session this is. After the session has ended, the key may belong to another client.
    pub fn client(&self) -> Client
        ensures { result ≡ self.now.client }
    {
        self.client
    }

    /// The height of the hub's screen at the attach or fork, in rows.
    pub fn rows(&self) -> NonZeroU16
        ensures { result.value ≡ self.now.rows }
    {
        self.rows
    }

    /// The width of the hub's screen at the attach or fork, in columns.
    pub fn cols(&self) -> NonZeroU16
        ensures { result.value ≡ self.now.cols }
    {
        self.cols
    }

    /// The bytes that were pumped to the client's writers, in order. Those of a fork begin with all frames, up to the
    /// fork, of the client that it was forked from.
    pub fn pumped(&self) -> &[u8]
        ensures { result.now ≡ self.now.pumped }
    {
        &self.pumped
    }

    /// Whether a detach or a resize that was made with this log has ended the session.
    pub fn ended(&self) -> bool
        ensures { result ≡ self.now.ended }
    {
        self.ended
    }

    /// Whether the session is of this client, and hasn't ended.
    pub(crate) fn is_of(&self, client: Client) -> bool
        ensures { result ≡ is_of client self.now }
    {
        !self.ended && self.client == client
    }

    /// Ends the session.
    pub(crate) fn end(&mut self)
        ensures { self.new ≡ ended_now self.old }
    {
        self.ended = true;
    }

    /// The bytes that were pumped, and these after them. Fails only if an allocation fails.
    pub(crate) fn pumped_with(&self, alloc: Global, owed: &[u8]) -> Result<Vec<u8>, AllocError>
        ensures { IfOk result (λ bytes. bytes.items ≡ self.now.pumped ++ owed.now) }
    {
        let mut bytes = Vec::new(alloc);
        bytes.extend_from_slice(&self.pumped)?;
        bytes.extend_from_slice(owed)?;
        Ok(bytes)
    }

    /// The session of a fork of this one's client, with these bytes.
    pub(crate) fn branch(&self, fork: Client, pumped: Vec<u8>) -> Self
        ensures { result ≡ record self.now { client = fork; pumped = pumped.items; ended = false } }
    {
        Session {
            client: fork,
            rows: self.rows,
            cols: self.cols,
            pumped,
            ended: false,
        }
    }

    /// Pumps the session's client to a scripted writer, and keeps the bytes written. Fails only if an allocation fails;
    /// then nothing is pumped.
    pub(crate) fn pump(&mut self, hub: &mut Hub, takes: &[Take]) -> Result<Reply, AllocError>
        ensures served { IfOk result (λ reply. Serves hub.old (Pump self.old.client takes.now) reply hub.new) }
        ensures grown { OnOk result (self.new
            ≡ grown (bytes_taken takes.now (clients_in hub.old self.old.client)) self.old) }
        ensures hub { OnErr result (hub.new ≡ hub.old) }
        ensures same { OnErr result (self.new ≡ self.old) }
    {
        pump_into(hub, self.client, takes, &mut self.pumped)
    }
}

/// Pumps a client to a scripted writer, and appends the bytes written to `bytes`. Fails only if an allocation fails;
/// then nothing is pumped.
fn pump_into(
    hub: &mut Hub,
    client: Client,
    takes: &[Take],
    bytes: &mut Vec<u8>,
) -> Result<Reply, AllocError>
    ensures served { IfOk result (λ reply. Serves hub.old (Pump client takes.now) reply hub.new) }
    ensures bytes { OnOk result (bytes.new.items
        ≡ bytes.old.items ++ bytes_taken takes.now (clients_in hub.old client)) }
    ensures hub { OnErr result (hub.new ≡ hub.old) }
    ensures same { OnErr result (bytes.new.items ≡ bytes.old.items) }
{
    let Ok(owed) = hub.owed(client) else {
        return Ok(pump(hub, client, takes));
    };
    bytes.extend_from_slice(owed)?;
    let reply = pump(hub, client, takes);
    bytes.truncate(bytes.len() - owed_count(hub, client));
    Ok(reply)
}

/// Pumps a client to a scripted writer.
pub(crate) fn pump(hub: &mut Hub, client: Client, takes: &[Take]) -> Reply
    ensures { Serves hub.old (Pump client takes.now) result hub.new }
{
    match hub.pump(client, &mut ScriptedWriter::new(takes)) {
        Ok(()) => Reply::Done,
        Err(error) => Reply::Refused(error),
    }
}

/// The bytes that wait for the client: no bytes for an unknown client.
pub(crate) fn owed(hub: &Hub, client: Client) -> &[u8]
    ensures { result.now ≡ bytes_owed (clients_in hub.now client) }
{
    match hub.owed(client) {
        Ok(owed) => owed,
        Err(_) => &[],
    }
}

/// How many bytes wait for the client: 0 for an unknown client.
fn owed_count(hub: &Hub, client: Client) -> usize
    ensures { MatchOption (clients_in hub.now client) (result ≡ 0) (λ c. result ≡ length c.owed) }
{
    match hub.owed(client) {
        Ok(owed) => owed.len(),
        Err(_) => 0,
    }
}

/// The index of the client's last session that hasn't ended, if there is one.
pub(crate) fn last_of(sessions: &[Session], client: Client) -> Option<usize>
    ensures { MatchOption result (list_any (is_of client) sessions.now ≡ false) (IsLast (is_of client) sessions.now) }
{
    let mut at = sessions.len();
    while at > 0 {
        at -= 1;
        if sessions[at].is_of(client) {
            return Some(at);
        }
    }
    None
}

/// Ends the last session of the client that hasn't ended, if there is one.
pub(crate) fn end_last(sessions: &mut [Session], client: Client)
    ensures { sessions.new ≡ change_last (is_of client) ended_now sessions.old }
{
    if let Some(at) = last_of(sessions, client) {
        sessions[at].end();
    }
}

/// Ends every session.
pub(crate) fn end_all(sessions: &mut [Session])
    ensures { sessions.new ≡ map ended_now sessions.old }
{
    for session in sessions.iter_mut() {
        session.end();
    }
}
