//! The requests that wait, and their texts.
ghost use Rattle.std.specs.Prelude.{◌≡◌, ◌≤◌, ◌<◌, ◌+◌, ◌∷◌, ◌++◌, [], length, IfOk, OnOk, OnErr, vec_capacity, drop};
ghost use Rattle.c_objects.specs.Queue.{IsPlaced, text_in, shared_len};
ghost use Rattle.c_objects.specs.Requests.{HasNoPlace, TellsFirst, left_waiting, of_kind};

use crate::copy::copy_prefix;
use crate::draft::MOST_BYTES;
use crate::plain::CRequest;
use std::alloc::{AllocError, Global};
use std::collections::VecDeque;
use std::marker::Model;

/// The most requests that wait in the queue.
const MOST_REQUESTS: usize = 256;

/// The bytes of texts for which room is allocated at the start.
const ROOM: usize = 4096;

/// Where the text of a waiting request is.
#[derive(Drop)]
pub enum Text {
    /// In the room that texts share: the next bytes, this many.
    Shared(usize),
    /// In memory of its own.
    Own(Vec<u8>),
}

impl Text {
    /// The text. If it is in the shared room, `room` begins with it.
    fn within<'a>(&'a self, room: &'a [u8]) -> &'a [u8]
        requires { shared_len self.now ≤ length room.now }
        ensures { result.now ≡ text_in room.now self.now }
    {
        match self {
            Text::Shared(length) => &room[..*length],
            Text::Own(text) => text,
        }
    }
}

/// One request. The first `letters` bytes of its text are letters of clipboards, or intermediates.
#[derive(Drop)]
pub struct Request {
    kind: u8,
    rows: u16,
    cols: u16,
    letters: usize,
    text: Text,
}

/// A request found no place in the queue.
#[derive(Clone, Copy, Drop)]
pub(crate) struct NoPlace;

/// The waiting requests, the oldest first.
#[derive(Drop)]
pub struct Queue {
    waiting: VecDeque<Request>,
    /// The texts that share their room, one after another.
    shared: Vec<u8>,
    alloc: Global,
}

impl Model for Queue {
    ghost use Rattle.std.specs.Prelude.{◌≡◌, ◌≤◌, List, length, vec_capacity};
    ghost use Rattle.std.specs.VecDeque.{deque_capacity};
    ghost use Rattle.c_objects.specs.Queue.{requests_in, all_shared};
    ghost use Rattle.c_objects.specs.Requests.{RequestView};

    ghost Value = { List RequestView };

    ghost view = { λ q. requests_in q.shared.items q.waiting.items };

    ghost invariant = { λ q. (256 ≤ deque_capacity q.waiting) × (4096 ≤ vec_capacity q.shared)
        × (all_shared q.waiting.items ≡ length q.shared.items) };
}

impl Queue {
    /// An empty queue, with room for all the requests that may wait, and for some of their texts. Refused if the
    /// allocation of this room fails.
    pub(crate) fn new(alloc: Global) -> Result<Queue, AllocError>
        ensures { IfOk result (λ q. q ≡ []) }
    {
        Ok(Queue {
            waiting: VecDeque::with_capacity(alloc, MOST_REQUESTS)?,
            shared: Vec::with_capacity(alloc, ROOM)?,
            alloc,
        })
    }

    /// Queues a request of this kind. Refused if the queue is full, the text is too long, or there is neither room nor
    /// memory for it.
    pub(crate) fn push(
        &mut self,
        kind: u8,
        size: (u16, u16),
        letters: usize,
        text: &[u8],
    ) -> Result<(), NoPlace>
        ensures queued { OnOk result (self.new ≡ self.old ++ (record {
          kind = kind;
          rows = size.0;
          cols = size.1;
          letters = letters;
          text = text.now;
        }) ∷ []) }
        ensures room { OnOk result (length self.old < 256) }
        ensures short { OnOk result (length text.now ≤ 1021) }
        ensures same { OnErr result (self.new ≡ self.old) }
        ensures refused { OnErr result (HasNoPlace self.old text.now) }
    {
        if self.waiting.len() >= MOST_REQUESTS {
            return Err(NoPlace);
        }
        if text.len() > MOST_BYTES {
            return Err(NoPlace);
        }
        let Ok(text) = place(self.alloc, &mut self.shared, text) else {
            return Err(NoPlace);
        };
        self.waiting.push_back_reserved(Request {
            kind,
            rows: size.0,
            cols: size.1,
            letters,
            text,
        });
        Ok(())
    }

    /// Queues a row that leaves for good, however many requests wait. Refused if the queue can't grow.
    pub(crate) fn push_row(&mut self, kind: u8, text: Vec<u8>) -> Result<(), NoPlace>
        ensures queued { OnOk result (self.new ≡ self.old ++ of_kind kind text.items ∷ []) }
        ensures same { OnErr result (self.new ≡ self.old) }
        ensures full { OnErr result (256 ≤ length self.old) }
    {
        let Ok(()) = self.waiting.reserve(1) else {
            return Err(NoPlace);
        };
        self.waiting.push_back_reserved(Request {
            kind,
            rows: 0,
            cols: 0,
            letters: 0,
            text: Text::Own(text),
        });
        Ok(())
    }

    /// Copies the oldest request and returns its kind, or 0 if none waits. The request is removed if its text fits.
    pub(crate) fn take(&mut self, dropped: usize, to: &mut [u8], reported: &mut CRequest) -> i32
        ensures told { TellsFirst self.old to.old to.new reported.new dropped result }
        ensures left { self.new ≡ left_waiting self.old to.old }
    {
        let Some(oldest) = self.waiting.front() else {
            *reported = CRequest {
                length: 0,
                letters: 0,
                dropped,
                rows: 0,
                cols: 0,
                kind: 0,
            };
            return 0;
        };
        let text = oldest.text.within(&self.shared);
        let kind = oldest.kind;
        *reported = CRequest {
            length: text.len(),
            letters: oldest.letters,
            dropped,
            rows: oldest.rows,
            cols: oldest.cols,
            kind,
        };
        let mut length = 0;
        copy_prefix(text, to, &mut length);
        if length <= to.len() {
            self.remove_oldest();
        }
        i32::from(kind)
    }

    /// Removes the oldest request.
    fn remove_oldest(&mut self)
        ensures { self.new ≡ drop 1 self.old }
    {
        let Some(oldest) = self.waiting.pop_front() else {
            return;
        };
        if let Text::Shared(length) = oldest.text {
            let rest = self.shared.len() - length;
            self.shared.rotate_left(length);
            self.shared.truncate(rest);
        }
    }
}

/// Puts a text into the shared room, or into memory of its own where the room is too small. Refused if the allocation
/// of this memory fails.
fn place(alloc: Global, shared: &mut Vec<u8>, text: &[u8]) -> Result<Text, AllocError>
    ensures placed { IfOk result (λ t. IsPlaced shared.old.items text.now t shared.new.items) }
    ensures capacity { vec_capacity shared.old ≤ vec_capacity shared.new }
    ensures same { OnErr result (shared.new.items ≡ shared.old.items) }
    ensures refused { OnErr result (vec_capacity shared.old < length shared.old.items + length text.now) }
{
    if text.len() <= shared.capacity() - shared.len() {
        shared.extend_from_slice(text)?;
        return Ok(Text::Shared(text.len()));
    }
    let mut own = Vec::with_capacity(alloc, text.len())?;
    own.extend_from_slice(text)?;
    Ok(Text::Own(own))
}
