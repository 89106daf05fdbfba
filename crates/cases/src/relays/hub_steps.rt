//! Steps on hubs.

use crate::faults::fault_named;
use crate::relays::calls::{Kept, Kind, push_reply};
use crate::relays::failing::is_unknown_to;
use crate::relays::hubs::{Hubs, Seat};
use crate::relays::sums::Sum;
use crate::relays::wordings::{MOST_WORDS, count_or, push_text};
use crate::relays::writers::Pumped;
use case_player::{Answer, StepError, Words};
use std::alloc::AllocError;
use std::ops::Range;
use termrelay::Answer as Found;
use termrelay::runs::{Reply, Take};

/// How many bytes a writer takes a write, unless the step has a number.
const MOST: usize = 7;

impl Hubs {
    /// Takes a step.
    pub fn take(
        &mut self,
        name: &str,
        words: &Words,
        answer: &mut Answer,
    ) -> Result<(), StepError> {
        match name {
            "at_once" => self.run_at_once(),
            "far_cuts" => self.cut_far(words, answer),
            "attach" => self.attach(count_or(words, 1)),
            "feed" => self.feed(words.bytes(), count_or(words, 1)),
            "resize" => {
                let clients = 0..self.seats.len();
                self.end(Kind::Resize(words.size(), words.size()), clients)
            }
            "detach" => {
                let index = words.count();
                let kind = Kind::Detach(self.seat(index).client);
                self.end(kind, index..index.saturating_add(1))
            }
            "frame" => self.frame(words.count(), answer),
            "take" => self.take_frame(words.count(), answer),
            "frame_all" => self.frame_all(answer),
            "fork" => self.fork(words.count()),
            "redraw" => self.redraw(words.count(), answer),
            "pump" => self.pump(words, answer),
            "unknown" => {
                self.check_unknown(words.count(), answer);
                Ok(())
            }
            _ => self.tell(name, words, answer),
        }
    }

    // Attaches a number of clients, one after another.
    fn attach(&mut self, times: usize) -> Result<(), StepError> {
        for _ in self.made..times {
            self.seat_next(Kind::Attach, Sum::NONE)?;
            self.made = self.made.saturating_add(1);
        }
        self.made = 0;
        Ok(())
    }

    // Forks a client. The fork counts as having been sent all that this one was sent, and its pending bytes.
    fn fork(&mut self, index: usize) -> Result<(), StepError> {
        let seat = self.seat(index);
        let pumped = seat.pumped.after(self.owed(index));
        self.seat_next(Kind::Fork(seat.client), pumped)
    }

    // Adds the client of a call, to which all this was pumped.
    fn seat_next(&mut self, kind: Kind, pumped: Sum) -> Result<(), StepError> {
        self.seats.reserve(1)?;
        let Reply::Attached(client) = self.make(Kept::new(self.alloc, kind))? else {
            return Err(StepError::Wrong("no client comes"));
        };
        self.seats.push(Seat {
            client,
            owed: Sum::NONE,
            pumped,
            has_ended: false,
        })?;
        Ok(())
    }

    /// Feeds bytes a number of times.
    pub fn feed(&mut self, bytes: &[u8], times: usize) -> Result<(), StepError> {
        for _ in self.made..times {
            let mut kept = Kept::new(self.alloc, Kind::Feed);
            kept.bytes.extend_from_slice(bytes)?;
            self.make_done(kept)?;
            self.made = self.made.saturating_add(1);
        }
        self.made = 0;
        Ok(())
    }

    // Makes a call that ends these clients.
    fn end(&mut self, kind: Kind, clients: Range<usize>) -> Result<(), StepError> {
        self.make_done(Kept::new(self.alloc, kind))?;
        for index in clients {
            if let Some(seat) = self.seats.get_mut(index) {
                seat.has_ended = true;
            }
        }
        Ok(())
    }

    // Makes a call that isn't refused.
    fn make_done(&mut self, kept: Kept) -> Result<(), StepError> {
        match self.make(kept)? {
            Reply::Done => Ok(()),
            _ => Err(StepError::Wrong("the call is refused")),
        }
    }

    // Asks for a client's redraw.
    fn redraw(&mut self, index: usize, answer: &mut Answer) -> Result<(), StepError> {
        let kind = Kind::Redraw(self.seat(index).client);
        let reply = self.make(Kept::new(self.alloc, kind))?;
        push_reply(answer, &reply);
        Ok(())
    }

    // Checks that neither hub knows the client.
    fn check_unknown(&mut self, index: usize, answer: &mut Answer) {
        let client = self.seat(index).client;
        let is_unknown = is_unknown_to(&mut self.hub, client);
        answer.check(is_unknown, "a call knows the client");
        let is_unknown = is_unknown_to(&mut self.logged, client);
        answer.check(is_unknown, "a call of the logged hub knows the client");
    }

    /// Asks for a client's frame.
    pub fn ask_frame(&mut self, index: usize) -> Result<Found, StepError> {
        let kind = Kind::Frame(self.seat(index).client);
        let Reply::Answered(found) = self.make(Kept::new(self.alloc, kind))? else {
            return Err(StepError::Wrong("the frame is refused"));
        };
        let owed = Sum::NONE.after(self.owed(index));
        if let Some(seat) = self.seats.get_mut(index)
            && found.is_frame()
        {
            seat.owed = owed;
        }
        Ok(found)
    }

    /// Appends the answer to a client that asks for a frame, and its pending bytes if that is a frame.
    pub fn push_frame(&self, index: usize, found: Found, answer: &mut Answer) {
        answer.debug(&found);
        if found.is_frame() {
            answer.push(" ");
            push_text(answer, self.owed(index));
        }
    }

    fn frame(&mut self, index: usize, answer: &mut Answer) -> Result<(), StepError> {
        let found = self.ask_frame(index)?;
        self.push_frame(index, found, answer);
        Ok(())
    }

    /// Pumps a client. Checks that what was taken and what is pending then are what was pending before.
    pub fn make_pump(&mut self, index: usize, kept: Kept) -> Result<Reply, StepError> {
        let before = self.seat(index);
        if !self.is_pending() {
            self.pumped = Pumped::after(before.pumped);
        }
        let reply = self.make(kept)?;
        let left = self.owed(index);
        if self.pumped.taken.after(left) != before.owed {
            return Err(StepError::Wrong("the writer got something else than was owed"));
        }
        let owed = Sum::NONE.after(left);
        if let Some(seat) = self.seats.get_mut(index) {
            seat.owed = owed;
            seat.pumped = self.pumped.all;
        }
        Ok(reply)
    }

    fn pump(&mut self, words: &Words, answer: &mut Answer) -> Result<(), StepError> {
        let index = words.count();
        let kind = Kind::Pump(self.seat(index).client);
        let mut kept = Kept::new(self.alloc, kind);
        read_takes(&mut kept, words)?;
        let reply = self.make_pump(index, kept)?;
        answer.number(self.pumped.taken.length as u64);
        if let Reply::Refused(_) = reply {
            answer.push(" ");
            push_reply(answer, &reply);
        }
        Ok(())
    }
}

// What the writes of a pump take: `by N` for each later write, a number for each of the first, the name of a fault for
// a write that fails.
fn read_takes(kept: &mut Kept, words: &Words) -> Result<(), AllocError> {
    kept.most = MOST;
    for _ in 0..MOST_WORDS {
        if words.is_empty() {
            break;
        }
        let take = match words.word() {
            "by" => {
                kept.most = words.count();
                continue;
            }
            word => match word.parse::<usize>() {
                Ok(count) => Take::Bytes(count),
                Err(_) => {
                    kept.fault = fault_named(word, words);
                    Take::Fault
                }
            },
        };
        kept.takes.push(take)?;
    }
    Ok(())
}
