//! Steps that make many calls. Where memory is refused to one of them, the case ends.

use crate::relays::calls::{Kept, Kind, called, is_done};
use crate::relays::hubs::Hubs;
use crate::relays::wordings::counts;
use crate::relays::writers::Writer;
use case_player::{Answer, StepError, Words};
use termrelay::runs::{Call, Reply};

/// The error of a step that can't be taken again.
fn ended(error: StepError) -> StepError {
    match error {
        StepError::Memory => StepError::Ended,
        error => error,
    }
}

impl Hubs {
    /// Each client asks for a frame and is sent it. All get the same answer.
    pub fn frame_all(&mut self, answer: &mut Answer) -> Result<(), StepError> {
        let mut first = None;
        for index in 0..self.seats.len() {
            let found = self.ask_frame(index).map_err(ended)?;
            let told = Some((found, self.seat(index).owed));
            if index == 0 {
                self.push_frame(index, found, answer);
                first = told;
            }
            if told != first {
                return Err(StepError::Wrong("one client is told something else than another"));
            }
            self.send(index).map_err(ended)?;
        }
        Ok(())
    }

    /// A client asks for a frame and is sent it. Appends the hub's answer.
    pub fn take_frame(&mut self, index: usize, answer: &mut Answer) -> Result<(), StepError> {
        let found = self.ask_frame(index)?;
        answer.debug(&found);
        self.send(index).map_err(ended)
    }

    // Sends a client all its pending bytes.
    fn send(&mut self, index: usize) -> Result<(), StepError> {
        let kind = Kind::Pump(self.seat(index).client);
        match self.make_pump(index, Kept::new(self.alloc, kind))? {
            Reply::Done => Ok(()),
            _ => Err(StepError::Wrong("the pump is refused")),
        }
    }

    /// Sends a client all its pending bytes, and adds them to `sent`. They stay there if the run alone is refused
    /// memory, since nothing is pending after that.
    pub fn send_to(&mut self, index: usize, sent: &mut Vec<u8>) -> Result<(), StepError> {
        let length = sent.len();
        sent.extend_from_slice(self.owed(index))?;
        let outcome = self.send(index);
        if outcome.is_err() && !self.is_pending() {
            sent.truncate(length);
        }
        outcome
    }

    /// Feeds a number of lines of 80 letters, of `a` to `z` again and again. A client is sent a frame after each line,
    /// and the frame is added to `sent`.
    pub fn letters(&mut self, words: &Words, sent: &mut Vec<u8>) -> Result<(), StepError> {
        let index = words.count();
        for line in 0..words.count() {
            self.feed(&[b'a' + (line % 26) as u8; 80], 1)
                .map_err(ended)?;
            self.ask_frame(index).map_err(ended)?;
            self.send_to(index, sent).map_err(ended)?;
        }
        Ok(())
    }

    /// Feeds one hub the bytes at once, and the logged one in pieces of these lengths, again and again.
    pub fn feed_pieces(&mut self, words: &Words, bytes: &[u8]) -> Result<(), StepError> {
        let lengths = counts(self.alloc, words)?;
        let mut writer = Writer::new();
        if !is_done(&called(&mut self.hub, &Call::Feed(bytes), &mut writer)) {
            return Err(StepError::Ended);
        }
        let mut left = bytes;
        for length in lengths.iter().cycle().take(bytes.len()) {
            let (piece, rest) = left.split_at((*length).min(left.len()));
            if !is_done(&called(&mut self.logged, &Call::Feed(piece), &mut writer)) {
                return Err(StepError::Ended);
            }
            left = rest;
        }
        Ok(())
    }
}
