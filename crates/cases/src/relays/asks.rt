//! Steps that report on hubs and change nothing.

use crate::relays::calls::{is_no_memory, push_reply};
use crate::relays::hubs::Hubs;
use crate::relays::wordings::push_text;
use case_player::{Answer, StepError, Words};
use termrelay::runs::Reply;

impl Hubs {
    /// Takes a step that changes nothing.
    pub fn tell(&self, name: &str, words: &Words, answer: &mut Answer) -> Result<(), StepError> {
        match name {
            "owed" => push_text(answer, self.owed(words.count())),
            "writes" => answer.number(self.pumped.writes as u64),
            "screen" => return self.push_screen(answer),
            "color" => match self.hub.screen().cell(words.place(), words.place()) {
                Some(cell) => answer.debug(&cell.fgcolor()),
                None => answer.push("no cell"),
            },
            "session" => self.push_session(words.count(), answer),
            "longer" => self.check_longer(words.count(), words.count(), answer),
            "replies" => self.push_replies(answer),
            "whole" => return self.push_whole(words.count(), answer),
            _ => return Err(StepError::Unknown),
        }
        Ok(())
    }

    // The text that both screens show, and where the cursor is.
    fn push_screen(&self, answer: &mut Answer) -> Result<(), StepError> {
        let (Ok(shown), Ok(also_shown)) = (
            self.hub.screen().contents(),
            self.logged.screen().contents(),
        ) else {
            return Err(StepError::Memory);
        };
        answer.check(shown == also_shown, "the logged hub shows something else");
        answer.quoted(shown.as_bytes());
        let (row, col) = self.hub.screen().cursor_position();
        answer.push(" ");
        answer.numbers(&[u64::from(row), u64::from(col)]);
        Ok(())
    }

    // A client's size, how many bytes were pumped to it, and whether it has ended.
    fn push_session(&self, index: usize, answer: &mut Answer) {
        let Some(session) = self.log.sessions().get(index) else {
            answer.push("there is no such session");
            return;
        };
        answer.numbers(&[
            u64::from(session.rows().get()),
            u64::from(session.cols().get()),
            session.pumped().len() as u64,
        ]);
        if session.ended() {
            answer.push(" ended");
        }
    }

    // Checks that more bytes than this were pumped to a client.
    fn check_longer(&self, index: usize, count: usize, answer: &mut Answer) {
        let pumped = self.seat(index).pumped;
        answer.check(pumped.length > count, "no more bytes were pumped");
    }

    // What draws a client's screen on any terminal.
    fn push_whole(&self, index: usize, answer: &mut Answer) -> Result<(), StepError> {
        let whole = self.hub.whole_frame(self.seat(index).client);
        let reply = whole.map_or_else(Reply::Refused, Reply::Redrawn);
        if is_no_memory(&reply) {
            return Err(StepError::Memory);
        }
        push_reply(answer, &reply);
        Ok(())
    }

    // What the log replied, except to calls that were refused memory.
    fn push_replies(&self, answer: &mut Answer) {
        for reply in self.log.replies() {
            if !is_no_memory(reply) {
                push_reply(answer, reply);
                answer.end_line();
            }
        }
    }
}
