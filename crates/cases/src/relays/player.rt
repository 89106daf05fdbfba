//! What the steps of a case work on.

use super::{parsers, views};
use crate::relays::cuts::{advance, each_cut, each_two_cuts, view_in_pieces};
use crate::relays::hubs::{Hubs, new_hub};
use crate::relays::readers::fill_piece;
use crate::relays::values::{push_attributes, push_errors, push_values};
use crate::relays::wordings::counts;
use case_player::{Answer, StepError, Words, value_of};
use std::alloc::Global;
use std::mem;
use termview::{UntilCleared, View};
use vt100::Parser;

/// Hubs, a view, a parser and an input, as far as a case has them.
#[derive(Drop)]
pub struct RelayPlayer {
    alloc: Global,
    hubs: Option<Hubs>,
    view: Option<View<UntilCleared>>,
    parser: Option<Parser<()>>,
    // What hubs are fed in pieces, and what was sent to clients.
    input: Vec<u8>,
    // How many bytes of the input a view has got.
    read: usize,
}

/// The error of a step on a hub that isn't there.
const NO_HUB: StepError = StepError::Wrong("there is no hub yet");

const NO_VIEW: StepError = StepError::Wrong("there is no view yet");

const NO_PARSER: StepError = StepError::Wrong("there is no parser yet");

impl RelayPlayer {
    /// A player without hubs, view or parser.
    pub fn new(alloc: Global) -> RelayPlayer {
        RelayPlayer {
            alloc,
            hubs: None,
            view: None,
            parser: None,
            input: Vec::new(alloc),
            read: 0,
        }
    }

    fn make_hubs(&mut self, words: &Words) -> Result<(), StepError> {
        let size = (words.size(), words.size());
        match (new_hub(self.alloc, size), new_hub(self.alloc, size)) {
            (Ok(hub), Ok(logged)) => {
                drop(self.hubs.replace(Hubs::new(self.alloc, size, hub, logged)));
                Ok(())
            }
            _ => Err(StepError::Memory),
        }
    }

    // Makes a view of this size the current one. Its bytes come in pieces of these lengths.
    fn make_view(&mut self, words: &Words) -> Result<(), StepError> {
        let size = (words.size(), words.size());
        let bytes = if words.is_empty() { b"" } else { words.bytes() };
        let cuts = counts(self.alloc, words)?;
        let view = view_in_pieces(self.alloc, size, bytes, &cuts)?;
        drop(self.view.replace(view));
        Ok(())
    }

    // Makes a far view of all calls so far the current one.
    fn find_far(&mut self, words: &Words, answer: &mut Answer) -> Result<(), StepError> {
        let Some(hubs) = &self.hubs else {
            return Err(NO_HUB);
        };
        let (session, take) = (words.count(), words.count());
        let cuts = counts(self.alloc, words)?;
        let view = hubs.far(session, take, &cuts)?;
        drop(mem::replace(&mut self.view, view));
        if self.view.is_none() {
            answer.push("none");
        }
        Ok(())
    }

    // A step on hubs. Checks that each client has the right pending bytes afterwards.
    fn take_hubs(
        &mut self,
        name: &str,
        words: &Words,
        answer: &mut Answer,
    ) -> Result<(), StepError> {
        let Some(hubs) = &mut self.hubs else {
            return Err(NO_HUB);
        };
        let outcome = match name {
            "send" => hubs.send_to(words.count(), &mut self.input),
            "letters" => hubs.letters(words, &mut self.input),
            "pieces" => hubs.feed_pieces(words, &self.input),
            _ => hubs.take(name, words, answer),
        };
        hubs.checked(outcome)
    }

    // A step on a view alone, or on a view and the input.
    fn take_view(
        &mut self,
        name: &str,
        words: &Words,
        answer: &mut Answer,
    ) -> Result<(), StepError> {
        let Some(view) = &mut self.view else {
            return Err(NO_VIEW);
        };
        if name != "read_but" {
            return views::take(self.alloc, view, name, words, answer);
        }
        let end = self.input.len().saturating_sub(words.count());
        advance(view, self.input.get(self.read..end).unwrap_or(b""));
        self.read = end;
        Ok(())
    }

    // A step on a parser.
    fn take_parser(
        &mut self,
        name: &str,
        words: &Words,
        answer: &mut Answer,
    ) -> Result<(), StepError> {
        if name == "parser" {
            let parser = parsers::new_parser(self.alloc, words)?;
            drop(self.parser.replace(parser));
            return Ok(());
        }
        match &mut self.parser {
            Some(parser) if name == "write" => parsers::write(parser, words.bytes(), answer),
            Some(parser) => parsers::push_screen(parser, answer),
            None => Err(NO_PARSER),
        }
    }

    /// Takes a step.
    pub fn take(
        &mut self,
        name: &str,
        words: &Words,
        answer: &mut Answer,
    ) -> Result<(), StepError> {
        match kind_of(name) {
            Kind::Hub => self.make_hubs(words),
            Kind::View => self.make_view(words),
            Kind::Far => self.find_far(words, answer),
            Kind::Values => {
                tell_values(name, words, answer);
                Ok(())
            }
            Kind::Parser => self.take_parser(name, words, answer),
            Kind::Input => Ok(self.input.extend_from_slice(words.bytes())?),
            Kind::Cuts => tell_cuts(self.alloc, name, words, answer),
            Kind::OnView => self.take_view(name, words, answer),
            Kind::OnHubs => self.take_hubs(name, words, answer),
        }
    }
}

// What a step does.
#[derive(Clone, Copy)]
enum Kind {
    Hub,
    View,
    Far,
    Values,
    Parser,
    Input,
    Cuts,
    OnView,
    OnHubs,
}

// What the steps do by their names. Any other one is a step on hubs.
const KINDS: &[(&str, Kind)] = &[
    ("hub", Kind::Hub),
    ("view", Kind::View),
    ("far", Kind::Far),
    ("fill", Kind::Values),
    ("errors", Kind::Values),
    ("values", Kind::Values),
    ("attributes", Kind::Values),
    ("parser", Kind::Parser),
    ("write", Kind::Parser),
    ("parsed", Kind::Parser),
    ("input", Kind::Input),
    ("cuts", Kind::Cuts),
    ("stops", Kind::Cuts),
    ("two_cuts", Kind::Cuts),
    ("read_but", Kind::OnView),
    ("advance", Kind::OnView),
    ("stop", Kind::OnView),
    ("shown", Kind::OnView),
    ("cursor", Kind::OnView),
    ("settings", Kind::OnView),
    ("cell", Kind::OnView),
    ("held", Kind::OnView),
    ("text", Kind::OnView),
    ("wrapped", Kind::OnView),
    ("row", Kind::OnView),
    ("runs", Kind::OnView),
];

fn kind_of(name: &str) -> Kind {
    value_of(KINDS, name).unwrap_or(Kind::OnHubs)
}

// A step that cuts bytes everywhere.
fn tell_cuts(
    alloc: Global,
    name: &str,
    words: &Words,
    answer: &mut Answer,
) -> Result<(), StepError> {
    match name {
        "two_cuts" => each_two_cuts(alloc, words, answer),
        _ => each_cut(alloc, name == "stops", words, answer),
    }
}

// A step on values alone.
fn tell_values(name: &str, words: &Words, answer: &mut Answer) {
    match name {
        "fill" => fill_piece(words.number(), answer),
        "errors" => push_errors(answer),
        "values" => push_values(answer),
        _ => push_attributes(answer),
    }
}
