//! What writes down the events of a stream, or the calls of a handler.
//!
//! An implementation of `vte`'s `Handler` is proved method by method. So all steps share this one.

ghost use Rattle.std.specs.Prelude.{⊤, map};
ghost use Rattle.std.specs.Str.{chars};
ghost use Rattle.vte_core.specs.Event.{Performs, Print};

use case_player::{Answer, StepError};
use std::alloc::{AllocError, Global};
use std::cell::Cell;
use std::rc::Rc;
use vte::ansi::{Call, Handler};
use vte_core::{Event, Params, Perform};

/// What was written down, without the space or the line's end after it.
pub fn trimmed(told: &Answer) -> &str {
    told.as_str().trim_end()
}

/// The events or calls so far, each as a few words.
#[derive(Drop)]
pub struct Log {
    /// What is written down.
    pub text: Answer,
    /// After how many more events the parser is asked to stop.
    pub left: usize,
    terminated: bool,
    /// The byte whose number is written as `#` at its first occurrence in a stream.
    pub own: Option<u8>,
    // The same byte, until its number was written.
    awaited: Option<u8>,
    /// Whether text is written in short: a character as itself or as its number between `<` and `>`, and a control as
    /// its number after `^`.
    pub is_brief: bool,
    /// Whether a run of text is written down as one: `text` or `ascii`, and its characters' numbers.
    pub tells_runs: bool,
    /// How many inputs there were, if they are counted. Then they aren't written down.
    pub inputs: Option<usize>,
    /// Whether the flag is watched. Then each call is followed by `true` or `false`: whether the flag is up.
    pub watches: bool,
    /// The flag.
    pub flag: Option<Rc<Cell<bool>>>,
    /// Whether memory was refused to what reads a stream.
    pub refused: bool,
}

impl Log {
    /// An empty log with room.
    pub fn new(alloc: Global) -> Result<Log, AllocError> {
        Ok(Log {
            text: Answer::new(alloc)?,
            left: usize::MAX,
            terminated: false,
            own: None,
            awaited: None,
            is_brief: false,
            tells_runs: false,
            inputs: None,
            watches: false,
            flag: None,
            refused: false,
        })
    }

    /// Forgets what is written down: a stream begins.
    pub fn restart(&mut self) {
        self.refused |= self.text.is_refused();
        self.text.clear();
        self.awaited = self.own;
    }

    /// The events or calls so far.
    pub fn told(&self) -> &str {
        trimmed(&self.text)
    }

    /// Fails if memory was refused since the log was created.
    pub fn check(&self) -> Result<(), StepError> {
        if self.refused || self.text.is_refused() {
            Err(StepError::Memory)
        } else {
            Ok(())
        }
    }

    /// Writes down a word.
    pub fn word(&mut self, word: &str) {
        self.text.push(word);
        self.text.push(" ");
    }

    /// Writes down a number.
    pub fn number(&mut self, number: u32) {
        match self.awaited {
            Some(byte) if number == u32::from(byte) => {
                self.awaited = None;
                self.word("#");
            }
            Some(byte) if number > 0xFF && number != 0xFFFD => {
                self.text.push("#+");
                self.plain(number - u32::from(byte));
            }
            _ => self.plain(number),
        }
    }

    fn plain(&mut self, number: u32) {
        self.text.number(u64::from(number));
        self.text.push(" ");
    }

    fn tell(&mut self, word: &str, number: u32) {
        self.word(word);
        self.number(number);
    }

    fn bytes(&mut self, bytes: &[u8]) {
        for byte in bytes {
            self.number(u32::from(*byte));
        }
        self.word("|");
    }

    // A final byte, after the intermediates.
    fn ending(&mut self, intermediates: &[u8], ignore: bool, number: u32) {
        self.bytes(intermediates);
        self.tell(if ignore { "ignored" } else { "kept" }, number);
    }

    fn params(&mut self, word: &str, params: &Params) {
        self.word(word);
        self.text.debug(params);
        self.text.push(" ");
    }

    fn command(&mut self, bell_terminated: bool, pieces: &[&[u8]]) {
        self.word(if bell_terminated { "osc bell" } else { "osc" });
        for piece in pieces {
            self.bytes(piece);
        }
    }

    fn brief(&mut self, c: char) {
        match c {
            ' '..='~' | '\u{FFFD}' => self.text.display(&c),
            _ => {
                self.text.push("<");
                self.text.hexadecimal(c as u32);
                self.text.push(">");
            }
        }
    }

    // A run of text, which is handed over at once.
    fn run(&mut self, word: &str, text: &str)
        ensures { Performs (λ _ _ _. ⊤) self.old (map Print (chars text.now)) self.new }
    {
        let mut is_first = true;
        for c in text.chars() {
            self.character(word, c, is_first);
            is_first = false;
        }
    }

    fn character(&mut self, word: &str, c: char, is_first: bool) {
        if !self.tells_runs {
            self.event(Event::Print(c));
            return;
        }
        if is_first {
            self.word(word);
        }
        self.number(c as u32);
    }

    // Counts an input, if inputs are counted.
    fn counts(&mut self) -> bool {
        match self.inputs {
            Some(count) => {
                self.inputs = Some(count.saturating_add(1));
                true
            }
            None => false,
        }
    }

    // Whether the flag is up, if it is watched.
    fn is_up(&self) -> Option<bool> {
        match &self.flag {
            Some(flag) if self.watches => Some(flag.get()),
            _ => None,
        }
    }

    fn brief_control(&mut self, byte: u8) {
        self.text.push("^");
        self.text.hexadecimal(u32::from(byte));
    }
}

impl Perform for Log {
    ghost step = { λ _ _ _. ⊤ };

    ghost is_terminated = { λ log. log.terminated };

    fn event(&mut self, event: Event<'_>) {
        self.left = self.left.saturating_sub(1);
        self.terminated = self.left == 0;
        match event {
            Event::Print(c) if self.is_brief => self.brief(c),
            Event::Execute(byte) if self.is_brief => self.brief_control(byte),
            Event::Print(c) => self.tell("print", c as u32),
            Event::Execute(byte) => self.tell("execute", byte as u32),
            Event::Hook {
                params,
                intermediates,
                ignore,
                action,
            } => {
                self.params("hook", params);
                self.ending(intermediates, ignore, action as u32);
            }
            Event::Put(byte) => self.tell("put", byte as u32),
            Event::Unhook => self.word("unhook"),
            Event::OscDispatch {
                params,
                bell_terminated,
            } => self.command(bell_terminated, params),
            Event::CsiDispatch {
                params,
                intermediates,
                ignore,
                action,
            } => {
                self.params("csi", params);
                self.ending(intermediates, ignore, action as u32);
            }
            Event::EscDispatch {
                intermediates,
                ignore,
                byte,
            } => {
                self.word("esc");
                self.ending(intermediates, ignore, byte as u32);
            }
        }
    }

    fn terminated(&self) -> bool {
        self.terminated
    }

    fn print_str(&mut self, text: &str) {
        self.run("text", text);
    }

    fn print_ascii(&mut self, text: &str) {
        self.run("ascii", text);
    }
}

impl Handler for Log {
    ghost step = { λ _ _ _. ⊤ };

    fn call(&mut self, call: Call<'_>) {
        if matches!(call, Call::Input(_)) && self.counts() {
            return;
        }
        self.text.debug(&call);
        self.text.push(" ");
        match self.is_up() {
            Some(true) => self.word("true"),
            Some(false) => self.word("false"),
            None => {}
        }
    }
}
