//! What plays the steps of a case.
use crate::screens::attributes::{parse_change, tell_change};
use crate::screens::captures::{read_capture, tell_calls, tell_capture};
use crate::screens::forms::tell_form;
use crate::screens::questions::ask;
use crate::screens::stage::Stage;
use case_player::{Answer, StepError, Words, value_of};
use std::alloc::Global;

/// Plays steps on a parser and its screen, on forms and on captures.
#[derive(Drop)]
pub struct ScreenPlayer {
    alloc: Global,
    /// What the step `new` has created.
    stage: Option<Stage>,
}

impl ScreenPlayer {
    /// A player without a parser or a screen.
    pub fn new(alloc: Global) -> ScreenPlayer {
        ScreenPlayer { alloc, stage: None }
    }

    /// Takes a step.
    pub fn take(
        &mut self,
        name: &str,
        words: &Words,
        answer: &mut Answer,
    ) -> Result<(), StepError> {
        match name {
            "new" => return self.renew(words),
            "form" => return tell_form(self.alloc, words, answer),
            "change" => return tell_change(self.alloc, &parse_change(words), answer),
            "cut" | "plain" | "pieces" => read_capture(name, words, answer),
            _ => return self.take_on_screen(name, words, answer),
        }
        Ok(())
    }

    fn renew(&mut self, words: &Words) -> Result<(), StepError> {
        let stage = Stage::new(self.alloc, words)?;
        drop(self.stage.replace(stage));
        Ok(())
    }

    fn take_on_screen(
        &mut self,
        name: &str,
        words: &Words,
        answer: &mut Answer,
    ) -> Result<(), StepError> {
        match &mut self.stage {
            Some(stage) => take_on_stage(self.alloc, stage, name, words, answer),
            None => Err(StepError::Wrong("no step new stands before this step")),
        }
    }
}

/// Takes a step on a stage.
fn take_on_stage(
    alloc: Global,
    stage: &mut Stage,
    name: &str,
    words: &Words,
    answer: &mut Answer,
) -> Result<(), StepError> {
    match kind_of(name) {
        Kind::Change => stage.change(alloc, name, words),
        Kind::ChangeBase => stage.change_base(alloc, name, words),
        Kind::Call => stage.call(alloc, words),
        Kind::Check => stage.check(alloc, name),
        Kind::Calls => tell_calls(&mut stage.parser, answer),
        Kind::Captured => tell_capture(alloc, &stage.parser, false, answer),
        Kind::Capture => tell_capture(alloc, &stage.parser, true, answer),
        Kind::Ask => ask(alloc, stage, name, words, answer),
    }
}

/// What a step on a stage does.
#[derive(Clone, Copy)]
enum Kind {
    Change,
    ChangeBase,
    Call,
    Check,
    Calls,
    Captured,
    Capture,
    Ask,
}

/// What the steps do by their names. Any other one asks the screen.
const KINDS: &[(&str, Kind)] = &[
    ("feed", Kind::Change),
    ("print", Kind::Change),
    ("fill", Kind::Change),
    ("set_size", Kind::Change),
    ("set_screen_size", Kind::Change),
    ("set_scrollback", Kind::Change),
    ("set_base", Kind::ChangeBase),
    ("set_base_shown", Kind::ChangeBase),
    ("set_base_visible", Kind::ChangeBase),
    ("copy_shown", Kind::ChangeBase),
    ("set_base_scrollback", Kind::ChangeBase),
    ("call", Kind::Call),
    ("copy", Kind::Check),
    ("redraw", Kind::Check),
    ("redraw_visible", Kind::Check),
    ("calls", Kind::Calls),
    ("captured", Kind::Captured),
    ("capture", Kind::Capture),
];

fn kind_of(name: &str) -> Kind {
    value_of(KINDS, name).unwrap_or(Kind::Ask)
}
