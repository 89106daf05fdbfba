//! Plays the lines of files.

use crate::answer::Answer;
use crate::invocation::Options;
use crate::lines::{Line, parse_line};
use crate::player::{Player, StepError};
use crate::report::{Fault, Place, push_fault, push_listed};
use crate::words::Words;
use std::alloc::{AllocError, Global};

/// What becomes of the next line.
#[derive(Clone, Copy)]
enum Stage {
    /// No case has begun in this file.
    Outside,
    /// The case isn't played, or it has ended.
    Passed,
    /// A case has begun, and takes its first step.
    Begun,
    /// A step is done, and lines of its answer are wanted.
    Answered,
    /// A step isn't done. What is wanted of it doesn't count.
    Undone,
}

/// What was played so far.
#[derive(Drop)]
pub(crate) struct Play {
    options: Options,
    stage: Stage,
    words: Words,
    answer: Answer,
    /// How many cases have begun, also those that aren't played.
    begun: usize,
    /// How many cases were played.
    pub cases: usize,
    /// How many steps were done.
    pub steps: usize,
    /// How many lines aren't as wanted.
    pub faults: usize,
    /// What isn't reported yet.
    pub report: Answer,
}

impl Play {
    /// Nothing is played yet.
    pub fn new(alloc: Global, options: Options) -> Result<Play, AllocError> {
        Ok(Play {
            options,
            stage: Stage::Outside,
            words: Words::new(alloc)?,
            answer: Answer::new(alloc)?,
            begun: 0,
            cases: 0,
            steps: 0,
            faults: 0,
            report: Answer::without_room(alloc),
        })
    }

    /// Plays the cases of a file.
    pub fn play_text<P: Player>(&mut self, player: &mut P, file: &str, text: &str) {
        self.stage = Stage::Outside;
        let mut place = Place {
            file,
            line: 0,
            title: "",
            step: ("", ""),
        };
        let mut number: usize = 0;
        for line in text.lines() {
            number = number.saturating_add(1);
            self.play_line(player, &mut place, number, parse_line(line));
        }
        self.end_step(&place);
    }

    fn play_line<'a, P: Player>(
        &mut self,
        player: &mut P,
        place: &mut Place<'a>,
        number: usize,
        line: Line<'a>,
    ) {
        match line {
            Line::Nothing => {}
            Line::Wanted(wanted) => self.compare(&place.at(number), wanted),
            Line::Case(title) => {
                self.end_step(place);
                *place = place.of_case(number, title);
                self.begin(player, place);
            }
            Line::Step(name, words) => {
                self.end_step(place);
                *place = place.of_step(number, (name, words));
                self.take(player, place);
            }
        }
    }

    // Reports what isn't as wanted.
    fn fault(&mut self, place: &Place<'_>, fault: Fault<'_>) {
        self.faults = self.faults.saturating_add(1);
        push_fault(&mut self.report, place, fault);
    }

    // Begins a case. It is played, unless the options name another case.
    fn begin<P: Player>(&mut self, player: &mut P, place: &Place<'_>) {
        self.begun = self.begun.saturating_add(1);
        self.stage = Stage::Passed;
        if self.options.lists {
            return push_listed(&mut self.report, self.begun, place);
        }
        match self.options.only {
            Some(only) if only != self.begun => return,
            _ => {}
        }
        self.cases = self.cases.saturating_add(1);
        self.stage = Stage::Begun;
        player.begin(folder_of(place.file));
    }

    fn take<P: Player>(&mut self, player: &mut P, place: &Place<'_>) {
        match self.stage {
            Stage::Outside => self.fault(place, Fault::Stray),
            Stage::Passed => {}
            Stage::Begun | Stage::Answered | Stage::Undone => {
                let outcome = self.taken(player, place.step);
                self.end_taking(place, outcome);
            }
        }
    }

    fn end_taking(&mut self, place: &Place<'_>, outcome: Result<(), StepError>) {
        self.stage = Stage::Undone;
        match outcome {
            Ok(()) => {
                self.stage = Stage::Answered;
                self.steps = self.steps.saturating_add(1);
            }
            Err(StepError::Ended) if self.options.may_refuse => self.stage = Stage::Passed,
            Err(error) => self.fault(place, Fault::Step(error)),
        }
    }

    // Compares the next line of the answer with this one.
    fn compare(&mut self, place: &Place<'_>, wanted: &str) {
        match self.stage {
            Stage::Outside | Stage::Begun => self.fault(place, Fault::Stray),
            Stage::Passed | Stage::Undone => {}
            Stage::Answered => self.compare_next(place, Some(wanted)),
        }
    }

    // Ends the step before: no further line of its answer is wanted.
    fn end_step(&mut self, place: &Place<'_>) {
        if let Stage::Answered = self.stage {
            self.compare_next(place, None);
        }
    }

    fn compare_next(&mut self, place: &Place<'_>, wanted: Option<&str>) {
        if let Some(fault) = fault_of(self.answer.next_line(), wanted) {
            self.faults = self.faults.saturating_add(1);
            push_fault(&mut self.report, place, fault);
        }
    }

    // Takes a step, once more where memory was refused and may be.
    fn taken<P: Player>(&mut self, player: &mut P, step: (&str, &str)) -> Result<(), StepError> {
        match self.take_once(player, step) {
            Err(StepError::Memory) if self.options.may_refuse => self.take_once(player, step),
            outcome => outcome,
        }
    }

    fn take_once<P: Player>(
        &mut self,
        player: &mut P,
        (name, words): (&str, &str),
    ) -> Result<(), StepError> {
        self.words.read(words);
        self.answer.clear();
        let outcome = if self.words.error().is_none() {
            player.take(name, &self.words, &mut self.answer)
        } else {
            Ok(())
        };
        self.outcome(outcome)
    }

    // The outcome of a step, in view of its words and its answer too.
    fn outcome(&self, outcome: Result<(), StepError>) -> Result<(), StepError> {
        match self.words.error() {
            Some(error) => Err(error),
            None if outcome.is_err() => outcome,
            None if self.answer.is_refused() => Err(StepError::Memory),
            None if !self.words.is_empty() => Err(StepError::Word("no further word")),
            None => Ok(()),
        }
    }
}

// The fault of the next line, if it isn't as wanted.
fn fault_of<'a>(answered: Option<&'a str>, wanted: Option<&'a str>) -> Option<Fault<'a>> {
    match (answered, wanted) {
        (None, None) => None,
        (None, Some(wanted)) => Some(Fault::Missing(wanted)),
        (Some(answered), None) => Some(Fault::Unwanted(answered)),
        (Some(answered), Some(wanted)) if answered == wanted => None,
        (Some(answered), Some(wanted)) => Some(Fault::Other { wanted, answered }),
    }
}

// The name of the folder that a file is in, or an empty text if its path has none.
fn folder_of(path: &str) -> &str {
    let Some((folder, _)) = path.rsplit_once('/') else {
        return "";
    };
    match folder.rsplit_once('/') {
        Some((_, last)) => last,
        None => folder,
    }
}
