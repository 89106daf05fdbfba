//! Reports of lines that aren't as wanted.

use crate::answer::Answer;
use crate::player::StepError;

/// Where a player is.
#[derive(Clone, Copy)]
pub(crate) struct Place<'a> {
    /// The file's name.
    pub file: &'a str,
    /// The line's number.
    pub line: usize,
    /// The case's title.
    pub title: &'a str,
    /// The step: its name, and the words after it.
    pub step: (&'a str, &'a str),
}

impl<'a> Place<'a> {
    /// Another line of the same step.
    pub fn at(&self, line: usize) -> Place<'a> {
        Place { line, ..*self }
    }

    /// Where a case begins.
    pub fn of_case(&self, line: usize, title: &'a str) -> Place<'a> {
        Place {
            line,
            title,
            step: ("", ""),
            ..*self
        }
    }

    /// Where a step of the case is taken.
    pub fn of_step(&self, line: usize, step: (&'a str, &'a str)) -> Place<'a> {
        Place {
            line,
            step,
            ..*self
        }
    }
}

/// What isn't as wanted.
#[derive(Clone, Copy)]
pub(crate) enum Fault<'a> {
    /// A line that is answered isn't the one that is wanted.
    Other {
        /// The line that is wanted.
        wanted: &'a str,
        /// The line that is answered.
        answered: &'a str,
    },
    /// This line is wanted, and nothing more is answered.
    Missing(&'a str),
    /// This line is answered, and nothing more is wanted.
    Unwanted(&'a str),
    /// The step isn't done.
    Step(StepError),
    /// A step without a case before it, or a wanted line without a step before it.
    Stray,
}

/// Appends a case with its number, for a list of them.
pub(crate) fn push_listed(report: &mut Answer, number: usize, place: &Place<'_>) {
    report.number(number as u64);
    report.push(" ");
    push_line(report, place);
    report.line(place.title);
}

/// Appends what isn't as wanted there.
pub(crate) fn push_fault(report: &mut Answer, place: &Place<'_>, fault: Fault<'_>) {
    push_place(report, place);
    match fault {
        Fault::Other { wanted, answered } => {
            report.line("another line is answered");
            push_pair(report, "    wanted:   ", wanted);
            push_pair(report, "    answered: ", answered);
        }
        Fault::Missing(wanted) => {
            report.line("nothing more is answered");
            push_pair(report, "    wanted:   ", wanted);
        }
        Fault::Unwanted(answered) => {
            report.line("nothing more is wanted");
            push_pair(report, "    answered: ", answered);
        }
        Fault::Step(error) => push_error(report, error),
        Fault::Stray => report.line("no case or no step stands before this line"),
    }
}

fn push_pair(report: &mut Answer, name: &str, text: &str) {
    report.push(name);
    report.line(text);
}

fn push_line(report: &mut Answer, place: &Place<'_>) {
    report.push(place.file);
    report.push(":");
    report.number(place.line as u64);
    report.push(": ");
}

fn push_place(report: &mut Answer, place: &Place<'_>) {
    push_line(report, place);
    push_title(report, place.title);
    push_step(report, place.step);
}

fn push_title(report: &mut Answer, title: &str) {
    report.push("case \"");
    report.push(title);
    report.push("\": ");
}

fn push_step(report: &mut Answer, (name, words): (&str, &str)) {
    report.push(name);
    report.push(if words.is_empty() { "" } else { " " });
    report.push(words);
    report.push(": ");
}

fn push_error(report: &mut Answer, error: StepError) {
    match error {
        StepError::Unknown => report.line("no step has this name"),
        StepError::Word(wanted) => push_pair(report, wanted, " is wanted"),
        StepError::Memory => report.line("memory was refused"),
        StepError::Ended => report.line("it has failed, since memory was refused"),
        StepError::Wrong(words) => report.line(words),
    }
}
