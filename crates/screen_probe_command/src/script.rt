//! Scripts of calls on a parser and its screen.

ghost use Rattle.std.specs.Prelude.{IsOk};
ghost use Rattle.screen_probe_command.specs.Command.{IsReadToItsEnd};

use crate::check::push_check;
use crate::dump::push_screen;
use crate::dumping::{flush, write_text};
use crate::error::DumpError;
use crate::steps::{Question, Step, parse_line};
use crate::texts::{push_diffs, push_rows, push_text, push_texts};
use byte_streams::{FlushSink, Source};
use command_line::read_all;
use std::alloc::Global;
use vt100::{Parser, Screen};

/// Replays a script line by line, and writes the answers to its lines. It begins with a fresh parser of 24 rows and 80
/// columns that keeps no rows.
///
/// A fault ends it. What was written by then stays written.
pub fn run_script<R: Source, W: FlushSink>(
    alloc: Global,
    input: &mut R,
    output: &mut W,
) -> Result<(), DumpError>
    ensures { IsOk result → IsReadToItsEnd R.gives input.old input.new }
{
    let bytes = read_all(alloc, input)?;
    match str::from_utf8(&bytes) {
        Ok(script) => play(alloc, script, output),
        Err(_) => Err(DumpError::Script),
    }
}

fn play<W: FlushSink>(alloc: Global, script: &str, output: &mut W) -> Result<(), DumpError> {
    let mut replay = Replay::new(alloc)?;
    for line in script.lines() {
        let answer = replay.answer_to(line)?;
        write_text(output, &answer)?;
    }
    flush(output)
}

/// The parser that a script's lines work on, and the screen that differences are written from.
#[derive(Drop)]
struct Replay {
    alloc: Global,
    parser: Parser<()>,
    base: Screen,
}

impl Replay {
    fn new(alloc: Global) -> Result<Replay, DumpError> {
        let parser = Parser::new_default(alloc)?;
        let base = parser.screen().clone()?;
        Ok(Replay {
            alloc,
            parser,
            base,
        })
    }

    // Takes the step of a line, and returns the answer to it.
    fn answer_to(&mut self, line: &str) -> Result<String, DumpError> {
        let mut answer = String::new(self.alloc);
        match parse_line(self.alloc, line)? {
            Step::Nothing => (),
            Step::New(rows, cols, capacity) => {
                self.parser = Parser::new(self.alloc, rows, cols, capacity)?;
                self.base = self.parser.screen().clone()?;
                answer.push_str("new\n")?;
            }
            Step::Ask(question) => self.tell(question, &mut answer)?,
            step => self.change(step)?,
        }
        Ok(answer)
    }

    // Takes a step that changes the screen, or keeps it.
    fn change(&mut self, step: Step) -> Result<(), DumpError> {
        match step {
            Step::Feed(bytes) => self.parser.process(&bytes)?,
            Step::Resize(rows, cols) => self.parser.set_size(rows, cols)?,
            Step::ScreenResize(rows, cols) => self.parser.screen_mut().set_size(rows, cols)?,
            Step::SetScrollback(rows) => self.parser.screen_mut().set_scrollback(rows)?,
            Step::ClearScrollback => self.parser.screen_mut().clear_scrollback(),
            Step::Base => self.base = self.parser.screen().clone()?,
            Step::Nothing | Step::New(..) | Step::Ask(_) => (),
        }
        Ok(())
    }

    fn tell(&self, question: Question, answer: &mut String) -> Result<(), DumpError> {
        let (screen, base) = (self.parser.screen(), &self.base);
        match question {
            Question::Dump => Ok(push_screen(answer, screen)?),
            Question::Texts => push_texts(answer, screen),
            Question::Diffs => push_diffs(answer, screen, base),
            Question::Check => push_check(self.alloc, answer, screen, base),
            Question::Rows(start, width) => push_rows(answer, "row", screen.rows(start, width)),
            Question::RowsFormatted(start, width) => {
                push_rows(answer, "row_formatted", screen.rows_formatted(start, width))
            }
            Question::RowsDiff(start, width) => {
                push_rows(answer, "row_diff", screen.rows_diff(base, start, width))
            }
            Question::Between(start_row, start_col, end_row, end_col) => {
                let text = screen.contents_between(start_row, start_col, end_row, end_col)?;
                push_text(answer, "between", &text)
            }
        }
    }
}
