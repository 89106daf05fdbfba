//! What a case works on.
use crate::checks::check;
use crate::screens::answers::refused;
use crate::screens::copies::check_copy;
use crate::screens::failed::{check_parser, check_screen, ended};
use crate::screens::log::Log;
use crate::screens::states::{check_bounds, places};
use case_player::{StepError, Words};
use std::alloc::Global;
use std::mem;
use std::num::NonZeroU16;
use vt100::{Callbacks, Parser, Screen, ScreenError, WrappedScreen};

/// The longest text of a cell: 21 bytes.
const CELL: &str = "e\u{E0100}\u{E0100}\u{E0100}\u{E0100}\u{E0100}";

/// A parser, and a screen beside it.
#[derive(Drop)]
pub struct Stage {
    /// The parser, whose callbacks write down what they get.
    pub parser: Parser<Log>,
    /// What differences are taken from, and what direct calls are made on.
    pub base: WrappedScreen<()>,
    /// How many rows the main sheet keeps at most.
    capacity: usize,
}

impl Stage {
    /// A new parser, and a copy of its screen. The words are its rows, its columns and how many rows it keeps at most.
    pub fn new(alloc: Global, words: &Words) -> Result<Stage, StepError> {
        let (rows, cols, capacity) = (words.size(), words.size(), words.count());
        Stage::of(new_parser(alloc, rows, cols, capacity)?, capacity)
    }

    fn of(parser: Parser<Log>, capacity: usize) -> Result<Stage, StepError> {
        let base = copy_of(parser.screen())?;
        Ok(Stage {
            parser,
            base,
            capacity,
        })
    }

    /// A call on the parser has given this answer. Where memory was refused the case ends.
    fn settle(&mut self, alloc: Global, answer: Result<(), ScreenError>) -> Result<(), StepError> {
        match (answer, self.parser.screen().failed()) {
            (Ok(()), false) => Ok(()),
            (Err(ScreenError::Memory), true) => Err(ended(check_parser(alloc, &mut self.parser))),
            _ => Err(StepError::Wrong(
                "the answer and the screen tell different things of a failure",
            )),
        }
    }

    /// A call on the screen beside the parser has given this answer.
    fn settle_base(
        &mut self,
        alloc: Global,
        answer: Result<(), ScreenError>,
    ) -> Result<(), StepError> {
        match (answer, self.base.screen.failed()) {
            (Ok(()), false) => Ok(()),
            (Err(ScreenError::Memory), true) => {
                Err(ended(check_screen(alloc, &mut self.base.screen)))
            }
            _ => Err(StepError::Wrong(
                "the answer and the base screen tell different things of a failure",
            )),
        }
    }

    /// Feeds bytes. The screen keeps its size and its capacity where they are refused, unless a size was granted.
    fn feed(&mut self, alloc: Global, stream: &[u8]) -> Result<(), StepError> {
        let (size, _, _) = places(self.parser.screen());
        let answer = process(&mut self.parser, stream);
        if answer.is_err() && !self.parser.callbacks().is_resized {
            check_bounds(self.parser.screen(), size, self.capacity)?;
        }
        self.settle(alloc, answer)
    }

    /// Feeds what takes no memory.
    fn print(&mut self, stream: &[u8]) -> Result<(), StepError> {
        let answer = process(&mut self.parser, stream);
        check(answer.is_ok(), "memory was asked for")
    }

    /// Fills a number of cells with the longest text.
    fn fill(&mut self, alloc: Global, cells: u16) -> Result<(), StepError> {
        for _ in 0..cells {
            self.feed(alloc, CELL.as_bytes())?;
        }
        Ok(())
    }

    /// Takes a step that changes the parser or its screen.
    pub fn change(&mut self, alloc: Global, name: &str, words: &Words) -> Result<(), StepError> {
        match name {
            "feed" => self.feed(alloc, words.bytes()),
            "print" => self.print(words.bytes()),
            "fill" => self.fill(alloc, words.place()),
            _ => {
                let answer = self.resize(name, words);
                self.settle(alloc, answer)
            }
        }
    }

    /// Gives the screen another size, or shows kept rows.
    fn resize(&mut self, name: &str, words: &Words) -> Result<(), ScreenError> {
        match name {
            "set_size" => self.parser.set_size(words.size(), words.size()),
            "set_screen_size" => {
                let (rows, cols) = (words.size(), words.size());
                self.parser.screen_mut().set_size(rows, cols)
            }
            _ => self.parser.screen_mut().set_scrollback(words.count()),
        }
    }

    /// Takes a step that changes the screen beside the parser.
    pub fn change_base(
        &mut self,
        alloc: Global,
        name: &str,
        words: &Words,
    ) -> Result<(), StepError> {
        let screen = self.parser.screen();
        match name {
            "copy_shown" => self.base.screen.copy_shown(screen).map_err(refused),
            "set_base_scrollback" => {
                let answer = self.base.screen.set_scrollback(words.count());
                self.settle_base(alloc, answer)
            }
            _ => {
                let copy = copied(screen, name)?;
                drop(mem::replace(&mut self.base.screen, copy));
                Ok(())
            }
        }
    }

    /// Makes a call on the screen beside the parser.
    pub fn call(&mut self, alloc: Global, words: &Words) -> Result<(), StepError> {
        let answer = crate::screens::direct::call(&mut self.base, words);
        self.settle_base(alloc, answer)
    }

    /// Takes a step that checks the screen.
    pub fn check(&self, alloc: Global, name: &str) -> Result<(), StepError> {
        match name {
            "copy" => check_copy(alloc, self.parser.screen()),
            "redraw_visible" => {
                let copy = copied(self.parser.screen(), name)?;
                check_redraw(alloc, &copy)
            }
            _ => check_redraw(alloc, self.parser.screen()),
        }
    }
}

fn new_parser(
    alloc: Global,
    rows: NonZeroU16,
    cols: NonZeroU16,
    capacity: usize,
) -> Result<Parser<Log>, StepError> {
    let log = Log::new(alloc)?;
    Parser::new_with_callbacks(alloc, rows, cols, capacity, log).map_err(refused)
}

/// A copy of a screen, of the sheet that it shows, or of the rows that it shows.
fn copied(screen: &Screen, name: &str) -> Result<Screen, StepError> {
    let copy = match name {
        "set_base" => screen.clone(),
        "set_base_shown" => screen.clone_shown(),
        _ => screen.clone_visible(),
    };
    copy.map_err(refused)
}

/// A copy of a screen, without callbacks.
fn copy_of(screen: &Screen) -> Result<WrappedScreen<()>, StepError> {
    let screen = copied(screen, "set_base")?;
    Ok(WrappedScreen {
        screen,
        callbacks: (),
    })
}

/// A parser reads bytes. A call of it is proved against all that it has read before, so all steps share this one.
pub fn process<CB: Callbacks>(parser: &mut Parser<CB>, bytes: &[u8]) -> Result<(), ScreenError> {
    parser.process(bytes)
}

/// A new parser draws the screen. Nothing differs then.
fn check_redraw(alloc: Global, screen: &Screen) -> Result<(), StepError> {
    let (rows, cols) = screen.size();
    let mut again = Parser::new(alloc, rows, cols, 0).map_err(refused)?;
    check_drawn(screen, &mut again)
}

fn check_drawn(screen: &Screen, again: &mut Parser<()>) -> Result<(), StepError> {
    let state = screen.state_formatted().map_err(refused)?;
    process(again, state.as_bytes()).map_err(refused)?;
    let difference = again.screen().state_diff(screen).map_err(refused)?;
    check(difference.is_empty(), "the screen is drawn otherwise")
}
