//! Screens that have failed, since memory was refused.
use crate::checks::check;
use crate::screens::copies::check_copy;
use crate::screens::log::Log;
use crate::screens::stage::process;
use crate::screens::states::places;
use case_player::StepError;
use std::alloc::Global;
use std::num::NonZeroU16;
use vt100::{Parser, Screen, ScreenError};

/// A screen that has failed can still be read.
fn is_readable(screen: &Screen) -> bool {
    let ((rows, cols), (row, col), [len, capacity, offset]) = places(screen);
    row < rows
        && col <= cols
        && len <= capacity
        && offset <= len
        && screen.cell(row, 0).is_some()
        && screen.row_cells(row).is_some()
        && !screen.is_live()
}

/// A screen that has failed takes no calls, and is read as its copy is.
pub fn check_screen(alloc: Global, screen: &mut Screen) -> Result<(), StepError> {
    let before = places(screen);
    let answers = [
        screen.set_size(NonZeroU16::MIN, NonZeroU16::MIN),
        screen.set_scrollback(1),
    ];
    let is_same = screen.failed() && places(screen) == before;
    check(
        is_same && answers == [Err(ScreenError::Failed); 2],
        "a screen that has failed takes a call",
    )?;
    check(
        is_readable(screen),
        "a screen that has failed can't be read",
    )?;
    check_copy(alloc, screen)
}

/// A parser whose screen has failed takes no bytes.
pub fn check_parser(alloc: Global, parser: &mut Parser<Log>) -> Result<(), StepError> {
    let before = places(parser.screen());
    let answers = [
        process(parser, b"\x1bc"),
        process(parser, b""),
        parser.set_size(NonZeroU16::MIN, NonZeroU16::MIN),
    ];
    let is_same = places(parser.screen()) == before;
    check(
        is_same && answers == [Err(ScreenError::Failed); 3],
        "a parser whose screen has failed takes bytes",
    )?;
    check_screen(alloc, parser.screen_mut())
}

/// A case has ended: what memory was refused to has failed, and this is what was found of it.
pub fn ended(found: Result<(), StepError>) -> StepError {
    match found {
        Ok(()) | Err(StepError::Memory) => StepError::Ended,
        Err(fault) => fault,
    }
}
