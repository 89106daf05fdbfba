//! Steps on a parser without callbacks, to which bytes are written.

use case_player::{Answer, StepError, Words};
use std::alloc::Global;
use std::io::{ErrorKind, Write};
use vt100::{Parser, Screen};

/// A parser of this size that keeps up to this many rows, or of the default size if no word is left.
pub fn new_parser(alloc: Global, words: &Words) -> Result<Parser<()>, StepError> {
    let made = if words.is_empty() {
        Parser::new_default(alloc)
    } else {
        Parser::new(alloc, words.size(), words.size(), words.count())
    };
    match made {
        Ok(parser) => Ok(parser),
        Err(_) => Err(StepError::Memory),
    }
}

/// Writes bytes to a parser, and appends how many were taken. If memory is refused, the screen has failed and takes no
/// further bytes.
pub fn write(parser: &mut Parser<()>, bytes: &[u8], answer: &mut Answer) -> Result<(), StepError> {
    match parser.write(bytes) {
        Ok(count) => {
            answer.number(count as u64);
            answer.check(parser.flush().is_ok(), "the flush fails");
            Ok(())
        }
        Err(error) if error.kind() == ErrorKind::OutOfMemory && refuses(parser) => {
            Err(StepError::Ended)
        }
        Err(_) => Err(StepError::Wrong("the write fails otherwise than for memory")),
    }
}

// Whether the screen has failed, and a write fails for that.
fn refuses(parser: &mut Parser<()>) -> bool {
    let kind = match parser.write(b"x") {
        Ok(_) => None,
        Err(error) => Some(error.kind()),
    };
    parser.screen().failed() && kind == Some(ErrorKind::Other)
}

/// Appends the screen's size, its cursor's row and column, how many rows are kept and how many can be, and its text. A
/// copy has the same.
pub fn push_screen(parser: &Parser<()>, answer: &mut Answer) -> Result<(), StepError> {
    let screen = parser.screen();
    match screen.clone() {
        Ok(copy) => push_alike(screen, &copy, answer),
        Err(_) => Err(StepError::Memory),
    }
}

fn push_alike(screen: &Screen, copy: &Screen, answer: &mut Answer) -> Result<(), StepError> {
    let (Ok(shown), Ok(copied)) = (screen.contents(), copy.contents()) else {
        return Err(StepError::Memory);
    };
    let is_same = copied == shown && copy.size() == screen.size();
    answer.check(is_same, "a copy shows something else");
    push_places(screen, answer);
    answer.push(" ");
    answer.quoted(shown.as_bytes());
    Ok(())
}

// The screen's size, its cursor's row and column, how many rows are kept, and how many can be.
fn push_places(screen: &Screen, answer: &mut Answer) {
    let ((rows, cols), (row, col)) = (screen.size(), screen.cursor_position());
    answer.numbers(&[
        u64::from(rows.get()),
        u64::from(cols.get()),
        u64::from(row),
        u64::from(col),
        screen.scrollback_len() as u64,
        screen.scrollback_capacity() as u64,
    ]);
}
