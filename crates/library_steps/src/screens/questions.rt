//! What a screen is asked.
use crate::checks::check;
use crate::screens::answers::{BEGUN, refused, tell_lines};
use crate::screens::stage::Stage;
use crate::screens::states::tell_state;
use crate::screens::texts::{place_of, text_of};
use case_player::{Answer, StepError, Words};
use std::alloc::Global;
use vt100::Screen;

/// Answers a question of the parser's screen, or one after the word `base` of the screen beside it.
pub fn ask(
    alloc: Global,
    stage: &Stage,
    name: &str,
    words: &Words,
    answer: &mut Answer,
) -> Result<(), StepError> {
    let (screen, base) = (stage.parser.screen(), &stage.base.screen);
    match name {
        "base" => answer_of(alloc, base, screen, words.word(), words, answer),
        _ => answer_of(alloc, screen, base, name, words, answer),
    }
}

/// Answers a question of a screen, in some of what differs from `prev`.
fn answer_of(
    alloc: Global,
    screen: &Screen,
    prev: &Screen,
    name: &str,
    words: &Words,
    answer: &mut Answer,
) -> Result<(), StepError> {
    match name {
        "is" => tell_state(answer, screen, words),
        "shows_same" => answer.display(&screen.shows_same(prev)),
        "appended" => return tell_appended(alloc, screen, prev, words.word(), answer),
        _ => return tell_asked(alloc, screen, prev, name, words, answer),
    }
    Ok(())
}

/// Appends the text that is asked for, its length, or its ends.
fn tell_asked(
    alloc: Global,
    screen: &Screen,
    prev: &Screen,
    name: &str,
    words: &Words,
    answer: &mut Answer,
) -> Result<(), StepError> {
    let asked = match name {
        "length" | "ends" => words.word(),
        _ => name,
    };
    let made = text_of(alloc, screen, prev, asked, place_of(asked, words))?;
    match name {
        "length" => answer.number(made.len() as u64),
        "ends" => tell_ends(answer, made.as_str()),
        "rows" | "rows_formatted" | "rows_diff" => tell_lines(answer, made.as_str()),
        _ => answer.quoted_line(made.as_bytes()),
    }
    Ok(())
}

/// The first two bytes of a text, and the last two.
fn tell_ends(answer: &mut Answer, text: &str) {
    answer.quoted_line(text.get(..2).unwrap_or("").as_bytes());
    let last = text.len().saturating_sub(2);
    answer.quoted_line(text.get(last..).unwrap_or("").as_bytes());
}

/// Appends what a text, which isn't empty before, holds after a call that appends to it.
fn tell_appended(
    alloc: Global,
    screen: &Screen,
    prev: &Screen,
    name: &str,
    answer: &mut Answer,
) -> Result<(), StepError> {
    let mut text = String::from_str(alloc, BEGUN)?;
    append(screen, prev, name, &mut text)?;
    answer.quoted_line(text.as_bytes());
    Ok(())
}

/// Makes a call that appends to a text, which keeps what it held before.
fn append(screen: &Screen, prev: &Screen, name: &str, text: &mut String) -> Result<(), StepError> {
    let appended = match name {
        "state_formatted" => screen.write_state_formatted(text),
        "state_diff" => screen.write_state_diff(text, prev),
        _ => return Err(StepError::Word("state_formatted or state_diff")),
    };
    check(
        text.as_str().starts_with(BEGUN),
        "a text has lost what it held before",
    )?;
    appended.map_err(refused)
}
