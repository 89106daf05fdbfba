//! The forms that are sent to a terminal.
use crate::limited::tell_written;
use crate::screens::answers::{BEGUN, appended};
use crate::screens::attributes::named_attributes;
use crate::screens::modes::{cursor_style, mouse_encoding, mouse_mode};
use crate::words::{flag, pos};
use case_player::{Answer, StepError, Words};
use std::alloc::Global;
use vt100_forms::term::{self, BufWrite};

/// Appends a form.
fn tell<B: BufWrite>(alloc: Global, form: &B, answer: &mut Answer) -> Result<(), StepError> {
    let mut text = String::from_str(alloc, BEGUN)?;
    let written = form.write_buf(&mut text);
    tell_written(
        alloc,
        appended(text.as_str(), written)?,
        |writer| form.write_fmt(writer),
        answer,
    )
}

/// Appends the form that the words name. A form without the words that it may have is the default one.
pub fn tell_form(alloc: Global, words: &Words, answer: &mut Answer) -> Result<(), StepError> {
    match words.word() {
        "clear_screen" => tell(alloc, &term::ClearScreen, answer),
        "clear_row_forward" => tell(alloc, &term::ClearRowForward, answer),
        "clear_attrs" => tell(alloc, &term::ClearAttrs, answer),
        "crlf" => tell(alloc, &term::Crlf, answer),
        "backspace" => tell(alloc, &term::Backspace, answer),
        "save_cursor" => tell(alloc, &term::SaveCursor, answer),
        "restore_cursor" => tell(alloc, &term::RestoreCursor, answer),
        "attrs" => tell(alloc, &named_attributes(words), answer),
        name if words.is_empty() => tell_default(alloc, name, words, answer),
        name => tell_moving(alloc, name, words, answer),
    }
}

fn tell_default(
    alloc: Global,
    name: &str,
    words: &Words,
    answer: &mut Answer,
) -> Result<(), StepError> {
    match name {
        "erase_char" => tell(alloc, &term::EraseChar::default(), answer),
        "move_to" => tell(alloc, &term::MoveTo::default(), answer),
        "move_right" => tell(alloc, &term::MoveRight::default(), answer),
        "hide_cursor" => tell(alloc, &term::HideCursor::default(), answer),
        "application_keypad" => tell(alloc, &term::ApplicationKeypad::default(), answer),
        "application_cursor" => tell(alloc, &term::ApplicationCursor::default(), answer),
        "bracketed_paste" => tell(alloc, &term::BracketedPaste::default(), answer),
        "mouse_mode" => tell(alloc, &term::MouseProtocolMode::default(), answer),
        "mouse_encoding" => tell(alloc, &term::MouseProtocolEncoding::default(), answer),
        "cursor_style" => tell(alloc, &term::CursorStyle::default(), answer),
        _ => {
            words.want("the name of a form");
            Ok(())
        }
    }
}

fn tell_moving(
    alloc: Global,
    name: &str,
    words: &Words,
    answer: &mut Answer,
) -> Result<(), StepError> {
    match name {
        "erase_char" => tell(alloc, &term::EraseChar::new(words.place()), answer),
        "move_right" => tell(alloc, &term::MoveRight::new(words.place()), answer),
        "move_to" => tell(alloc, &term::MoveTo::new(pos(words)), answer),
        "move_from_to" => {
            let form = term::MoveFromTo::new(pos(words), pos(words));
            tell(alloc, &form, answer)
        }
        _ => tell_mode(alloc, name, words, answer),
    }
}

fn tell_mode(
    alloc: Global,
    name: &str,
    words: &Words,
    answer: &mut Answer,
) -> Result<(), StepError> {
    match name {
        "hide_cursor" => tell(alloc, &term::HideCursor::new(flag(words)), answer),
        "application_keypad" => {
            let form = term::ApplicationKeypad::new(flag(words));
            tell(alloc, &form, answer)
        }
        "application_cursor" => {
            let form = term::ApplicationCursor::new(flag(words));
            tell(alloc, &form, answer)
        }
        "bracketed_paste" => tell(alloc, &term::BracketedPaste::new(flag(words)), answer),
        _ => tell_choice(alloc, name, words, answer),
    }
}

/// The change of a choice: the words are the new choice, and the one before it.
fn tell_choice(
    alloc: Global,
    name: &str,
    words: &Words,
    answer: &mut Answer,
) -> Result<(), StepError> {
    match name {
        "mouse_mode" => {
            let form = term::MouseProtocolMode::new(mouse_mode(words), mouse_mode(words));
            tell(alloc, &form, answer)
        }
        "mouse_encoding" => {
            let (new, old) = (mouse_encoding(words), mouse_encoding(words));
            tell(alloc, &term::MouseProtocolEncoding::new(new, old), answer)
        }
        "cursor_style" => {
            let form = term::CursorStyle::new(cursor_style(words), cursor_style(words));
            tell(alloc, &form, answer)
        }
        _ => {
            words.want("the name of a form");
            Ok(())
        }
    }
}
