//! Values and their texts: errors, forms of a terminal, and attributes.

use case_player::Answer;
use relay_streams::RelayError;
use std::fmt::{Debug, Display};
use std::io;
use std::io::ErrorKind;
use termrelay::HubError;
use termview::ViewError;
use vt100::{GridError, ScreenError};
use vt100_forms::attrs::{Attrs, Color};
use vt100_forms::{CursorStyle, MouseProtocolEncoding, MouseProtocolMode, Pos, term};

/// Appends the text of each error: of a hub, of a relay, of a screen, of a grid and of a view.
pub fn push_errors(answer: &mut Answer) {
    let fault = HubError::Write(io::Error::from(ErrorKind::BrokenPipe));
    for error in [
        HubError::Memory,
        HubError::Failed,
        HubError::UnknownClient,
        fault,
    ] {
        push_error(&error, answer);
    }
    for error in [
        RelayError::Read,
        RelayError::Write,
        RelayError::Memory,
        RelayError::TooManyReads,
        RelayError::FrameTooLong,
    ] {
        push_error(&error, answer);
    }
    for error in [ScreenError::Memory, ScreenError::Failed] {
        push_error(&error, answer);
    }
    answer.display(&GridError::Memory);
    answer.push(" ");
    push_value(&GridError::Memory, answer);
    push_error(&ViewError::Memory, answer);
}

fn push_error<E: Display>(error: &E, answer: &mut Answer) {
    answer.display(error);
    answer.end_line();
}

fn push_value<T: Debug>(value: &T, answer: &mut Answer) {
    answer.debug(value);
    answer.end_line();
}

/// Appends forms and default values, as their `Debug`.
pub fn push_values(answer: &mut Answer) {
    push_value(&term::MoveTo::new(Pos { row: 1, col: 2 }), answer);
    push_value(&term::MouseProtocolMode::default(), answer);
    push_value(&term::ClearScreen, answer);
    push_value(&term::Attrs::default().italic(true), answer);
    push_value(&MouseProtocolMode::default(), answer);
    push_value(&MouseProtocolEncoding::default(), answer);
    push_value(&CursorStyle::default(), answer);
    push_value(&Pos::default(), answer);
    push_value(&Color::default(), answer);
}

/// Appends a line for attributes that are set and unset: first bold ones, then others without bold, and so on to the
/// default ones.
pub fn push_attributes(answer: &mut Answer) {
    let mut attrs = Attrs::new();
    attrs.set_bold();
    push_flags(answer, &attrs);
    attrs.set_dim();
    attrs.set_italic(true);
    attrs.set_underline(true);
    attrs.set_inverse(true);
    push_flags(answer, &attrs);
    attrs.set_normal_intensity();
    attrs.set_italic(false);
    push_flags(answer, &attrs);
    attrs.set_underline(false);
    attrs.set_inverse(false);
    push_flags(answer, &attrs);
    answer.check(
        attrs == Attrs::default(),
        "these aren't the default attributes",
    );
}

// Appends the bits of the mode, and what the getters return: whether it is bold, dim, italic, underlined, inverse.
fn push_flags(answer: &mut Answer, attrs: &Attrs) {
    answer.number(u64::from(attrs.mode));
    push_flag(attrs.bold(), answer);
    push_flag(attrs.dim(), answer);
    push_flag(attrs.italic(), answer);
    push_flag(attrs.underline(), answer);
    push_flag(attrs.inverse(), answer);
    answer.end_line();
}

fn push_flag(flag: bool, answer: &mut Answer) {
    answer.push(if flag { " true" } else { " false" });
}
