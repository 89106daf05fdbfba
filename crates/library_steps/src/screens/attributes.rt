//! The words of attributes, and the changes from some to others.
use crate::limited::{Limited, tell_written};
use crate::screens::answers::{BEGUN, appended};
use crate::words::{attributes, color, flag};
use case_player::{Answer, StepError, Words};
use std::alloc::Global;
use std::fmt;
use vt100_forms::attrs::Attrs;
use vt100_forms::term::{self, Intensity};

/// Attributes, and others that they are changed to.
pub type Change = (Attrs, Attrs);

/// The attributes before a change, and those after it.
pub fn parse_change(words: &Words) -> Change {
    (attributes(words), attributes(words))
}

fn write_change((old, new): &Change, writer: &mut Limited) -> fmt::Result {
    new.write_escape_code_diff_fmt(writer, old)
}

/// Appends a change.
pub fn tell_change(alloc: Global, change: &Change, answer: &mut Answer) -> Result<(), StepError> {
    let (old, new) = change;
    let mut text = String::from_str(alloc, BEGUN)?;
    let written = new.write_escape_code_diff(&mut text, old);
    tell_written(
        alloc,
        appended(text.as_str(), written)?,
        |writer| write_change(change, writer),
        answer,
    )
}

/// The attributes that are named, each followed by what it is.
pub fn named_attributes(words: &Words) -> term::Attrs {
    let mut attrs = term::Attrs::default();
    for _ in 0..6 {
        if !words.is_empty() {
            attrs = with_next(attrs, words);
        }
    }
    attrs
}

fn with_next(attrs: term::Attrs, words: &Words) -> term::Attrs {
    match words.word() {
        "fgcolor" => attrs.fgcolor(color(words)),
        "bgcolor" => attrs.bgcolor(color(words)),
        "intensity" => attrs.intensity(intensity(words)),
        "italic" => attrs.italic(flag(words)),
        "underline" => attrs.underline(flag(words)),
        "inverse" => attrs.inverse(flag(words)),
        _ => {
            words.want("fgcolor, bgcolor, intensity, italic, underline or inverse");
            attrs
        }
    }
}

const INTENSITIES: &[(&str, Intensity)] = &[
    ("normal", Intensity::Normal),
    ("bold", Intensity::Bold),
    ("dim", Intensity::Dim),
];

fn intensity(words: &Words) -> Intensity {
    words.one_of(INTENSITIES, "normal, bold or dim", Intensity::Normal)
}
