//! The words of steps on grids and on screens.

use case_player::Words;
use vt100_forms::attrs::Attrs;
use vt100_forms::{Color, Pos};

/// A row and a column.
pub fn pos(words: &Words) -> Pos {
    Pos {
        row: words.place(),
        col: words.place(),
    }
}

const FLAGS: &[(&str, bool)] = &[("on", true), ("off", false)];

/// The words `on` and `off`.
pub fn flag(words: &Words) -> bool {
    words.one_of(FLAGS, "on or off", false)
}

/// A text of one character.
pub fn character(words: &Words) -> char {
    let text = words.text();
    match text.chars().next() {
        Some(c) if c.len_utf8() == text.len() => c,
        _ => {
            words.want("one character");
            ' '
        }
    }
}

/// A colour.
pub fn color(words: &Words) -> Color {
    let color = parse_color(words.word());
    let wanted = "a colour: default, an index, or red;green;blue";
    words.named(color, wanted, Color::Default)
}

fn parse_color(word: &str) -> Option<Color> {
    match word.split_once(';') {
        _ if word == "default" => Some(Color::Default),
        Some((red, rest)) => parse_rgb(red, rest),
        None => parse_byte(word).map(Color::Idx),
    }
}

// A colour of three parts. The second and the third one are in `others`.
fn parse_rgb(red: &str, others: &str) -> Option<Color> {
    let (green, blue) = others.split_once(';')?;
    match (parse_byte(red), parse_byte(green), parse_byte(blue)) {
        (Some(red), Some(green), Some(blue)) => Some(Color::Rgb(red, green, blue)),
        _ => None,
    }
}

fn parse_byte(word: &str) -> Option<u8> {
    word.parse::<u8>().ok()
}

/// Attributes: the colours of the text and of the background, and the bits of the mode.
pub fn attributes(words: &Words) -> Attrs {
    let (fgcolor, bgcolor) = (color(words), color(words));
    let mode = parse_byte(words.word());
    Attrs {
        fgcolor,
        bgcolor,
        mode: words.named(mode, "a mode up to 255", 0),
    }
}

/// The same, or the default attributes where no word is left.
pub fn attributes_or_default(words: &Words) -> Attrs {
    if words.is_empty() {
        Attrs::default()
    } else {
        attributes(words)
    }
}
