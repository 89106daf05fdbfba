//! Values of the handler's calls, and constants in the order of their numbers.

use super::updates::tell_timeout;
use case_player::{Answer, StepError, Words};
use std::str::FromStr;
use vte::ansi::{
    C0, Flags, KeyboardModes, Mode, NamedColor, NamedMode, NamedPrivateMode, OutOfMemory,
    PrivateMode, Rgb, StandardCharset,
};
use vte_core::Params;

const CONTROLS: &[u8] = &[
    C0::NUL,
    C0::SOH,
    C0::STX,
    C0::ETX,
    C0::EOT,
    C0::ENQ,
    C0::ACK,
    C0::BEL,
    C0::BS,
    C0::HT,
    C0::LF,
    C0::VT,
    C0::FF,
    C0::CR,
    C0::SO,
    C0::SI,
    C0::DLE,
    C0::XON,
    C0::DC2,
    C0::XOFF,
    C0::DC4,
    C0::NAK,
    C0::SYN,
    C0::ETB,
    C0::CAN,
    C0::EM,
    C0::SUB,
    C0::ESC,
    C0::FS,
    C0::GS,
    C0::RS,
    C0::US,
    C0::DEL,
];

const COLORS: &[NamedColor] = &[
    NamedColor::Black,
    NamedColor::Red,
    NamedColor::Green,
    NamedColor::Yellow,
    NamedColor::Blue,
    NamedColor::Magenta,
    NamedColor::Cyan,
    NamedColor::White,
    NamedColor::BrightBlack,
    NamedColor::BrightRed,
    NamedColor::BrightGreen,
    NamedColor::BrightYellow,
    NamedColor::BrightBlue,
    NamedColor::BrightMagenta,
    NamedColor::BrightCyan,
    NamedColor::BrightWhite,
    NamedColor::Foreground,
    NamedColor::Background,
    NamedColor::Cursor,
    NamedColor::DimBlack,
    NamedColor::DimRed,
    NamedColor::DimGreen,
    NamedColor::DimYellow,
    NamedColor::DimBlue,
    NamedColor::DimMagenta,
    NamedColor::DimCyan,
    NamedColor::DimWhite,
    NamedColor::BrightForeground,
    NamedColor::DimForeground,
];

/// Takes a step on values and constants, if it is one.
pub fn tell_value(name: &str, words: &Words, answer: &mut Answer) {
    match name {
        "mode" => push_mode(words.place(), answer),
        "private_mode" => push_private_mode(words.place(), answer),
        "color" => push_color(words, answer),
        "color_sums" => push_sums(words, answer),
        "drawn" => push_drawn(words.text(), answer),
        "controls" => answer.debug(&CONTROLS),
        "named_colors" => push_colors(answer),
        "keyboard_modes" => push_keyboard_modes(answer),
        "named_modes" => push_modes(answer),
        "timeout" => tell_timeout(words, answer),
        "no_params" => push_params(&Params::default(), answer),
        "out_of_memory" => answer.display(&OutOfMemory),
        _ => words.fail(StepError::Unknown),
    }
}

// A mode, and its number.
fn push_mode(number: u16, answer: &mut Answer) {
    let mode = Mode::new(number);
    answer.debug(&mode);
    push_number(mode.raw(), answer);
}

fn push_private_mode(number: u16, answer: &mut Answer) {
    let mode = PrivateMode::new(number);
    answer.debug(&mode);
    push_number(mode.raw(), answer);
}

// A number after something else.
fn push_number(number: u16, answer: &mut Answer) {
    answer.push(" ");
    answer.number(u64::from(number));
}

fn parse_color(words: &Words) -> Option<Rgb> {
    Rgb::from_str(words.text()).ok()
}

fn push_color(words: &Words, answer: &mut Answer) {
    match parse_color(words) {
        Some(color) => answer.display(&color),
        None => answer.push("no colour"),
    }
}

// The sum of two colours, and their difference.
fn push_sums(words: &Words, answer: &mut Answer) {
    match (parse_color(words), parse_color(words)) {
        (Some(first), Some(second)) => {
            answer.display(&(first + second));
            answer.push(" ");
            answer.display(&(first - second));
        }
        _ => words.want("a colour"),
    }
}

// What is drawn for characters in DEC's special graphics, and in ASCII.
fn push_drawn(text: &str, answer: &mut Answer) {
    for set in [
        StandardCharset::SpecialCharacterAndLineDrawing,
        StandardCharset::Ascii,
    ] {
        for c in text.chars() {
            push_character(set, c, answer);
        }
        answer.end_line();
    }
}

fn push_character(set: StandardCharset, c: char, answer: &mut Answer) {
    answer.display(&set.map(c));
}

// A line for each colour: its number, its name, and its bright and its dim form.
fn push_colors(answer: &mut Answer) {
    for color in COLORS {
        answer.number(*color as u64);
        answer.push(" ");
        answer.debug(color);
        answer.push(", ");
        answer.debug(&color.to_bright());
        answer.push(", ");
        answer.debug(&color.to_dim());
        answer.end_line();
    }
}

fn push_keyboard_modes(answer: &mut Answer) {
    let bits = [
        KeyboardModes::NO_MODE.bits(),
        KeyboardModes::DISAMBIGUATE_ESC_CODES.bits(),
        KeyboardModes::REPORT_EVENT_TYPES.bits(),
        KeyboardModes::REPORT_ALTERNATE_KEYS.bits(),
        KeyboardModes::REPORT_ALL_KEYS_AS_ESC.bits(),
        KeyboardModes::REPORT_ASSOCIATED_TEXT.bits(),
    ];
    answer.debug(&bits);
}

// The numbers of modes that are created from their names: insert, new line, and origin.
fn push_modes(answer: &mut Answer) {
    answer.number(u64::from(Mode::from(NamedMode::Insert).raw()));
    push_number(Mode::from(NamedMode::LineFeedNewLine).raw(), answer);
    push_number(PrivateMode::from(NamedPrivateMode::Origin).raw(), answer);
}

// How many parameters there are, whether the list is empty, whether the first one is missing, and their text.
fn push_params(params: &Params, answer: &mut Answer) {
    answer.number(params.len() as u64);
    answer.push(" ");
    answer.display(&params.is_empty());
    answer.push(" ");
    answer.display(&params.iter().next().is_none());
    answer.push(" ");
    answer.debug(params);
}
