//! The values that C reads from a screen or a view.
ghost use Rattle.std.specs.Prelude.{◌≡◌, ◌≤◌, replicate};
ghost use Rattle.vt100_cells.specs.Cell.{IsCell};
ghost use Rattle.c_objects.specs.Texts.{with_prefix};
ghost use Rattle.c_objects.specs.Looks.{switch, color_of, width_of, cell_of, screen_look, view_look};
ghost use Rattle.c_objects.specs.Copied.{drawing_of};
ghost use Rattle.c_objects.specs.Looks.{mouse_number, encoding_number, style_number};

use crate::copy::copy_prefix;
use crate::plain::{CCell, CColor, CDrawing, CLook};
use termview::{UntilCleared, View};
use vt100::{Cell, Color, CursorStyle, MouseProtocolEncoding, MouseProtocolMode, Screen};

/// 1 for true, 0 for false.
pub(crate) fn switch(on: bool) -> u8
    ensures { result ≡ switch on }
{
    if on { 1 } else { 0 }
}

fn color_of(color: Color) -> CColor
    ensures { result ≡ color_of color }
{
    let (kind, red_or_index, green, blue) = match color {
        Color::Default => (0, 0, 0, 0),
        Color::Idx(index) => (1, index, 0, 0),
        Color::Rgb(red, green, blue) => (2, red, green, blue),
    };
    CColor {
        kind,
        red_or_index,
        green,
        blue,
    }
}

/// How many columns a cell takes: 1 or 2, and 0 for the second half of a wide one.
fn width_of(cell: &Cell) -> u8
    ensures value { result ≡ width_of cell.now }
    ensures valid { IsCell cell.now }
{
    let wide = cell.is_wide();
    if cell.is_wide_continuation() {
        0
    } else if wide {
        2
    } else {
        1
    }
}

/// The length of a cell's text, in bytes.
fn byte_of(length: usize) -> u8
    requires { length ≤ 21 }
    ensures { result ≡ length }
{
    length as u8
}

/// Sets `text` to a text, padded with zeros.
// Most texts are one character of at most three bytes, which costs no call of `memcpy`.
#[inline(always)]
fn pad(contents: &[u8], text: &mut [u8; 32])
    ensures { text.new ≡ with_prefix contents.now (replicate 32 0) }
{
    *text = [0; 32];
    match contents {
        [] => {}
        [byte] => text[0] = *byte,
        [first, second] => {
            text[0] = *first;
            text[1] = *second;
        }
        [first, second, third] => {
            text[0] = *first;
            text[1] = *second;
            text[2] = *third;
        }
        _ => {
            let mut length = 0;
            copy_prefix(contents, text, &mut length);
        }
    }
}

/// Sets `to` to a cell as C reads it.
// Written in place: a value that is stored byte by byte and then moved in larger parts waits for these stores.
#[inline(always)]
pub(crate) fn set_cell(cell: &Cell, to: &mut CCell)
    ensures { to.new ≡ cell_of cell.now }
{
    let width = width_of(cell);
    let contents = cell.contents().as_bytes();
    pad(contents, &mut to.text);
    to.length = byte_of(contents.len());
    to.width = width;
    to.attributes = cell.attrs().mode;
    to.reserved = 0;
    to.foreground = color_of(cell.fgcolor());
    to.background = color_of(cell.bgcolor());
}

fn mouse_number(mode: MouseProtocolMode) -> u8
    ensures { result ≡ mouse_number mode }
{
    match mode {
        MouseProtocolMode::None => 0,
        MouseProtocolMode::Press => 1,
        MouseProtocolMode::PressRelease => 2,
        MouseProtocolMode::ButtonMotion => 3,
        MouseProtocolMode::AnyMotion => 4,
    }
}

fn encoding_number(encoding: MouseProtocolEncoding) -> u8
    ensures { result ≡ encoding_number encoding }
{
    match encoding {
        MouseProtocolEncoding::Default => 0,
        MouseProtocolEncoding::Utf8 => 1,
        MouseProtocolEncoding::Sgr => 2,
    }
}

/// The number of DECSCUSR that sets the style.
fn style_number(style: CursorStyle) -> u8
    ensures { result ≡ style_number style }
{
    match style {
        CursorStyle::Default => 0,
        CursorStyle::BlinkBlock => 1,
        CursorStyle::SteadyBlock => 2,
        CursorStyle::BlinkUnderline => 3,
        CursorStyle::SteadyUnderline => 4,
        CursorStyle::BlinkVerticalBar => 5,
        CursorStyle::SteadyVerticalBar => 6,
    }
}

/// Size, cursor and modes of a screen.
pub(crate) fn screen_look(screen: &Screen) -> CLook
    ensures { result ≡ screen_look screen.now }
{
    let (rows, cols) = screen.size();
    let (row, col) = screen.cursor_position();
    CLook {
        kept: screen.scrollback_len(),
        scrolled: screen.scrollback(),
        rows: rows.get(),
        cols: cols.get(),
        row,
        col,
        hidden: switch(screen.hide_cursor()),
        style: style_number(screen.cursor_style()),
        mouse: mouse_number(screen.mouse_protocol_mode()),
        encoding: encoding_number(screen.mouse_protocol_encoding()),
        keypad: switch(screen.application_keypad()),
        cursor_keys: switch(screen.application_cursor()),
        paste: switch(screen.bracketed_paste()),
        alternate: switch(screen.alternate_screen()),
        updating: switch(screen.synchronized_update()),
        failed: switch(screen.failed()),
    }
}

/// Size, cursor and modes of a view.
pub(crate) fn view_look(view: &View<UntilCleared>) -> CLook
    ensures { result ≡ view_look view.now }
{
    let (rows, cols) = view.size();
    let (row, col) = view.cursor_position();
    CLook {
        kept: 0,
        scrolled: 0,
        rows: rows.get(),
        cols: cols.get(),
        row,
        col,
        hidden: switch(view.hide_cursor()),
        style: style_number(view.cursor_style()),
        mouse: mouse_number(view.mouse_protocol_mode()),
        encoding: encoding_number(view.mouse_protocol_encoding()),
        keypad: switch(view.application_keypad()),
        cursor_keys: switch(view.application_cursor()),
        paste: switch(view.bracketed_paste()),
        alternate: 0,
        updating: 0,
        failed: 0,
    }
}

/// How the next character is drawn on a screen.
pub(crate) fn screen_drawing(screen: &Screen) -> CDrawing
    ensures { result ≡ drawing_of screen.now.state }
{
    CDrawing {
        foreground: color_of(screen.fgcolor()),
        background: color_of(screen.bgcolor()),
        bold: switch(screen.bold()),
        dim: switch(screen.dim()),
        italic: switch(screen.italic()),
        underlined: switch(screen.underline()),
        inverse: switch(screen.inverse()),
    }
}
