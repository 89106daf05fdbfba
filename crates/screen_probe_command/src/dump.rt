//! A screen as text, a fact a line.

use crate::texts::push_hex;
use std::alloc::AllocError;
use std::fmt;
use std::fmt::Write;
use vt100::{Cell, Color, CursorStyle, MouseProtocolEncoding, MouseProtocolMode, Screen};

/// Appends the state of a screen:
///
/// ```text
/// size ROWS COLS
/// cursor ROW COL hide=0|1
/// modes keypad=0|1 cursor_keys=0|1 paste=0|1 mouse=NAME encoding=NAME style=NAME alternate=0|1
/// updating
/// attrs FG BG FLAGS
/// scrollback len=N offset=N capacity=N
/// cell ROW COL TEXT w=0|1 c=0|1 FG BG FLAGS
/// wrapped ROW
/// ```
///
/// The line `updating` is there only while the program is in a synchronized update of its own. The lines of a row's
/// cells that aren't default ones come before its wrapped line. A text is its UTF-8 in hexadecimal digits, or `-` where
/// it is empty; `w` is a wide cell, `c` the second column of one. A colour is `d` by default, `i` and its number, or
/// `r` and six hexadecimal digits. The flags are `bdiuv` for bold, dim, italic, underlined and inverse, each with `-`
/// in its place where it is off.
pub(crate) fn push_screen(out: &mut String, screen: &Screen) -> Result<(), AllocError> {
    push_place(out, screen)?;
    push_modes(out, screen)?;
    if screen.synchronized_update() {
        out.push_str("updating\n")?;
    }
    push_attrs(out, screen)?;
    push_kept(out, screen)?;
    let (rows, _) = screen.size();
    for row in 0..rows.get() {
        push_row(out, screen, row)?;
    }
    Ok(())
}

// The size and the cursor.
fn push_place(out: &mut String, screen: &Screen) -> Result<(), AllocError> {
    let (rows, cols) = screen.size();
    let (height, width) = (rows.get(), cols.get());
    writeln!(out, "size {height} {width}")?;
    let (row, col) = screen.cursor_position();
    let hide = bit(screen.hide_cursor());
    writeln!(out, "cursor {row} {col} hide={hide}")
}

fn push_modes(out: &mut String, screen: &Screen) -> Result<(), AllocError> {
    let keypad = bit(screen.application_keypad());
    let cursor_keys = bit(screen.application_cursor());
    let paste = bit(screen.bracketed_paste());
    write!(
        out,
        "modes keypad={keypad} cursor_keys={cursor_keys} paste={paste}"
    )?;
    let mouse = mouse_name(screen.mouse_protocol_mode());
    let encoding = encoding_name(screen.mouse_protocol_encoding());
    let style = style_name(screen.cursor_style());
    let alternate = bit(screen.alternate_screen());
    writeln!(
        out,
        " mouse={mouse} encoding={encoding} style={style} alternate={alternate}"
    )
}

fn push_kept(out: &mut String, screen: &Screen) -> Result<(), AllocError> {
    let len = screen.scrollback_len();
    let offset = screen.scrollback();
    let capacity = screen.scrollback_capacity();
    writeln!(
        out,
        "scrollback len={len} offset={offset} capacity={capacity}"
    )
}

fn push_row(out: &mut String, screen: &Screen, row: u16) -> Result<(), AllocError> {
    let (_, cols) = screen.size();
    for col in 0..cols.get() {
        match screen.cell(row, col) {
            None => writeln!(out, "cell {row} {col} absent")?,
            Some(cell) if cell.is_default() => (),
            Some(cell) => push_cell(out, row, col, cell)?,
        }
    }
    if screen.row_wrapped(row) {
        writeln!(out, "wrapped {row}")?;
    }
    Ok(())
}

// A cell that isn't a default one.
fn push_cell(out: &mut String, row: u16, col: u16, cell: &Cell) -> Result<(), AllocError> {
    write!(out, "cell {row} {col} ")?;
    if cell.has_contents() {
        push_hex(out, cell.contents().as_bytes())?;
    } else {
        out.push('-')?;
    }
    let (wide, continuation) = (bit(cell.is_wide()), bit(cell.is_wide_continuation()));
    write!(out, " w={wide} c={continuation} ")?;
    push_colors(out, cell.fgcolor(), cell.bgcolor())?;
    push_flag(out, cell.bold(), 'b')?;
    push_flag(out, cell.dim(), 'd')?;
    push_flag(out, cell.italic(), 'i')?;
    push_flag(out, cell.underline(), 'u')?;
    push_flag(out, cell.inverse(), 'v')?;
    out.push('\n')
}

fn push_attrs(out: &mut String, screen: &Screen) -> Result<(), AllocError> {
    out.push_str("attrs ")?;
    push_colors(out, screen.fgcolor(), screen.bgcolor())?;
    push_flag(out, screen.bold(), 'b')?;
    push_flag(out, screen.dim(), 'd')?;
    push_flag(out, screen.italic(), 'i')?;
    push_flag(out, screen.underline(), 'u')?;
    push_flag(out, screen.inverse(), 'v')?;
    out.push('\n')
}

fn push_colors(out: &mut String, fgcolor: Color, bgcolor: Color) -> Result<(), AllocError> {
    let (fgcolor, bgcolor) = (Shade(fgcolor), Shade(bgcolor));
    write!(out, "{fgcolor} {bgcolor} ")
}

// The letter of a flag that is on, and a hyphen for one that is off.
fn push_flag(out: &mut String, on: bool, letter: char) -> Result<(), AllocError> {
    out.push(if on { letter } else { '-' })
}

// A flag as 0 or 1.
fn bit(on: bool) -> u8 {
    if on { 1 } else { 0 }
}

fn mouse_name(mode: MouseProtocolMode) -> &'static str {
    match mode {
        MouseProtocolMode::None => "None",
        MouseProtocolMode::Press => "Press",
        MouseProtocolMode::PressRelease => "PressRelease",
        MouseProtocolMode::ButtonMotion => "ButtonMotion",
        MouseProtocolMode::AnyMotion => "AnyMotion",
    }
}

fn encoding_name(encoding: MouseProtocolEncoding) -> &'static str {
    match encoding {
        MouseProtocolEncoding::Default => "Default",
        MouseProtocolEncoding::Utf8 => "Utf8",
        MouseProtocolEncoding::Sgr => "Sgr",
    }
}

fn style_name(style: CursorStyle) -> &'static str {
    match style {
        CursorStyle::Default => "Default",
        CursorStyle::BlinkBlock => "BlinkBlock",
        CursorStyle::SteadyBlock => "SteadyBlock",
        CursorStyle::BlinkUnderline => "BlinkUnderline",
        CursorStyle::SteadyUnderline => "SteadyUnderline",
        CursorStyle::BlinkVerticalBar => "BlinkVerticalBar",
        CursorStyle::SteadyVerticalBar => "SteadyVerticalBar",
    }
}

// A colour in a dump.
#[derive(Clone, Copy)]
struct Shade(Color);

impl fmt::Display for Shade {
    fn fmt<W: fmt::Write>(&self, f: &mut fmt::Formatter<W>) -> fmt::Result {
        match self.0 {
            Color::Default => write!(f, "d"),
            Color::Idx(i) => write!(f, "i{i}"),
            Color::Rgb(r, g, b) => write!(f, "r{r:02x}{g:02x}{b:02x}"),
        }
    }
}
