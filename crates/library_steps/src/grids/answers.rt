//! Rows, cells and texts in answers.
use case_player::Answer;
use vt100_core::attrs::Attrs;
use vt100_core::{Cell, Color, Pos, Row};

/// A cell's text: `.` for an empty one, and `_` for the second half of a wide one.
fn text_of(cell: &Cell) -> &str {
    if cell.has_contents() {
        cell.contents()
    } else if cell.is_wide_continuation() {
        "_"
    } else {
        "."
    }
}

/// Appends a row's cells, and `>` where the row is wrapped.
pub fn push_row(answer: &mut Answer, row: &Row) {
    for cell in row.cells() {
        answer.escaped(text_of(cell).as_bytes());
    }
    if row.wrapped() {
        answer.push(">");
    }
}

/// Appends a colour after its name, if it isn't the terminal's own.
fn push_color(answer: &mut Answer, name: &str, color: Color) {
    match color {
        Color::Default => {}
        Color::Idx(index) => push_parts(answer, name, &[index]),
        Color::Rgb(red, green, blue) => push_parts(answer, name, &[red, green, blue]),
    }
}

/// Appends a word, and numbers with a `;` between them.
fn push_parts(answer: &mut Answer, name: &str, parts: &[u8]) {
    answer.push(name);
    let mut between = " ";
    for part in parts {
        answer.push(between);
        answer.number(u64::from(*part));
        between = ";";
    }
}

/// Appends a word that applies.
fn push_word(answer: &mut Answer, applies: bool, word: &str) {
    if applies {
        answer.push(word);
    }
}

/// Appends the modes that a cell is drawn in.
fn push_modes(answer: &mut Answer, cell: &Cell) {
    push_word(answer, cell.bold(), " bold");
    push_word(answer, cell.dim(), " dim");
    push_word(answer, cell.italic(), " italic");
    push_word(answer, cell.underline(), " underline");
    push_word(answer, cell.inverse(), " inverse");
}

/// The attributes that the single calls return.
fn told_attrs(cell: &Cell) -> Attrs {
    let mut attrs = Attrs {
        fgcolor: cell.fgcolor(),
        bgcolor: cell.bgcolor(),
        mode: 0,
    };
    if cell.bold() {
        attrs.set_bold();
    }
    if cell.dim() {
        attrs.set_dim();
    }
    attrs.set_italic(cell.italic());
    attrs.set_underline(cell.underline());
    attrs.set_inverse(cell.inverse());
    attrs
}

/// Appends a cell's text, whether it is wide, and its attributes where they aren't the default ones.
pub fn push_cell(answer: &mut Answer, cell: &Cell) {
    answer.escaped(text_of(cell).as_bytes());
    push_word(answer, cell.is_wide(), " wide");
    push_color(answer, " fg", cell.fgcolor());
    push_color(answer, " bg", cell.bgcolor());
    push_modes(answer, cell);
    answer.end_line();
    answer.check(
        cell.attrs() == told_attrs(cell),
        "attrs() tells other attributes than the single calls",
    );
}

/// Appends a row and a column.
pub fn push_pos(answer: &mut Answer, pos: Pos) {
    answer.numbers(&[u64::from(pos.row), u64::from(pos.col)]);
}

/// Whether something draws with the default attributes.
pub fn plainness(attrs: Attrs) -> &'static str {
    if attrs == Attrs::new() {
        "plain"
    } else {
        "not plain"
    }
}
