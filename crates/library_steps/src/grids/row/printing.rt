//! Characters that are printed on a row.
use crate::grids::answers::push_cell;
use crate::words::character;
use case_player::{Answer, Words};
use vt100_core::Row;
use vt100_core::attrs::Attrs;
use vt100_rows::{Join, columns};

/// Prints a text from column `col` on, as far as the row goes.
pub fn print(row: &mut Row, col: u16, text: &str, attrs: Attrs) {
    let mut col = col;
    for c in text.chars() {
        col = col.saturating_add(print_character(row, col, c, attrs));
    }
}

/// Prints a character, if it fits. Returns by how many columns the next one is further on.
fn print_character(row: &mut Row, col: u16, c: char, attrs: Attrs) -> u16 {
    match join_at(row, col, c, attrs) {
        Some(Join::Widened) => 1,
        Some(_) => 0,
        None => put_at(row, col, c, attrs),
    }
}

/// Puts a character that takes columns, if it fits there. Returns how many columns it takes.
fn put_at(row: &mut Row, col: u16, c: char, attrs: Attrs) -> u16 {
    match columns(c) {
        Some(n) if 0 < n && u32::from(col) + u32::from(n) <= u32::from(row.cols()) => {
            row.put(col, c, n, attrs);
            n
        }
        _ => 0,
    }
}

/// Joins a character that takes no column, if there is one before it. Returns what became of it.
fn join_at(row: &mut Row, col: u16, c: char, attrs: Attrs) -> Option<Join> {
    match columns(c) {
        Some(0) if 0 < col && col <= row.cols() => Some(row.join(col, c, attrs)),
        _ => None,
    }
}

/// Joins a character that takes no column, and appends what became of it.
fn join(row: &mut Row, attrs: Attrs, words: &Words, answer: &mut Answer) {
    match join_at(row, words.place(), character(words), attrs) {
        Some(join) => tell_join(join, answer),
        None => words.want("a character that joins one there"),
    }
}

fn tell_join(join: Join, answer: &mut Answer) {
    match join {
        Join::InPlace => answer.line("in place"),
        Join::Ignored => answer.line("ignored"),
        Join::Widened => answer.line("widened"),
        Join::Carried(cell) => {
            answer.push("carried ");
            push_cell(answer, &cell);
        }
    }
}

/// Takes a step that prints.
pub fn print_at(row: &mut Row, pen: Attrs, name: &str, words: &Words, answer: &mut Answer) {
    match name {
        "print" => print(row, words.place(), words.text(), pen),
        "put" => {
            if put_at(row, words.place(), character(words), pen) == 0 {
                words.want("a character that fits there");
            }
        }
        _ => join(row, pen, words, answer),
    }
}
