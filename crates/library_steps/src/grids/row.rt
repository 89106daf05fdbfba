//! A row at work.
mod edits;
mod printing;
mod reports;

use crate::grids::pair::Pair;
use crate::grids::texts::refused;
use crate::words::attributes;
use case_player::{Answer, StepError, Words, value_of};
use edits::{change, lengthen};
use printing::{print, print_at};
use reports::{tell, write};
use std::alloc::Global;
use vt100_core::Row;
use vt100_core::attrs::Attrs;

/// A row, the earlier one, and the attributes to draw with.
#[derive(Drop)]
pub struct RowStage {
    rows: Pair<Row>,
    pen: Attrs,
}

impl RowStage {
    /// No row.
    pub fn new() -> RowStage {
        RowStage {
            rows: Pair::none(),
            pen: Attrs::new(),
        }
    }

    /// Creates a row, and prints a text on it. The row before it becomes the earlier one.
    pub fn renew(&mut self, alloc: Global, words: &Words) -> Result<(), StepError> {
        let mut row = Row::new(alloc, words.place()).map_err(refused)?;
        print(&mut row, 0, words.text(), Attrs::new());
        self.rows.put(row);
        self.pen = Attrs::new();
        Ok(())
    }

    /// Takes a step.
    pub fn take(
        &mut self,
        alloc: Global,
        name: &str,
        words: &Words,
        answer: &mut Answer,
    ) -> Result<(), StepError> {
        let Some(row) = &mut self.rows.now else {
            return Err(StepError::Wrong("a step `row` or `grid` has to come before"));
        };
        match kind_of(name) {
            Kind::Copy => return copy(&mut self.rows),
            Kind::Exchange => self.rows.exchange(),
            Kind::Pen => self.pen = attributes(words),
            Kind::Lengthen => return lengthen(row, name, words),
            Kind::Write => return write(alloc, row, &self.rows.earlier, name, words, answer),
            Kind::Print => print_at(row, self.pen, name, words, answer),
            Kind::Tell => tell(row, &self.rows.earlier, name, words, answer),
            Kind::Change => change(row, self.pen, name, words),
        }
        Ok(())
    }
}

/// What a step does.
#[derive(Clone, Copy)]
enum Kind {
    Copy,
    Exchange,
    Pen,
    Lengthen,
    Write,
    Print,
    Tell,
    Change,
}

/// What the steps do by their names. Any other one changes the row.
const KINDS: &[(&str, Kind)] = &[
    ("copy", Kind::Copy),
    ("exchange", Kind::Exchange),
    ("pen", Kind::Pen),
    ("grow", Kind::Lengthen),
    ("resize", Kind::Lengthen),
    ("write_contents", Kind::Write),
    ("write_contents_formatted", Kind::Write),
    ("write_contents_diff", Kind::Write),
    ("print", Kind::Print),
    ("put", Kind::Print),
    ("join", Kind::Print),
    ("shown", Kind::Tell),
    ("counts", Kind::Tell),
    ("cell", Kind::Tell),
    ("same_cell", Kind::Tell),
];

fn kind_of(name: &str) -> Kind {
    value_of(KINDS, name).unwrap_or(Kind::Change)
}

fn copy(rows: &mut Pair<Row>) -> Result<(), StepError> {
    if let Some(row) = &rows.now {
        let copy = copy_of(row)?;
        rows.put(copy);
    }
    Ok(())
}

fn copy_of(row: &Row) -> Result<Row, StepError> {
    row.clone().map_err(refused)
}
