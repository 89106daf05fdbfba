//! A grid at work.
mod calls;
mod captures;
mod edits;
mod moves;
mod recovery;
mod reports;
mod whole;

use crate::grids::pair::Pair;
use calls::{parse_call, take_call};
use captures::tell_capture;
use case_player::{Answer, StepError, Words, value_of};
use edits::edit;
use reports::{tell, write};
use std::alloc::Global;
use vt100_core::{Grid, Row, RowSink, Scrollback, Size};
use whole::{made, refused_whole};

/// Counts the rows that it takes.
#[derive(Drop)]
pub struct Counter {
    rows: u64,
}

impl RowSink for Counter {
    ghost takes = { λ s v t. Unit {0} };

    fn row(&mut self, _row: &Row) {
        self.rows = self.rows.saturating_add(1);
    }
}

/// A grid, the earlier one, and how many rows have left the grid for good.
#[derive(Drop)]
pub struct GridStage {
    grids: Pair<Grid>,
    gone: Counter,
}

impl GridStage {
    /// No grid.
    pub fn new() -> GridStage {
        GridStage {
            grids: Pair::none(),
            gone: Counter { rows: 0 },
        }
    }

    /// Creates a grid. The grid before it becomes the earlier one.
    pub fn renew(&mut self, alloc: Global, words: &Words) -> Result<(), StepError> {
        let size = Size {
            rows: words.size(),
            cols: words.size(),
        };
        let scrollback = if words.is_empty() {
            Scrollback::Disabled
        } else {
            Scrollback::Enabled {
                capacity: words.count(),
            }
        };
        let grid = made(alloc, size, scrollback)?;
        self.grids.put(grid);
        self.gone = Counter { rows: 0 };
        Ok(())
    }

    /// Takes a step.
    pub fn take(
        &mut self,
        alloc: Global,
        name: &str,
        words: &Words,
        answer: &mut Answer,
    ) -> Result<(), StepError> {
        let Some(grid) = &mut self.grids.now else {
            return Err(StepError::Wrong("a step `row` or `grid` has to come before"));
        };
        match kind_of(name) {
            Kind::Copy => return copy(&mut self.grids),
            Kind::Exchange => self.grids.exchange(),
            Kind::Write => return write(alloc, grid, &self.grids.earlier, name, words, answer),
            Kind::Capture => return tell_capture(alloc, grid, words, answer),
            Kind::Tell => tell(grid, self.gone.rows, name, words, answer),
            Kind::Change => return change(alloc, grid, &mut self.gone, name, words, answer),
        }
        Ok(())
    }
}

/// What a step does.
#[derive(Clone, Copy)]
enum Kind {
    Copy,
    Exchange,
    Write,
    Capture,
    Tell,
    Change,
}

/// What the steps do by their names. Any other one changes the grid.
const KINDS: &[(&str, Kind)] = &[
    ("copy", Kind::Copy),
    ("exchange", Kind::Exchange),
    ("write_contents", Kind::Write),
    ("write_contents_formatted", Kind::Write),
    ("write_contents_diff", Kind::Write),
    ("write_cursor_position_formatted", Kind::Write),
    ("capture", Kind::Capture),
    ("rows", Kind::Tell),
    ("cursor", Kind::Tell),
    ("kept", Kind::Tell),
    ("capacity", Kind::Tell),
    ("visible_cell", Kind::Tell),
    ("whole", Kind::Tell),
];

fn kind_of(name: &str) -> Kind {
    value_of(KINDS, name).unwrap_or(Kind::Change)
}

fn copy(grids: &mut Pair<Grid>) -> Result<(), StepError> {
    if let Some(grid) = &grids.now {
        let copy = copy_of(grid)?;
        grids.put(copy);
    }
    Ok(())
}

fn copy_of(grid: &Grid) -> Result<Grid, StepError> {
    match grid.clone() {
        Ok(copy) => Ok(copy),
        Err(_) => Err(refused_whole(grid)),
    }
}

/// Takes a step that changes the grid.
fn change(
    alloc: Global,
    grid: &mut Grid,
    gone: &mut Counter,
    name: &str,
    words: &Words,
    answer: &mut Answer,
) -> Result<(), StepError> {
    if !grid.is_allocated() {
        return Err(StepError::Wrong("the grid has no rows"));
    }
    match parse_call(name, words) {
        Some(call) => take_call(alloc, grid, call, gone, answer),
        None => {
            edit(grid, name, words, gone);
            Ok(())
        }
    }
}
