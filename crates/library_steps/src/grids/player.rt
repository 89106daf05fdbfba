//! What a case works on.
use crate::grids::grid::GridStage;
use crate::grids::row::RowStage;
use case_player::{Answer, StepError, Words};
use std::alloc::Global;

/// Rows and grids, and whether a row was created last, or a grid.
#[derive(Drop)]
pub struct GridPlayer {
    alloc: Global,
    rows: RowStage,
    grids: GridStage,
    is_row: bool,
}

impl GridPlayer {
    /// A player without a row or a grid.
    pub fn new(alloc: Global) -> Self {
        GridPlayer {
            alloc,
            rows: RowStage::new(),
            grids: GridStage::new(),
            is_row: false,
        }
    }

    /// Takes a step.
    pub fn take(
        &mut self,
        name: &str,
        words: &Words,
        answer: &mut Answer,
    ) -> Result<(), StepError> {
        match name {
            "row" => {
                self.is_row = true;
                self.rows.renew(self.alloc, words)
            }
            "grid" => {
                self.is_row = false;
                self.grids.renew(self.alloc, words)
            }
            _ if self.is_row => self.rows.take(self.alloc, name, words, answer),
            _ => self.grids.take(self.alloc, name, words, answer),
        }
    }
}
