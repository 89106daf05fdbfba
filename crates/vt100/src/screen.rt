//! The screen of a terminal.
ghost use Rattle.std.specs.Prelude.{◌≡◌, Ok, Err, IsErr, IfOk, OnOk, OnErr, true, nat_lt};
ghost use Rattle.screen_model.specs.State.{fresh_state};
ghost use Rattle.vt100.specs.Tries.{alive};
ghost use Rattle.vt100.specs.declared.error.ScreenError.TheVariants.{Memory};

mod controls;
mod copy;
pub(crate) mod deferring;
mod erase;
mod getters;
mod modes;
mod motion;
mod private_modes;
mod readers;
pub(crate) mod reported;
mod rows;
mod runs;
mod sgr;
mod style;
mod whole;
mod wrapped;
mod writers;

use crate::error::ScreenError;
use modes::Modes;
pub use rows::{Rows, RowsDiff, RowsFormatted};
use std::alloc::Global;
use std::marker::Model;
use vt100_cells::PackedAttrs;
use vt100_core::attrs::Attrs;
use vt100_core::{CursorStyle, Grid, Scrollback, Size};
pub use wrapped::WrappedScreen;

/// The screen of a terminal: what it shows, and the modes that a program has set.
#[derive(Debug, Drop)]
pub struct Screen {
    /// The sheet that is shown and drawn on: the alternate one where `alternate_screen` is set, else the main one.
    grid: Grid,
    /// The other one.
    other_grid: Grid,
    alternate_screen: bool,

    attrs: PackedAttrs,
    saved_attrs: Attrs,

    hide_cursor: bool,
    modes: Modes,
    synchronized_update: bool,
    cursor_style: CursorStyle,

    last_char: Option<char>,

    /// The allocator of its texts and new sheets.
    alloc: Global,
    /// Whether an allocation failed in a call, so that what is shown is unspecified.
    failed: bool,
}

impl Model for Screen {
    ghost use Rattle.screen_model.specs.Call.{ScreenView};

    ghost Value = { ScreenView };

    ghost use Rattle.vt100.specs.ScreenFields.{screen_inside, IsInside};

    ghost view = { screen_inside };

    ghost invariant = { IsInside };
}

impl Screen {
    pub(crate) fn new(
        alloc: Global,
        size: Size,
        scrollback_capacity: usize,
    ) -> Result<Self, ScreenError>
        ensures screen { IfOk result (λ screen. screen
            ≡ alive (fresh_state size.rows.value size.cols.value scrollback_capacity)) }
        ensures memory { OnErr result (result ≡ Err Memory) }
    {
        let mut grid = Grid::new(
            alloc,
            size,
            Scrollback::Enabled {
                capacity: scrollback_capacity,
            },
        );
        grid.allocate_rows()?;
        Ok(Screen {
            grid,
            other_grid: Grid::new(alloc, size, Scrollback::Disabled),
            alternate_screen: false,
            attrs: PackedAttrs::new(),
            saved_attrs: Attrs::new(),
            hide_cursor: false,
            modes: Modes::default(),
            synchronized_update: false,
            cursor_style: CursorStyle::Default,
            last_char: None,
            alloc,
            failed: false,
        })
    }
}

impl Screen {
    /// Whether the cursor's row has room for a character of one column.
    #[inline(always)]
    pub(crate) fn has_room(&self) -> bool
        ensures { result ≡ nat_lt self.now.state.shown.col self.now.state.shown.width }
    {
        self.grid.has_room()
    }
}

/// Marks a screen as failed if an allocation failed in a change of it, and passes the result on.
fn note_failure<T, E: Drop>(failed: &mut bool, answer: Result<T, E>) -> Result<T, ScreenError>
    ensures done { IfOk result (λ x. answer ≡ Ok x) }
    ensures same { OnOk result (failed.new ≡ failed.old) }
    ensures refused { OnErr result (IsErr answer) }
    ensures memory { OnErr result (result ≡ Err Memory) }
    ensures failed { OnErr result (failed.new ≡ true) }
{
    match answer {
        Ok(done) => Ok(done),
        Err(_) => {
            *failed = true;
            Err(ScreenError::Memory)
        }
    }
}
