//! Calls on a sheet that report the rows that leave it to callbacks.
ghost use Rattle.std.specs.Prelude.{◌≡◌, ◌⊎◌, ◌≤◌, ◌++◌, OnOk, OnErr, IfOk, IsOk, All, map, replicate, true, false};
ghost use Rattle.vt100_core.specs.Grid.{IsGrid, IsAllocated};
ghost use Rattle.vt100_core.specs.Scroll.{fed, scrolled_up, scrollback_erased};
ghost use Rattle.vt100_core.specs.Text.{printed, printed_all};
ghost use Rattle.vt100_core.specs.Resize.{KeepsNoMore, resized};
ghost use Rattle.screen_model.specs.Step.{reports_of};
ghost use Rattle.screen_model.specs.Call.{Receives};
ghost use Rattle.vt100.specs.Tries.{ReceivesPrefix};
ghost use Rattle.vt100.specs.Draws.{Draws, scrolled_of};

use crate::callbacks::Callbacks;
use vt100_cells::{Glyph, PackedAttrs};
use vt100_core::capture::RowContents;
use vt100_core::{Grid, GridError, Printed, Row, RowSink, Size};

/// Reports the rows that leave a sheet to callbacks.
#[derive(Drop)]
pub(super) struct Reporter<'a, CB> {
    pub(super) callbacks: &'a mut CB,
    pub(super) alternate_screen: bool,
}

impl<'a, CB: Callbacks> RowSink for Reporter<'a, CB> {
    ghost takes = { λ s v t. CB.scrolls s.callbacks.now v s.alternate_screen t.callbacks.now
        × (t.alternate_screen ≡ s.alternate_screen) × (t.callbacks.ghost_name ≡ s.callbacks.ghost_name) };

    fn row(&mut self, row: &Row) {
        self.callbacks
            .on_scroll(RowContents::new(row), self.alternate_screen);
    }
}

/// Prints a character on a sheet, and gives the reporter the rows that leave it.
#[inline(always)]
pub(super) fn print<CB: Callbacks>(
    grid: &mut Grid,
    reporter: &mut Reporter<'_, CB>,
    c: char,
    attrs: &PackedAttrs,
) -> Result<Printed, GridError>
    requires { IsAllocated grid.old }
    ensures drawn { Draws CB.scrolls (scrolled_of (printed grid.old c attrs.now)) grid.old reporter.old result grid.new
        reporter.new }
    ensures answer { IfOk result (λ p. p ≡ (printed grid.old c attrs.now).printed) }
{
    grid.print(c, attrs, reporter)
}

/// Prints a run of characters on a sheet, and gives the reporter the rows that leave it.
#[inline(always)]
pub(super) fn print_run<G: Glyph, const COLUMNS: usize, CB: Callbacks>(
    grid: &mut Grid,
    reporter: &mut Reporter<'_, CB>,
    text: &[G],
    attrs: &PackedAttrs,
) -> Result<(), GridError>
    requires allocated { IsAllocated grid.old }
    requires columns { (COLUMNS ≡ 1) ⊎ (COLUMNS ≡ 2) }
    requires drawn { All (G.Takes COLUMNS) text.now }
    requires room { COLUMNS ≡ 2 → 2 ≤ grid.old.width }
    ensures { Draws CB.scrolls (printed_all grid.old (map G.code text.now) attrs.now) grid.old reporter.old result
        grid.new reporter.new }
{
    grid.print_run::<G, COLUMNS, _>(text, attrs, reporter)
}

/// Prints a character on a sheet `count` times, and gives the reporter the rows that leave it.
pub(super) fn print_times<CB: Callbacks>(
    grid: &mut Grid,
    reporter: &mut Reporter<'_, CB>,
    c: char,
    count: u16,
    attrs: &PackedAttrs,
) -> Result<(), GridError>
    requires { IsAllocated grid.old }
    ensures { Draws CB.scrolls (printed_all grid.old (replicate count c) attrs.now) grid.old reporter.old result
        grid.new reporter.new }
{
    grid.print_times(c, count, attrs, reporter)
}

/// Moves the cursor of a sheet a row down, and gives the reporter the rows that leave it.
#[inline(always)]
pub(super) fn feed_line<CB: Callbacks>(
    grid: &mut Grid,
    reporter: &mut Reporter<'_, CB>,
) -> Result<(), GridError>
    requires { IsAllocated grid.old }
    ensures { Draws CB.scrolls (fed grid.old 1) grid.old reporter.old result grid.new reporter.new }
{
    grid.row_inc_scroll(1, reporter)?;
    Ok(())
}

/// Moves the scroll region of a sheet up, and gives the reporter the rows that leave it.
#[inline(always)]
pub(super) fn scroll_up<CB: Callbacks>(
    grid: &mut Grid,
    reporter: &mut Reporter<'_, CB>,
    count: u16,
) -> Result<(), GridError>
    requires { IsAllocated grid.old }
    ensures { Draws CB.scrolls (scrolled_up grid.old count) grid.old reporter.old result grid.new reporter.new }
{
    grid.scroll_up(count, reporter)
}

/// Removes the kept rows, and gives them to the reporter.
pub(super) fn erase_kept<CB: Callbacks>(grid: &mut Grid, reporter: &mut Reporter<'_, CB>)
    requires { IsAllocated grid.old }
    ensures grid { grid.new ≡ scrollback_erased grid.old }
    ensures same { reporter.new.callbacks.ghost_name ≡ reporter.old.callbacks.ghost_name }
    ensures receives { Receives CB.scrolls reporter.old.callbacks.now
        (reports_of reporter.old.alternate_screen grid.old.kept.rows) reporter.new.callbacks.now }
    ensures allocated { IsAllocated grid.new }
{
    grid.erase_all_scrollback(reporter);
}

/// Gives a sheet another size, and gives the reporter the rows that leave it.
#[tactic(auto, using(crate::proofs::SizeLemmas::resized_height, crate::proofs::SizeLemmas::resized_width))]
fn resize<CB: Callbacks>(
    grid: &mut Grid,
    reporter: &mut Reporter<'_, CB>,
    size: Size,
) -> Result<(), GridError>
    ensures grid { OnOk result (grid.new ≡ (resized grid.old size.rows.value size.cols.value).grid) }
    ensures same { reporter.new.callbacks.ghost_name ≡ reporter.old.callbacks.ghost_name }
    ensures receives { Receives CB.scrolls reporter.old.callbacks.now
        (reports_of reporter.old.alternate_screen (resized grid.old size.rows.value size.cols.value).sunk)
        reporter.new.callbacks.now }
    ensures rows { OnOk result (grid.new.height ≡ size.rows.value) }
    ensures cols { OnOk result (grid.new.width ≡ size.cols.value) }
    ensures keeps { grid.new.kept.keeps ≡ grid.old.kept.keeps }
    ensures unchanged { size.rows.value ≡ grid.old.height → size.cols.value ≡ grid.old.width → IsOk result }
    ensures smaller { size.rows.value ≤ grid.old.height → size.cols.value ≤ grid.old.width
        → KeepsNoMore grid.old size.rows.value → IsOk result }
    ensures valid { IsGrid grid.old }
    ensures allocated { IsAllocated grid.old → IsAllocated grid.new }
{
    grid.set_size(size, reporter)
}

/// Gives the main sheet another size, and then the alternate one.
#[tactic(auto, using(crate::proofs::ReceiveLemmas::receives_append))]
pub(super) fn resize_both<CB: Callbacks>(
    main: &mut Grid,
    alternate: &mut Grid,
    callbacks: &mut CB,
    size: Size,
) -> Result<(), GridError>
    ensures main { OnOk result (main.new ≡ (resized main.old size.rows.value size.cols.value).grid) }
    ensures alternate { OnOk result (alternate.new ≡ (resized alternate.old size.rows.value size.cols.value).grid) }
    ensures receives { OnOk result (Receives CB.scrolls callbacks.old
        (reports_of false (resized main.old size.rows.value size.cols.value).sunk
        ++ reports_of true (resized alternate.old size.rows.value size.cols.value).sunk)
        callbacks.new) }
    ensures reported { OnErr result (ReceivesPrefix CB.scrolls callbacks.old
        (reports_of false (resized main.old size.rows.value size.cols.value).sunk
        ++ reports_of true (resized alternate.old size.rows.value size.cols.value).sunk)
        callbacks.new) }
    ensures stops { OnErr result ((alternate.new ≡ alternate.old)
        ⊎ (main.new ≡ (resized main.old size.rows.value size.cols.value).grid)) }
    ensures unchanged { size.rows.value ≡ main.old.height → size.cols.value ≡ main.old.width
        → size.rows.value ≡ alternate.old.height → size.cols.value ≡ alternate.old.width → IsOk result }
    ensures smaller { size.rows.value ≤ main.old.height → size.cols.value ≤ main.old.width
        → KeepsNoMore main.old size.rows.value → size.rows.value ≤ alternate.old.height
        → size.cols.value ≤ alternate.old.width → alternate.old.kept.keeps ≡ false → IsOk result }
    ensures rows { OnOk result (alternate.new.height ≡ main.new.height) }
    ensures cols { OnOk result (alternate.new.width ≡ main.new.width) }
    ensures main_keeps { main.new.kept.keeps ≡ main.old.kept.keeps }
    ensures alternate_keeps { alternate.new.kept.keeps ≡ alternate.old.kept.keeps }
    ensures main_allocated { IsAllocated main.old → IsAllocated main.new }
    ensures alternate_allocated { IsAllocated alternate.old → IsAllocated alternate.new }
{
    let mut reporter = Reporter {
        callbacks,
        alternate_screen: false,
    };
    resize(main, &mut reporter, size)?;
    reporter.alternate_screen = true;
    resize(alternate, &mut reporter, size)
}
