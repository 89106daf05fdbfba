//! The calls of a screen.
ghost use Rattle.std.specs.Prelude.{◌≡◌, IfOk, IfErr};
ghost use Rattle.c_objects.specs.Cells.{ScreenHasCells};
ghost use Rattle.c_objects.specs.Codes.{IsRefusal};
ghost use Rattle.c_objects.specs.Hubs.{IsNoObjectCode};
ghost use Rattle.c_objects.specs.Limits.{Within};
ghost use Rattle.c_objects.specs.Objects.{ScreenDoes, ScreenSays};
ghost use Rattle.c_objects.specs.Screens.{IsNewScreenOf, Processes, ResizesTo, ResizesMarked, ScrollsMarked, Marks};
ghost use Rattle.c_objects.specs.Screens.{Tells, TellsOldest};
ghost use Rattle.c_objects.specs.Screens.{Looks, HasCell, HasRow, HasContents, HasBetween};
ghost use Rattle.c_objects.specs.Screens.{HasFormatted, HasState, HasDifference};

use crate::cells::copy_screen_cells;
use crate::code::{BAD_SIZE, MEMORY, OK, OTHER_KIND, TOO_LARGE, screen_code, screen_refusal};
use crate::copy::copy_text;
use crate::hub::{copy_cell, copy_contents, copy_row};
use crate::look::screen_look;
use crate::object::{Marked, Object};
use crate::plain::{CCell, CLook, CRequest};
use crate::requests::Requests;
use crate::size::is_within;
use std::alloc::Global;
use std::num::NonZeroU16;
use vt100::Parser;

/// Makes a blank screen of this size that keeps at most `scrollback` rows. Refused for a size without cells, and if an
/// allocation fails.
pub fn new_screen(
    alloc: Global,
    rows: u16,
    cols: u16,
    scrollback: usize,
) -> Result<Box<Object>, i32>
    ensures new { IfOk result (λ b. IsNewScreenOf rows cols scrollback b.value) }
    ensures refused { IfErr result (λ code. IsNoObjectCode rows cols code) }
{
    let (Some(rows), Some(cols)) = (NonZeroU16::new(rows), NonZeroU16::new(cols)) else {
        return Err(BAD_SIZE);
    };
    let Ok(requests) = Requests::new(alloc) else {
        return Err(MEMORY);
    };
    let parser = match Parser::new_with_callbacks(alloc, rows, cols, scrollback, requests) {
        Ok(parser) => parser,
        Err(_) => return Err(MEMORY),
    };
    match Box::new(alloc, Object::Screen(Marked { parser, mark: None })) {
        Ok(b) => Ok(b),
        Err(_) => Err(MEMORY),
    }
}

// It isn't inlined: with the caller's values beside it, the reader of bytes runs out of registers.
#[inline(never)]
fn process_marked(marked: &mut Marked, bytes: &[u8]) -> i32
    ensures { Processes bytes.now marked.old result marked.new }
{
    screen_code(marked.parser.process(bytes))
}

/// A screen reads the program's next bytes.
pub fn process(object: &mut Object, bytes: &[u8]) -> i32
    ensures { ScreenDoes (Processes bytes.now) object.old result object.new }
{
    match object {
        Object::Screen(marked) => process_marked(marked, bytes),
        _ => OTHER_KIND,
    }
}

fn resize_to(marked: &mut Marked, rows: NonZeroU16, cols: NonZeroU16) -> i32
    ensures { ResizesTo rows.value cols.value marked.old result marked.new }
{
    match marked.parser.set_size(rows, cols) {
        Ok(()) => {
            marked.mark = None;
            OK
        }
        Err(error) => screen_refusal(error),
    }
}

fn resize_marked(marked: &mut Marked, rows: u16, cols: u16) -> i32
    ensures { ResizesMarked rows cols marked.old result marked.new }
{
    match (NonZeroU16::new(rows), NonZeroU16::new(cols)) {
        (Some(rows), Some(cols)) => resize_to(marked, rows, cols),
        _ => BAD_SIZE,
    }
}

/// Gives a screen another size, and drops the mark if that succeeds.
pub fn resize(object: &mut Object, rows: u16, cols: u16) -> i32
    ensures { ScreenDoes (ResizesMarked rows cols) object.old result object.new }
{
    match object {
        Object::Screen(marked) => resize_marked(marked, rows, cols),
        _ => OTHER_KIND,
    }
}

fn resize_marked_within(marked: &mut Marked, rows: u16, cols: u16, most_cells: usize) -> i32
    ensures { Within most_cells rows cols (ResizesMarked rows cols) marked.old result marked.new }
{
    if is_within(rows, cols, most_cells) {
        resize_marked(marked, rows, cols)
    } else {
        TOO_LARGE
    }
}

/// Gives a screen another size of at most `most_cells` cells, and drops the mark if that succeeds.
pub fn resize_within(object: &mut Object, rows: u16, cols: u16, most_cells: usize) -> i32
    ensures { ScreenDoes (Within most_cells rows cols (ResizesMarked rows cols)) object.old result object.new }
{
    match object {
        Object::Screen(marked) => resize_marked_within(marked, rows, cols, most_cells),
        _ => OTHER_KIND,
    }
}

fn scroll_marked(marked: &mut Marked, rows: usize) -> i32
    ensures { ScrollsMarked rows marked.old result marked.new }
{
    screen_code(marked.parser.screen_mut().set_scrollback(rows))
}

/// Shows the newest `rows` kept rows of a screen above the others.
pub fn scroll(object: &mut Object, rows: usize) -> i32
    ensures { ScreenDoes (ScrollsMarked rows) object.old result object.new }
{
    match object {
        Object::Screen(marked) => scroll_marked(marked, rows),
        _ => OTHER_KIND,
    }
}

fn mark_as_now(marked: &mut Marked) -> i32
    ensures { Marks marked.old result marked.new }
{
    match marked.parser.screen().clone() {
        Ok(screen) => {
            marked.mark = Some(screen);
            OK
        }
        Err(error) => screen_refusal(error),
    }
}

/// Marks the screen as it is now, for `difference`.
pub fn mark(object: &mut Object) -> i32
    ensures { ScreenDoes Marks object.old result object.new }
{
    match object {
        Object::Screen(marked) => mark_as_now(marked),
        _ => OTHER_KIND,
    }
}

fn tell_marked(marked: &mut Marked, unknown: bool, rows: bool) -> i32
    ensures { Tells unknown rows marked.old result marked.new }
{
    marked.parser.callbacks_mut().tell(unknown, rows);
    OK
}

/// Sets whether a screen's queue gets what the screen doesn't know from now on, and whether it gets rows that leave
/// the screen for good.
pub fn tell(object: &mut Object, unknown: bool, rows: bool) -> i32
    ensures { ScreenDoes (Tells unknown rows) object.old result object.new }
{
    match object {
        Object::Screen(marked) => tell_marked(marked, unknown, rows),
        _ => OTHER_KIND,
    }
}

fn tell_request(marked: &mut Marked, to: &mut [u8], reported: &mut CRequest) -> i32
    ensures { TellsOldest to.old to.new reported.new marked.old result marked.new }
{
    marked.parser.callbacks_mut().take(to, reported)
}

/// Takes the oldest request out of a screen's queue.
pub fn request(object: &mut Object, to: &mut [u8], reported: &mut CRequest) -> i32
    ensures reported { ScreenDoes (TellsOldest to.old to.new reported.new) object.old result object.new }
    ensures refused { IsRefusal result → (to.new ≡ to.old) × (reported.new ≡ reported.old) }
{
    match object {
        Object::Screen(marked) => tell_request(marked, to, reported),
        _ => OTHER_KIND,
    }
}

/// Reads the size, the cursor and the modes of a screen.
pub fn look(object: &Object, look: &mut CLook) -> i32
    ensures looks { ScreenSays (Looks look.new) object.now result }
    ensures refused { IsRefusal result → look.new ≡ look.old }
{
    match object {
        Object::Screen(marked) => {
            *look = screen_look(marked.parser.screen());
            OK
        }
        _ => OTHER_KIND,
    }
}

/// Copies a cell of a screen. Refused for a place outside it.
pub fn cell(object: &Object, row: u16, col: u16, to: &mut CCell) -> i32
    ensures cell { ScreenSays (HasCell row col to.new) object.now result }
    ensures refused { IsRefusal result → to.new ≡ to.old }
{
    match object {
        Object::Screen(marked) => copy_cell(marked.parser.screen(), row, col, to),
        _ => OTHER_KIND,
    }
}

/// Copies the cells of a row of a screen. Refused for a row outside it.
pub fn row_cells(
    object: &Object,
    row: u16,
    to: &mut [CCell],
    count: &mut usize,
    wrapped: &mut u8,
) -> i32
    ensures cells { ScreenSays (ScreenHasCells row to.old to.new count.new wrapped.new) object.now result }
    ensures refused { IsRefusal result → (to.new ≡ to.old) × (count.new ≡ count.old) × (wrapped.new ≡ wrapped.old) }
{
    match object {
        Object::Screen(marked) => copy_screen_cells(
            marked.parser.screen(),
            row,
            to,
            count,
            wrapped,
        ),
        _ => OTHER_KIND,
    }
}

/// Copies the text of a row of a screen, as UTF-8.
pub fn row_text(object: &Object, row: u16, to: &mut [u8], count: &mut usize) -> i32
    ensures text { ScreenSays (HasRow row to.old to.new count.new) object.now result }
    ensures refused { IsRefusal result → (to.new ≡ to.old) × (count.new ≡ count.old) }
{
    match object {
        Object::Screen(marked) => copy_row(marked.parser.screen(), row, to, count),
        _ => OTHER_KIND,
    }
}

/// Copies the text of all rows of a screen, as UTF-8.
pub fn contents(object: &Object, to: &mut [u8], count: &mut usize) -> i32
    ensures text { ScreenSays (HasContents to.old to.new count.new) object.now result }
    ensures refused { IsRefusal result → (to.new ≡ to.old) × (count.new ≡ count.old) }
{
    match object {
        Object::Screen(marked) => copy_contents(marked.parser.screen(), to, count),
        _ => OTHER_KIND,
    }
}

/// Copies the text of a screen from one place up to another, as UTF-8.
pub fn contents_between(
    object: &Object,
    start: (u16, u16),
    end: (u16, u16),
    to: &mut [u8],
    count: &mut usize,
) -> i32
    ensures text { ScreenSays (HasBetween start end to.old to.new count.new) object.now result }
    ensures refused { IsRefusal result → (to.new ≡ to.old) × (count.new ≡ count.old) }
{
    match object {
        Object::Screen(marked) => {
            let screen = marked.parser.screen();
            copy_text(
                screen.contents_between(start.0, start.1, end.0, end.1),
                to,
                count,
            )
        }
        _ => OTHER_KIND,
    }
}

/// Copies the bytes that take a terminal to a screen's picture.
pub fn contents_formatted(object: &Object, to: &mut [u8], count: &mut usize) -> i32
    ensures text { ScreenSays (HasFormatted to.old to.new count.new) object.now result }
    ensures refused { IsRefusal result → (to.new ≡ to.old) × (count.new ≡ count.old) }
{
    match object {
        Object::Screen(marked) => copy_text(marked.parser.screen().contents_formatted(), to, count),
        _ => OTHER_KIND,
    }
}

/// Copies the bytes that take a new terminal to all that a screen shows.
pub fn state(object: &Object, to: &mut [u8], count: &mut usize) -> i32
    ensures text { ScreenSays (HasState to.old to.new count.new) object.now result }
    ensures refused { IsRefusal result → (to.new ≡ to.old) × (count.new ≡ count.old) }
{
    match object {
        Object::Screen(marked) => copy_text(marked.parser.screen().state_formatted(), to, count),
        _ => OTHER_KIND,
    }
}

fn copy_difference(marked: &Marked, to: &mut [u8], count: &mut usize) -> i32
    ensures text { HasDifference to.old to.new count.new marked.now result }
    ensures refused { IsRefusal result → (to.new ≡ to.old) × (count.new ≡ count.old) }
{
    let screen = marked.parser.screen();
    match &marked.mark {
        Some(mark) => copy_text(screen.state_diff(mark), to, count),
        None => copy_text(screen.state_formatted(), to, count),
    }
}

/// Copies the bytes that take a terminal from what the mark shows to what the screen shows. Without a mark they are
/// those of `state`.
pub fn difference(object: &Object, to: &mut [u8], count: &mut usize) -> i32
    ensures text { ScreenSays (HasDifference to.old to.new count.new) object.now result }
    ensures refused { IsRefusal result → (to.new ≡ to.old) × (count.new ≡ count.old) }
{
    match object {
        Object::Screen(marked) => copy_difference(marked, to, count),
        _ => OTHER_KIND,
    }
}
