//! The calls of a view.
ghost use Rattle.std.specs.Prelude.{◌≡◌, IfOk, IfErr};
ghost use Rattle.c_objects.specs.Cells.{ViewHasCells};
ghost use Rattle.c_objects.specs.Codes.{IsRefusal};
ghost use Rattle.c_objects.specs.Hubs.{IsNoObjectCode};
ghost use Rattle.c_objects.specs.Objects.{ViewDoes, ViewSays};
ghost use Rattle.c_objects.specs.Views.{IsNewViewOf, Advances, Stops, Holds, Looks, HasCell, HasRow};

use crate::cells::copy_view_cells;
use crate::code::{BAD_SIZE, MEMORY, NO_CELL, OK, OTHER_KIND};
use crate::copy::copy_prefix;
use crate::look::{set_cell, view_look};
use crate::object::Object;
use crate::plain::{CCell, CLook};
use std::alloc::Global;
use std::num::NonZeroU16;
use termview::{UntilCleared, View};

/// Makes a view of this size that shows nothing. Refused for a size without cells, and if an allocation fails.
pub fn new_view(alloc: Global, rows: u16, cols: u16) -> Result<Box<Object>, i32>
    ensures new { IfOk result (λ b. IsNewViewOf rows cols b.value) }
    ensures refused { IfErr result (λ code. IsNoObjectCode rows cols code) }
{
    let (Some(rows), Some(cols)) = (NonZeroU16::new(rows), NonZeroU16::new(cols)) else {
        return Err(BAD_SIZE);
    };
    let view = match View::new(alloc, rows, cols, UntilCleared::new()) {
        Ok(view) => view,
        Err(_) => return Err(MEMORY),
    };
    match Box::new(alloc, Object::View(view)) {
        Ok(b) => Ok(b),
        Err(_) => Err(MEMORY),
    }
}

/// Reads the next piece of the stream.
pub fn advance(object: &mut Object, bytes: &[u8]) -> i32
    ensures { ViewDoes (Advances bytes.now) object.old result object.new }
{
    match object {
        Object::View(view) => {
            view.advance(bytes);
            OK
        }
        _ => OTHER_KIND,
    }
}

/// Parses the bytes that a view holds back, and shows what they change.
pub fn stop(object: &mut Object) -> i32
    ensures { ViewDoes Stops object.old result object.new }
{
    match object {
        Object::View(view) => {
            view.stop_sync();
            OK
        }
        _ => OTHER_KIND,
    }
}

/// Sets `count` to how many bytes a view holds back.
pub fn held(object: &Object, count: &mut usize) -> i32
    ensures holds { ViewSays (Holds count.new) object.now result }
    ensures refused { IsRefusal result → count.new ≡ count.old }
{
    match object {
        Object::View(view) => {
            *count = view.sync_bytes_count();
            OK
        }
        _ => OTHER_KIND,
    }
}

/// Reads the size, the cursor and the modes of what a view shows.
pub fn look(object: &Object, look: &mut CLook) -> i32
    ensures looks { ViewSays (Looks look.new) object.now result }
    ensures refused { IsRefusal result → look.new ≡ look.old }
{
    match object {
        Object::View(view) => {
            *look = view_look(view);
            OK
        }
        _ => OTHER_KIND,
    }
}

fn copy_cell(view: &View<UntilCleared>, row: u16, col: u16, to: &mut CCell) -> i32
    ensures cell { HasCell row col to.new view.now result }
    ensures refused { IsRefusal result → to.new ≡ to.old }
{
    match view.cell(row, col) {
        Some(cell) => {
            set_cell(cell, to);
            OK
        }
        None => NO_CELL,
    }
}

/// Copies a cell that a view shows. Refused for a place outside it.
pub fn cell(object: &Object, row: u16, col: u16, to: &mut CCell) -> i32
    ensures cell { ViewSays (HasCell row col to.new) object.now result }
    ensures refused { IsRefusal result → to.new ≡ to.old }
{
    match object {
        Object::View(view) => copy_cell(view, row, col, to),
        _ => OTHER_KIND,
    }
}

/// Copies the cells of a row that a view shows. Refused for a row outside it.
pub fn row_cells(
    object: &Object,
    row: u16,
    to: &mut [CCell],
    count: &mut usize,
    wrapped: &mut u8,
) -> i32
    ensures cells { ViewSays (ViewHasCells row to.old to.new count.new wrapped.new) object.now result }
    ensures refused { IsRefusal result → (to.new ≡ to.old) × (count.new ≡ count.old) × (wrapped.new ≡ wrapped.old) }
{
    match object {
        Object::View(view) => copy_view_cells(view, row, to, count, wrapped),
        _ => OTHER_KIND,
    }
}

fn copy_row(
    alloc: Global,
    view: &View<UntilCleared>,
    row: u16,
    to: &mut [u8],
    count: &mut usize,
) -> i32
    ensures text { HasRow row to.old to.new count.new view.now result }
    ensures refused { IsRefusal result → (to.new ≡ to.old) × (count.new ≡ count.old) }
{
    let mut text = Vec::new(alloc);
    match view.row_text(row, &mut text) {
        Ok(()) => {
            copy_prefix(&text, to, count);
            OK
        }
        Err(_) => MEMORY,
    }
}

/// Copies the text of a row that a view shows, as UTF-8.
pub fn row_text(alloc: Global, object: &Object, row: u16, to: &mut [u8], count: &mut usize) -> i32
    ensures text { ViewSays (HasRow row to.old to.new count.new) object.now result }
    ensures refused { IsRefusal result → (to.new ≡ to.old) × (count.new ≡ count.old) }
{
    match object {
        Object::View(view) => copy_row(alloc, view, row, to, count),
        _ => OTHER_KIND,
    }
}
