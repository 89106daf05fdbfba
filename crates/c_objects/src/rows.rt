//! The texts of a screen's rows, one after the other.
ghost use Rattle.std.specs.Prelude.{◌≡◌, IfOk, IfErr, length, map};
ghost use Rattle.std.specs.List.{concat};
ghost use Rattle.c_objects.specs.Codes.{IsRefusal, memory};
ghost use Rattle.c_objects.specs.Copied.{HasRows, HasRowsDiff, ScreensSay};
ghost use Rattle.c_objects.specs.Objects.{ScreenSays};
ghost use Rattle.c_objects.specs.Texts.{CopiesRows};

use crate::code::{MEMORY, OK, OTHER_KIND};
use crate::copy::copy_prefix;
use crate::object::Object;
use std::alloc::Global;
use vt100::Rows;

/// The texts of rows, one after the other, and their lengths.
#[derive(Drop)]
struct Joined {
    text: Vec<u8>,
    lengths: Vec<usize>,
}

/// Joins the texts of rows. Refused if an allocation fails.
fn join(alloc: Global, rows: Rows<'_>) -> Result<Joined, i32>
    ensures text { IfOk result (λ r. r.text.items ≡ concat rows.entry) }
    ensures lengths { IfOk result (λ r. r.lengths.items ≡ map length rows.entry) }
    ensures refused { IfErr result (λ code. code ≡ memory) }
{
    let mut rows = rows;
    let mut text = Vec::new(alloc);
    let mut lengths = Vec::new(alloc);
    while let Some(row) = rows.next() {
        let Ok(row) = row else {
            return Err(MEMORY);
        };
        let bytes = row.as_bytes();
        if text.extend_from_slice(bytes).is_err() {
            return Err(MEMORY);
        }
        if lengths.push(bytes.len()).is_err() {
            return Err(MEMORY);
        }
    }
    Ok(Joined { text, lengths })
}

/// Copies the texts of rows, one after the other, and their lengths.
fn copy_rows(
    alloc: Global,
    rows: Rows<'_>,
    to: &mut [u8],
    count: &mut usize,
    lengths: &mut [usize],
    rows_count: &mut usize,
) -> i32
    ensures copied { CopiesRows rows.entry to.old to.new count.new lengths.old lengths.new rows_count.new result }
    ensures refused { IsRefusal result → (to.new ≡ to.old) × (count.new ≡ count.old) × (lengths.new ≡ lengths.old)
        × (rows_count.new ≡ rows_count.old) }
{
    match join(alloc, rows) {
        Ok(joined) => {
            copy_prefix(&joined.text, to, count);
            copy_prefix(&joined.lengths, lengths, rows_count);
            OK
        }
        Err(code) => code,
    }
}

/// Copies the escape sequences that draw each row of a screen: `cols.1` columns from column `cols.0` on. `count` is set
/// to how many bytes there are in all, `lengths` to how many each row has, and `rows_count` to how many rows there are.
pub fn rows_formatted(
    alloc: Global,
    object: &Object,
    cols: (u16, u16),
    to: &mut [u8],
    count: &mut usize,
    lengths: &mut [usize],
    rows_count: &mut usize,
) -> i32
    ensures rows { ScreenSays (HasRows cols to.old to.new count.new lengths.old lengths.new rows_count.new) object.now
        result }
    ensures refused { IsRefusal result → (to.new ≡ to.old) × (count.new ≡ count.old) × (lengths.new ≡ lengths.old)
        × (rows_count.new ≡ rows_count.old) }
{
    match object {
        Object::Screen(marked) => {
            let rows = marked.parser.screen().rows_formatted(cols.0, cols.1);
            copy_rows(alloc, rows, to, count, lengths, rows_count)
        }
        _ => OTHER_KIND,
    }
}

/// Copies the escape sequences that draw each row of a screen over the row that an earlier screen shows there, as
/// `rows_formatted` does.
pub fn rows_diff(
    alloc: Global,
    object: &Object,
    earlier: &Object,
    cols: (u16, u16),
    to: &mut [u8],
    count: &mut usize,
    lengths: &mut [usize],
    rows_count: &mut usize,
) -> i32
    ensures rows { ScreensSay (HasRowsDiff cols to.old to.new count.new lengths.old lengths.new rows_count.new)
        object.now earlier.now result }
    ensures refused { IsRefusal result → (to.new ≡ to.old) × (count.new ≡ count.old) × (lengths.new ≡ lengths.old)
        × (rows_count.new ≡ rows_count.old) }
{
    match (object, earlier) {
        (Object::Screen(marked), Object::Screen(before)) => {
            let before = before.parser.screen();
            let rows = marked.parser.screen().rows_diff(before, cols.0, cols.1);
            copy_rows(alloc, rows, to, count, lengths, rows_count)
        }
        _ => OTHER_KIND,
    }
}
