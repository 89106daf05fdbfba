//! The calls of a filter that draws lines.
ghost use Rattle.std.specs.Prelude.{◌≡◌, IfOk, IfErr};
ghost use Rattle.c_objects.specs.Codes.{IsRefusal, memory};
ghost use Rattle.c_objects.specs.Filters.{IsNewFilter, Passes, GivesLast};
ghost use Rattle.c_objects.specs.Objects.{FilterDoes, FilterSays};

use crate::code::{MEMORY, OK, OTHER_KIND};
use crate::copy::copy_prefix;
use crate::object::Object;
use charset_filter::{LineDrawing, PieceFilter};
use std::alloc::Global;

/// Makes a filter through which nothing has passed, and which has given nothing. Refused if an allocation fails.
pub fn new_filter(alloc: Global) -> Result<Box<Object>, i32>
    ensures new { IfOk result (λ b. IsNewFilter b.value) }
    ensures refused { IfErr result (λ code. code ≡ memory) }
{
    let filter = PieceFilter::new(alloc, LineDrawing::Drawn);
    match Box::new(alloc, Object::Filter(filter)) {
        Ok(object) => Ok(object),
        Err(_) => Err(MEMORY),
    }
}

fn pass_piece(filter: &mut PieceFilter, bytes: &[u8]) -> i32
    ensures { Passes bytes.now filter.old result filter.new }
{
    match filter.pass(bytes) {
        Ok(()) => OK,
        Err(_) => MEMORY,
    }
}

/// Has a filter read the next piece of a program's output. Refused if an allocation fails; then the piece has not
/// passed.
pub fn pass(object: &mut Object, bytes: &[u8]) -> i32
    ensures { FilterDoes (Passes bytes.now) object.old result object.new }
{
    match object {
        Object::Filter(filter) => pass_piece(filter, bytes),
        _ => OTHER_KIND,
    }
}

/// Copies what a filter gave for the last piece that passed; nothing before the first piece.
pub fn given(object: &Object, to: &mut [u8], count: &mut usize) -> i32
    ensures given { FilterSays (GivesLast to.old to.new count.new) object.now result }
    ensures refused { IsRefusal result → (to.new ≡ to.old) × (count.new ≡ count.old) }
{
    match object {
        Object::Filter(filter) => {
            copy_prefix(filter.given(&[]), to, count);
            OK
        }
        _ => OTHER_KIND,
    }
}
