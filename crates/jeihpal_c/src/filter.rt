//! The functions of a filter that draws lines, for C.
ghost use Rattle.std.specs.Prelude.{◌≡◌, None};
ghost use Rattle.c_objects.specs.Codes.{IsRefusal, memory};
ghost use Rattle.c_objects.specs.Filters.{IsNewFilter, Passes, GivesLast};
ghost use Rattle.c_objects.specs.Objects.{FilterDoes, FilterSays};
ghost use Rattle.c_objects.specs.Words.{OnWord, InWord, IsReadWord};

use crate::word::Word;
use c_objects::{CLOSED, OK, filter};
use std::alloc::Global;

/// Makes a filter that draws lines, through which nothing has passed, and which has given nothing. Refused if an
/// allocation fails.
///
/// An object that the word held is closed, even if the call is refused.
#[unsafe(no_mangle)]
pub extern "C" fn jeihpal_filter_new(alloc: Global, word: &mut Word) -> i32
    ensures { IsReadWord IsNewFilter (λ code. code ≡ memory) result word.new.held }
{
    match filter::new_filter(alloc) {
        Ok(object) => {
            word.put(alloc, object);
            OK
        }
        Err(code) => {
            let _old = word.take(alloc);
            code
        }
    }
}

/// Reads the next piece of a program's output. Refused if an allocation fails; the piece then has not passed, and the
/// call may be repeated with it.
#[unsafe(no_mangle)]
pub extern "C" fn jeihpal_filter_pass(word: &mut Word, bytes: &[u8]) -> i32
    ensures { OnWord (FilterDoes (Passes bytes.now)) word.old.held result word.new.held }
{
    match word.get_mut() {
        Some(object) => filter::pass(object, bytes),
        None => CLOSED,
    }
}

/// Copies as many as fit of the bytes that the last piece gave, and sets `count` to how many there are: at most eight
/// times as many as the piece had, and 512 more. Before the first piece `count` is 0.
#[unsafe(no_mangle)]
pub extern "C" fn jeihpal_filter_given(word: &mut Word, to: &mut [u8], count: &mut usize) -> i32
    ensures says { InWord (FilterSays (GivesLast to.old to.new count.new)) word.old.held result }
    ensures same { word.new.held ≡ word.old.held }
    ensures refused { IsRefusal result → (to.new ≡ to.old) × (count.new ≡ count.old) }
{
    match word.get_mut() {
        Some(object) => filter::given(object, to, count),
        None => CLOSED,
    }
}

/// Closes the word: frees the object that it holds, if any, and makes the word null.
#[unsafe(no_mangle)]
pub extern "C" fn jeihpal_filter_close(alloc: Global, word: &mut Word)
    ensures { word.new.held ≡ None }
{
    let _old = word.take(alloc);
}
