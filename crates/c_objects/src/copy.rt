//! What is copied into the caller's memory.
ghost use Rattle.std.specs.Prelude.{◌≡◌, length};
ghost use Rattle.c_objects.specs.Codes.{IsRefusal};
ghost use Rattle.c_objects.specs.Texts.{with_prefix, Copies};

use crate::code::{OK, screen_refusal};
use vt100::ScreenError;

/// Copies as long a prefix as fits, and sets `count` to how many items there are in all.
pub(crate) fn copy_prefix<T: Copy>(from: &[T], to: &mut [T], count: &mut usize)
    ensures prefix { to.new ≡ with_prefix from.now to.old }
    ensures count { count.new ≡ length from.now }
{
    *count = from.len();
    let n = from.len().min(to.len());
    to[..n].copy_from_slice(&from[..n]);
}

/// Copies a text as `copy_prefix` does, or returns the error's number.
pub(crate) fn copy_text(text: Result<String, ScreenError>, to: &mut [u8], count: &mut usize) -> i32
    ensures copied { Copies text to.old to.new count.new result }
    ensures refused { IsRefusal result → (to.new ≡ to.old) × (count.new ≡ count.old) }
{
    match text {
        Ok(text) => {
            copy_prefix(text.as_bytes(), to, count);
            OK
        }
        Err(error) => screen_refusal(error),
    }
}
