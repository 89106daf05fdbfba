//! The arguments after a program's name.

ghost use Rattle.std.specs.Prelude.{◌≡◌, ◌≢◌, [], map, drop, IfOk, IfErr, IsOk, OnErr, Err};
ghost use Rattle.std.specs.IoError.{error_kind};
ghost use Rattle.std.specs.String.{string_bytes};
ghost use Rattle.std.specs.Vec.{vec_items};
ghost use Rattle.std.specs.Vec.Iter.{into_iter_items};
ghost use Rattle.std.specs.declared.io.ErrorKind.TheVariants.{InvalidData, OutOfMemory};
ghost use Rattle.command_line.specs.Running.{ReturnsWith};

use std::alloc::{AllocError, Global};
use std::env::Args;
use std::io;
use std::io::ErrorKind;

/// The arguments after a program's name, from the result of [`args`](std::env::args).
///
/// If an argument isn't UTF-8, no arguments are returned, so that no command line with one is understood. An
/// allocation may fail. Any other error of `args` is returned as it is.
pub fn words_of(alloc: Global, args: io::Result<Args>) -> io::Result<Vec<String>>
    ensures words { IfOk args (λ all. IfOk result (λ words. vec_items words ≡ drop 1 (into_iter_items all))) }
    ensures not_text { IfErr args (λ e. error_kind e ≡ InvalidData → IfOk result (λ words. vec_items words ≡ [])
        × OnErr result ⊥) }
    ensures other { IfErr args (λ e. error_kind e ≢ InvalidData → result ≡ Err e) }
    ensures memory { IfOk args (λ all. IfErr result (λ e. error_kind e ≡ OutOfMemory)) }
{
    match args {
        Ok(args) => Ok(after_first(alloc, args)?),
        Err(error) if error.kind() == ErrorKind::InvalidData => Ok(Vec::new(alloc)),
        Err(error) => Err(error),
    }
}

// All arguments but the first one.
fn after_first(alloc: Global, args: Args) -> Result<Vec<String>, AllocError>
    ensures { IfOk result (λ words. vec_items words ≡ drop 1 (into_iter_items args)) }
{
    args.skip(1).collect(alloc)
}

/// The arguments as `&str`.
///
/// If there are no arguments, nothing is allocated.
pub fn lend<'a>(alloc: Global, words: &'a [String]) -> Result<Vec<&'a str>, AllocError>
    ensures lent { IfOk result (λ lent. map (λ w. w.now) (vec_items lent) ≡ map string_bytes words.now) }
    ensures none { words.now ≡ [] → IsOk result }
{
    let mut lent = Vec::new(alloc);
    for word in words {
        lent.push(word.as_str())?;
    }
    Ok(lent)
}

/// Calls `act` with a state and the arguments after a program's name, and returns its result.
///
/// The arguments are those that [`words_of`] returns for `args`. If an allocation for them fails, or `args` is an error
/// of another kind than `InvalidData`, `act` isn't called and the state stays as it was.
pub fn with_words<S, F: FnOnce(&mut S, &[&str]) -> u8>(
    alloc: Global,
    args: io::Result<Args>,
    state: &mut S,
    act: F,
) -> io::Result<u8>
    requires { F.IsAlwaysCallable act }
    ensures given { IfOk args (λ all. IfOk result (λ status. ReturnsWith F.FnOnce act state.old
        (map string_bytes (drop 1 (into_iter_items all))) status state.new)) }
    ensures not_text { IfErr args (λ e. error_kind e ≡ InvalidData
        → IfOk result (λ status. ReturnsWith F.FnOnce act state.old [] status state.new) × OnErr result ⊥) }
    ensures other { IfErr args (λ e. error_kind e ≢ InvalidData → result ≡ Err e) }
    ensures memory { IfOk args (λ all. IfErr result (λ e. error_kind e ≡ OutOfMemory)) }
    ensures undone { OnErr result (state.new ≡ state.old) }
{
    let words = words_of(alloc, args)?;
    let lent = lend(alloc, &words)?;
    Ok(act(state, &lent))
}
