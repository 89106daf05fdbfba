//! A whole program.

ghost use Rattle.std.specs.Fn.{FnOnceReturnsAtMut};
ghost use Rattle.std.specs.Prelude.{◌≡◌, ◌≢◌, ◌⊎◌, [], map, drop, IfOk, IfErr};
ghost use Rattle.std.specs.IoError.{error_kind};
ghost use Rattle.std.specs.Process.{exit_status};
ghost use Rattle.std.specs.String.{string_bytes};
ghost use Rattle.std.specs.Vec.Iter.{into_iter_items};
ghost use Rattle.std.specs.declared.io.ErrorKind.TheVariants.{InvalidData};
ghost use Rattle.command_line.specs.Running.{ReturnsWith};

use crate::args::with_words;
use std::alloc::Global;
use std::env::Args;
use std::io;
use std::process::ExitCode;

/// Runs a command as [`with_words`] does, and returns its exit status. The command gets a state, such as a program's
/// input and outputs, and the arguments after the program's name.
///
/// If an allocation for the arguments fails, or `args` is an error of another kind than `InvalidData`, `refuse` is run
/// instead.
pub fn run<S, F: FnOnce(&mut S, &[&str]) -> u8, G: FnOnce(&mut S) -> u8>(
    alloc: Global,
    args: io::Result<Args>,
    state: &mut S,
    command: F,
    refuse: G,
) -> ExitCode
    requires command { F.IsAlwaysCallable command }
    requires refuse { G.IsAlwaysCallable refuse }
    ensures given { IfOk args (λ all. ReturnsWith F.FnOnce command state.old
        (map string_bytes (drop 1 (into_iter_items all)))
        (exit_status result) state.new
        ⊎ FnOnceReturnsAtMut G.FnOnce refuse state.old (exit_status result) state.new) }
    ensures not_text { IfErr args (λ e. error_kind e ≡ InvalidData
        → ReturnsWith F.FnOnce command state.old [] (exit_status result) state.new) }
    ensures other { IfErr args (λ e. error_kind e ≢ InvalidData
        → FnOnceReturnsAtMut G.FnOnce refuse state.old (exit_status result) state.new) }
{
    match with_words(alloc, args, state, command) {
        Ok(status) => ExitCode::from(status),
        Err(_) => ExitCode::from(refuse(state)),
    }
}
