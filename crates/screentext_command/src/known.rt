//! The arguments that the command line knows.

ghost use Rattle.std.specs.Prelude.{◌≡◌, IfOk, false, map};
ghost use Rattle.clap.specs.Words.{app_of, new_rule, rule_of, with_rule};
ghost use Rattle.screentext_command.specs.Words.{colors_rule, flag_rule, known, program as program_app, value_rule, with_all};

use clap::{Arg, ArgAction, Command};
use std::alloc::{AllocError, Global};

/// The options with a value.
pub(crate) const VALUES: [&str; 17] = [
    "at",
    "diff",
    "history",
    "kind",
    "timing",
    "max-cells",
    "theme",
    "font",
    "speed",
    "idle",
    "fps",
    "padding",
    "font-size",
    "window",
    "loop",
    "from",
    "poster",
];

/// The options without a value, except `--colours`.
pub(crate) const FLAGS: [&str; 12] = [
    "joined",
    "html",
    "svg",
    "list",
    "no-line-drawing",
    "strict",
    "html-block",
    "bold-is-bright",
    "bold-is-plain",
    "animate",
    "player",
    "no-cursor",
];

/// The arguments that are known: two positional ones, options with a value, and flags. A later use of an option
/// replaces an earlier one.
pub(crate) fn known_words<'a>(alloc: Global) -> Result<Command<'a>, AllocError>
    ensures { IfOk result (λ c. app_of c ≡ known) }
{
    let with_sizes = program(alloc)
        .arg(size(alloc, "ROWS"))?
        .arg(size(alloc, "COLS"))?;
    let with_colors = with_sizes.arg(colors(alloc)?)?;
    let with_options = with_values(alloc, with_colors, &VALUES)?;
    with_flags(alloc, with_options, &FLAGS)
}

fn with_values<'a>(
    alloc: Global,
    command: Command<'a>,
    names: &[&'static str],
) -> Result<Command<'a>, AllocError>
    ensures { IfOk result (λ c. app_of c ≡ with_all value_rule (app_of command.entry) (map (λ w. w.now) names.now)) }
{
    let mut known = command;
    for name in names {
        known = known.arg(value(alloc, name))?;
    }
    Ok(known)
}

fn with_flags<'a>(
    alloc: Global,
    command: Command<'a>,
    names: &[&'static str],
) -> Result<Command<'a>, AllocError>
    ensures { IfOk result (λ c. app_of c ≡ with_all flag_rule (app_of command.entry) (map (λ w. w.now) names.now)) }
{
    let mut known = command;
    for name in names {
        known = known.arg(flag(alloc, name))?;
    }
    Ok(known)
}

fn program<'a>(alloc: Global) -> Command<'a>
    ensures { app_of result ≡ program_app }
{
    Command::new(alloc, "screentext")
        .version("0.1")
        .no_binary_name(true)
        .args_override_self(true)
}

fn colors<'a>(alloc: Global) -> Result<Arg<'a>, AllocError>
    ensures { IfOk result (λ a. (rule_of a ≡ colors_rule) × (a.global ≡ false)) }
{
    let colors = flag(alloc, "colours");
    Ok(colors.visible_alias("colors")?)
}

// A positional argument.
fn size<'a>(alloc: Global, id: &'a str) -> Arg<'a>
    ensures rule { rule_of result ≡ new_rule id.entry.now }
    ensures local { result.global ≡ false }
{
    Arg::new(alloc, id)
}

// An option with a value.
fn value<'a>(alloc: Global, id: &'a str) -> Arg<'a>
    ensures rule { rule_of result ≡ value_rule id.entry.now }
    ensures local { result.global ≡ false }
{
    Arg::new(alloc, id).long(id).value_name(id)
}

// An option without one. It may be repeated.
fn flag<'a>(alloc: Global, id: &'a str) -> Arg<'a>
    ensures rule { rule_of result ≡ flag_rule id.entry.now }
    ensures local { result.global ≡ false }
{
    Arg::new(alloc, id).long(id).action(ArgAction::Count)
}
