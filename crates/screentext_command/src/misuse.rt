//! What is wrong with arguments that aren't understood.

ghost use Rattle.std.specs.Prelude.{◌≡◌, ◌++◌, IfErr, IfOk, IfSome, List, codes, map};
ghost use Rattle.clap.specs.Words.{Row, found_of, rows_of};
ghost use Rattle.screentext_command.specs.Command.{TellsInParts};
ghost use Rattle.screentext_command.specs.Misuse.{IsWrong, TellsMisuse, TellsWrong};
ghost use Rattle.screentext_command.specs.declared.error.TextError.TheVariants.{Memory};

use crate::error::TextError;
use crate::frames::{font_size_of, padding_of};
use crate::help::USAGE;
use crate::known::known_words;
use crate::pace::{idle_of, plays_of, rate_of, speed_of};
use crate::pictures::{bold_of, theme_of};
use crate::source::{kind_of, most_cells_of};
use crate::streams::tell;
use crate::words::{Form, form_of, history_of, is_moment, size_of};
use byte_streams::ByteSink;
use clap::error::ErrorKind;
use clap::{ArgMatches, Error};
use std::alloc::{AllocError, Global};

/// An argument that isn't as it has to be, with its value if it has one, and what is wanted.
#[derive(Clone, Copy)]
struct Misuse<'a> {
    lead: &'static str,
    word: &'static str,
    value: Option<&'a str>,
    wanted: &'static str,
}

/// Writes in a line what is wrong with arguments that aren't understood: the first one that isn't as it has to be, or
/// else the usage. Nothing is written if an allocation fails before that is known.
pub(crate) fn tell_misuse<V: ByteSink>(
    alloc: Global,
    words: &[&str],
    errors: &mut V,
) -> Result<(), TextError>
    ensures told { IfOk result (λ u. TellsMisuse V.takes (map (λ w. w.now) words.now) errors.old errors.new) }
    ensures fault { IfErr result (λ e. (e ≡ Memory) × (errors.new ≡ errors.old)) }
{
    let known = known_words(alloc)?;
    match known.try_get_matches_from(words) {
        Ok(matches) => tell_wrong(alloc, &matches, errors),
        Err(error) => tell_usage(&error, errors),
    }
}

// Writes the usage, unless an allocation failed.
fn tell_usage<V: ByteSink>(error: &Error, errors: &mut V) -> Result<(), TextError>
    ensures told { IfOk result (λ u. TellsInParts V.takes errors.old USAGE.now errors.new) }
    ensures fault { IfErr result (λ e. (e ≡ Memory) × (errors.new ≡ errors.old)) }
{
    match error.kind() {
        ErrorKind::OutOfMemory => Err(TextError::Memory),
        _ => {
            tell(errors, &[USAGE]);
            Ok(())
        }
    }
}

fn tell_wrong<V: ByteSink>(
    alloc: Global,
    matches: &ArgMatches<'_>,
    errors: &mut V,
) -> Result<(), TextError>
    ensures told { IfOk result (λ u. TellsWrong V.takes (rows_of (found_of matches.now)) errors.old errors.new) }
    ensures fault { IfErr result (λ e. (e ≡ Memory) × (errors.new ≡ errors.old)) }
{
    let misuse = misuse_of(alloc, matches)?;
    tell_found(misuse, errors);
    Ok(())
}

fn tell_found<V: ByteSink>(misuse: Option<Misuse<'_>>, errors: &mut V)
    ensures { (rows : List Row) → IfSome misuse.entry (IsWrong rows) → TellsWrong V.takes rows errors.old errors.new }
{
    match misuse {
        Some(misuse) => tell_word(misuse, errors),
        None => tell(errors, &[USAGE]),
    }
}

fn tell_word<V: ByteSink>(misuse: Misuse<'_>, errors: &mut V)
    ensures { (rows : List Row) → IsWrong rows misuse.entry → TellsWrong V.takes rows errors.old errors.new }
{
    match misuse.value {
        Some(value) => tell_value(errors, misuse.lead, misuse.word, value, misuse.wanted),
        None => tell(
            errors,
            &[misuse.lead, misuse.word, ": ", misuse.wanted, "\n"],
        ),
    }
}

fn tell_value<V: ByteSink>(errors: &mut V, lead: &str, word: &str, value: &str, wanted: &str)
    ensures { TellsInParts V.takes errors.old (lead.now ++ (word.now ++ (codes " " ++ (value.now ++ (codes ": "
        ++ (wanted.now ++ codes "\n")))))) errors.new }
{
    tell(
        errors,
        &[&*lead, &*word, " ", &*value, ": ", &*wanted, "\n"],
    );
}

fn misuse_of<'a>(alloc: Global, matches: &ArgMatches<'a>) -> Result<Option<Misuse<'a>>, TextError>
    ensures misuse { IfOk result (λ m. IfSome m (IsWrong (rows_of (found_of matches.now)))) }
    ensures fault { IfErr result (λ e. e ≡ Memory) }
{
    if let Some(misuse) = wrong_moment(alloc, matches)? {
        return Ok(Some(misuse));
    }
    if let Some(misuse) = wrong_pace(alloc, matches)? {
        return Ok(Some(misuse));
    }
    if let Some(misuse) = wrong_picture(matches) {
        return Ok(Some(misuse));
    }
    if let Some(misuse) = wrong_form(matches) {
        return Ok(Some(misuse));
    }
    Ok(wrong_screen(matches))
}

// An argument for a moment that says a negative time.
fn wrong_moment<'a>(
    alloc: Global,
    matches: &ArgMatches<'a>,
) -> Result<Option<Misuse<'a>>, TextError>
    ensures misuse { IfOk result (λ m. IfSome m (IsWrong (rows_of (found_of matches.now)))) }
    ensures fault { IfErr result (λ e. e ≡ Memory) }
{
    let wanted = "a time that isn't negative or a marker is wanted";
    if !is_moment(alloc, matches.get_str("at"))? {
        return Ok(wrong_value(matches, "at", wanted));
    }
    if !is_moment(alloc, matches.get_str("diff"))? {
        return Ok(wrong_value(matches, "diff", wanted));
    }
    if !is_moment(alloc, matches.get_str("from"))? {
        return Ok(wrong_value(matches, "from", wanted));
    }
    if !is_moment(alloc, matches.get_str("poster"))? {
        return Ok(wrong_value(matches, "poster", wanted));
    }
    Ok(None)
}

// What is wrong with the arguments for how fast a film plays.
fn wrong_pace<'a>(alloc: Global, matches: &ArgMatches<'a>) -> Result<Option<Misuse<'a>>, AllocError>
    ensures { IfOk result (λ m. IfSome m (IsWrong (rows_of (found_of matches.now)))) }
{
    if speed_of(alloc, matches.get_str("speed"))?.is_none() {
        return Ok(wrong_value(matches, "speed", "a number above 0 is wanted"));
    }
    if idle_of(alloc, matches.get_str("idle"))?.is_none() {
        return Ok(wrong_value(matches, "idle", "a number of seconds is wanted"));
    }
    if rate_of(matches.get_str("fps")).is_none() {
        return Ok(wrong_value(matches, "fps", "a number from 1 to 1000 is wanted"));
    }
    if plays_of(matches.get_str("loop")).is_none() {
        return Ok(wrong_value(matches, "loop", "a number from 1 to 65535 is wanted"));
    }
    Ok(None)
}

// What is wrong with the arguments for how pictures look.
fn wrong_picture<'a>(matches: &ArgMatches<'a>) -> Option<Misuse<'a>>
    ensures { IfSome result (IsWrong (rows_of (found_of matches.now))) }
{
    if theme_of(matches.get_str("theme")).is_none() {
        return wrong_value(matches, "theme", "screentext --help names the themes");
    }
    if padding_of(matches.get_str("padding")).is_none() {
        return wrong_value(
            matches,
            "padding",
            "a number of pixels from 0 to 255 is wanted",
        );
    }
    if font_size_of(matches.get_str("font-size")).is_none() {
        return wrong_value(
            matches,
            "font-size",
            "a number of pixels from 1 to 255 is wanted",
        );
    }
    let (bright, plain) = ("bold-is-bright", "bold-is-plain");
    if bold_of(matches.get_count(bright) > 0, matches.get_count(plain) > 0).is_none() {
        return wrong_flag(matches, bright, "it is not for use with --bold-is-plain");
    }
    None
}

// What is wrong with the arguments for the form.
fn wrong_form<'a>(matches: &ArgMatches<'a>) -> Option<Misuse<'a>>
    ensures { IfSome result (IsWrong (rows_of (found_of matches.now))) }
{
    if form_in(matches).is_some() {
        return None;
    }
    if matches.get_count("svg") == 0 && matches.get_count("animate") > 0 {
        return wrong_flag(matches, "animate", "it is for use with --svg");
    }
    if matches.get_count("html-block") > 0 {
        return wrong_flag(matches, "html-block", "another form is asked for too");
    }
    if matches.get_count("player") > 0 {
        return wrong_flag(matches, "player", "another form is asked for too");
    }
    wrong_flag(matches, "html", "another form is asked for too")
}

// What is wrong with the arguments for the recording and the screen.
fn wrong_screen<'a>(matches: &ArgMatches<'a>) -> Option<Misuse<'a>>
    ensures { IfSome result (IsWrong (rows_of (found_of matches.now))) }
{
    if kind_of(matches.get_str("kind")).is_none() {
        return wrong_value(
            matches,
            "kind",
            "asciicast, script, ttyrec or raw is wanted",
        );
    }
    if most_cells_of(matches.get_str("max-cells")).is_none() {
        return wrong_value(
            matches,
            "max-cells",
            "a number of at most 9 digits is wanted",
        );
    }
    if history_of(matches.get_str("history")).is_none() {
        return wrong_value(matches, "history", "a number of at most 9 digits is wanted");
    }
    if size_of(matches.get_str("ROWS"), matches.get_str("COLS")).is_none() {
        return wrong_size(matches);
    }
    None
}

fn form_in(matches: &ArgMatches<'_>) -> Option<Form> {
    form_of(
        matches.get_count("html") > 0,
        matches.get_count("html-block") > 0,
        matches.get_count("svg") > 0,
        matches.get_count("animate") > 0,
        matches.get_count("player") > 0,
    )
}

fn wrong_size<'a>(matches: &ArgMatches<'a>) -> Option<Misuse<'a>>
    ensures { IfSome result (IsWrong (rows_of (found_of matches.now))) }
{
    let wanted = "ROWS and COLS are numbers from 1 to 65535";
    let Some(cols) = matches.get_str("COLS") else {
        return wrong_value(matches, "ROWS", wanted);
    };
    if size_of(Some(cols), Some(cols)).is_none() {
        return wrong_value(matches, "COLS", wanted);
    }
    wrong_value(matches, "ROWS", wanted)
}

fn wrong_value<'a>(
    matches: &ArgMatches<'a>,
    word: &'static str,
    wanted: &'static str,
) -> Option<Misuse<'a>>
    ensures { IfSome result (IsWrong (rows_of (found_of matches.now))) }
{
    let value = matches.get_str(word)?;
    Some(Misuse {
        lead: lead_of(word),
        word,
        value: Some(value),
        wanted,
    })
}

fn wrong_flag<'a>(
    matches: &ArgMatches<'a>,
    word: &'static str,
    wanted: &'static str,
) -> Option<Misuse<'a>>
    ensures { IfSome result (IsWrong (rows_of (found_of matches.now))) }
{
    if matches.get_count(word) == 0 {
        return None;
    }
    Some(Misuse {
        lead: "screentext: --",
        word,
        value: None,
        wanted,
    })
}

// What comes before an argument that is named: options have two dashes.
fn lead_of(word: &str) -> &'static str {
    match word {
        "ROWS" | "COLS" => "screentext: ",
        _ => "screentext: --",
    }
}
