//! The arguments of the command line.

ghost use Rattle.std.specs.Prelude.{◌≡◌, ◌&&◌, true, map, is_some, codes, None, Some, Err, IfOk, IfErr, IfSome};
ghost use Rattle.std.specs.Option.{option_map, option_map_or};
ghost use Rattle.clap.specs.Words.{App, Kinds, app_of, fault_of, found_of, kind_of, matches_of, rows_of};
ghost use Rattle.clap.specs.declared.error.ErrorKind.TheVariants.{OutOfMemory};
ghost use Rattle.command_line.specs.Numbers.{is_count};
ghost use Rattle.recordings.specs.Times.{json_in};
ghost use Rattle.recordings.specs.Recorded.{size_said};
ghost use Rattle.screentext_command.specs.Asked.{IsMadeOf, IsMeant, IsRequested, Says, SaysManner, SaysWish};
ghost use Rattle.screentext_command.specs.Asked.{form_meant, history_meant, manner_of, screen_meant, wish_of};
ghost use Rattle.screentext_command.specs.declared.error.TextError.TheVariants.{Memory};
ghost use Rattle.screentext_command.specs.declared.pictures.Pictures.{Pictures as Shown};
ghost use Rattle.screentext_command.specs.Words.{are_moments, are_values, are_words, is_form, is_moment};
ghost use Rattle.screentext_command.specs.Words.{is_invocation, is_request, is_screen, is_time};

use crate::error::TextError;
use crate::known::known_words;
use crate::pictures::{Pictures, pictures_of};
use crate::rows::Look;
use crate::source::{Source, source_of};
use clap::error::ErrorKind;
use clap::{ArgMatches, Error};
use command_line::{parse_count, parse_size};
use recorded_screen::ScreenSize;
use recordings::{microseconds, parse_json};
use std::alloc::Global;

/// What the program is asked to do.
#[derive(Drop)]
pub(crate) enum Invocation {
    /// Print the help.
    Help,
    /// Print the version.
    Version,
    /// Print a screen, or describe the recording.
    Print(Request, Source, Pictures),
}

/// The form in which a recording is printed.
#[derive(Clone, Copy)]
pub(crate) enum Form {
    /// The screen at a moment.
    Still(Picture),
    /// A film in SVG.
    Film,
    /// A page in HTML that plays.
    Player,
}

/// The form in which a screen is printed.
#[derive(Clone, Copy)]
pub(crate) enum Picture {
    /// Its rows as text.
    Text,
    /// A page in HTML.
    Html,
    /// A block in HTML.
    HtmlBlock,
    /// A picture in SVG.
    Svg,
}

/// Which screen is printed, and how.
#[derive(Clone, Copy)]
pub(crate) struct Request {
    /// The size at first, where the command line has one.
    pub(crate) size: Option<ScreenSize>,
    /// How many kept rows come before those of the screen, at most.
    pub(crate) history: usize,
    pub(crate) look: Look,
    pub(crate) form: Form,
}

/// Reads the arguments. Returns `None` for arguments that aren't understood. Fails only if an allocation fails.
pub(crate) fn parse(alloc: Global, words: &[&str]) -> Result<Option<Invocation>, TextError>
    ensures fault { IfErr result (λ e. e ≡ Memory) }
    ensures invocation { IfOk result (λ o. is_some o ≡ is_invocation (map (λ w. w.now) words.now)) }
    ensures says { IfOk result (λ o. IfSome o (IsMeant (map (λ w. w.now) words.now))) }
{
    match known_words(alloc)?.try_get_matches_from(words) {
        Ok(matches) => invocation_of(alloc, &matches),
        Err(error) => asked(&error),
    }
}

// What the arguments ask for if `clap` doesn't accept them: the help, the version or nothing.
fn asked(error: &Error) -> Result<Option<Invocation>, TextError>
    ensures fault { IfErr result (λ e. e ≡ Memory) }
    ensures invocation { IfOk result (λ o. is_some o ≡ is_request (kind_of error.now)) }
    ensures told { IfOk result (λ o. IfSome o (IsRequested (kind_of error.now))) }
    ensures memory { kind_of error.now ≡ OutOfMemory → result ≡ Err Memory }
{
    match error.kind() {
        ErrorKind::OutOfMemory => Err(TextError::Memory),
        ErrorKind::DisplayHelp => Ok(Some(Invocation::Help)),
        ErrorKind::DisplayVersion => Ok(Some(Invocation::Version)),
        _ => Ok(None),
    }
}

fn invocation_of(alloc: Global, matches: &ArgMatches<'_>) -> Result<Option<Invocation>, TextError>
    ensures fault { IfErr result (λ e. e ≡ Memory) }
    ensures invocation { IfOk result (λ o. is_some o ≡ are_words (rows_of (found_of matches.now))) }
    ensures says { IfOk result (λ o. IfSome o (Says (rows_of (found_of matches.now)))) }
{
    let request = request_of(alloc, matches)?;
    let source = source_of(alloc, matches)?;
    let pictures = pictures_of(alloc, matches)?;
    Ok(all(request, source, pictures))
}

fn all(
    request: Option<Request>,
    source: Option<Source>,
    pictures: Option<Pictures>,
) -> Option<Invocation>
    ensures all { is_some result ≡ (is_some request && (is_some source && is_some pictures)) }
    ensures made { IfSome result (IsMadeOf request source pictures) }
{
    Some(Invocation::Print(request?, source?, pictures?))
}

fn request_of(alloc: Global, matches: &ArgMatches<'_>) -> Result<Option<Request>, TextError>
    ensures fault { IfErr result (λ e. e ≡ Memory) }
    ensures request { IfOk result (λ r. is_some r ≡ are_values (rows_of (found_of matches.now))) }
    ensures says { IfOk result (λ r. IfSome r (λ request. (pictures : Shown)
        → SaysManner (rows_of (found_of matches.now)) (manner_of pictures)
        → SaysWish (rows_of (found_of matches.now)) (wish_of request pictures))) }
{
    let size = size_of(matches.get_str("ROWS"), matches.get_str("COLS"));
    let times = are_moments(alloc, matches)?;
    let history = history_of(matches.get_str("history"));
    let form = form_of(
        matches.get_count("html") > 0,
        matches.get_count("html-block") > 0,
        matches.get_count("svg") > 0,
        matches.get_count("animate") > 0,
        matches.get_count("player") > 0,
    );
    let look = Look {
        joined: matches.get_count("joined") > 0,
        colors: matches.get_count("colours") > 0,
    };
    Ok(new_request(size, times, history, form, look))
}

// Whether each argument for a moment says one.
fn are_moments(alloc: Global, matches: &ArgMatches<'_>) -> Result<bool, TextError>
    ensures fault { IfErr result (λ e. e ≡ Memory) }
    ensures moments { IfOk result (λ t. t ≡ are_moments (rows_of (found_of matches.now))) }
{
    let moment = is_moment(alloc, matches.get_str("at"))?;
    let since = is_moment(alloc, matches.get_str("diff"))?;
    let from = is_moment(alloc, matches.get_str("from"))?;
    let poster = is_moment(alloc, matches.get_str("poster"))?;
    Ok(are_all(moment, since, from, poster))
}

fn are_all(moment: bool, since: bool, from: bool, poster: bool) -> bool
    ensures { result ≡ (moment && (since && (from && poster))) }
{
    moment && since && from && poster
}

// The request, if the times are valid and each part is there.
fn new_request(
    size: Option<Option<ScreenSize>>,
    times: bool,
    history: Option<usize>,
    form: Option<Form>,
    look: Look,
) -> Option<Request>
    ensures request { is_some result ≡ (is_some size && (times && (is_some history && is_some form))) }
    ensures found { IfSome result (λ r. (size ≡ Some r.size) × (history ≡ Some r.history) × (form ≡ Some r.form)) }
    ensures look { IfSome result (λ r. r.look ≡ look) }
{
    if !times {
        return None;
    }
    Some(Request {
        size: size?,
        history: history?,
        look,
        form: form?,
    })
}

/// A size of rows and columns. `Some(None)` if there is neither.
pub(crate) fn size_of(rows: Option<&str>, cols: Option<&str>) -> Option<Option<ScreenSize>>
    ensures size { is_some result
        ≡ is_screen (option_map (λ w. w.now) rows.entry) (option_map (λ w. w.now) cols.entry) }
    ensures value { option_map (option_map size_said) result
        ≡ screen_meant (option_map (λ w. w.now) rows.entry) (option_map (λ w. w.now) cols.entry) }
{
    match (rows, cols) {
        (None, None) => Some(None),
        (Some(rows), Some(cols)) => Some(Some(ScreenSize {
            rows: parse_size(rows)?,
            cols: parse_size(cols)?,
        })),
        _ => None,
    }
}

/// Whether there is no argument, or one that says a moment.
pub(crate) fn is_moment(alloc: Global, word: Option<&str>) -> Result<bool, TextError>
    ensures fault { IfErr result (λ e. e ≡ Memory) }
    ensures moment { IfOk result (λ t. t ≡ is_moment (option_map (λ w. w.now) word.entry)) }
{
    match word {
        None => Ok(true),
        Some(word) => is_time(alloc, word),
    }
}

// Whether it is a number of seconds, written as in JSON, that isn't negative. Any other text is a marker's name.
fn is_time(alloc: Global, word: &str) -> Result<bool, TextError>
    ensures fault { IfErr result (λ e. e ≡ Memory) }
    ensures time { IfOk result (λ t. t ≡ is_time (json_in word.now)) }
{
    let Some(value) = parse_json(alloc, word.as_bytes())? else {
        return Ok(true);
    };
    if !value.is_number() {
        return Ok(true);
    }
    Ok(microseconds(&value).is_some())
}

/// How many kept rows come first: 0 without an argument.
pub(crate) fn history_of(word: Option<&str>) -> Option<usize>
    ensures history { is_some result ≡ option_map_or is_count (option_map (λ w. w.now) word.entry) true }
    ensures value { result ≡ history_meant (option_map (λ w. w.now) word.entry) }
{
    match word {
        None => Some(0),
        Some(word) => parse_count(word),
    }
}

/// The form, by which of its arguments there are.
pub(crate) fn form_of(html: bool, block: bool, svg: bool, film: bool, player: bool) -> Option<Form>
    ensures form { is_some result ≡ is_form html block svg film player }
    ensures value { result ≡ form_meant html block svg film player }
{
    match (html, block, svg, film, player) {
        (false, false, false, false, false) => Some(Form::Still(Picture::Text)),
        (true, false, false, false, false) => Some(Form::Still(Picture::Html)),
        (false, true, false, false, false) => Some(Form::Still(Picture::HtmlBlock)),
        (false, false, true, false, false) => Some(Form::Still(Picture::Svg)),
        (false, false, true, true, false) => Some(Form::Film),
        (false, false, false, false, true) => Some(Form::Player),
        _ => None,
    }
}
