//! What is printed of a recording.

ghost use Rattle.std.specs.Prelude.{◌≡◌, ◌⊎◌, IfErr, IfOk, false};
ghost use Rattle.std.specs.Option.{option_map};
ghost use Rattle.recordings.specs.Recorded.{size_said};
ghost use Rattle.screentext_command.specs.Asked.{manner_of, wish_of};
ghost use Rattle.screentext_command.specs.Missing.{IsUnfit};
ghost use Rattle.screentext_command.specs.Moments.{is_late};
ghost use Rattle.screentext_command.specs.Texts.{IsAnswer, IsFilm, IsPlayer, IsScreen, IsStill, changes_text};
ghost use Rattle.screentext_command.specs.Texts.{rows_text, screen_at, size_at_first};
ghost use Rattle.screentext_command.specs.declared.error.TextError.TheVariants.{Memory};
ghost use Rattle.screentext_command.specs.declared.error.TextError.TheVariants.{Player as LongPlayer};
ghost use Rattle.screentext_command.specs.declared.words.Form.TheVariants.{Film as AFilm};

use crate::changes::push_changes;
use crate::error::TextError;
use crate::pictures::Pictures;
use crate::rows::Look;
use crate::source::Moments;
use crate::text::push_lines;
use crate::words::{Form, Picture, Request};
use player_page::{Play, player};
use recorded_screen::{
    Recording, ScreenSize, framed_film, framed_svg, html, html_block, terminal_at,
};
use std::alloc::Global;
use std::num::NonZeroU16;
use vt100::{Parser, Screen};

/// What is printed of a recording.
pub(crate) fn answer_of(
    alloc: Global,
    recording: &Recording,
    request: Request,
    moments: Moments,
    pictures: &Pictures,
) -> Result<Vec<u8>, TextError>
    ensures text { IfOk result (λ text. IsAnswer request.form (wish_of request pictures.now)
        (size_at_first (option_map size_said request.size) (option_map size_said recording.now.size)) recording.now
        moments text.items) }
    ensures fault { IfErr result (λ e. (e ≡ Memory) ⊎ IsUnfit request.form recording.now moments e) }
{
    let size = size_of(recording, request.size);
    match request.form {
        Form::Still(picture) => {
            screen_of(alloc, recording, size, request, picture, moments, pictures)
        }
        Form::Film => film_of(alloc, recording, size, moments, pictures),
        Form::Player => player_of(alloc, recording, size, moments, pictures),
    }
}

// The size of the screen at first.
fn size_of(recording: &Recording, size: Option<ScreenSize>) -> ScreenSize
    ensures { size_said result ≡ size_at_first (option_map size_said size) (option_map size_said recording.now.size) }
{
    match (size, recording.size) {
        (Some(size), _) => size,
        (None, Some(size)) => size,
        (None, None) => usual_size(),
    }
}

// 24 rows of 80 columns.
fn usual_size() -> ScreenSize
    ensures { size_said result ≡ (24, 80) }
{
    ScreenSize {
        rows: NonZeroU16::new(24).unwrap(),
        cols: NonZeroU16::new(80).unwrap(),
    }
}

// The screen at a moment, or what differs from an earlier one.
fn screen_of(
    alloc: Global,
    recording: &Recording,
    size: ScreenSize,
    request: Request,
    picture: Picture,
    moments: Moments,
    pictures: &Pictures,
) -> Result<Vec<u8>, TextError>
    ensures text { IfOk result (λ text. IsScreen picture (wish_of request pictures.now) (size_said size)
        recording.now moments.moment moments.since text.items) }
    ensures fault { IfErr result (λ e. e ≡ Memory) }
{
    let mut terminal = terminal_of(alloc, recording, size, request.history, moments.moment)?;
    match moments.since {
        Some(since) => changes_since(alloc, recording, size, request.look, since, &terminal),
        None => still_of(
            alloc,
            terminal.screen_mut(),
            recording,
            request,
            picture,
            pictures,
        ),
    }
}

// The terminal at a moment, which keeps at most `capacity` rows.
fn terminal_of(
    alloc: Global,
    recording: &Recording,
    size: ScreenSize,
    capacity: usize,
    moment: u64,
) -> Result<Parser<()>, TextError>
    ensures live { IfOk result (λ p. p.screen.failed ≡ false) }
    ensures shows { IfOk result (λ p. p.screen.state ≡ screen_at (size_said size) capacity recording.now moment) }
    ensures fault { IfErr result (λ e. e ≡ Memory) }
{
    let terminal = terminal_at(alloc, size, capacity, &recording.events, moment)?;
    Ok(terminal)
}

// The film of what happens from one moment to another.
fn film_of(
    alloc: Global,
    recording: &Recording,
    size: ScreenSize,
    moments: Moments,
    pictures: &Pictures,
) -> Result<Vec<u8>, TextError>
    ensures film { IfOk result (λ text. IsFilm (manner_of pictures.now) (size_said size) recording.now moments
        text.items) }
    ensures fault { IfErr result (λ e. (e ≡ Memory) ⊎ IsUnfit AFilm recording.now moments e) }
{
    if is_late(recording, moments) {
        return Err(TextError::Late);
    }
    let colors = pictures.look(alloc, recording)?;
    let pace = pictures.pace_of(recording, moments);
    Ok(framed_film(
        alloc,
        size,
        &recording.events,
        moments.moment,
        &colors,
        pace,
        &pictures.frame,
    )?)
}

// Whether a film would begin after its end.
fn is_late(recording: &Recording, moments: Moments) -> bool
    ensures { result ≡ is_late recording.now moments }
{
    match moments.from {
        Some(from) => from > moments.moment.min(recording.length),
        None => false,
    }
}

// The page that plays the recording, with the screen at a moment on it.
fn player_of(
    alloc: Global,
    recording: &Recording,
    size: ScreenSize,
    moments: Moments,
    pictures: &Pictures,
) -> Result<Vec<u8>, TextError>
    ensures player { IfOk result (λ text. IsPlayer (manner_of pictures.now) (size_said size) recording.now moments
        text.items) }
    ensures fault { IfErr result (λ e. (e ≡ Memory) ⊎ (e ≡ LongPlayer)) }
{
    let colors = pictures.look(alloc, recording)?;
    let play = Play {
        length: recording.length,
        poster: moments.moment,
        pace: pictures.pace_of(recording, moments),
    };
    let page = player(alloc, size, &recording.events, &colors, &play)?;
    Ok(page)
}

// What the screen shows, in the form that is asked for, with the newest kept rows before it.
fn still_of(
    alloc: Global,
    screen: &mut Screen,
    recording: &Recording,
    request: Request,
    picture: Picture,
    pictures: &Pictures,
) -> Result<Vec<u8>, TextError>
    requires { screen.old.failed ≡ false }
    ensures picture { IfOk result (λ text. IsStill picture (wish_of request pictures.now) recording.now
        screen.old.state text.items) }
    ensures fault { IfErr result (λ e. e ≡ Memory) }
{
    let colors = pictures.look(alloc, recording)?;
    match picture {
        Picture::Text => lines_of(alloc, screen, request.history, request.look),
        Picture::Html => Ok(html(alloc, screen, request.history, &colors)?),
        Picture::HtmlBlock => Ok(html_block(alloc, screen, request.history, &colors)?),
        Picture::Svg => Ok(framed_svg(alloc, screen, request.history, &colors, &pictures.frame)?),
    }
}

fn lines_of(
    alloc: Global,
    screen: &mut Screen,
    history: usize,
    look: Look,
) -> Result<Vec<u8>, TextError>
    requires { screen.old.failed ≡ false }
    ensures lines { IfOk result (λ text. text.items ≡ rows_text look history screen.old.state) }
    ensures fault { IfErr result (λ e. e ≡ Memory) }
{
    let mut text = String::new(alloc);
    push_lines(&mut text, screen, history, look)?;
    Ok(text.into_bytes())
}

// What differs from an earlier moment.
fn changes_since(
    alloc: Global,
    recording: &Recording,
    size: ScreenSize,
    look: Look,
    since: u64,
    after: &Parser<()>,
) -> Result<Vec<u8>, TextError>
    ensures changes { IfOk result (λ text. text.items ≡ changes_text look
        (screen_at (size_said size) 0 recording.now since).shown after.now.screen.state.shown) }
    ensures fault { IfErr result (λ e. e ≡ Memory) }
{
    let before = terminal_of(alloc, recording, size, 0, since)?;
    changes_of(alloc, &before, after, look)
}

fn changes_of(
    alloc: Global,
    before: &Parser<()>,
    after: &Parser<()>,
    look: Look,
) -> Result<Vec<u8>, TextError>
    ensures changes { IfOk result (λ text. text.items ≡ changes_text look before.now.screen.state.shown
        after.now.screen.state.shown) }
    ensures fault { IfErr result (λ e. e ≡ Memory) }
{
    let mut text = String::new(alloc);
    push_changes(alloc, &mut text, before.screen(), after.screen(), look)?;
    Ok(text.into_bytes())
}
