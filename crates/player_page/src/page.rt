//! The page that plays a recording.

ghost use Rattle.std.specs.Prelude.{◌≡◌, ◌≤◌, ◌<◌, ◌++◌, ℕ, [], List, IfErr, IfOk, OnOk, length};
ghost use Rattle.picture_page.specs.Page.{Adds, IsPage, IsSafe};
ghost use Rattle.recordings.specs.declared.recording.Event.{Event};
ghost use Rattle.recorded_screen.specs.Picture.{cells_shown};
ghost use Rattle.player_page.specs.Heads.{BeginsWith, head_bytes};
ghost use Rattle.player_page.specs.Moments.{ArePainted};
ghost use Rattle.player_page.specs.Pages.{IsPlayer, IsTooLong, controls_bytes, marker_bytes, rows_bytes, size_bytes};
ghost use Rattle.player_page.specs.Pages.{strip_bytes};
ghost use Rattle.player_page.specs.Rows.{AddsRows, IsRowOf, ShowsRows};
ghost use Rattle.player_page.specs.Strips.{FailsFor};
ghost use Rattle.player_page.specs.declared.error.PlayerError.TheVariants.{TooLong};

use crate::error::PlayerError;
use crate::head::{push_head, push_seconds};
use crate::strip::{Strip, paint, push_row, strip_of};
use recorded_screen::{END, Pace, push_font, terminal_at, widest};
use recordings::{Change, Event, ScreenSize};
use row_pictures::{Look, Page, Tag, push_html_colors};
use std::alloc::{AllocError, Global};
use vt100::Screen;

/// The longest page, in bytes.
pub const LONGEST_PLAYER: usize = 32 << 20;

/// How a recording is played.
#[derive(Drop)]
pub struct Play {
    /// The length of the recording, in microseconds.
    pub length: u64,
    /// The time of the moment that is shown before it is played, in microseconds of the recording.
    pub poster: u64,
    /// How fast it is played at first, and how long a moment may stay.
    pub pace: Pace,
}

/// A page in HTML that plays the events, and needs nothing else. It has the recording's moments: each a time, and the
/// numbers of rows, which are drawn once. It has the names of the markers, and a fixed script. Its title is that of
/// `look`, if it has one.
///
/// The error is `TooLong` where a part of the page, or the page, has more than [`LONGEST_PLAYER`] bytes.
pub fn player(
    alloc: Global,
    size: ScreenSize,
    events: &[Event],
    look: &Look,
    play: &Play,
) -> Result<Vec<u8>, PlayerError>
    ensures plays { IfOk result (λ bytes. IsPlayer look.now size events.now play.now bytes.items) }
    ensures rows { IfOk result (λ bytes. ShowsRows size.rows.value size.cols.value events.now bytes.items) }
    ensures head { IfOk result (λ bytes. BeginsWith (head_bytes look.now play.now) bytes.items) }
    ensures page { IfOk result (λ bytes. IsPage bytes.items) }
    ensures safe { IfOk result (λ bytes. IsSafe bytes.items) }
    ensures short { IfOk result (λ bytes. length bytes.items ≤ LONGEST_PLAYER) }
    ensures fault { IfErr result (FailsFor (IsTooLong LONGEST_PLAYER look.now size events.now play.now)) }
{
    let strip = strip_of(alloc, size, events, look)?;
    let poster = terminal_at(alloc, size, 0, events, play.poster)?;
    let mut page = Page::new(alloc);
    push_head(&mut page, look, play)?;
    push_size(&mut page, size, events)?;
    push_front(&mut page, look)?;
    push_screen(alloc, &mut page, poster.screen(), look)?;
    push_markers(&mut page, events)?;
    push_strip(&mut page, &strip)?;
    check_length(&page)?;
    Ok(page.into_bytes())
}

/// Fails if the page is longer than the longest one.
pub(crate) fn check_length(page: &Page) -> Result<(), PlayerError>
    ensures short { OnOk result (length page.now ≤ LONGEST_PLAYER) }
    ensures long { IfErr result (λ e. (e ≡ TooLong) × (LONGEST_PLAYER < length page.now)) }
{
    if page.len() > LONGEST_PLAYER {
        return Err(PlayerError::TooLong);
    }
    Ok(())
}

// Appends the size that the screen has at most.
fn push_size(page: &mut Page, size: ScreenSize, events: &[Event]) -> Result<(), AllocError>
    ensures adds { OnOk result (Adds page.old page.new []) }
    ensures bytes { OnOk result (page.new ≡ page.old ++ size_bytes size events.now) }
{
    let widest = widest(size, events, END);
    let rows = u32::from(widest.rows.get());
    let cols = u32::from(widest.cols.get());
    page.numbers(&[(Tag::PlayerRows, rows), (Tag::PlayerCols, cols)])
}

// Appends the colours of the screen, and its font.
fn push_front(page: &mut Page, look: &Look) -> Result<(), AllocError>
    ensures { OnOk result (Adds page.old page.new []) }
{
    page.markup(Tag::PlayerScreen)?;
    push_html_colors(page, look.theme.fgcolor, look.theme.bgcolor)?;
    push_font(page, look, Tag::BlockFont, Tag::BlockFontEnd)?;
    page.markup(Tag::BlockRows)
}

// Appends the rows of a screen.
fn push_screen(
    alloc: Global,
    page: &mut Page,
    screen: &Screen,
    look: &Look,
) -> Result<(), AllocError>
    ensures rows { OnOk result ((rows : List (List ℕ)) × ArePainted look.now screen.now.state rows
        × (page.new ≡ page.old ++ rows_bytes rows)) }
    ensures text { OnOk result ((rows cols : ℕ) (events : List Event)
        → ((r : ℕ) → IsRowOf rows cols events (cells_shown screen.now.state.shown r))
        → AddsRows rows cols events page.old page.new) }
{
    let (rows, _) = screen.size();
    for row in 0..rows.get() {
        push_row(page, &paint(alloc, screen, row, look)?)?;
    }
    Ok(())
}

// Appends the controls and the markers.
fn push_markers(page: &mut Page, events: &[Event]) -> Result<(), AllocError>
    ensures adds { OnOk result (Adds page.old page.new []) }
    ensures bytes { OnOk result (page.new ≡ page.old ++ controls_bytes events.now) }
{
    page.markup(Tag::PlayerControls)?;
    for event in events {
        push_marker(page, event)?;
    }
    Ok(())
}

// Appends an event, if it is a marker.
fn push_marker(page: &mut Page, event: &Event) -> Result<(), AllocError>
    ensures adds { OnOk result (Adds page.old page.new []) }
    ensures bytes { OnOk result (page.new ≡ page.old ++ marker_bytes event.now.time event.now.change) }
{
    match &event.change {
        Change::Marker(name) => {
            push_seconds(page, Tag::MarkerTime, event.time)?;
            page.markup(Tag::MarkerName)?;
            page.name(name.as_str())?;
            page.markup(Tag::MarkerEnd)
        }
        Change::Output(_) | Change::Resize(_) => Ok(()),
    }
}

// Appends the rows and the moments, and the script that reads them.
fn push_strip(page: &mut Page, strip: &Strip) -> Result<(), AllocError>
    ensures bytes { OnOk result (page.new ≡ page.old ++ strip_bytes strip.now.rows strip.now.moments) }
    ensures text { OnOk result ((rows cols : ℕ) (events : List Event)
        → AddsRows rows cols events [] strip.now.rows → Adds [] strip.now.moments []
        → AddsRows rows cols events page.old page.new) }
{
    page.markup(Tag::PlayerTable)?;
    page.append(&strip.rows)?;
    page.markup(Tag::PlayerMoments)?;
    page.append(&strip.moments)?;
    page.markup(Tag::PlayerScript)
}
