//! What comes before the screen of a page that plays.

ghost use Rattle.std.specs.Prelude.{◌≡◌, ◌++◌, [], OnOk};
ghost use Rattle.picture_page.specs.Page.{Adds};
ghost use Rattle.player_page.specs.Heads.{head_bytes, idle_bytes, seconds_bytes, title_bytes, titles_bytes};

use crate::page::Play;
use recorded_screen::push_decimal;
use row_pictures::{Look, Page, Tag};
use std::alloc::AllocError;

/// Appends the title, the length, how the recording is played, and the moment that is shown at first.
pub(crate) fn push_head(page: &mut Page, look: &Look, play: &Play) -> Result<(), AllocError>
    ensures adds { OnOk result (Adds page.old page.new []) }
    ensures bytes { OnOk result (page.new ≡ page.old ++ head_bytes look.now play.now) }
{
    push_titles(page, look)?;
    push_seconds(page, Tag::PlayerLength, play.length)?;
    push_idle(page, play.pace.idle)?;
    push_seconds(page, Tag::PlayerSpeed, play.pace.speed)?;
    push_seconds(page, Tag::PlayerPoster, play.poster.min(play.length))
}

// Appends the title of the page, and its heading, which is the same.
fn push_titles(page: &mut Page, look: &Look) -> Result<(), AllocError>
    ensures adds { OnOk result (Adds page.old page.new []) }
    ensures bytes { OnOk result (page.new ≡ page.old ++ titles_bytes look.now) }
{
    page.markup(Tag::PlayerHead)?;
    push_title(page, look)?;
    page.markup(Tag::PlayerStyle)?;
    push_title(page, look)
}

// Appends the title, if there is one.
fn push_title(page: &mut Page, look: &Look) -> Result<(), AllocError>
    ensures adds { OnOk result (Adds page.old page.new []) }
    ensures bytes { OnOk result (page.new ≡ page.old ++ title_bytes look.now) }
{
    match &look.title {
        Some(title) => page.title(title.as_str()),
        None => Ok(()),
    }
}

// Appends the longest time for which a moment stays, if there is one.
fn push_idle(page: &mut Page, idle: Option<u64>) -> Result<(), AllocError>
    ensures adds { OnOk result (Adds page.old page.new []) }
    ensures bytes { OnOk result (page.new ≡ page.old ++ idle_bytes idle) }
{
    match idle {
        Some(idle) => push_seconds(page, Tag::PlayerIdle, idle),
        None => Ok(()),
    }
}

/// Appends a piece of markup and millionths as a decimal.
pub(crate) fn push_seconds(page: &mut Page, tag: Tag, millionths: u64) -> Result<(), AllocError>
    ensures adds { OnOk result (Adds page.old page.new []) }
    ensures bytes { OnOk result (page.new ≡ page.old ++ seconds_bytes tag millionths) }
{
    page.markup(tag)?;
    push_decimal(page, millionths, 1_000_000)
}
