//! The titles of pictures.

ghost use Rattle.std.specs.Prelude.{◌≡◌, ◌++◌, [], codes, true, OnOk};
ghost use Rattle.picture_page.specs.Page.{Adds};
ghost use Rattle.picture_page.specs.Seen.{Draws};
ghost use Rattle.recorded_screen.specs.Picture.{front_seen};
ghost use Rattle.recorded_screen.specs.Titles.{page_head, page_title, svg_title, title_line};

use row_pictures::{Look, Page, Tag};
use std::alloc::AllocError;

/// Appends the title of a picture in SVG, if it has one.
pub(crate) fn push_svg_title(page: &mut Page, look: &Look) -> Result<(), AllocError>
    ensures adds { OnOk result (Adds page.old page.new []) }
    ensures seen { OnOk result (Draws page.old page.new true true (title_line look.now)) }
    ensures bytes { OnOk result (page.new ≡ page.old ++ svg_title look.now) }
{
    let Some(title) = &look.title else {
        return Ok(());
    };
    page.markup(Tag::Title)?;
    page.title(title.as_str())?;
    page.markup(Tag::TitleEnd)
}

/// Appends what comes before the block of a page in HTML.
pub(crate) fn push_page_head(page: &mut Page, look: &Look) -> Result<(), AllocError>
    ensures adds { OnOk result (Adds page.old page.new []) }
    ensures seen { OnOk result (Draws page.old page.new true true (front_seen (page_title look.now))) }
    ensures bytes { OnOk result (page.new ≡ page.old ++ page_head look.now) }
{
    page.markup(Tag::PageHead)?;
    push_page_title(page, look)?;
    page.markup(Tag::PageBody)
}

// Appends the title of a page.
fn push_page_title(page: &mut Page, look: &Look) -> Result<(), AllocError>
    ensures adds { OnOk result (Adds page.old page.new []) }
    ensures seen { OnOk result (Draws page.old page.new true true (page_title look.now)) }
    ensures bytes { OnOk result (page.new ≡ page.old ++ page_title look.now) }
{
    match &look.title {
        Some(title) => page.title(title.as_str()),
        None => page.markup(Tag::PageTitle),
    }
}
