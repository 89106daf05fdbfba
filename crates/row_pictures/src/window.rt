//! Parts of a window in SVG: what cuts off its corners, its edge, and the shade of its bar.

ghost use Rattle.std.specs.Prelude.{◌≡◌, ◌++◌, [], OnOk, true, false};
ghost use Rattle.picture_page.specs.Page.{Adds};
ghost use Rattle.picture_page.specs.Seen.{Draws};
ghost use Rattle.row_pictures.specs.Frames.{clip_bytes, edge_bytes, outline, shade};

use picture_page::{Page, Rgb, Tag};
use std::alloc::AllocError;

// How much of a colour is seen in a bar, in hundredths.
const SHADE: u32 = 15;

/// Appends what cuts off the corners of a window of this size, with letters of this size. What comes after it is cut.
pub(crate) fn push_clip(
    page: &mut Page,
    size: u8,
    width: u32,
    height: u32,
) -> Result<(), AllocError>
    ensures adds { OnOk result (Adds page.old page.new []) }
    ensures seen { OnOk result (Draws page.old page.new true true []) }
    ensures bytes { OnOk result (page.new ≡ page.old ++ clip_bytes size width height) }
{
    page.markup(Tag::ClipStart)?;
    push_outline(page, size, width, height)?;
    page.markup(Tag::ClipEnd)
}

/// Appends the edge of such a window in this colour, and the end of what is cut.
pub(crate) fn push_edge(
    page: &mut Page,
    size: u8,
    width: u32,
    height: u32,
    color: Rgb,
) -> Result<(), AllocError>
    ensures adds { OnOk result (Adds page.old page.new []) }
    ensures seen { OnOk result (Draws page.old page.new true true []) }
    ensures bytes { OnOk result (page.new ≡ page.old ++ edge_bytes size width height color) }
{
    push_outline(page, size, width, height)?;
    page.color(Tag::Edge, color)?;
    page.markup(Tag::EdgeEnd)
}

// Appends the beginning of a rectangle of this size with round corners. Their radius is two thirds of the size of the
// letters.
fn push_outline(page: &mut Page, size: u8, width: u32, height: u32) -> Result<(), AllocError>
    ensures adds { OnOk result (Adds page.old page.new []) }
    ensures seen { OnOk result (Draws page.old page.new true false []) }
    ensures bytes { OnOk result (page.new ≡ page.old ++ outline size width height) }
{
    let numbers = [
        (Tag::Rect, 0),
        (Tag::Width, width),
        (Tag::Height, height),
        (Tag::Corner, 2 * u32::from(size) / 3),
    ];
    page.numbers(&numbers)
}

/// Appends a rectangle at the top left, through which what is below it is seen.
pub(crate) fn push_shade(
    page: &mut Page,
    width: u32,
    height: u32,
    color: Rgb,
) -> Result<(), AllocError>
    ensures adds { OnOk result (Adds page.old page.new []) }
    ensures seen { OnOk result (Draws page.old page.new true true []) }
    ensures bytes { OnOk result (page.new ≡ page.old ++ shade width height color) }
{
    let numbers = [
        (Tag::Rect, 0),
        (Tag::Width, width),
        (Tag::Height, height),
        (Tag::Opacity, SHADE),
    ];
    page.numbers(&numbers)?;
    page.color(Tag::Fill, color)?;
    page.markup(Tag::Close)
}
