//! Line drawing and block characters as rectangles.

ghost use Rattle.std.specs.Prelude.{◌≡◌, ◌<◌, ◌++◌, [], ℕ, false, true, OnOk};
ghost use Rattle.picture_page.specs.Page.{Adds};
ghost use Rattle.picture_page.specs.Seen.{Draws};
ghost use Rattle.row_pictures.specs.Drawn.{areas_of, drawn_character, glyph_areas, ink_of, is_drawn_character};
ghost use Rattle.row_pictures.specs.Svg.{area_data, glyph as glyph_data};

use crate::glyphs::{Area, GLYPHS};
use picture_page::{Page, Tag};
use std::alloc::AllocError;
use vt100_cells::Cell;

/// What a cell is drawn with.
#[derive(Clone, Copy, PartialEq, Eq)]
pub(crate) enum Ink {
    /// A text in the font.
    Font,
    /// Rectangles.
    Solid,
    /// Rectangles with this opacity, in hundredths.
    Shade(u32),
}

impl Ink {
    /// What a cell is drawn with: rectangles if it has one character from U+2500 to U+259F.
    pub(crate) fn of(cell: &Cell) -> Self
        ensures { result ≡ ink_of cell.now }
    {
        match drawn_character(cell) {
            Some('\u{2591}') => Ink::Shade(25),
            Some('\u{2592}') => Ink::Shade(50),
            Some('\u{2593}') => Ink::Shade(75),
            Some(_) => Ink::Solid,
            None => Ink::Font,
        }
    }

    /// Whether it is the same as another one.
    pub(crate) fn is_same(self, other: Ink) -> bool
        ensures { result ≡ true → self ≡ other }
    {
        self == other
    }
}

// The line drawing or block character that a cell has and nothing else.
fn drawn_character(cell: &Cell) -> Option<char>
    ensures character { result ≡ drawn_character cell.now }
    ensures range { (c : ℕ) → result ≡ Some c → is_drawn_character c ≡ true }
{
    let mut chars = cell.contents().chars();
    match (chars.next(), chars.next()) {
        (Some(c), None) if is_drawn_character(c) => Some(c),
        _ => None,
    }
}

// Whether this is a line drawing or block character.
fn is_drawn_character(c: char) -> bool
    ensures { result ≡ is_drawn_character c }
{
    matches!(c, '\u{2500}'..='\u{259f}')
}

// The rectangles of a cell.
fn areas(cell: &Cell) -> &'static [Area]
    ensures { result.now ≡ areas_of cell.now }
{
    match drawn_character(cell) {
        Some(c) => glyph((c as u32 - 0x2500) as usize),
        None => &[],
    }
}

// The rectangles of the character this far after U+2500.
fn glyph(place: usize) -> &'static [Area]
    requires { place < 160 }
    ensures { result.now ≡ glyph_areas place }
{
    GLYPHS[place]
}

/// Appends the rectangles of a cell whose left is at this pixel, as parts of a path.
pub(crate) fn push_glyph(page: &mut Page, x: u32, cell: &Cell) -> Result<(), AllocError>
    ensures adds { OnOk result (Adds page.old page.new []) }
    ensures seen { OnOk result (Draws page.old page.new false false []) }
    ensures bytes { OnOk result (page.new ≡ page.old ++ glyph_data x cell.now) }
{
    for area in areas(cell) {
        push_area(page, x, *area)?;
    }
    Ok(())
}

fn push_area(page: &mut Page, x: u32, area: Area) -> Result<(), AllocError>
    ensures adds { OnOk result (Adds page.old page.new []) }
    ensures seen { OnOk result (Draws page.old page.new false false []) }
    ensures bytes { OnOk result (page.new ≡ page.old ++ area_data x area) }
{
    let (left, top, width, height) = area;
    let numbers = [
        (Tag::MoveTo, x.saturating_add(left)),
        (Tag::Space, top),
        (Tag::Right, width),
        (Tag::Down, height),
        (Tag::Left, width),
    ];
    page.numbers(&numbers)?;
    page.markup(Tag::Shut)
}
