//! Frames of pictures in SVG: space around a picture, how large it is shown, and the bar of a window.

ghost use Rattle.std.specs.Prelude.{◌≡◌, ◌≤◌, ◌*◌, ◌^◌, ◌++◌, [], List, ℕ, true, codes, IfOk, OnOk};
ghost use Rattle.picture_page.specs.Page.{Adds, IsPage, IsSafe, Shows, escaped};
ghost use Rattle.picture_page.specs.Seen.{Draws, seen};
ghost use Rattle.row_pictures.specs.Frames.{around, around_seen, bar_bytes, bar_height as bar_height_of, bar_seen};
ghost use Rattle.row_pictures.specs.Frames.{button, enlarged as enlarged_of, frame_head, frame_said, framed as framed_of};
ghost use Rattle.row_pictures.specs.Frames.{framed_height, framed_seen, framed_width, inner_head, is_bare as is_bare_of};
ghost use Rattle.row_pictures.specs.Frames.{title_text, window_bar, window_clip, window_edge};

use crate::svg::{COL_WIDTH, ROW_HEIGHT, push_rect};
use crate::theme::Theme;
use crate::window::{push_clip, push_edge, push_shade};
use picture_page::{Page, Rgb, Tag};
use std::alloc::{AllocError, Global};

// The buttons of a window, in the colours that are known from other windows.
const RED: Rgb = Rgb {
    red: 0xff,
    green: 0x5f,
    blue: 0x57,
};

const YELLOW: Rgb = Rgb {
    red: 0xfe,
    green: 0xbc,
    blue: 0x2e,
};

const GREEN: Rgb = Rgb {
    red: 0x28,
    green: 0xc8,
    blue: 0x40,
};

/// What is around a picture in SVG, and how large the picture is shown.
#[derive(Drop)]
pub struct Frame {
    /// How many pixels there are between the picture and each edge.
    pub padding: u8,
    /// How many pixels high letters are shown. In a picture they are 15 pixels high.
    pub font_size: u8,
    /// The title in the bar of a window, if there is one.
    pub title: Option<String>,
}

impl Frame {
    // Whether it adds nothing.
    fn is_bare(&self) -> bool
        ensures { result ≡ is_bare_of (frame_said self.now) }
    {
        match &self.title {
            Some(_) => false,
            None => self.padding == 0 && self.font_size == 15,
        }
    }

    // The size at which this many pixels of a picture are shown.
    fn enlarged(&self, pixels: u32) -> u32
        requires { pixels ≤ 65535 * 18 }
        ensures pixels { result ≡ enlarged_of (frame_said self.now) pixels }
        ensures few { result ≤ 2 ^ 26 }
    {
        (pixels * u32::from(self.font_size) + 14) / 15
    }

    // How high the bar of the window is, if there is one.
    fn bar_height(&self) -> u32
        ensures pixels { result ≡ bar_height_of (frame_said self.now) }
        ensures few { result ≤ 2 * 255 }
    {
        match &self.title {
            Some(_) => 2 * u32::from(self.font_size),
            None => 0,
        }
    }

    // The width of a picture of this many columns with what is around it.
    fn width(&self, cols: u16) -> u32
        ensures { result ≡ framed_width (frame_said self.now) (cols * 9) }
    {
        self.enlarged(u32::from(cols) * COL_WIDTH) + 2 * u32::from(self.padding)
    }

    // The height of a picture of this many rows with what is around it.
    fn height(&self, rows: u16) -> u32
        ensures { result ≡ framed_height (frame_said self.now) (rows * 18) }
    {
        let inner = self.enlarged(u32::from(rows) * ROW_HEIGHT) + 2 * u32::from(self.padding);
        self.bar_height() + inner
    }
}

/// A picture in SVG of this many rows and columns in its frame. If the frame adds nothing, it is the picture alone.
///
/// The picture lies unchanged in another one, which has the background of the theme. There are as many pixels around it
/// as the padding says. It is scaled by `font_size / 15`. A size in pixels that isn't whole is rounded up.
///
/// A window has round corners, an edge in the colour of texts, of which two fifths are seen, and a bar, which is twice
/// as high as the letters. The bar is the background with fifteen hundredths of the colour of texts. It has a red, a
/// yellow and a green button, and the title in the colour of texts. A title that is wider than the bar is cut.
pub fn framed(
    alloc: Global,
    picture: Vec<u8>,
    rows: u16,
    cols: u16,
    theme: Theme,
    frame: &Frame,
) -> Result<Vec<u8>, AllocError>
    requires { IsPage picture.items }
    ensures bytes { IfOk result (λ bytes. bytes.items
        ≡ framed_of (frame_said frame.now) theme rows cols picture.items) }
    ensures seen { IfOk result (λ bytes. seen bytes.items ≡ framed_seen (frame_said frame.now) (seen picture.items)) }
    ensures text { IfOk result (λ bytes. (text : List ℕ) → Shows picture.items text → Shows bytes.items text) }
    ensures page { IfOk result (λ bytes. IsPage bytes.items) }
    ensures safe { IfOk result (λ bytes. IsSafe bytes.items) }
{
    let inner = Page::of_bytes(picture);
    if frame.is_bare() {
        return Ok(inner.into_bytes());
    }
    let mut page = Page::new(alloc);
    push_around(&mut page, &inner, rows, cols, theme, frame)?;
    Ok(page.into_bytes())
}

// Appends a picture and what is around it.
fn push_around(
    page: &mut Page,
    picture: &Page,
    rows: u16,
    cols: u16,
    theme: Theme,
    frame: &Frame,
) -> Result<(), AllocError>
    ensures bytes { OnOk result (page.new
        ≡ page.old ++ around (frame_said frame.now) theme (cols * 9) (rows * 18) picture.now) }
    ensures seen { OnOk result (Draws page.old page.new true true
        (around_seen (frame_said frame.now) (seen picture.now))) }
    ensures text { OnOk result ((text : List ℕ) → Shows picture.now text → Adds page.old page.new text) }
{
    push_frame_head(page, rows, cols, theme, frame)?;
    push_window_bar(page, cols, theme, frame)?;
    push_inner_head(page, rows, cols, frame)?;
    page.append(picture)?;
    page.markup(Tag::SvgFoot)?;
    push_window_edge(page, rows, cols, theme, frame)?;
    page.markup(Tag::SvgFoot)
}

// Appends what comes before the bar of a window and the picture.
fn push_frame_head(
    page: &mut Page,
    rows: u16,
    cols: u16,
    theme: Theme,
    frame: &Frame,
) -> Result<(), AllocError>
    ensures adds { OnOk result (Adds page.old page.new []) }
    ensures seen { OnOk result (Draws page.old page.new true true (codes "\n\n")) }
    ensures bytes { OnOk result (page.new
        ≡ page.old ++ frame_head (frame_said frame.now) theme (cols * 9) (rows * 18)) }
{
    let width = frame.width(cols);
    let height = frame.height(rows);
    page.markup(Tag::Frame)?;
    let numbers = [
        (Tag::Width, width),
        (Tag::Height, height),
        (Tag::ViewBox, width),
        (Tag::Space, height),
    ];
    page.numbers(&numbers)?;
    page.markup(Tag::SvgRows)?;
    push_window_clip(page, width, height, frame)?;
    push_rect(page, 0, width, height, theme.bgcolor)?;
    page.markup(Tag::Newline)
}

// Appends what cuts off the corners of a window of this size, if it is one.
fn push_window_clip(
    page: &mut Page,
    width: u32,
    height: u32,
    frame: &Frame,
) -> Result<(), AllocError>
    ensures adds { OnOk result (Adds page.old page.new []) }
    ensures seen { OnOk result (Draws page.old page.new true true []) }
    ensures bytes { OnOk result (page.new ≡ page.old ++ window_clip (frame_said frame.now) width height) }
{
    match &frame.title {
        Some(_) => push_clip(page, frame.font_size, width, height),
        None => Ok(()),
    }
}

// Appends the edge of a window, if it is one.
fn push_window_edge(
    page: &mut Page,
    rows: u16,
    cols: u16,
    theme: Theme,
    frame: &Frame,
) -> Result<(), AllocError>
    ensures adds { OnOk result (Adds page.old page.new []) }
    ensures seen { OnOk result (Draws page.old page.new true true []) }
    ensures bytes { OnOk result (page.new
        ≡ page.old ++ window_edge (frame_said frame.now) theme (cols * 9) (rows * 18)) }
{
    match &frame.title {
        Some(_) => {
            let width = frame.width(cols);
            let height = frame.height(rows);
            push_edge(page, frame.font_size, width, height, theme.fgcolor)
        }
        None => Ok(()),
    }
}

// Appends the bar of a window, if there is one.
fn push_window_bar(
    page: &mut Page,
    cols: u16,
    theme: Theme,
    frame: &Frame,
) -> Result<(), AllocError>
    ensures adds { OnOk result (Adds page.old page.new []) }
    ensures seen { OnOk result (Draws page.old page.new true true (bar_seen (frame_said frame.now))) }
    ensures bytes { OnOk result (page.new ≡ page.old ++ window_bar (frame_said frame.now) theme (cols * 9)) }
{
    match &frame.title {
        Some(title) => {
            let width = frame.width(cols);
            push_bar(page, frame.font_size, theme, width, title.as_str())
        }
        None => Ok(()),
    }
}

// Appends the bar of a window of this width, with letters of this size.
fn push_bar(
    page: &mut Page,
    size: u8,
    theme: Theme,
    width: u32,
    title: &str,
) -> Result<(), AllocError>
    ensures adds { OnOk result (Adds page.old page.new []) }
    ensures seen { OnOk result (Draws page.old page.new true true (escaped title.now ++ codes "\n")) }
    ensures bytes { OnOk result (page.new ≡ page.old ++ bar_bytes size theme width title.now) }
{
    let size = u32::from(size);
    push_shade(page, width, 2 * size, theme.fgcolor)?;
    push_button(page, size, 4 * size / 3, RED)?;
    push_button(page, size, 8 * size / 3, YELLOW)?;
    push_button(page, size, 4 * size, GREEN)?;
    push_title(page, size, width / 2, theme.fgcolor, title)?;
    page.markup(Tag::Newline)
}

// Appends a round button with its middle this far to the right.
fn push_button(page: &mut Page, size: u32, x: u32, color: Rgb) -> Result<(), AllocError>
    requires { size ≤ 255 }
    ensures adds { OnOk result (Adds page.old page.new []) }
    ensures seen { OnOk result (Draws page.old page.new true true []) }
    ensures bytes { OnOk result (page.new ≡ page.old ++ button size x color) }
{
    let numbers = [
        (Tag::Button, x),
        (Tag::MiddleY, size),
        (Tag::Radius, 2 * size / 5),
    ];
    page.numbers(&numbers)?;
    page.color(Tag::Fill, color)?;
    page.markup(Tag::Close)
}

// Appends the title, with its middle this far to the right.
fn push_title(page: &mut Page, size: u32, x: u32, color: Rgb, title: &str) -> Result<(), AllocError>
    requires { size ≤ 255 }
    ensures adds { OnOk result (Adds page.old page.new []) }
    ensures seen { OnOk result (Draws page.old page.new true true (escaped title.now)) }
    ensures bytes { OnOk result (page.new ≡ page.old ++ title_text size x color title.now) }
{
    let numbers = [
        (Tag::Text, x),
        (Tag::Y, size + size / 3),
        (Tag::TitleSize, size),
    ];
    page.numbers(&numbers)?;
    page.color(Tag::Fill, color)?;
    page.markup(Tag::TextStart)?;
    page.name(title)?;
    page.markup(Tag::TextEnd)
}

// Appends where the picture is, and how large it is shown.
fn push_inner_head(page: &mut Page, rows: u16, cols: u16, frame: &Frame) -> Result<(), AllocError>
    ensures adds { OnOk result (Adds page.old page.new []) }
    ensures seen { OnOk result (Draws page.old page.new true true (codes "\n")) }
    ensures bytes { OnOk result (page.new ≡ page.old ++ inner_head (frame_said frame.now) (cols * 9) (rows * 18)) }
{
    let width = u32::from(cols) * COL_WIDTH;
    let height = u32::from(rows) * ROW_HEIGHT;
    let numbers = [
        (Tag::Inner, u32::from(frame.padding)),
        (Tag::Y, frame.bar_height() + u32::from(frame.padding)),
        (Tag::Width, frame.enlarged(width)),
        (Tag::Height, frame.enlarged(height)),
        (Tag::ViewBox, width),
        (Tag::Space, height),
    ];
    page.numbers(&numbers)?;
    page.markup(Tag::SvgRows)
}
