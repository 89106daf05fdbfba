//! Pictures of a row of cells, in HTML and SVG, and frames of pictures.
#![tactic(auto)]

mod frame;
mod glyph;
mod glyphs;
mod html;
mod look;
mod padding;
mod paint;
mod row;
mod style;
mod svg;
mod theme;
mod window;

pub use frame::{Frame, framed};
pub use html::{push_html_colors, push_html_row};
pub use look::Look;
pub use padding::unpadded;
pub use picture_page::{Page, Rgb, Tag};
pub use style::Style;
pub use svg::{COL_WIDTH, ROW_HEIGHT, push_rect, push_svg_row};
pub use theme::Theme;
pub use vt100_cells::Cell;
