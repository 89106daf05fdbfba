//! What a recorded terminal stream shows: its screen at a moment, and a picture of a screen as HTML or SVG.
#![tactic(auto)]

mod error;
mod films;
mod frames;
pub mod laws;
mod moment;
mod picture;
mod reel;
mod titles;

pub use error::FilmError;
pub use films::{Pace, begins_at_once, film, is_followed, widest};
pub use frames::{framed_film, framed_svg};
pub use moment::{END, act, terminal_at};
pub use picture::{cells_of, cursor_in, html, html_block, push_font, svg};
pub use recordings::{Change, Event, Kind, Recording, RecordingError, ScreenSize};
pub use reel::{LONGEST_FILM, push_decimal};
pub use row_pictures::{Frame, Look, Rgb, Style, Theme};
