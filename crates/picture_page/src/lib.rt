//! Pages of pictures: markup of the program's own, digits, and texts that are escaped.
#![tactic(auto)]

pub mod laws;
mod page;
mod player;
mod tag;
mod title;

pub use page::{Page, Rgb};
pub use tag::Tag;
