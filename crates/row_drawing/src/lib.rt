//! The forms by which a row is drawn on a terminal that shows another one. A form is one escape sequence, or the text
//! of one cell.
//!
//! A redraw draws a row on a blank one, a difference on an earlier one. A row's flag says that the row wraps into the
//! next one. The definitions give the forms, the laws say what these make of a terminal. A [`Drawing`] appends the
//! forms of a row.
#![tactic(auto)]

mod closing;
mod draw;
pub mod drawing;
pub mod laws;
mod opening;
pub mod pen;
mod runs;

pub use drawing::{Drawing, Place};
pub use pen::{Erase, Pen};
