//! Cells of a terminal screen, and the edits of the cells of one line.
//!
//! A [`Cell`] is what one column of a row has. The two columns of a wide character are adjacent after every edit of a
//! line: the cell with its text, and directly after it a blank continuation.
//!
//! The module [`line`] and the calls of [`Cell`] that make one are a part of the rows that are built on this crate:
//! they edit a slice of cells, which by itself promises nothing. A row's own calls have no such conditions.
#![tactic(auto)]

mod cell;
mod cell_color;
mod cell_text;
mod char3;
pub mod laws;
pub mod line;
mod runs;
mod width;

pub use cell::{Cell, Glyph, PackedAttrs};
pub use char3::Char3;
pub use runs::{RUN_LEN, TextGlyph, take_run};
pub use width::columns;
