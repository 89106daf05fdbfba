//! Rows of a terminal screen, one by one and as lists, and their edits.
//!
//! A [`Cell`] is what one column of a row has, and a [`Row`] is the cells of one line. The two columns of a wide
//! character are adjacent after every call: the cell with its text, and directly after it a blank continuation.
//!
//! A [`Sheet`] is the rows of a screen, from the top. Those that left it at its top are kept in a list of their own, the
//! oldest first. Both are a part of `vt100_core`, which re-exports [`RowSink`] and [`Size`] and calls their functions
//! where the conditions hold.
#![tactic(auto)]

mod attributed_text;
mod join;
pub mod kept_rows;
pub mod laws;
mod row;
pub mod row_sink;
mod sheet;
pub mod size;

pub use join::Join;
pub use row::Row;
pub use row_sink::RowSink;
pub use sheet::Sheet;
pub use size::Size;
pub use vt100_cells::{Cell, columns};
