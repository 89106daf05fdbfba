//! The data of a terminal's screen: cells, rows and the grid that they make, and printing text on it.
#![tactic(auto)]

pub mod capture;
pub mod drawing_rows;
pub mod grid;
pub mod laws;
pub mod printed;
pub mod scrollback;
pub mod visible_rows;

pub use drawing_rows::DrawingRows;
pub use grid::Grid;
pub use printed::Printed;
pub use scrollback::Scrollback;
pub use visible_rows::VisibleRows;
pub use vt100_forms::{
    Color, CursorStyle, GridError, MouseProtocolEncoding, MouseProtocolMode, Pos, attrs, term,
};
pub use vt100_rows::{Cell, Row, RowSink, Size};
