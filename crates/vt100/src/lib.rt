//! A terminal's screen, made by the bytes that a program writes.
#![tactic(auto)]

pub mod callbacks;
pub mod error;
pub mod laws;
pub mod parser;
mod perform;
pub mod screen;

pub use callbacks::{Call, Callbacks};
pub use error::ScreenError;
pub use parser::Parser;
pub use screen::{Rows, RowsDiff, RowsFormatted, Screen, WrappedScreen};
pub use vt100_core::{
    Cell, Color, CursorStyle, DrawingRows, Grid, GridError, MouseProtocolEncoding,
    MouseProtocolMode, Pos, Printed, Row, RowSink, Scrollback, Size, VisibleRows, attrs, capture,
    term,
};
pub use vte_core::{Event, Params, ParamsIter, Perform};
