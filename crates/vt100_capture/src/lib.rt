//! Captures: what a terminal showed, as text with its attributes; and the plain text and the rows of a capture.
//!
//! A capture holds no control sequences but SGR, and no control characters but newlines. [`state`] has the range of
//! rows, the state between captures and a row that writes itself; [`plain`] has the plain text, [`rows`] the rows.
#![tactic(auto)]

pub mod plain;
pub mod rows;
pub mod several;
pub mod state;

pub use plain::{
    BasicFormattedToPlain, BasicFormattedToPlainIndexed, basic_formatted_to_plain,
    basic_formatted_to_plain_indexed,
};
pub use rows::{BasicFormattedRows, basic_formatted_rows};
pub use state::{BasicFormattedCaptureRange, BasicFormattedCaptureState, RowContents};
