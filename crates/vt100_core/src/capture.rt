//! What a program wrote, as text with its attributes.
pub use vt100_capture::{
    BasicFormattedCaptureRange, BasicFormattedCaptureState, BasicFormattedRows,
    BasicFormattedToPlain, BasicFormattedToPlainIndexed, RowContents, basic_formatted_rows,
    basic_formatted_to_plain, basic_formatted_to_plain_indexed,
};
