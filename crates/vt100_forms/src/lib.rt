//! Colours, attributes and modes of a terminal's screen, and the control sequences that set them.
#![tactic(auto)]

pub mod attrs;
pub mod error;
pub mod laws;
pub mod modes;
pub mod position;
pub mod term;
mod text_run;

pub use attrs::Color;
pub use error::GridError;
pub use modes::{CursorStyle, MouseProtocolEncoding, MouseProtocolMode};
pub use position::Pos;
#[doc(hidden)]
pub use text_run::{CHAR_BYTES, TextRun};
