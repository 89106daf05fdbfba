//! A small terminal for the far end of a line: it reads what the writers of a `vt100` screen send, and shows the
//! picture that they meant.
//!
//! A [`View`] has no scrollback, no scroll region, no origin mode and no alternate screen. It knows the sequences that
//! the writers use; every other sequence does nothing. It buffers a synchronized update (private mode 2026) until it is
//! whole.
#![tactic(auto)]

mod attributes;
mod error;
mod handler;
pub mod laws;
mod modes;
mod picture;
mod runs;
mod text;
mod until_cleared;
mod view;

pub use byte_streams::ByteSink;
pub use error::ViewError;
pub use until_cleared::UntilCleared;
pub use view::View;
pub use vt100_cells::Cell as ViewCell;
pub use vt100_forms::{Color, CursorStyle, MouseProtocolEncoding, MouseProtocolMode};
pub use vte::ansi::Timeout;
