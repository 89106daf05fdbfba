//! Relayed streams: a terminal program's output as frames of its screen, those frames as text, and what a far terminal
//! makes of the bytes that a hub's client was sent.
//!
//! [`relay`] reads a program's output and writes frames, [`relay_live`] writes each as soon as it is due, [`show`]
//! reads such a stream and writes the rows of the picture that it leaves, and [`far_view`] makes any calls on a hub and
//! gives a view the first bytes of a session, in any pieces.
#![tactic(auto)]

mod error;
mod far;
mod filling;
pub mod laws;
mod live;
mod pieces;
mod printing;
mod relaying;
mod showing;
mod updates;

pub use byte_streams::{ByteSink, FlushSink, Source};
pub use charset_filter::{LineDrawing, PieceFilter};
pub use error::RelayError;
pub use far::{far_view, view_of};
pub use filling::{PIECE_LEN, fill};
pub use live::{LIVE_LEN, farewell, relay_live, relay_live_with};
pub use pieces::{TakesPieces, each_piece};
pub use printing::print_text;
pub use relaying::{is_overlong, relay};
pub use showing::{print_view, show, write_view};
pub use termrelay::Client;
pub use termrelay::runs::{Call, Take};
pub use termview::{UntilCleared, View};
