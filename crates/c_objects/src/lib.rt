//! The objects that C calls (a hub, a view, a screen, a recording or a filter), and what each call from C does to them.
//!
//! Each function calls one function of the libraries, and returns its result as a number. A number less than 0 is a
//! refusal. After a refusal nothing has changed but what the function's contract says.
#![tactic(auto)]

mod cells;
mod code;
pub mod copied;
mod copy;
mod draft;
pub mod filter;
pub mod hub;
pub mod laws;
mod look;
mod object;
mod plain;
mod queue;
pub mod recording;
mod requests;
pub mod rows;
pub mod screen;
mod sent;
mod size;
mod told;
pub mod view;

pub use code::{CLOSED, OK, TOO_LARGE};
pub use object::{Marked, Object};
pub use plain::{CCell, CColor, CDrawing, CEvent, CLook, CRecording, CRequest};
pub use queue::{Queue, Request, Text};
pub use requests::Requests;
pub use size::is_within;
