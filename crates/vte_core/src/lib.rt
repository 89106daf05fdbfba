//! The bytes that a program writes to its terminal, as events.
//!
//! A [`Parser`] reads bytes in pieces of any lengths and reports their events to a [`Perform`]er: the characters of
//! ground text, controls, escape sequences, control sequences, operating system commands and device control strings.
//! The events depend on the joined bytes alone, never on where they were cut.
//!
//! The sequences are those of ECMA-48 (fifth edition, sections 5.3 to 5.6) with the rules that DEC's terminals and
//! xterm add: CAN and SUB end any sequence and are executed, ESC ends any sequence and begins a new one, controls
//! inside an escape or control sequence are executed at once, DEL is dropped there, and BEL ends an operating system
//! command. Ground text is UTF-8 (the Unicode Standard, section 3.9, table 3-7).
//!
//! Nothing is allocated. A parser keeps 32 numbers and 2 intermediates of a sequence, and of an operating system
//! command its first N data bytes in 16 pieces.
#![tactic(auto)]

mod event;
mod header;
mod intermediates;
pub mod laws;
mod numbers;
mod osc_data;
mod params;
mod parser;
mod perform;
mod table;
mod text;
mod thresholds;

pub use event::Event;
pub use params::{Params, ParamsIter};
pub use parser::Parser;
pub use perform::Perform;
