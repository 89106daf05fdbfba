//! Cases of byte streams: their events, the calls of a handler, and what the character sets draw.

mod each;
mod log;
mod player;
mod reading;
mod updates;
mod values;

pub use player::StreamPlayer;
