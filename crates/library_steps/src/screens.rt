//! Cases of a terminal's screen: what it shows after a stream, what it reports, writes and refuses.

mod answers;
mod attributes;
mod captures;
mod copies;
mod direct;
mod failed;
mod forms;
mod log;
mod modes;
mod player;
mod questions;
mod rows;
mod stage;
mod states;
mod texts;

pub use player::ScreenPlayer;
