//! The steps of cases of the libraries: byte streams, rows and grids, and screens.
#![tactic(auto)]

mod checks;
mod grids;
mod limited;
mod screens;
mod streams;
mod words;

pub use grids::GridPlayer;
pub use screens::ScreenPlayer;
pub use streams::StreamPlayer;
