//! Cases of rows and grids at work: what they show after a few calls, and what they write.

mod answers;
mod grid;
mod pair;
mod player;
mod row;
mod texts;

pub use player::GridPlayer;
