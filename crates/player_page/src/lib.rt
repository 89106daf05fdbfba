//! A page in HTML that plays a recording: each row is drawn once, moments are numbers, and a fixed script reads them.
#![tactic(auto)]

mod error;
mod head;
mod page;
mod strip;

pub use error::PlayerError;
pub use page::{LONGEST_PLAYER, Play, player};
