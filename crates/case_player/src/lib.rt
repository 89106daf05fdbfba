//! Plays files of cases: steps, each with the lines that it has to answer.
//!
//! A crate of tests has a [`Player`] that takes the steps, a program that calls [`play`] with it, and the cases in
//! files. This crate's README describes the format of a file.
#![tactic(auto)]

mod answer;
mod escapes;
mod files;
mod invocation;
mod lines;
mod player;
mod playing;
mod reading;
mod report;
mod running;
mod words;

pub use answer::Answer;
pub use files::{Disk, Files};
pub use player::{Player, StepError};
pub use running::play;
pub use words::{Words, value_of};
