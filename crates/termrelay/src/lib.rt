//! A hub: one program's screen, and clients that are sent frames of it. For proofs about it, sequences of calls (runs).
#![tactic(auto)]

pub mod answer;
mod body;
pub mod client;
mod client_record;
pub mod error;
mod frame;
mod frames;
pub mod hub;
pub mod laws;
pub mod runs;
mod shown;

pub use answer::Answer;
pub use byte_streams::ByteSink;
pub use client::Client;
pub use error::HubError;
pub use hub::Hub;
pub use vt100::Screen;
