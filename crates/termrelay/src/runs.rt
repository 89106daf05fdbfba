//! Runs: sequences of calls on a hub, with scripted writers, and logs of them. The theorem about frames speaks of
//! these. A user of hubs needs none of them.

pub mod call;
pub mod log;
mod scripted_writer;
pub mod session;

pub use call::{Call, Reply, Take};
pub use log::{Log, run};
pub use session::Session;
