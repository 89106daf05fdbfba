//! Streams of bytes: sources such as a file or a pipe, sinks such as a pipe or a socket, and the one loop that writes
//! bytes to them.
//!
//! A [`Source`] says what each read does to it, and a [`ByteSink`] what each write does, also if it fails. So the
//! contract of [`pump`] says which writes were made and how many bytes they took. A [`FlushSink`] can also be flushed.
//! Every [`Read`](std::io::Read) is a source, and every [`Write`](std::io::Write) is a sink of both kinds.
#![tactic(auto)]

mod byte_sink;
mod flush_sink;
pub mod laws;
mod source;

pub use byte_sink::{ByteSink, pump};
pub use flush_sink::FlushSink;
pub use source::Source;
