//! Facts about pumps. Each function does nothing: its contract is the fact.
ghost use Rattle.byte_streams.specs.Laws.{TakesAll, WritesNothing, AppendsPrefix, SentTextsAppend};

use crate::byte_sink::ByteSink;
use crate::flush_sink::FlushSink;
use std::io::Write;

/// A pump that succeeds has written all the bytes (`all`). A pump of no bytes makes no write (`nothing`). Both hold for
/// any sink.
pub fn pumps_take_all<T: ByteSink>()
    ensures all { TakesAll T.takes }
    ensures nothing { WritesNothing T.takes }
{}

/// A pump appends a prefix of the bytes to what a writer has, if the writer's bytes are known. The other bytes are
/// still pending.
pub fn pumps_append_the_prefix<W: Write>()
    ensures { AppendsPrefix W.contents }
{}

/// A text that is sent part by part is appended whole to what a sink has, if no write failed. Otherwise a prefix of it
/// that isn't the whole text is appended. This is about sinks whose bytes are known.
pub fn sent_texts_append<W: FlushSink>()
    ensures { SentTextsAppend W.takes W.contents }
{}
