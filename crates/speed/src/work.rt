//! What is asked for.

use std::alloc::Global;
use std::num::NonZeroU16;

/// A kind of work.
#[derive(Clone, Copy)]
pub(crate) enum Work {
    Events,
    Calls,
    Screen,
    Kept,
    View,
    Hub,
    Redraw,
    Difference,
    Same,
    Row,
    Unchanged,
    Frame,
    Client,
    /// Of this many clients, which are sent frames of the same moments.
    InStep(usize),
    /// Of this many clients, each of which is sent frames of moments of its own.
    Apart(usize),
    Scrollback,
    Contents,
    Resize,
}

/// The kinds of work, by name.
pub(crate) const WORKS: &[(&str, Work)] = &[
    ("events", Work::Events),
    ("calls", Work::Calls),
    ("screen", Work::Screen),
    ("kept", Work::Kept),
    ("view", Work::View),
    ("hub", Work::Hub),
    ("redraw", Work::Redraw),
    ("difference", Work::Difference),
    ("same", Work::Same),
    ("row", Work::Row),
    ("unchanged", Work::Unchanged),
    ("frame", Work::Frame),
    ("client", Work::Client),
    ("in_step_1", Work::InStep(1)),
    ("in_step_10", Work::InStep(10)),
    ("in_step_100", Work::InStep(100)),
    ("in_step_1000", Work::InStep(1000)),
    ("apart_1", Work::Apart(1)),
    ("apart_10", Work::Apart(10)),
    ("apart_100", Work::Apart(100)),
    ("apart_1000", Work::Apart(1000)),
    ("scrollback", Work::Scrollback),
    ("contents", Work::Contents),
    ("resize", Work::Resize),
];

/// How many rows a screen keeps that keeps some.
const KEPT_ROWS: usize = 10_000;

/// How many bytes are read at once.
pub(crate) const PIECE_LEN: usize = 4096;

/// Rows that are written over the second one in turn.
const ROWS: [&[u8]; 2] = [
    b"\x1b[2;1Hcompiling the parser\x1b[K",
    b"\x1b[2;1Hcompiling the screen, \x1b[31m40%\x1b[m\x1b[K",
];

/// The row that is written over at this time.
pub(crate) fn row_at(time: usize) -> &'static [u8] {
    ROWS[time % 2]
}

/// Some work, a number of times, with screens of this size.
#[derive(Clone, Copy)]
pub(crate) struct Workload<'a> {
    pub(crate) alloc: Global,
    pub(crate) rows: NonZeroU16,
    pub(crate) cols: NonZeroU16,
    pub(crate) times: usize,
    pub(crate) stream: &'a [u8],
}

impl<'a> Workload<'a> {
    /// The same with this stream.
    pub(crate) fn with_stream<'b>(&self, stream: &'b [u8]) -> Workload<'b> {
        Workload {
            alloc: self.alloc,
            rows: self.rows,
            cols: self.cols,
            times: self.times,
            stream,
        }
    }

    /// Does the work, and counts what comes of it. Returns `None` if an allocation fails.
    pub(crate) fn count(&self, work: Work) -> Option<usize> {
        match work {
            Work::Events => Some(self.events()),
            Work::Calls => self.calls(),
            Work::Screen => self.screen(0),
            Work::Kept => self.screen(KEPT_ROWS),
            Work::View => self.view(),
            Work::Redraw | Work::Same | Work::Row => self.written(work),
            Work::Difference => self.difference(),
            Work::Hub | Work::Unchanged | Work::Frame | Work::Client => self.relayed(work),
            Work::InStep(count) => self.rounds(count, true),
            Work::Apart(count) => self.rounds(count, false),
            Work::Scrollback | Work::Contents | Work::Resize => self.scrolled_back(work),
        }
    }
}
