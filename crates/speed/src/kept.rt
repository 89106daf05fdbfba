//! Work on a screen that keeps many rows.

use crate::reading::process;
use crate::work::{Work, Workload};
use std::num::NonZeroU16;
use vt100::{Parser, Screen};

/// How many rows are kept.
const MANY_ROWS: usize = 100_000;

/// How often the stream is read at most, until all the rows are there.
const MOST_READS: usize = 32;

/// How many columns a wider screen has more.
const WIDER: u16 = 20;

impl<'a> Workload<'a> {
    /// Scrolls back in the rows that the stream leaves, or resizes their screen.
    pub(crate) fn scrolled_back(&self, work: Work) -> Option<usize> {
        let mut parser = self.full()?;
        match work {
            Work::Scrollback => scrolled(parser.screen_mut(), self.times),
            Work::Contents => read_back(parser.screen_mut(), self.times),
            _ => resized(parser.screen_mut(), self),
        }
    }

    /// A terminal that has read the stream until it keeps many rows.
    fn full(&self) -> Option<Parser<()>> {
        let mut parser = Parser::new(self.alloc, self.rows, self.cols, MANY_ROWS).ok()?;
        for _ in 0..MOST_READS {
            if parser.screen().scrollback_len() < MANY_ROWS && !process(&mut parser, self.stream) {
                return None;
            }
        }
        Some(parser)
    }
}

/// Where a screen scrolls back to at this time.
fn place_at(time: usize) -> usize {
    time.wrapping_mul(7919) % MANY_ROWS
}

fn scrolled(screen: &mut Screen, times: usize) -> Option<usize> {
    let mut count: usize = 0;
    for time in 0..times {
        screen.set_scrollback(place_at(time)).ok()?;
        count = count.wrapping_add(screen.scrollback());
    }
    Some(count)
}

fn read_back(screen: &mut Screen, times: usize) -> Option<usize> {
    let mut count: usize = 0;
    for time in 0..times {
        screen.set_scrollback(place_at(time)).ok()?;
        count = count.wrapping_add(screen.contents().ok()?.len());
    }
    Some(count)
}

/// Resizes the screen to some more columns, and back, in turn.
fn resized(screen: &mut Screen, workload: &Workload<'_>) -> Option<usize> {
    let wider = NonZeroU16::new(workload.cols.get().saturating_add(WIDER))?;
    for time in 0..workload.times {
        let cols = if time % 2 == 0 { wider } else { workload.cols };
        screen.set_size(workload.rows, cols).ok()?;
    }
    Some(screen.scrollback_len())
}
