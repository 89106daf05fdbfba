//! Work that writes a screen.

use crate::reading::process;
use crate::work::{Work, Workload, row_at};
use vt100::{Parser, Screen};

/// How many of the stream's last bytes a difference shows.
const LAST_LEN: usize = 2000;

impl<'a> Workload<'a> {
    /// Writes the screen that the stream leaves.
    pub(crate) fn written(&self, work: Work) -> Option<usize> {
        let mut parser = self.filled(self.stream, 0)?;
        match work {
            Work::Redraw => redrawn(parser.screen(), self.times),
            Work::Row => rows_changed(&mut parser, self.times),
            _ => compared(parser.screen(), self.times),
        }
    }

    /// Writes what the stream's last bytes have changed.
    pub(crate) fn difference(&self) -> Option<usize> {
        let len = self.stream.len().saturating_sub(LAST_LEN);
        let (prefix, last) = self.stream.split_at(len);
        let mut parser = self.filled(prefix, 0)?;
        changed(&mut parser, last, self.times)
    }
}

fn redrawn(screen: &Screen, times: usize) -> Option<usize> {
    let mut count: usize = 0;
    for _ in 0..times {
        count = count.wrapping_add(screen.state_formatted().ok()?.len());
    }
    Some(count)
}

/// Writes the difference from an equal screen.
fn compared(screen: &Screen, times: usize) -> Option<usize> {
    let before = screen.clone().ok()?;
    differences(screen, &before, times)
}

fn changed(parser: &mut Parser<()>, last: &[u8], times: usize) -> Option<usize> {
    let before = parser.screen().clone().ok()?;
    if process(parser, last) {
        differences(parser.screen(), &before, times)
    } else {
        None
    }
}

fn differences(screen: &Screen, before: &Screen, times: usize) -> Option<usize> {
    let mut count: usize = 0;
    for _ in 0..times {
        count = count.wrapping_add(screen.state_diff(before).ok()?.len());
    }
    Some(count)
}

/// Writes a row over, and then what has changed, again and again.
fn rows_changed(parser: &mut Parser<()>, times: usize) -> Option<usize> {
    let mut count: usize = 0;
    for time in 0..times {
        count = count.wrapping_add(changed(parser, row_at(time), 1)?);
    }
    Some(count)
}
