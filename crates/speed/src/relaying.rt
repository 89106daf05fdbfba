//! Work of a hub.

use crate::work::{PIECE_LEN, Work, Workload, row_at};
use std::alloc::Global;
use termrelay::{Client, Hub};

impl<'a> Workload<'a> {
    /// Has a new hub make frames.
    pub(crate) fn relayed(&self, work: Work) -> Option<usize> {
        let mut hub = Hub::new(self.alloc, self.rows, self.cols).ok()?;
        relay(self, &mut hub, work)
    }
}

fn relay(workload: &Workload<'_>, hub: &mut Hub, work: Work) -> Option<usize> {
    match work {
        Work::Hub => send_stream(workload, hub),
        _ => send_frames(workload, hub, work),
    }
}

/// Feeds the stream in pieces, and sends a client's frame after each.
fn send_stream(workload: &Workload<'_>, hub: &mut Hub) -> Option<usize> {
    let client = hub.attach().ok()?;
    let mut count: usize = 0;
    for _ in 0..workload.times {
        for piece in workload.stream.chunks(PIECE_LEN) {
            hub.feed(piece).ok()?;
            count = count.wrapping_add(send(workload.alloc, hub, client)?);
        }
    }
    Some(count)
}

/// Makes frames of the screen that the stream leaves.
fn send_frames(workload: &Workload<'_>, hub: &mut Hub, work: Work) -> Option<usize> {
    hub.feed(workload.stream).ok()?;
    let client = hub.attach().ok()?;
    let first = send(workload.alloc, hub, client)?;
    match work {
        Work::Unchanged => ask(hub, client, workload.times, first),
        Work::Frame => send_rows(workload, hub, client, first),
        _ => send_all(workload, hub),
    }
}

/// Asks for a frame where nothing has changed.
fn ask(hub: &mut Hub, client: Client, times: usize, count: usize) -> Option<usize> {
    for _ in 0..times {
        hub.frame(client).ok()?;
    }
    Some(count)
}

/// Writes a row over, and sends the frame that is due, again and again.
fn send_rows(
    workload: &Workload<'_>,
    hub: &mut Hub,
    client: Client,
    first: usize,
) -> Option<usize> {
    let mut count = first;
    for time in 0..workload.times {
        hub.feed(row_at(time)).ok()?;
        count = count.wrapping_add(send(workload.alloc, hub, client)?);
    }
    Some(count)
}

/// Attaches clients, and sends each its first frame.
fn send_all(workload: &Workload<'_>, hub: &mut Hub) -> Option<usize> {
    let mut count: usize = 0;
    for _ in 0..workload.times {
        let client = hub.attach().ok()?;
        count = count.wrapping_add(send(workload.alloc, hub, client)?);
    }
    Some(count)
}

/// Makes and sends the frame that is due, and returns its length.
fn send(alloc: Global, hub: &mut Hub, client: Client) -> Option<usize> {
    hub.frame(client).ok()?;
    let mut wire = Vec::new(alloc);
    if hub.pump(client, &mut wire).is_ok() {
        Some(wire.len())
    } else {
        None
    }
}
