//! Work of a hub with many clients.

use crate::counting::Counting;
use crate::work::{Workload, row_at};
use std::alloc::Global;
use termrelay::{Client, Hub};

impl<'a> Workload<'a> {
    /// Rounds of a hub with `count` clients. Each round feeds a half of the stream, and sends each client a frame.
    pub(crate) fn rounds(&self, count: usize, in_step: bool) -> Option<usize> {
        let mut hub = Hub::new(self.alloc, self.rows, self.cols).ok()?;
        let clients = attached(self.alloc, &mut hub, count)?;
        let (first, second) = self.stream.split_at(self.stream.len() / 2);
        let mut counting = Counting::new();
        for time in 0..self.times {
            hub.feed(if time % 2 == 0 { first } else { second }).ok()?;
            if in_step {
                send_each(&mut hub, &clients, &mut counting)?;
            } else {
                send_each_apart(&mut hub, &clients, &mut counting)?;
            }
        }
        Some(counting.count)
    }
}

/// Adds `count` clients.
fn attached(alloc: Global, hub: &mut Hub, count: usize) -> Option<Vec<Client>> {
    let mut clients = Vec::new(alloc);
    for _ in 0..count {
        clients.push(hub.attach().ok()?).ok()?;
    }
    Some(clients)
}

fn send_each(hub: &mut Hub, clients: &[Client], counting: &mut Counting) -> Option<()> {
    for client in clients {
        send(hub, *client, counting)?;
    }
    Some(())
}

/// Writes a row over before each frame.
fn send_each_apart(hub: &mut Hub, clients: &[Client], counting: &mut Counting) -> Option<()> {
    for (time, client) in clients.iter().enumerate() {
        hub.feed(row_at(time)).ok()?;
        send(hub, *client, counting)?;
    }
    Some(())
}

/// Makes the frame that is due, looks at it, and sends it.
fn send(hub: &mut Hub, client: Client, counting: &mut Counting) -> Option<()> {
    hub.frame(client).ok()?;
    let len = hub.owed(client).ok()?.len();
    counting.count = counting.count.wrapping_add(len);
    hub.pump(client, counting).ok()
}
