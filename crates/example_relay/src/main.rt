//! A program's screen, sent to a far terminal: frames are made, carried in odd pieces, and read.
#![tactic(auto)]

use std::alloc::Global;
use std::num::NonZeroU16;
use termrelay::{Client, Hub, HubError};
use termview::{UntilCleared, View, ViewError};

/// A number of rows or columns, at least one.
fn count(number: u16) -> NonZeroU16 {
    NonZeroU16::new(number).unwrap_or(NonZeroU16::MIN)
}

/// The hub reads what the program writes, and the frame that is due then.
fn framed(
    alloc: Global,
    hub: &mut Hub,
    client: Client,
    output: &[u8],
) -> Result<Vec<u8>, HubError> {
    hub.feed(output)?;
    hub.frame(client)?;
    // Any `Write` will do: a socket, a pipe, a file.
    let mut wire = Vec::new(alloc);
    hub.pump(client, &mut wire)?;
    Ok(wire)
}

/// Brings bytes to the view, five at a time. What comes after `pieces` pieces gets lost.
fn carry(wire: &[u8], view: &mut View<UntilCleared>, pieces: usize) {
    for piece in wire.chunks(5).take(pieces) {
        view.advance(piece);
    }
}

/// Two frames. The line ends in the middle of the second one, so that the view shows the first, which came whole.
fn relay(alloc: Global, hub: &mut Hub, view: &mut View<UntilCleared>) -> Result<(), HubError> {
    let client = hub.attach()?;
    carry(
        &framed(alloc, hub, client, b"[####      ]  40%")?,
        view,
        usize::MAX,
    );
    carry(
        &framed(alloc, hub, client, b"\r[########  ]  80%")?,
        view,
        3,
    );
    Ok(())
}

fn new_view(alloc: Global) -> Result<View<UntilCleared>, ViewError> {
    View::new(alloc, count(1), count(20), UntilCleared::new())
}

fn print_view(rt: &HostRuntime, view: &View<UntilCleared>) -> anyhow::Result<()> {
    view.row_text(0, &mut rt.stdout())?;
    println!(rt; "")?;
    Ok(())
}

fn main(rt: HostRuntime) -> anyhow::Result<()> {
    let mut view = new_view(rt.alloc())?;
    let mut hub = Hub::new(rt.alloc(), count(1), count(20))?;
    relay(rt.alloc(), &mut hub, &mut view)?;
    print_view(&rt, &view)
}
