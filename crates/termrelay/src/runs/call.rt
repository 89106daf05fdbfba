//! Calls on a hub, and the replies to them.

use crate::answer::Answer;
use crate::client::Client;
use crate::error::HubError;
use std::num::NonZeroU16;

/// The result of one write to a scripted writer of a pump.
#[derive(Clone, Copy, Debug, Eq, PartialEq)]
pub enum Take {
    /// The write takes at most this many bytes.
    Bytes(usize),
    /// The write fails.
    Fault,
}

/// A call on a hub.
#[derive(Clone, Copy, Debug)]
pub enum Call<'a> {
    /// Gives the program's next bytes to the screen.
    Feed(&'a [u8]),
    /// Gives the screen this many rows and columns, in this order.
    Resize(NonZeroU16, NonZeroU16),
    /// Asks for a new client.
    Attach,
    /// Ends the client.
    Detach(Client),
    /// Asks for a frame for the client.
    Frame(Client),
    /// Writes the bytes that wait for the client to a scripted writer. The results of its first writes are given; each
    /// later write takes all bytes.
    Pump(Client, &'a [Take]),
    /// Asks for a new client that has what this one has once it has read all its frames.
    Fork(Client),
    /// Asks for what draws, on a fresh terminal, what the client shows once it has read all its frames.
    Redraw(Client),
}

/// The reply to a call.
#[derive(Debug, Drop)]
pub enum Reply {
    /// The call was made: a feed, a resize, a detach, or a pump after which no bytes are pending.
    Done,
    /// The client that was attached, or the fork.
    Attached(Client),
    /// The answer to a request for a frame.
    Answered(Answer),
    /// The redraw. `None` if it is too long.
    Redrawn(Option<Vec<u8>>),
    /// The call was refused.
    Refused(HubError),
}
