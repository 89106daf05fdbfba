//! What a word may hold.

use crate::requests::Requests;
use charset_filter::PieceFilter;
use recordings::Reading;
use termrelay::Hub;
use termview::{UntilCleared, View};
use vt100::{Parser, Screen};

/// A screen with its queue of requests, and a copy of the screen from when it was marked.
#[derive(Drop)]
pub struct Marked {
    pub(crate) parser: Parser<Requests>,
    pub(crate) mark: Option<Screen>,
}

/// What a word may hold.
#[derive(Drop)]
pub enum Object {
    /// A hub.
    Hub(Hub),
    /// A view.
    View(View<UntilCleared>),
    /// A screen.
    Screen(Marked),
    /// A recording, up to its first fault.
    Recording(Reading),
    /// A filter that draws lines.
    Filter(PieceFilter),
}
