//! A terminal's input as calls of a handler. The events of `vte_core` are turned into calls by the tables of ECMA-48,
//! the DEC terminals and xterm. The bytes of a synchronized update (private mode 2026) are held back until it ends.
#![tactic(auto)]

mod clock;
mod color;
mod csi;
mod error;
mod escape;
pub mod laws;
mod marks;
mod osc;
mod parse;
mod performer;
mod pieces;
mod processor;
mod sgr;
mod split;
mod std_sync_handler;
mod timeout;

/// The processor, its handler, and the values of the handler's calls.
pub mod ansi {
    pub use crate::clock::Clock;
    pub use crate::error::OutOfMemory;
    pub use crate::processor::Processor;
    pub use crate::std_sync_handler::StdSyncHandler;
    pub use crate::timeout::Timeout;
    pub use bitflags::Flags;
    pub use vte_types::attr::Attr;
    pub use vte_types::call::Call;
    pub use vte_types::charset::{CharsetIndex, StandardCharset};
    pub use vte_types::clear::{ClearMode, LineClearMode, TabulationClearMode};
    pub use vte_types::color::{Color, NamedColor};
    pub use vte_types::cursor::{CursorShape, CursorStyle};
    pub use vte_types::handler::Handler;
    pub use vte_types::hyperlink::Hyperlink;
    pub use vte_types::keyboard::{KeyboardModes, KeyboardModesApplyBehavior, ModifyOtherKeys};
    pub use vte_types::mode::{Mode, NamedMode, NamedPrivateMode, PrivateMode};
    pub use vte_types::rgb::Rgb;
    pub use vte_types::scp::{ScpCharPath, ScpUpdateMode};
    pub use vte_types::{C0, cursor_icon};
}

pub use vte_core::{Event, Params, ParamsIter, Parser, Perform};
