//! The performer, which passes the parser's events on to a handler as calls.

use crate::csi::csi;
use crate::escape::{escape, execute};
use crate::osc::osc;
use crate::timeout::Timeout;
use vte_core::{Event, Params, Perform};
use vte_types::handler::Handler;

/// The state that is kept between events.
#[derive(Drop)]
pub struct ProcessorState<T> {
    /// The last printed character.
    pub preceding_char: Option<char>,
    /// The timeout of the open update.
    pub timeout: T,
}

/// Turns events into calls of a handler.
#[derive(Drop)]
pub struct Performer<'a, H, T> {
    /// The state that is kept between events.
    pub state: &'a mut ProcessorState<T>,
    /// The handler that is called.
    pub handler: &'a mut H,
    /// Whether an event has opened an update.
    pub terminated: bool,
}

impl<'a, H: Handler, T: Timeout> Perform for Performer<'a, H, T> {
    ghost use Rattle.std.specs.Prelude.{◌≡◌};
    ghost use Rattle.vte.specs.Performed.{Performed};

    ghost step = { λ p e q. Performed H.step T.ticking e p.handler.now p.state.now p.terminated q.handler.now
        q.state.now q.terminated × (q.handler.ghost_name ≡ p.handler.ghost_name)
        × (q.state.ghost_name ≡ p.state.ghost_name) };

    ghost is_terminated = { λ p. p.terminated };

    fn event(&mut self, event: Event<'_>) {
        match event {
            Event::Print(c) => self.print(c),
            Event::Execute(byte) => self.execute(byte),
            Event::OscDispatch {
                params,
                bell_terminated,
            } => self.osc_dispatch(params, bell_terminated),
            Event::CsiDispatch {
                params,
                intermediates,
                ignore,
                action,
            } => self.csi_dispatch(params, intermediates, ignore, action),
            Event::EscDispatch {
                intermediates,
                ignore,
                byte,
            } => self.esc_dispatch(intermediates, ignore, byte),
            Event::Hook { .. } | Event::Put(_) | Event::Unhook => {}
        }
    }

    fn terminated(&self) -> bool {
        self.terminated
    }

    fn print(&mut self, c: char) {
        self.handler.input(c);
        self.state.preceding_char = Some(c);
    }

    fn print_str(&mut self, text: &str) {
        self.handler.input_str(text);
        if let Some(last) = text.chars().next_back() {
            self.state.preceding_char = Some(last);
        }
    }

    fn print_ascii(&mut self, text: &str) {
        self.handler.input_ascii(text);
        if let [.., last] = text.as_bytes() {
            self.state.preceding_char = Some(*last as char);
        }
    }

    fn execute(&mut self, byte: u8) {
        execute(self.handler, byte);
    }

    fn osc_dispatch(&mut self, params: &[&[u8]], bell_terminated: bool) {
        osc(self.handler, params, bell_terminated);
    }

    #[inline(always)]
    fn csi_dispatch(&mut self, params: &Params, intermediates: &[u8], ignore: bool, action: char) {
        if ignore {
            return;
        }
        let last = self.state.preceding_char;
        let opened = csi(
            self.handler,
            &mut self.state.timeout,
            last,
            params,
            intermediates,
            action,
        );
        if opened {
            self.terminated = true;
        }
    }

    fn esc_dispatch(&mut self, intermediates: &[u8], _ignore: bool, byte: u8) {
        escape(self.handler, intermediates, byte);
    }
}
