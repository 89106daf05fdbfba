//! A performer, a handler and a timeout, each as short as it may be.
#![tactic(auto)]

ghost use Rattle.std.specs.Prelude.{⊤, ◌≡◌, Bool, true, false};
ghost use Rattle.vte.specs.Timeout.{IsExact};

use std::alloc::Global;
use std::time::Duration;
use vte::ansi::{Call, Handler, Processor, Timeout};
use vte::{Event, Parser, Perform};

/// How many characters were printed.
#[derive(Drop)]
struct Letters {
    count: usize,
}

impl Perform for Letters {
    // Nothing is promised of an event.
    ghost step = { λ _ _ _. ⊤ };

    ghost is_terminated = { λ _. false };

    fn event(&mut self, event: Event<'_>) {
        if let Event::Print(_) = event {
            self.count = self.count.saturating_add(1);
        }
    }

    fn terminated(&self) -> bool {
        false
    }
}

/// What was printed, without colours and places.
#[derive(Drop)]
struct Plain {
    text: String,
    is_lost: bool,
}

impl Handler for Plain {
    // Nothing is promised of a call.
    ghost step = { λ _ _ _. ⊤ };

    fn call(&mut self, call: Call<'_>) {
        match call {
            Call::Input(c) => self.is_lost |= self.text.push(c).is_err(),
            Call::Linefeed => self.is_lost |= self.text.push('\n').is_err(),
            _ => {}
        }
    }
}

/// A timeout without a clock: an update stays open until it is closed, or until the program stops it.
#[derive(Drop)]
struct UntilStopped {
    pending: bool,
}

impl Timeout for UntilStopped {
    // What setting and clearing it do, and what it returns when asked.
    ghost ticking = { record {
      sets = λ old duration new. new.pending ≡ true;
      clears = λ old new. new.pending ≡ false;
      answers = λ now answer. answer ≡ now.pending;
    } };

    fn set_timeout(&mut self, _duration: Duration) {
        self.pending = true;
    }

    fn clear_timeout(&mut self) {
        self.pending = false;
    }

    fn pending_timeout(&self) -> bool {
        self.pending
    }
}

/// It is pending exactly from setting to clearing, so all that a processor promises under such a timeout holds of it.
fn until_stopped_is_exact()
    ensures { IsExact ⟦<UntilStopped as Timeout>⟧.ticking }
{}

fn count_letters(bytes: &[u8]) -> usize {
    let mut letters = Letters { count: 0 };
    let mut parser: Parser<1024> = Parser::new();
    parser.advance(&mut letters, bytes);
    letters.count
}

fn new_plain(alloc: Global) -> Plain {
    Plain {
        text: String::new(alloc),
        is_lost: false,
    }
}

fn main(rt: HostRuntime) -> anyhow::Result<()> {
    // A law for the proof; it does nothing at run time.
    until_stopped_is_exact();
    println!(rt; "{} letters", count_letters(b"\x1b[1mbold\x1b[m\r\n"))?;
    let mut plain = new_plain(rt.alloc());
    let mut processor = Processor::new(rt.alloc(), UntilStopped { pending: false })?;
    processor.advance(&mut plain, b"one \x1b[?2026h\x1b[1mtwo");
    println!(rt;
        "{}({} bytes are held)",
        plain.text.as_str(),
        processor.sync_bytes_count()
    )?;
    processor.stop_sync(&mut plain);
    println!(rt; "{}", plain.text.as_str())?;
    Ok(())
}
