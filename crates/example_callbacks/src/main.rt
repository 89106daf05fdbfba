//! What a program asks of its terminal beyond drawing: titles and bells, as they come.
#![tactic(auto)]

ghost use Rattle.std.specs.Prelude.{⊤};

use std::alloc::Global;
use std::num::NonZeroU16;
use std::str;
use vt100::capture::RowContents;
use vt100::{Call, Callbacks, Parser, Screen};

/// The window's title, and how often the bell rang.
#[derive(Drop)]
struct Window {
    title: String,
    bells: u32,
    is_lost: bool,
}

impl Callbacks for Window {
    // Nothing is promised of these callbacks.
    ghost step = { λ _ _ _ _ _. ⊤ };

    ghost scrolls = { λ _ _ _ _. ⊤ };

    fn call(&mut self, _screen: &mut Screen, call: Call<'_>) {
        match call {
            Call::AudibleBell => self.bells = self.bells.saturating_add(1),
            Call::SetWindowTitle(title) => {
                self.title.clear();
                let title = str::from_utf8(title).unwrap_or("?");
                self.is_lost = self.title.push_str(title).is_err();
            }
            _ => {}
        }
    }

    fn on_scroll(&mut self, _contents: RowContents<'_>, _alternate_screen: bool) {}
}

fn new_window(alloc: Global) -> Window {
    Window {
        title: String::new(alloc),
        bells: 0,
        is_lost: false,
    }
}

fn print_window(rt: &HostRuntime, window: &Window) -> anyhow::Result<()> {
    println!(rt; "{}, {} bells", window.title.as_str(), window.bells)?;
    Ok(())
}

fn main(rt: HostRuntime) -> anyhow::Result<()> {
    let size = NonZeroU16::new(24).unwrap_or(NonZeroU16::MIN);
    let mut parser = Parser::new_with_callbacks(rt.alloc(), size, size, 0, new_window(rt.alloc()))?;
    parser.process(b"\x1b]2;editing notes\x07\x07done\x07")?;
    print_window(&rt, parser.callbacks())
}
