//! A screen from a program's bytes: its text, and what changed on it since a moment.
#![tactic(auto)]

use std::alloc::Global;
use vt100::{Parser, Screen, ScreenError};

/// What the screen shows once it has read these bytes.
fn after(parser: &mut Parser<()>, bytes: &[u8]) -> Result<Screen, ScreenError> {
    parser.process(bytes)?;
    parser.screen().clone()
}

/// A screen of 24 rows of 80 columns, before and after a word is drawn over.
fn screens(alloc: Global) -> Result<(Screen, Screen), ScreenError> {
    let mut parser = Parser::new_default(alloc)?;
    let earlier = after(&mut parser, b"this text is \x1b[31mRED\x1b[m")?;
    let later = after(&mut parser, b"\x1b[3D\x1b[32mGREEN")?;
    Ok((earlier, later))
}

/// Prints what the later screen shows, and what a terminal that shows the earlier one has to read to show it.
fn print_screens(rt: &HostRuntime, earlier: &Screen, later: &Screen) -> anyhow::Result<()> {
    println!(rt; "{}", later.contents()?.as_str())?;
    println!(rt; "{:?}", later.contents_diff(earlier)?.as_str())?;
    Ok(())
}

fn main(rt: HostRuntime) -> anyhow::Result<()> {
    let (earlier, later) = screens(rt.alloc())?;
    print_screens(&rt, &earlier, &later)
}
