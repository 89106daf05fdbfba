//! Whether fresh terminals that read what a screen writes show what the screen shows.

use crate::dump::push_screen;
use crate::error::DumpError;
use std::alloc::{AllocError, Global};
use vt100::{Parser, Screen};

/// Appends whether a fresh terminal that reads the screen's redraw, and one that reads the redraw of `base` and then
/// what differs, show what the screen shows:
///
/// ```text
/// check redraw same|DIFFERENT
/// check difference same|DIFFERENT
/// ```
///
/// If they don't, the lines follow that only one of the two dumps has, each after `screen` or `reader`.
pub(crate) fn push_check(
    alloc: Global,
    out: &mut String,
    screen: &Screen,
    base: &Screen,
) -> Result<(), DumpError> {
    let redrawn = reader_of(alloc, screen, screen)?;
    push_verdict(alloc, out, "redraw", screen, redrawn.screen())?;
    let mut led = reader_of(alloc, screen, base)?;
    led.process(screen.state_diff(base)?.as_bytes())?;
    push_verdict(alloc, out, "difference", screen, led.screen())
}

// A fresh terminal of the screen's size that has read the redraw of `shown`.
fn reader_of(alloc: Global, screen: &Screen, shown: &Screen) -> Result<Parser<()>, DumpError> {
    let (rows, cols) = screen.size();
    let mut reader = Parser::new(alloc, rows, cols, 0)?;
    reader.process(shown.state_formatted()?.as_bytes())?;
    Ok(reader)
}

fn push_verdict(
    alloc: Global,
    out: &mut String,
    name: &str,
    screen: &Screen,
    reader: &Screen,
) -> Result<(), DumpError> {
    let wanted_dump = dump_of(alloc, screen)?;
    let got_dump = dump_of(alloc, reader)?;
    let wanted = picture_of(alloc, &wanted_dump)?;
    let got = picture_of(alloc, &got_dump)?;
    push_comparison(out, name, &wanted, &got)?;
    Ok(())
}

fn push_comparison(
    out: &mut String,
    name: &str,
    wanted: &[&str],
    got: &[&str],
) -> Result<(), AllocError> {
    if are_same(wanted, got) {
        return writeln!(out, "check {name} same");
    }
    writeln!(out, "check {name} DIFFERENT")?;
    push_missing(out, "screen", wanted, got)?;
    push_missing(out, "reader", got, wanted)
}

fn are_same(wanted: &[&str], got: &[&str]) -> bool {
    wanted == got
}

fn dump_of(alloc: Global, screen: &Screen) -> Result<String, AllocError> {
    let mut dump = String::new(alloc);
    push_screen(&mut dump, screen)?;
    Ok(dump)
}

// The lines of a screen's dump, without the modes, of which a redraw doesn't set all, and without the kept rows.
fn picture_of(alloc: Global, dump: &str) -> Result<Vec<&str>, AllocError> {
    let mut picture = Vec::new(alloc);
    for line in dump.lines() {
        if is_pictured(line) {
            picture.push(line)?;
        }
    }
    Ok(picture)
}

fn is_pictured(line: &str) -> bool {
    let bytes = line.as_bytes();
    !bytes.starts_with(b"scrollback") && !bytes.starts_with(b"modes") && line != "updating"
}

// The lines of one picture that another one doesn't have.
fn push_missing(
    out: &mut String,
    name: &str,
    picture: &[&str],
    other: &[&str],
) -> Result<(), AllocError> {
    for line in picture {
        if !has_line(other, line) {
            writeln!(out, "  {name} {line}")?;
        }
    }
    Ok(())
}

fn has_line(picture: &[&str], line: &str) -> bool {
    picture.contains(&line)
}
