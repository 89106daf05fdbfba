//! Does one kind of work on a stream again and again, so that it can be timed from outside: `speed WORK ROWS COLS
//! TIMES`, with the stream on standard input. What it prints is a count that depends on all that was done.
//!
//! - `events`: `vte_core` cuts the stream into events, which are counted, a text by its length.
//! - `calls`: `vte` turns it into a handler's calls, which are counted.
//! - `screen`: a terminal's screen reads it, from the blank screen on.
//! - `kept`: the same, of a terminal that keeps 10,000 rows that have left at the top.
//! - `view`: a far terminal reads it.
//! - `hub`: a hub reads it, and makes and sends a client's frame after each piece.
//! - `redraw`: the screen that it leaves is written whole.
//! - `difference`: what its last 2,000 bytes have changed is written.
//! - `same`: the screen that it leaves is compared with an equal one, and the difference, which is nothing, is written.
//! - `row`: a row is written over, and what has changed since is written.
//! - `unchanged`: a hub that has sent its screen is asked for a frame.
//! - `frame`: a row is written over, and the client's frame, a difference, is made and sent.
//! - `client`: a new client is sent its first frame.
//! - `in_step_N`: a hub of 1, 10, 100 or 1,000 clients is fed a half of the stream, the first one and the second one in
//!   turn. Then each client's frame is made, looked at and sent.
//! - `apart_N`: the same, and a row is written over before each client's frame, so that no two are of one moment.
//! - `scrollback`: a terminal that keeps 100,000 rows scrolls back, each time to another place.
//! - `contents`: it does so, and its text is taken.
//! - `resize`: it gets 20 columns more, and then its own number again.
//!
//! The first six read the whole stream each time; the others read it before, the last three often enough to have all the
//! rows. `all` is one after another.
#![tactic(auto)]

mod counting;
mod kept;
mod reading;
mod relaying;
mod rounds;
mod work;
mod writing;

use anyhow::bail;
use command_line::{lend, parse_count, parse_size, words_of};
use std::alloc::Global;
use std::env;
use std::io::Read;
use work::{WORKS, Work, Workload};

fn main(rt: HostRuntime) -> anyhow::Result<()> {
    let words = words_of(rt.alloc(), env::args(&rt))?;
    obey(&rt, &lend(rt.alloc(), &words)?)
}

/// Does what the arguments ask for.
fn obey(rt: &HostRuntime, words: &[&str]) -> anyhow::Result<()> {
    let Some((name, workload)) = parse(rt.alloc(), words) else {
        bail!("usage: speed WORK ROWS COLS TIMES");
    };
    let mut stream = Vec::new(workload.alloc);
    rt.stdin().read_to_end(&mut stream)?;
    print_counts(rt, &workload.with_stream(&stream), name)
}

/// The name of the work, and what it is done with, but for the stream.
fn parse<'a>(alloc: Global, words: &[&'a str]) -> Option<(&'a str, Workload<'static>)> {
    let [name, rows, cols, times] = words else {
        return None;
    };
    let workload = Workload {
        alloc,
        rows: parse_size(rows)?,
        cols: parse_size(cols)?,
        times: parse_count(times)?,
        stream: &[],
    };
    Some((name, workload))
}

/// Does the work of this name, or all, and prints what it counts.
fn print_counts(rt: &HostRuntime, workload: &Workload<'_>, name: &str) -> anyhow::Result<()> {
    let is_all = name == "all";
    for (word, work) in WORKS {
        if is_all || name == *word {
            print_count(rt, workload, word, *work)?;
        }
    }
    Ok(())
}

fn print_count(
    rt: &HostRuntime,
    workload: &Workload<'_>,
    name: &str,
    work: Work,
) -> anyhow::Result<()> {
    let Some(count) = workload.count(work) else {
        bail!("memory");
    };
    println!(rt; "{name} {count}")?;
    Ok(())
}
