//! Plays one device and one manager without a bus, by the lines of its input. It prints each line and
//! what it leaves: the device's NMT state and the manager's notes, the next due moment, the frames that
//! wait, and whether all is the same as before. Where it runs from moment to moment it also prints each at
//! which frames waited, and takes them. Of a network of two such devices on a bus it prints the trace.
#![tactic(auto)]

mod bench;
mod entries;
mod network;
mod one_node;
mod row;
mod shown;
mod step;
mod taken;

use anyhow::Result;
use bench::Bench;
use std::io;
use std::io::Write;

/// Shows a line, and plays it.
fn play<W: Write>(out: &mut W, bench: &mut Bench, line: &str) -> Result<()> {
    writeln!(out, "{line}")?;
    bench.play(out, line)
}

/// Plays each line of a text.
fn play_all(rt: &HostRuntime, bench: &mut Bench, text: &str) -> Result<()> {
    for line in text.lines() {
        play(&mut rt.stdout(), bench, line)?;
    }
    Ok(())
}

fn main(rt: HostRuntime) -> Result<()> {
    let alloc = rt.alloc();
    let text = io::read_to_string(alloc, rt.stdin())?;
    let mut bench = Bench::new(alloc)?;
    play_all(&rt, &mut bench, text.as_str())
}
