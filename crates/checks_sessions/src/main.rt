//! Runs the sessions that the standard input records, each from the first project, and prints every
//! line of their inputs with the replies to it.
//!
//! A line `=== title` begins a session, whose input is the lines up to the next such line, byte for
//! byte. After a line `===- title` the last LF is no part of the input.
#![tactic(auto)]

mod echo;
mod recorded;

use anyhow::Result;
use echo::Echo;
use recorded::Recorded;
use std::io::{Read, Write};
use workbench::{Counted, session};

/// Prints the title of a session, each line of its input with the replies to it, and the fault that
/// ended it, if one did.
fn play(rt: &HostRuntime, recorded: Recorded<'_>) -> Result<()> {
    rt.stdout().write_all(recorded.title)?;
    let mut reader = Counted::new(Echo::new(recorded.input, rt.stdout()));
    let mut writer = Counted::new(rt.stdout());
    if let Err(fault) = session(rt.alloc(), &mut reader, &mut writer) {
        println!(rt; "! {fault}")?;
    }
    Ok(())
}

fn main(rt: HostRuntime) -> Result<()> {
    let mut text = Vec::new(rt.alloc());
    rt.stdin().read_to_end(&mut text)?;
    let mut rest = text.as_slice();
    while !rest.is_empty() {
        let (recorded, after) = Recorded::first(rest);
        play(&rt, recorded)?;
        rest = after;
    }
    Ok(())
}
