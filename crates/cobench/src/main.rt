//! Commands for one CANopen network from a file or the standard input, replies on the standard
//! output.
//!
//! Its tests show what no session does: the program's words, FILE, streams that fail, texts and exit statuses.
#![tactic(auto)]

mod command;
mod guide;
#[cfg(test)]
mod program;

use command::{complain, run};
use std::process::ExitCode;
use std::{env, io};

/// The program's words, its name first.
fn words(rt: &HostRuntime) -> io::Result<Vec<String>> {
    let mut words = Vec::new(rt.alloc());
    for word in env::args(rt)? {
        words.push(word)?;
    }
    Ok(words)
}

fn main(rt: HostRuntime) -> ExitCode {
    let status = match words(&rt) {
        Ok(words) => run(
            &rt,
            &words,
            &mut rt.stdin(),
            &mut rt.stdout(),
            &mut rt.stderr(),
        ),
        Err(error) => complain(&error, &mut rt.stderr()),
    };
    ExitCode::from(status)
}
