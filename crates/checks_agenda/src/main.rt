//! Runs the networks that its input lays out from due moment to due moment, and prints the runs.
//!
//! A line is an edit, as a session takes it; `run`, a run to the horizon; `reads`, such a run and what it reads;
//! `held`, such a run and what nodes hold, by the lines `marked` before it; or `new`, the first project again.
//! Prints each line but those of data sheets; of a run the numbers of its turns and lines, how a copy did that was
//! taken halfway, and the first moments; what is read; what nodes hold, whether as written, and whether marked.
#![tactic(auto)]

mod held;
mod holding;
mod marks;
mod network;
mod outcome;
mod record;
mod run;

use anyhow::Result;
use held::Held;
use network::Network;
use record::read_project;
use run::run_project;
use std::alloc::Global;
use std::io;
use std::io::Write;

/// Runs the network that is laid out, and shows the run.
fn show_run<W: Write>(alloc: Global, out: &mut W, network: &Network) -> Result<()> {
    let outcome = run_project(alloc, network.project())?;
    outcome.show(out)
}

/// Runs the network that is laid out, and shows what the run reads.
fn show_reads<W: Write>(alloc: Global, out: &mut W, network: &Network) -> Result<()> {
    let record = read_project(alloc, network.project())?;
    record.show(out)
}

/// Runs the network that is laid out, and shows what its nodes hold.
fn show_held<W: Write>(alloc: Global, out: &mut W, network: &Network) -> Result<()> {
    let held = Held::of(alloc, network.project())?;
    held.show(out, network.marks())
}

/// Begins anew.
fn clear(alloc: Global, network: &mut Network) -> Result<()> {
    *network = Network::new(alloc);
    Ok(())
}

/// Does what a line says that is none of a data sheet.
fn obey<W: Write>(alloc: Global, out: &mut W, network: &mut Network, line: &str) -> Result<()> {
    let (word, text) = line.split_once(' ').unwrap_or((line, ""));
    match word {
        "run" => show_run(alloc, out, network),
        "reads" => show_reads(alloc, out, network),
        "held" => show_held(alloc, out, network),
        "marked" => network.take_mark(text),
        "new" => clear(alloc, network),
        _ => network.take_line(line),
    }
}

/// Shows a line that is none of a data sheet, and does what it says.
fn show<W: Write>(alloc: Global, out: &mut W, network: &mut Network, line: &str) -> Result<()> {
    writeln!(out, "{line}")?;
    obey(alloc, out, network, line)
}

/// Takes a line.
fn take<W: Write>(alloc: Global, out: &mut W, network: &mut Network, line: &str) -> Result<()> {
    if network.takes_sheet() {
        network.take_line(line)
    } else {
        show(alloc, out, network, line)
    }
}

/// Takes each line of a text.
fn take_all(rt: &HostRuntime, network: &mut Network, text: &str) -> Result<()> {
    for line in text.lines() {
        take(rt.alloc(), &mut rt.stdout(), network, line)?;
    }
    Ok(())
}

fn main(rt: HostRuntime) -> Result<()> {
    let text = io::read_to_string(rt.alloc(), rt.stdin())?;
    let mut network = Network::new(rt.alloc());
    take_all(&rt, &mut network, text.as_str())
}
