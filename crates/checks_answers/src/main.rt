//! Asks workbenches and stores what their input lays out, and prints the answers.
//!
//! A line is an edit, as a session takes it; `diag`; `ask` or `answer` and a query; `store` and a capacity; `stored`,
//! a trace over that store, with the most calls and segments; or `new`, another workbench with the first project.
//! Prints each line but those of data sheets; diagnostics; the segments run and parts made anew so far; an answer, or
//! that memory lacked; a trace, and that it took no more calls and segments, or how many.
#![tactic(auto)]

mod desk;
mod stored;
mod wrong;

use anyhow::Result;
use base::split_once;
use desk::Desk;
use std::alloc::Global;
use std::io;
use std::io::Write;
use wrong::show_wrong;

/// Asks a query, and shows how much work all answers so far took.
fn show_work<W: Write>(out: &mut W, desk: &mut Desk, query: &str) -> Result<()> {
    let work = desk.ask(query)?;
    let (segments, parts) = (work.segments, work.parts);
    writeln!(out, "work {segments} {parts}")?;
    Ok(())
}

/// The lines of a reply, behind the one that tells their number.
fn lines_of(reply: &[u8]) -> &[u8] {
    match split_once(reply, b'\n') {
        Some((_head, lines)) => lines,
        None => reply,
    }
}

/// Asks a query, and shows the answer.
fn show_answer<W: Write>(out: &mut W, desk: &mut Desk, query: &str) -> Result<()> {
    match desk.answer(query)? {
        Some(answer) => out.write_all(lines_of(answer.reply()))?,
        None => out.write_all(b"no memory\n")?,
    }
    Ok(())
}

/// Shows what a word and a text ask.
fn show_asked<W: Write>(
    alloc: Global,
    out: &mut W,
    desk: &mut Desk,
    word: &str,
    text: &str,
) -> Result<()> {
    match word {
        "diag" => show_wrong(alloc, out, desk.project()),
        "ask" => show_work(out, desk, text),
        "answer" => show_answer(out, desk, text),
        _ => desk.show_stored(out, text),
    }
}

/// Does what a line says that is none of a data sheet.
fn obey<W: Write>(alloc: Global, out: &mut W, desk: &mut Desk, line: &str) -> Result<()> {
    let (word, text) = line.split_once(' ').unwrap_or((line, ""));
    match word {
        "diag" | "ask" | "answer" | "stored" => show_asked(alloc, out, desk, word, text),
        "store" => desk.open_store(text),
        "new" => desk.clear(),
        _ => desk.take_line(line),
    }
}

/// Shows a line that is none of a data sheet, and does what it says.
fn show<W: Write>(alloc: Global, out: &mut W, desk: &mut Desk, line: &str) -> Result<()> {
    writeln!(out, "{line}")?;
    obey(alloc, out, desk, line)
}

/// Takes a line.
fn take<W: Write>(alloc: Global, out: &mut W, desk: &mut Desk, line: &str) -> Result<()> {
    if desk.takes_sheet() {
        desk.take_line(line)
    } else {
        show(alloc, out, desk, line)
    }
}

/// Takes each line of a text.
fn take_all(rt: &HostRuntime, desk: &mut Desk, text: &str) -> Result<()> {
    for line in text.lines() {
        take(rt.alloc(), &mut rt.stdout(), desk, line)?;
    }
    Ok(())
}

fn main(rt: HostRuntime) -> Result<()> {
    let text = io::read_to_string(rt.alloc(), rt.stdin())?;
    let mut desk = Desk::new(rt.alloc())?;
    take_all(&rt, &mut desk, text.as_str())
}
