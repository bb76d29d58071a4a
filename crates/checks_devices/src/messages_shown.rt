//! What is shown of messages before they are planned.

use project_messages::{Linked, Messages, Sinks, Sources};
use std::io;
use std::io::Write;

fn show_sources(rt: &HostRuntime, sources: &Sources) -> io::Result<()> {
    for (position, (index, sub)) in sources.iter() {
        println!(rt; "  source {position} {index:04X} {sub:02X}")?;
    }
    Ok(())
}

fn show_sinks(rt: &HostRuntime, sinks: &Sinks) -> io::Result<()> {
    for ((position, node), (index, sub)) in sinks.iter() {
        println!(rt; "  sink {position} {node} {index:04X} {sub:02X}")?;
    }
    Ok(())
}

/// Which of the first positions have a source, and which a sink of node 6.
fn show_places(rt: &HostRuntime, messages: &Messages, name: &[u8]) -> io::Result<()> {
    print!(rt; "  at 1 to 3:")?;
    for position in 1..=3 {
        let has_source = messages.has_source(name, position);
        let has_sink = messages.has_sink(name, position, 6);
        print!(rt; " {has_source} {has_sink}")?;
    }
    println!(rt; "")
}

/// How a message is sent, its sources and its sinks.
fn show_linked(rt: &HostRuntime, linked: &Linked) -> io::Result<()> {
    let sent = linked.message;
    println!(rt; ": {sent:?}")?;
    show_sources(rt, &linked.sources)?;
    show_sinks(rt, &linked.sinks)
}

/// What a name has, or that there is no message of it.
fn show_named(rt: &HostRuntime, messages: &Messages, name: &[u8]) -> io::Result<()> {
    match messages.get(name) {
        Some(linked) => show_linked(rt, linked),
        None => println!(rt; ": no message"),
    }
}

/// A message by its name, or that there is none.
fn show_message(rt: &HostRuntime, messages: &Messages, name: &[u8]) -> io::Result<()> {
    rt.stdout().write_all(name)?;
    show_named(rt, messages, name)?;
    show_places(rt, messages, name)
}

/// The nodes from 4 to 9 that some message concerns.
fn show_concerned(rt: &HostRuntime, messages: &Messages) -> io::Result<()> {
    print!(rt; "concerned:")?;
    for node in 4..=9 {
        if messages.concern(node) {
            print!(rt; " {node}")?;
        }
    }
    println!(rt; "")
}

/// Shows the messages.
pub fn show_messages(rt: &HostRuntime, messages: &Messages) -> io::Result<()> {
    let (count, is_empty) = (messages.len(), messages.is_empty());
    println!(rt; "messages: {count}, none: {is_empty}")?;
    show_concerned(rt, messages)?;
    for (name, _linked) in messages.iter() {
        show_message(rt, messages, name)?;
    }
    show_message(rt, messages, b"none")
}
