//! A network of two sensors and two drives.

use crate::layouts::{change, fill};
use crate::messages_shown::show_messages;
use crate::plan_shown::show_plan;
use crate::writes_shown::show_writes;
use eds_device::DataSheet;
use pdo_links::{Plan, plan};
use project_messages::Messages;
use std::io;
use std::io::Write;

/// A node's number and its device.
pub type Node<'a> = (u8, &'a DataSheet);

/// Shows a title.
fn show_title(rt: &HostRuntime, title: &[u8]) -> io::Result<()> {
    print!(rt; "===")?;
    rt.stdout().write_all(title)?;
    println!(rt; "")
}

/// Shows a plan and the concise DCF of each node.
fn show_made(rt: &HostRuntime, nodes: &[Node<'_>], made: &Plan) -> io::Result<()> {
    show_plan(rt, made)?;
    for (number, device) in nodes {
        show_writes(rt, made, device, *number)?;
    }
    Ok(())
}

/// Shows the plan of messages, and the concise DCF of each node.
fn show_planned(rt: &HostRuntime, nodes: &[Node<'_>], messages: &Messages) -> io::Result<()> {
    let made = plan(rt.alloc(), false, None, nodes, messages)?;
    show_made(rt, nodes, &made)
}

/// Shows the network under its title: the messages, their plan, and the concise DCF of each node.
fn show(rt: &HostRuntime, title: &[u8], nodes: &[Node<'_>], messages: &Messages) -> io::Result<()> {
    show_title(rt, title)?;
    show_messages(rt, messages)?;
    show_planned(rt, nodes, messages)
}

/// Does what a line says: `show` shows the network under the title that follows, all others change its
/// messages.
fn play(
    rt: &HostRuntime,
    nodes: &[Node<'_>],
    messages: &mut Messages,
    line: &[u8],
) -> io::Result<()> {
    match line.strip_prefix(b"show") {
        Some(title) => show(rt, title, nodes, messages),
        None => Ok(change(messages, rt.alloc(), line)?),
    }
}

/// Shows how many messages there are, and for which names no other can come.
fn show_full(rt: &HostRuntime, messages: &Messages) -> io::Result<()> {
    let (count, is_full) = (messages.len(), messages.is_full_for(b"other"));
    let (is_known, is_full_for_it) = (messages.contains(b"\0\0"), messages.is_full_for(b"\0\0"));
    println!(rt; "messages: {count}, full: {is_full}; known: {is_known}, full: {is_full_for_it}")
}

/// Shows that no other name than the known ones can have one of 1,024 messages.
fn show_filled(rt: &HostRuntime) -> io::Result<()> {
    let mut messages = Messages::new(rt.alloc());
    fill(&mut messages, rt.alloc())?;
    show_full(rt, &messages)
}

/// Plays the lines of a text.
fn play_lines(
    rt: &HostRuntime,
    nodes: &[Node<'_>],
    messages: &mut Messages,
    text: &str,
) -> io::Result<()> {
    for line in text.lines() {
        play(rt, nodes, messages, line.as_bytes())?;
    }
    Ok(())
}

/// Plays the lines of the input.
fn play_input(rt: &HostRuntime, nodes: &[Node<'_>]) -> io::Result<()> {
    let text = io::read_to_string(rt.alloc(), rt.stdin())?;
    play_lines(rt, nodes, &mut Messages::new(rt.alloc()), text.as_str())
}

/// Plays the lines of the input, and shows as many messages as there can be.
pub fn play_all(rt: &HostRuntime, nodes: &[Node<'_>]) -> io::Result<()> {
    play_input(rt, nodes)?;
    show_filled(rt)
}
