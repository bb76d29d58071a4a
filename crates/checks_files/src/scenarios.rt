//! The events of a scenario.

use crate::bytes::{number, parted};
use crate::words::EventWord;
use co_scenario::{Event, NmtCommand, Script, TimedEvent};
use std::io;

/// The start of a node, 0 to 255, at a time.
fn start_of(text: &[u8]) -> TimedEvent {
    let (time, node) = parted(text);
    let node = (number(node) % 0x100) as u8;
    let command = NmtCommand::Start;
    TimedEvent {
        time: time_of(time),
        event: Event::Nmt { node, command },
    }
}

/// Shows an event.
fn show_timed(rt: &HostRuntime, number: u16, timed: &TimedEvent) -> io::Result<()> {
    let (time, node) = (timed.time, timed.event.node().unwrap_or(0));
    println!(rt; "  {number} at {time} of {node}")
}

/// Shows the event of a number, if there is one.
fn show_numbered(rt: &HostRuntime, script: &Script, number: u16) -> io::Result<()> {
    match script.get(number) {
        Some(timed) => show_timed(rt, number, timed),
        None => println!(rt; "  no {number}"),
    }
}

/// Shows how many events there are.
fn show_count(rt: &HostRuntime, script: &Script) -> io::Result<()> {
    let (count, is_empty) = (script.len(), script.is_empty());
    println!(rt; "  events: {count}, none: {is_empty}")
}

/// Shows all events.
fn show_all(rt: &HostRuntime, script: &Script) -> io::Result<()> {
    for (number, timed) in script.iter() {
        show_timed(rt, *number, timed)?;
    }
    Ok(())
}

/// Shows all events, and that of a number.
fn show_events(rt: &HostRuntime, script: &Script, number: u16) -> io::Result<()> {
    show_count(rt, script)?;
    show_all(rt, script)?;
    show_numbered(rt, script, number)
}

/// Shows moments, each a time and the number of an event.
fn show_moments(rt: &HostRuntime, moments: &[(u32, u16)]) -> io::Result<()> {
    for (time, number) in moments {
        println!(rt; "  {number} at {time}")?;
    }
    Ok(())
}

/// The time that a text spells.
fn time_of(text: &[u8]) -> u32 {
    (number(text) % 0x1_0000_0000) as u32
}

/// Shows the events between two times.
fn show_between(rt: &HostRuntime, script: &Script, text: &[u8]) -> io::Result<()> {
    let (first, last) = parted(text);
    let moments = script.events_between(rt.alloc(), time_of(first), time_of(last))?;
    show_moments(rt, &moments)
}

/// Shows the command of a number, and its number again.
fn show_command(rt: &HostRuntime, number: u64) -> io::Result<()> {
    match NmtCommand::from_number(number) {
        Some(command) => println!(rt; "  {command:?} {}", command.number()),
        None => println!(rt; "  none"),
    }
}

/// Puts an `event` by its number, time and node, or drops one; shows all `events` and that of a number,
/// those `between` two times, or the `command` of a number.
pub fn show_event(
    rt: &HostRuntime,
    script: &mut Script,
    word: EventWord,
    text: &[u8],
) -> io::Result<()> {
    let (first, rest) = parted(text);
    let place = (number(first) % 0x10000) as u16;
    match word {
        EventWord::Put => Ok(script.put(place, start_of(rest))?),
        EventWord::Drop => {
            script.remove(place);
            Ok(())
        }
        EventWord::All => show_events(rt, script, place),
        EventWord::Between => show_between(rt, script, text),
        EventWord::Command => show_command(rt, number(text)),
    }
}
