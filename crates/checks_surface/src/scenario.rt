//! The events of a simulation: `co_scenario`.

use base::{Octets, Shared};
use co_scenario::{Event, NmtCommand, Script, Step, TimedEvent};
use std::alloc::{AllocError, Global};

/// A scenario without events.
pub fn script(alloc: Global) -> Script {
    Script::new(alloc)
}

/// An event of a number.
pub fn put(script: &mut Script, number: u16, event: TimedEvent) -> Result<(), AllocError> {
    script.put(number, event)
}

/// The event of a number goes.
pub fn remove(script: &mut Script, number: u16) {
    script.remove(number);
}

/// The times and numbers of the events between two times, in order.
pub fn events_between(
    script: &Script,
    alloc: Global,
    first: u32,
    last: u32,
) -> Result<Vec<(u32, u16)>, AllocError> {
    script.events_between(alloc, first, last)
}

/// The event of a number, with its time.
pub fn event(script: &Script, number: u16) -> Option<&TimedEvent> {
    script.get(number)
}

/// An entry is set to what a text gives.
pub fn set_event(node: u8, index: u16, sub: u8, text: Octets) -> Event {
    Event::Set {
        node,
        index,
        sub,
        text,
    }
}

/// A node is switched on or off.
pub fn power_event(node: u8, on: bool) -> Event {
    Event::Power { node, on }
}

/// An NMT command.
pub fn nmt_event(node: u8, command: NmtCommand) -> Event {
    Event::Nmt { node, command }
}

/// An entry is set to bytes.
pub fn set_step(node: u8, index: u16, sub: u8, bytes: Shared<Octets>) -> Step {
    Step::Set {
        node,
        index,
        sub,
        bytes,
    }
}

/// A node is switched on or off.
pub fn power_step(node: u8, on: bool) -> Step {
    Step::Power { node, on }
}

/// An NMT command.
pub fn nmt_step(node: u8, command: NmtCommand) -> Step {
    Step::Nmt { node, command }
}
