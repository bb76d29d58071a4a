//! Networks of drives, and the scenarios in which they run.

use crate::random::Random;
use crate::sheet::{Sheet, put_sheet};
use std::alloc::{AllocError, Global};
use std::fmt::Write;

/// A network of drives and a scenario.
#[derive(Clone, Copy)]
pub struct Network {
    /// In kbit/s.
    pub bit_rate: u32,
    pub nodes: u8,
    /// Milliseconds from SYNC to SYNC, 0 for none.
    pub sync: u32,
    /// Milliseconds from heartbeat to heartbeat of each drive.
    pub heartbeat: u32,
    /// Messages from drive to drive.
    pub messages: u16,
    /// They are sent at each SYNC, each second one and so on by turns, up to this; 0 for as soon as values change.
    pub cycles: u16,
    /// Milliseconds after which such a message is sent again.
    pub timer: u32,
    /// Microseconds from event to event that sets a value, 0 for none.
    pub change: u32,
    /// Microseconds from event to event that takes the power of a drive, which it has again half of that later; 0 for none.
    pub switch: u32,
    /// Whether the drives have texts, which are written in segments.
    pub texts: bool,
    /// Whether drives watch each other's heartbeats.
    pub watched: bool,
    /// The highest number of a SYNC message, 0 for no numbers. With numbers one drive of four is mandatory.
    pub counter: u32,
}

/// Writes the settings of the network.
fn put_settings(script: &mut String, network: &Network, horizon: u32) -> Result<(), AllocError> {
    let bit_rate = network.bit_rate;
    let sync = network.sync.wrapping_mul(1000);
    if network.counter > 0 {
        script.push_str("version 2\n")?;
    }
    writeln!(
        script,
        "bitrate {bit_rate}\nhorizon {horizon}\nmanager 127 {sync} 100 500"
    )?;
    if network.counter > 0 {
        let counter = network.counter;
        writeln!(script, "sync-counter {counter}")?;
    }
    Ok(())
}

/// Writes the parameters of a drive.
fn put_parameters(
    script: &mut String,
    network: &Network,
    node: u8,
    random: &mut Random,
) -> Result<(), AllocError> {
    let heartbeat = network.heartbeat;
    writeln!(script, "param {node} 1017 0 {heartbeat}")?;
    if network.watched && node > 1 {
        let time = network.heartbeat.wrapping_mul(3) / 2 + 1;
        let watched = u32::from(node - 1) << 16 | time & 0xFFFF;
        writeln!(script, "param {node} 1016 1 {watched:#x}")?;
    }
    if network.texts {
        let room = random.below(1000);
        writeln!(
            script,
            "param {node} 2006 0 Drive {node} of the packing line, cabinet {room}"
        )?;
    }
    let speed = random.below(6000);
    writeln!(script, "param {node} 6080 0 {speed}")
}

/// Writes a drive.
fn put_drive(
    script: &mut String,
    network: &Network,
    node: u8,
    random: &mut Random,
) -> Result<(), AllocError> {
    let sheet = random.below(2);
    writeln!(script, "node {node} n{node} s{sheet}")?;
    if network.counter > 0 && node % 4 == 1 {
        writeln!(script, "need {node} mandatory")?;
    }
    put_parameters(script, network, node, random)
}

/// How a message is sent: its type, inhibit time and event time.
fn put_manner(script: &mut String, network: &Network, number: u16) -> Result<(), AllocError> {
    let timer = network.timer;
    match number.checked_rem(network.cycles) {
        Some(turn) => writeln!(script, "{} 0 0 0", u32::from(turn) + 1),
        None => writeln!(script, "255 10 {timer} 0"),
    }
}

/// The node of a number, which may be past the last one: they go round.
pub fn node_of(network: &Network, number: u32) -> u32 {
    number % u32::from(network.nodes.max(1)) + 1
}

/// Writes a message from a drive to another one.
fn put_message(
    script: &mut String,
    network: &Network,
    number: u16,
    apart: u32,
) -> Result<(), AllocError> {
    let sender = node_of(network, u32::from(number));
    let taker = node_of(network, u32::from(number) + apart % 1000 + 1);
    let pdo = u32::from(number) / u32::from(network.nodes.max(1)) + 1;
    write!(script, "message m{number} {sender} {pdo} ")?;
    put_manner(script, network, number)?;
    writeln!(
        script,
        "source m{number} 1 6041 0\nsource m{number} 2 6064 0"
    )?;
    writeln!(
        script,
        "sink m{number} 1 {taker} 6040 0\nsink m{number} 2 {taker} 607A 0"
    )
}

/// Writes the events that set values.
fn put_changes(
    script: &mut String,
    network: &Network,
    horizon: u32,
    random: &mut Random,
) -> Result<(), AllocError> {
    let count = horizon.checked_div(network.change).unwrap_or(0).min(8000);
    for number in 1..count {
        let time = number
            .wrapping_mul(network.change)
            .wrapping_add(random.below(network.change));
        let node = node_of(network, random.below(1000));
        let object = if number % 4 == 0 { "6041" } else { "6064" };
        let value = random.below(30_000);
        writeln!(
            script,
            "event {number} {time} set {node} {object} 0 {value}"
        )?;
    }
    Ok(())
}

/// Writes the events that take power and give it again.
fn put_switches(
    script: &mut String,
    network: &Network,
    horizon: u32,
    random: &mut Random,
) -> Result<(), AllocError> {
    let count = horizon.checked_div(network.switch).unwrap_or(0).min(900);
    for number in 1..count {
        let off = number.wrapping_mul(network.switch);
        let on = off.wrapping_add(network.switch / 2);
        let node = node_of(network, random.below(1000));
        let first = number.wrapping_mul(2).wrapping_add(8000);
        writeln!(script, "event {first} {off} power {node} off")?;
        writeln!(
            script,
            "event {} {on} power {node} on",
            first.wrapping_add(1)
        )?;
    }
    Ok(())
}

/// Writes a network of drives of two data sheets up to a horizon, in microseconds.
pub fn put_network(
    alloc: Global,
    script: &mut String,
    network: &Network,
    sheet: &Sheet,
    horizon: u32,
    random: &mut Random,
) -> Result<(), AllocError> {
    put_settings(script, network, horizon)?;
    put_sheet(alloc, script, "s0", sheet, random)?;
    put_sheet(alloc, script, "s1", sheet, random)?;
    for node in 1..=network.nodes {
        put_drive(script, network, node, random)?;
    }
    let apart = random.below(u32::from(network.nodes).saturating_sub(1));
    for number in 0..network.messages {
        put_message(script, network, number, apart)?;
    }
    put_changes(script, network, horizon, random)?;
    put_switches(script, network, horizon, random)
}
