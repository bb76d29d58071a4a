//! A machine builder edits a network and asks, by turns.

use crate::network::{Network, node_of, put_network};
use crate::objects::put_value;
use crate::random::Random;
use crate::sheet::Sheet;
use crate::size::Size;
use std::alloc::{AllocError, Global};
use std::fmt::Write;

/// A line of drives with a controller's SYNC each 10 ms.
const LINE: Network = Network {
    bit_rate: 1000,
    nodes: 126,
    sync: 10,
    heartbeat: 100,
    messages: 48,
    cycles: 4,
    timer: 0,
    change: 5_000,
    switch: 0,
    texts: true,
    watched: false,
    counter: 0,
};

/// Drives that send what changes, and watch each other.
const CELL: Network = Network {
    bit_rate: 500,
    nodes: 40,
    sync: 0,
    heartbeat: 200,
    messages: 60,
    cycles: 0,
    timer: 50,
    change: 4_000,
    switch: 900_000,
    texts: true,
    watched: true,
    counter: 0,
};

/// Sets a parameter of a drive.
fn put_parameter(script: &mut String, node: u32, random: &mut Random) -> Result<(), AllocError> {
    let number = random.below(96) as u16;
    let index = 0x2000 + u32::from(number);
    let value = random.below(100_000);
    write!(script, "param {node} {index:X} 0 ")?;
    put_value(script, number, value)?;
    script.push('\n')
}

/// Sets what a drive has at a moment, which is one of the last or any.
fn put_event(
    script: &mut String,
    node: u32,
    first: u32,
    horizon: u32,
    random: &mut Random,
) -> Result<(), AllocError> {
    let number = 9_990 + random.below(4) % 4;
    let time = first.wrapping_add(random.below(horizon.saturating_sub(first)));
    let value = random.below(30_000);
    writeln!(script, "event {number} {time} set {node} 6064 0 {value}")
}

/// One edit, of the kinds by turns as they come at a desk.
fn put_edit(
    script: &mut String,
    network: &Network,
    turn: u32,
    node: u32,
    horizon: u32,
    random: &mut Random,
) -> Result<(), AllocError> {
    let message = random.below(u32::from(network.messages));
    let value = random.below(500);
    match turn % 20 {
        1 | 6 | 11 | 16 => put_event(
            script,
            node,
            horizon.saturating_sub(60_000),
            horizon,
            random,
        ),
        4 => put_event(script, node, 0, horizon, random),
        3 => writeln!(
            script,
            "message m{message} {} 1 255 {value} 0 0",
            node_of(network, message)
        ),
        7 => writeln!(script, "source m{message} 2 6064 0"),
        9 => writeln!(script, "unparam {node} 6080 0"),
        13 => writeln!(script, "sink m{message} 1 {node} 6040 0"),
        14 => writeln!(script, "node {node} n{node}_{value} s0"),
        18 => writeln!(script, "param {node} 1017 0 {}", 50 + value % 500),
        19 => writeln!(script, "param {node} 6080 0 {}", random.below(7_000)),
        _ => put_parameter(script, node, random),
    }
}

/// What is asked behind an edit of a drive.
fn put_questions(script: &mut String, turn: u32, node: u32) -> Result<(), AllocError> {
    script.push_str("diag\n")?;
    if turn % 3 == 0 {
        writeln!(script, "dcf {node}\ncdcf {node}")?;
    }
    if turn % 4 == 1 {
        script.push_str("trace\n")?;
    }
    Ok(())
}

/// A network, and the edits and questions of a sitting.
pub fn editing(
    alloc: Global,
    size: Size,
    random: &mut Random,
    session: u32,
) -> Result<String, AllocError> {
    let network = if session == 0 { &LINE } else { &CELL };
    let horizon = size.of(200_000, 2_000_000);
    let mut script = String::new(alloc);
    put_network(alloc, &mut script, network, &Sheet::DRIVE, horizon, random)?;
    script.push_str("diag\ntrace\n")?;
    for turn in 0..size.of(12, 80) {
        let node = node_of(network, random.below(1000));
        put_edit(&mut script, network, turn, node, horizon, random)?;
        put_questions(&mut script, turn, node)?;
    }
    Ok(script)
}
