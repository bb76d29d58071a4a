//! Networks with more frames than the bus takes, large data sheets, and more windows than are kept.

use crate::network::{Network, node_of, put_network};
use crate::random::Random;
use crate::sheet::{Sheet, put_eds};
use crate::size::Size;
use std::alloc::{AllocError, Global};
use std::fmt::Write;

/// As many nodes as there can be, each of which sends all its TPDOs at each SYNC of a millisecond.
#[derive(Clone, Copy)]
struct Crowd {
    /// TPDOs of each node.
    tpdos: u16,
    /// In microseconds.
    horizon: u32,
    /// Microseconds from event to event that sets a value.
    change: u32,
}

const CROWDS: [Crowd; 3] = [
    Crowd {
        tpdos: 1,
        horizon: 4_000_000,
        change: 1_000,
    },
    Crowd {
        tpdos: 16,
        horizon: 1_500_000,
        change: 500,
    },
    Crowd {
        tpdos: 512,
        horizon: 30_000,
        change: 300,
    },
];

/// Drives of large data sheets.
const LARGE: Network = Network {
    bit_rate: 1000,
    nodes: 126,
    sync: 1,
    heartbeat: 100,
    messages: 8,
    cycles: 2,
    timer: 0,
    change: 10_000,
    switch: 0,
    texts: true,
    watched: true,
    counter: 0,
};

const LARGE_SHEET: Sheet = Sheet {
    pdos: 4,
    settings: 3400,
    tables: 16,
    subs: 32,
    comments: 0,
};

/// Drives of which one scenario after the other is asked for.
const TRIED: Network = Network {
    bit_rate: 500,
    nodes: 30,
    sync: 10,
    heartbeat: 50,
    messages: 30,
    cycles: 3,
    timer: 0,
    change: 20_000,
    switch: 0,
    texts: false,
    watched: true,
    counter: 0,
};

/// How many sessions there are.
pub const BUSES: u32 = 5;

/// Writes the lines of a TPDO that is on, of one byte, and its value.
fn put_tpdo(text: &mut String, number: u16) -> Result<(), AllocError> {
    let index = 0x1800 + u32::from(number);
    let value = 0x2000 + u32::from(number);
    let identifier = 0x4000_0000 + 0x100 * u32::from(number % 4) + 0x180;
    writeln!(
        text,
        "[{index:X}sub1]\nDataType=7\nDefaultValue=$NODEID+0x{identifier:X}"
    )?;
    writeln!(text, "[{index:X}sub2]\nDataType=5\nDefaultValue=1")?;
    writeln!(
        text,
        "[{:X}sub0]\nDataType=5\nDefaultValue=1",
        index + 0x200
    )?;
    writeln!(
        text,
        "[{:X}sub1]\nDataType=7\nDefaultValue=0x{value:X}0008",
        index + 0x200
    )?;
    writeln!(text, "[{value:X}]\nDataType=5\nPDOMapping=1")
}

/// Writes the data sheet of a crowd.
fn put_sender(alloc: Global, script: &mut String, crowd: &Crowd) -> Result<(), AllocError> {
    let mut text = String::from_str(alloc, "[1001]\nDataType=5\n[1016sub1]\nDataType=7\n")?;
    text.push_str("[1017]\nDataType=6\nDefaultValue=10\n")?;
    for number in 0..crowd.tpdos {
        put_tpdo(&mut text, number)?;
    }
    put_eds(script, "s", text.as_str())
}

fn crowded(
    alloc: Global,
    crowd: &Crowd,
    horizon: u32,
    nodes: u32,
    random: &mut Random,
) -> Result<String, AllocError> {
    let mut script = String::new(alloc);
    put_sender(alloc, &mut script, crowd)?;
    writeln!(script, "horizon {horizon}\nmanager 127 1000 10 500")?;
    for node in 0..nodes {
        let node = node.wrapping_add(1);
        let watched = random.below(nodes).wrapping_add(1);
        writeln!(
            script,
            "node {node} n{node} s\nparam {node} 1016 1 0x{watched:X}0019"
        )?;
    }
    for number in 1..horizon.checked_div(crowd.change).unwrap_or(0).min(9000) {
        let time = number
            .wrapping_mul(crowd.change)
            .wrapping_add(random.below(crowd.change));
        let node = random.below(nodes).wrapping_add(1);
        let object = 0x2000 + random.below(u32::from(crowd.tpdos)) % 512;
        writeln!(
            script,
            "event {number} {time} set {node} {object:X} 0 {}",
            number % 256
        )?;
    }
    script.push_str("trace\n")?;
    Ok(script)
}

/// One scenario after the other, and then the first ones again.
fn put_scenarios(script: &mut String, horizon: u32, random: &mut Random) -> Result<(), AllocError> {
    let first = random.below(1000);
    for turn in [0, 1, 2, 3, 4, 1, 0] {
        let node = node_of(&TRIED, first.wrapping_add(turn));
        let time = 20 + turn;
        let late = horizon.saturating_sub(30_000).wrapping_add(turn);
        writeln!(
            script,
            "param {node} 1017 0 {time}\nevent 9000 {late} set {node} 6064 0 {time}"
        )?;
        writeln!(script, "trace\nparam {node} 1017 0 50\ntrace")?;
    }
    Ok(())
}

pub fn full_bus(
    alloc: Global,
    size: Size,
    random: &mut Random,
    session: u32,
) -> Result<String, AllocError> {
    if session < 3 {
        let crowd = &CROWDS[session as usize % 3];
        let horizon = size.of(15_000, crowd.horizon);
        return crowded(alloc, crowd, horizon, size.of(12, 126), random);
    }
    let mut script = String::new(alloc);
    if session == 3 {
        let horizon = size.of(60_000, 10_000_000);
        put_network(alloc, &mut script, &LARGE, &LARGE_SHEET, horizon, random)?;
        script.push_str("trace\n")?;
    } else {
        let horizon = size.of(100_000, 10_000_000);
        put_network(alloc, &mut script, &TRIED, &Sheet::DRIVE, horizon, random)?;
        put_scenarios(&mut script, horizon, random)?;
    }
    Ok(script)
}
