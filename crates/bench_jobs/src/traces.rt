//! The first traces of networks of different make.

use crate::network::{Network, put_network};
use crate::random::Random;
use crate::sheet::Sheet;
use crate::size::Size;
use std::alloc::{AllocError, Global};

/// The networks.
const NETWORKS: [Network; 8] = [
    // As many drives as there can be, a SYNC each millisecond, and few messages at each.
    Network {
        bit_rate: 1000,
        nodes: 126,
        sync: 1,
        heartbeat: 100,
        messages: 7,
        cycles: 1,
        timer: 0,
        change: 37_000,
        switch: 0,
        texts: true,
        watched: false,
        counter: 0,
    },
    // Drives with three messages each, at each SYNC up to each eighth one.
    Network {
        bit_rate: 500,
        nodes: 40,
        sync: 5,
        heartbeat: 50,
        messages: 120,
        cycles: 8,
        timer: 0,
        change: 10_000,
        switch: 0,
        texts: false,
        watched: true,
        counter: 0,
    },
    // What changes is sent, and again after 20 ms.
    Network {
        bit_rate: 250,
        nodes: 24,
        sync: 0,
        heartbeat: 100,
        messages: 24,
        cycles: 0,
        timer: 20,
        change: 5_000,
        switch: 0,
        texts: true,
        watched: false,
        counter: 0,
    },
    // A slow bus.
    Network {
        bit_rate: 125,
        nodes: 16,
        sync: 20,
        heartbeat: 100,
        messages: 16,
        cycles: 3,
        timer: 0,
        change: 20_000,
        switch: 0,
        texts: false,
        watched: true,
        counter: 0,
    },
    // Power that goes and comes back, seen by those that watch.
    Network {
        bit_rate: 1000,
        nodes: 100,
        sync: 4,
        heartbeat: 40,
        messages: 50,
        cycles: 4,
        timer: 0,
        change: 15_000,
        switch: 60_000,
        texts: true,
        watched: true,
        counter: 0,
    },
    // Numbered SYNC messages, mandatory drives and one start of the network.
    Network {
        bit_rate: 1000,
        nodes: 64,
        sync: 2,
        heartbeat: 100,
        messages: 64,
        cycles: 5,
        timer: 0,
        change: 8_000,
        switch: 500_000,
        texts: true,
        watched: false,
        counter: 240,
    },
    // Many messages by change, whose times keep them apart.
    Network {
        bit_rate: 1000,
        nodes: 126,
        sync: 0,
        heartbeat: 200,
        messages: 126,
        cycles: 0,
        timer: 100,
        change: 2_000,
        switch: 0,
        texts: false,
        watched: false,
        counter: 0,
    },
    // Heartbeats each 10 ms.
    Network {
        bit_rate: 500,
        nodes: 30,
        sync: 10,
        heartbeat: 10,
        messages: 30,
        cycles: 2,
        timer: 0,
        change: 12_000,
        switch: 1_000_000,
        texts: true,
        watched: true,
        counter: 0,
    },
];

/// How many networks there are.
pub const TRACES: u32 = 8;

/// A network, of which a trace is asked.
pub fn first_trace(
    alloc: Global,
    size: Size,
    random: &mut Random,
    session: u32,
) -> Result<String, AllocError> {
    let network = &NETWORKS[session as usize % 8];
    let horizon = size.of(120_000, 10_000_000);
    let mut script = String::new(alloc);
    put_network(alloc, &mut script, network, &Sheet::DRIVE, horizon, random)?;
    script.push_str("trace\n")?;
    Ok(script)
}
