//! What is shown of a node's writes.

use concise_dcf::encode;
use eds_device::DataSheet;
use node_parameters::Params;
use pdo_links::{Plan, writes};
use std::io;

/// Shows bytes, 16 a line.
fn show_bytes(rt: &HostRuntime, bytes: &[u8]) -> io::Result<()> {
    for (place, byte) in bytes.iter().enumerate() {
        let before = if place % 16 == 0 { "\n" } else { " " };
        print!(rt; "{before}{byte:02X}")?;
    }
    println!(rt; "")
}

/// Shows bytes under the number of a node.
fn show_concise(rt: &HostRuntime, node: u8, bytes: &[u8]) -> io::Result<()> {
    print!(rt; "node {node}:")?;
    show_bytes(rt, bytes)
}

/// Shows the concise DCF of a node.
pub fn show_writes(rt: &HostRuntime, made: &Plan, device: &DataSheet, node: u8) -> io::Result<()> {
    let entries = writes(
        rt.alloc(),
        false,
        made,
        &Params::new(rt.alloc()),
        device,
        node,
    )?;
    let bytes = encode(rt.alloc(), &entries)?;
    show_concise(rt, node, &bytes)
}
