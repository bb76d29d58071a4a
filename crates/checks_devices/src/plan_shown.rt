//! What is shown of a plan.

use pdo_links::{Clean, Consumer, Mapped, MessageFault, Outcome, Plan, PlannedMessage};
use std::io;
use std::io::Write;

/// What a PDO maps, each entry as the eight digits that are written.
fn show_mapping(rt: &HostRuntime, mapping: &[Mapped]) -> io::Result<()> {
    for mapped in mapping {
        let (index, sub, bits) = (mapped.index, mapped.sub, mapped.bits);
        print!(rt; " {index:04X}{sub:02X}{bits:02X}")?;
    }
    println!(rt; "")
}

fn show_consumers(rt: &HostRuntime, consumers: &[Consumer]) -> io::Result<()> {
    for consumer in consumers {
        let (node, rpdo) = (consumer.node, consumer.rpdo);
        print!(rt; "  node {node}, RPDO {rpdo}:")?;
        show_mapping(rt, consumer.mapping.as_slice())?;
    }
    Ok(())
}

fn show_clean(rt: &HostRuntime, clean: &Clean) -> io::Result<()> {
    let (identifier, node, tpdo) = (clean.identifier, clean.message.node, clean.message.tpdo);
    print!(rt; ": {identifier:03X} by node {node}, TPDO {tpdo}:")?;
    show_mapping(rt, clean.mapping.as_slice())?;
    show_consumers(rt, clean.consumers.as_slice())
}

fn show_faults(rt: &HostRuntime, faults: &[MessageFault]) -> io::Result<()> {
    for fault in faults {
        print!(rt; " {fault:?}")?;
    }
    println!(rt; "")
}

fn show_planned(rt: &HostRuntime, planned: &PlannedMessage) -> io::Result<()> {
    rt.stdout().write_all(planned.name.as_slice())?;
    match &planned.outcome {
        Outcome::Planned(clean) => show_clean(rt, clean),
        Outcome::Faulty(faults) => show_faults(rt, faults.as_slice()),
    }
}

/// Shows what a plan says of each message.
pub fn show_plan(rt: &HostRuntime, made: &Plan) -> io::Result<()> {
    println!(rt; "plan:")?;
    for planned in made.messages() {
        show_planned(rt, planned)?;
    }
    Ok(())
}
