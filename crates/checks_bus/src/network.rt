//! The network that a bus runs.

ghost use Rattle.std.specs.Prelude.{◌≡◌, IfOk};
ghost use Rattle.image_parts.specs.Images.{IsRoster};
ghost use Rattle.checks_bus.specs.Alike.{network as network_of};

use crate::one_node::OneNode;
use anyhow::Result;
use base::Octets;
use can_bus::{BusState, Lines, Parts};
use can_frame::SlotRule;
use image_parts::{END, Roster, StartMode};
use std::alloc::{AllocError, Global};
use std::io::Write;
use std::rc::Rc;

/// The most turns of a run.
const MOST: u32 = 100_000;

/// The network of the manager 127 and the nodes 5 and 9 at 125 kbit/s, with slots by a rule. SYNC comes each 20 ms and
/// is counted to 3, the manager's heartbeat each 30 ms.
fn roster_of(alloc: Global, slots: SlotRule) -> Result<Roster, AllocError>
    ensures { IfOk result (λ roster. roster ≡ network_of slots) }
{
    Ok(Roster {
        bit_rate: 125,
        slots,
        manager: 127,
        sync_us: 20_000,
        sync_counter: 3,
        time_us: 0,
        first_day: 0,
        heartbeat_ms: 30,
        timeout_ms: 100,
        start_mode: StartMode::EachNode,
        mandatory: Octets::from_slice(alloc, &[])?,
        nodes: Octets::from_slice(alloc, &[5, 9])?,
    })
}

/// The same, to be shared.
pub fn network(alloc: Global, slots: SlotRule) -> Result<Rc<Roster>, AllocError>
    ensures roster { IfOk result (λ roster. roster.value ≡ network_of slots) }
    ensures fits { IfOk result (λ roster. IsRoster roster.value) }
{
    let roster = roster_of(alloc, slots)?;
    Ok(Rc::new(alloc, roster)?)
}

/// An instant, if it is below `END`.
fn instant(
    bus: &mut BusState,
    t: u64,
    node: &mut OneNode,
    lines: &mut Lines,
) -> Result<(), AllocError> {
    if t >= END {
        return Ok(());
    }
    bus.instant(t, node, lines)
}

/// The lines of a run of the network, whose nodes are all alike, from its power-on to a last moment: an instant at each
/// due moment.
fn run(alloc: Global, node: &mut OneNode, last: u64) -> Result<Lines, AllocError> {
    let mut lines = Lines::new(alloc);
    let mut bus = BusState::power_on(alloc, node)?;
    for _turn in 0..MOST {
        let t = bus.next_due();
        if t > last {
            break;
        }
        instant(&mut bus, t, node, &mut lines)?;
    }
    let _asked = node.take_asked();
    Ok(lines)
}

/// Runs the network to a last moment, and shows its trace.
pub fn show_run<W: Write>(alloc: Global, out: &mut W, node: &mut OneNode, last: u64) -> Result<()> {
    let lines = run(alloc, node, last)?;
    for line in lines.as_slice() {
        out.write_all(b"  ")?;
        out.write_all(&line.text(alloc)?)?;
        writeln!(out, "")?;
    }
    Ok(())
}
