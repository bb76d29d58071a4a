//! The writes of a node.
ghost use Rattle.std.specs.Prelude.{◌≡◌, ◌≤◌, ◌⊎◌, IsTrue, length, All, IfOk};
ghost use Rattle.co_values.specs.Values.{Fits};
ghost use Rattle.eds_device.specs.Described.{kind_at};
ghost use Rattle.pdo_plan.specs.Plan.{IsMadeFor};
ghost use Rattle.pdo_links.specs.Writes.{node_writes};
ghost use Rattle.concise_dcf.specs.Writes.{IsSized};

use crate::links::put_links;
use concise_dcf::Write;
use eds_device::DataSheet;
use node_parameters::Params;
use pdo_plan::Plan;
use std::alloc::{AllocError, Global};

/// The writes that configure a node (CiA 301), by the rules of version 3 or not: those of its parameters by index
/// and sub-index, then those of its TPDOs and then of its RPDOs, each by number. A PDO is switched off, its times
/// and its mapping are written, and it is switched on. In version 3 of each PDO is written what its device lets
/// be, and those that no message uses are switched off.
///
/// Takes time by the number of messages with their consumers, that of the writes, and that of the
/// device's entries. Want of memory is the only error.
#[tactic(auto, unfolding(crate::specs::Writes::node_writes))]
pub fn writes(
    alloc: Global,
    is_three: bool,
    plan: &Plan,
    params: &Params,
    device: &DataSheet,
    node: u8,
) -> Result<Vec<Write>, AllocError>
    ensures writes { IfOk result (λ writes. writes.items
        ≡ node_writes is_three plan.now params.now device.now node) }

    // Each is a value of its entry: in version 3 always, before where the plan was made for this device as this
    // node.
    ensures fits { IsTrue is_three ⊎ IsMadeFor plan.now device.now node
        → IfOk result (λ writes. All (λ w. Fits (kind_at device.now (w.index, w.sub)) w.bytes) writes.items) }

    // Each has from 1 to 512 bytes, and they can be counted in 32 bits.
    ensures sizes { IfOk result (λ writes. All IsSized writes.items) }
    ensures count { IfOk result (λ writes. length writes.items ≤ 4294967295) }
{
    let mut writes = node_parameters::writes(alloc, params, device, node)?;
    put_links(alloc, &mut writes, is_three, plan, device, node)?;
    Ok(writes)
}
