//! What the nodes of a bus do in an instant.

ghost use Rattle.std.specs.Prelude.{◌≡◌, ◌<◌, ◌++◌, OnOk};
ghost use Rattle.image_parts.specs.Asking.{outcome};
ghost use Rattle.image_parts.specs.Record.{BeginsWith, IsAsked, Lasts};
ghost use Rattle.can_bus.specs.Bus.{delivery_of as delivery_of_slot, nodes_after};

use crate::managing::manage;
use crate::parts::Parts;
use crate::slot::Slot;
use bus_devices::Devices;
use device_agenda::Delivery;
use image_parts::END;
use nmt_boot::Manager;
use node_boot::Notes;
use std::alloc::AllocError;

/// What is delivered where a slot ends.
fn delivery_of(ended: &Option<Slot>) -> Option<Delivery>
    ensures { result ≡ delivery_of_slot ended.now }
{
    match ended {
        None => None,
        Some(slot) => Some(Delivery::of(slot.sender, slot.frame)),
    }
}

/// The delivery, the timers and TPDOs of each device, and the manager.
#[tactic(auto, using(crate::proofs::NodeLemmas::nodes_laws))]
pub(crate) fn run_nodes<P: Parts>(
    devices: &mut Devices,
    manager: &mut Manager,
    t: u64,
    ended: &Option<Slot>,
    parts: &mut P,
    notes: &mut Notes,
) -> Result<(), AllocError>
    requires { t < END }
    ensures devices { OnOk result (devices.new
        ≡ (outcome (nodes_after t ended.now devices.old manager.old) (P.seen parts.old).image).0) }
    ensures manager { OnOk result (manager.new
        ≡ (outcome (nodes_after t ended.now devices.old manager.old) (P.seen parts.old).image).1.0) }
    ensures notes { OnOk result (notes.new ≡ notes.old
        ++ (outcome (nodes_after t ended.now devices.old manager.old) (P.seen parts.old).image).1.1) }
    ensures notes_before { BeginsWith notes.new notes.old }
    ensures asked { OnOk result (IsAsked (nodes_after t ended.now devices.old manager.old)
        (P.seen parts.old) (P.seen parts.new) (P.asks parts.old) (P.asks parts.new)) }
    ensures lasts { Lasts (P.seen parts.old) (P.seen parts.new) }
{
    let delivery = delivery_of(ended);
    devices.instant(t, &delivery, parts)?;
    manage(manager, t, ended, parts, notes)
}
