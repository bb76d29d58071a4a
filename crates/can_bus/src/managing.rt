//! What the manager of a bus does in an instant.

ghost use Rattle.std.specs.Prelude.{◌≡◌, ◌<◌, ◌++◌, OnOk};
ghost use Rattle.image_parts.specs.Asking.{outcome};
ghost use Rattle.image_parts.specs.Record.{BeginsWith, IsAsked, Lasts};
ghost use Rattle.can_bus.specs.Bus.{manager_after_delivery, manager_after_slot};

use crate::slot::Slot;
use can_frame::manager_sender;
use image_parts::END;
use nmt_boot::Manager;
use node_boot::{Boots, Notes};
use std::alloc::AllocError;

/// Gives the manager the frame of a slot that ends at the moment t, if it isn't its sender.
#[tactic(auto, unfolding(crate::specs::Bus::manager_after_slot))]
fn hear<P: Boots>(
    manager: &mut Manager,
    t: u64,
    ended: &Option<Slot>,
    boots: &mut P,
    notes: &mut Notes,
) -> Result<(), AllocError>
    requires { t < END }
    ensures state { OnOk result (manager.new
        ≡ (outcome (manager_after_slot t ended.now manager.old) (P.seen boots.old).image).0) }
    ensures notes { OnOk result (notes.new ≡ notes.old
        ++ (outcome (manager_after_slot t ended.now manager.old) (P.seen boots.old).image).1) }
    ensures notes_before { BeginsWith notes.new notes.old }
    ensures asked { OnOk result (IsAsked (manager_after_slot t ended.now manager.old)
        (P.seen boots.old) (P.seen boots.new) (P.asks boots.old) (P.asks boots.new)) }
    ensures lasts { Lasts (P.seen boots.old) (P.seen boots.new) }
{
    match ended {
        None => Ok(()),
        Some(slot) => {
            if manager_sender(manager.number()) == slot.sender {
                return Ok(());
            }
            manager.on_frame(t, &slot.frame, boots, notes)
        }
    }
}

/// Gives the manager the frame of a slot that ends at the moment t, and runs what is due then.
#[tactic(auto, using(crate::proofs::ManagerLemmas::managed_laws))]
pub(crate) fn manage<P: Boots>(
    manager: &mut Manager,
    t: u64,
    ended: &Option<Slot>,
    boots: &mut P,
    notes: &mut Notes,
) -> Result<(), AllocError>
    requires { t < END }
    ensures state { OnOk result (manager.new
        ≡ (outcome (manager_after_delivery t ended.now manager.old) (P.seen boots.old).image).0) }
    ensures notes { OnOk result (notes.new ≡ notes.old
        ++ (outcome (manager_after_delivery t ended.now manager.old) (P.seen boots.old).image).1) }
    ensures notes_before { BeginsWith notes.new notes.old }
    ensures asked { OnOk result (IsAsked (manager_after_delivery t ended.now manager.old)
        (P.seen boots.old) (P.seen boots.new) (P.asks boots.old) (P.asks boots.new)) }
    ensures lasts { Lasts (P.seen boots.old) (P.seen boots.new) }
{
    hear(manager, t, ended, boots, notes)?;
    manager.on_instant(t, notes)
}
