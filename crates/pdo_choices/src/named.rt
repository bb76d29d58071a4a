//! What the receives of messages name.
ghost use Rattle.std.specs.Prelude.{◌≡◌, ◌==◌, ◌&&◌, ◌||◌, ℕ, false, IfOk, OnOk};
ghost use Rattle.std.specs.FinMap as map;
ghost use Rattle.std.specs.List.{list_any};
ghost use Rattle.std.specs.Option.{option_map_or};
ghost use Rattle.std.specs.BTreeSet.{contains};
ghost use Rattle.pdo_choices.specs.Receives.{event_named, names_rpdo, rpdo_named};
ghost use Rattle.pdo_choices.specs.Taken.{pair_cmp};

use project_messages::{Linked, Messages};
use std::alloc::{AllocError, Global};
use std::collections::BTreeSet;

/// The RPDO that a receive of a message names for a node; `None` where the plan gives it.
pub(crate) fn rpdo_named(linked: &Linked, node: u8) -> Option<u16>
    ensures { result ≡ rpdo_named linked.now node }
{
    let receive = linked.receives.get(node)?;
    if receive.rpdo == 0 {
        None
    } else {
        Some(receive.rpdo)
    }
}

/// The event time that a receive of a message gives a node in milliseconds; 0 for the one that its RPDO has. Takes
/// time by the logarithm of the number of receives.
pub fn event_named(linked: &Linked, node: u8) -> u16
    ensures { result ≡ event_named linked.now node }
{
    match linked.receives.get(node) {
        Some(receive) => receive.event,
        None => 0,
    }
}

/// Adds an RPDO of a node.
fn put_rpdo(rpdos: &mut BTreeSet<(u8, u16)>, node: u8, number: u16) -> Result<(), AllocError>
    ensures { OnOk result ((q : ℕ × ℕ) → contains pair_cmp rpdos.new q
        ≡ (contains pair_cmp rpdos.old q || ((node == q.0) && (number == q.1)))) }
{
    rpdos.insert((node, number))?;
    Ok(())
}

/// Adds the RPDO that a receive of a message names for a node, if one does.
fn name_rpdo(rpdos: &mut BTreeSet<(u8, u16)>, linked: &Linked, node: u8) -> Result<(), AllocError>
    ensures { OnOk result ((q : ℕ × ℕ) → contains pair_cmp rpdos.new q ≡ (contains pair_cmp rpdos.old q
        || ((node == q.0) && option_map_or (λ named. named == q.1) (rpdo_named linked.now node) false))) }
{
    match rpdo_named(linked, node) {
        Some(number) => put_rpdo(rpdos, node, number),
        None => Ok(()),
    }
}

/// Adds the RPDOs that the receives of a message name for nodes that take it.
fn name_rpdos(rpdos: &mut BTreeSet<(u8, u16)>, linked: &Linked) -> Result<(), AllocError>
    ensures { OnOk result ((q : ℕ × ℕ) → contains pair_cmp rpdos.new q
        ≡ (contains pair_cmp rpdos.old q || names_rpdo q.0 q.1 linked.now)) }
{
    'sinks: for (seat, _place) in linked.sinks.iter() {
        name_rpdo(rpdos, linked, seat.1)?;
    }
    Ok(())
}

/// The RPDOs that receives of messages name for nodes that take them, each by its node. Takes time by the number of
/// sinks and its logarithm, and memory for the RPDOs; want of memory is the only error.
pub(crate) fn named_rpdos(
    alloc: Global,
    messages: &Messages,
) -> Result<BTreeSet<(u8, u16)>, AllocError>
    ensures { IfOk result (λ rpdos. (q : ℕ × ℕ) → contains pair_cmp rpdos q
        ≡ list_any (λ m. names_rpdo q.0 q.1 m.1) (map.entries messages.now)) }
{
    let mut rpdos = BTreeSet::new(alloc);
    'messages: for (_name, linked) in messages.iter() {
        name_rpdos(&mut rpdos, linked)?;
    }
    Ok(rpdos)
}
