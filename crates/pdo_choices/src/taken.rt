//! What the clean messages so far have taken, and what is withheld.
ghost use Rattle.std.specs.Prelude.{◌≡◌, ◌==◌, ◌||◌, ◌&&◌, ◌≤◌, ℕ, [], is_some, All, IfOk, OnOk};
ghost use Rattle.std.specs.FinMap as map;
ghost use Rattle.std.specs.List.{list_any};
ghost use Rattle.std.specs.Ordering.{nat_cmp};
ghost use Rattle.std.specs.BTreeSet.{contains};
ghost use Rattle.pdo_stations.specs.Flags.{is_flagged};
ghost use Rattle.pdo_stations.specs.Stations.{devices_in};
ghost use Rattle.pdo_choices.specs.Had.{had_by, is_at_node, withheld_by, had_too};
ghost use Rattle.pdo_choices.specs.Receives.{names_rpdo};
ghost use Rattle.pdo_choices.specs.Limits.{IsWithin};
ghost use Rattle.pdo_choices.specs.Taken.{devices_known, pair_cmp, had_in};

use crate::clean::Clean;
use crate::consumer::Consumer;
use crate::named::named_rpdos;
use pdo_stations::{Stations, TakenRpdos};
use project_messages::Messages;
use std::alloc::{AllocError, Global};
use std::collections::BTreeSet;
use vendor_pdos::KnownStations;

/// What the clean messages so far have taken of the nodes, and what is withheld from the plan's own choice.
#[derive(Drop)]
pub struct Taken {
    /// The nodes, with the identifiers that they withhold.
    pub known: KnownStations,
    /// The identifiers that clean messages have.
    pub identifiers: BTreeSet<u16>,
    /// Their TPDOs, by their senders.
    pub tpdos: BTreeSet<(u8, u16)>,
    /// Their RPDOs, by the nodes that take them.
    pub rpdos: TakenRpdos,
    /// The RPDOs that receives name, by their nodes.
    pub withheld_rpdos: BTreeSet<(u8, u16)>,
}

/// Takes an identifier.
fn take_identifier(identifiers: &mut BTreeSet<u16>, identifier: u16) -> Result<(), AllocError>
    ensures { OnOk result ((n : ℕ) → contains nat_cmp identifiers.new n
        ≡ (contains nat_cmp identifiers.old n || identifier == n)) }
{
    identifiers.insert(identifier)?;
    Ok(())
}

/// Takes the TPDO of a number at a node.
fn take_tpdo(tpdos: &mut BTreeSet<(u8, u16)>, sender: u8, tpdo: u16) -> Result<(), AllocError>
    ensures { OnOk result ((q : ℕ × ℕ) → contains pair_cmp tpdos.new q
        ≡ (contains pair_cmp tpdos.old q || ((sender == q.0) && (tpdo == q.1)))) }
{
    tpdos.insert((sender, tpdo))?;
    Ok(())
}

/// Takes the RPDO of each consumer.
fn take_rpdos(rpdos: &mut TakenRpdos, consumers: &[Consumer])
    requires { All (λ k. k.rpdo ≤ 512) consumers.now }
    ensures { (node number : ℕ) → is_flagged rpdos.new.flags.items node number
        ≡ (is_flagged rpdos.old.flags.items node number || list_any (is_at_node node number) consumers.now) }
{
    for consumer in consumers {
        rpdos.take(consumer.node, consumer.rpdo);
    }
}

/// The RPDOs that receives name; in versions 1 and 2 none is withheld.
fn withheld_rpdos(
    alloc: Global,
    stations: &Stations,
    messages: &Messages,
) -> Result<BTreeSet<(u8, u16)>, AllocError>
    ensures { IfOk result (λ rpdos. (q : ℕ × ℕ) → contains pair_cmp rpdos q ≡ (is_some (devices_in stations.now).vendor
        && list_any (λ m. names_rpdo q.0 q.1 m.1) (map.entries messages.now))) }
{
    if stations.is_three() {
        named_rpdos(alloc, messages)
    } else {
        Ok(BTreeSet::new(alloc))
    }
}

impl Taken {
    /// Nothing is taken of what these stations and messages don't withhold. Takes time by the number of nodes, of the
    /// messages' sinks and of the logarithms of these, and memory for what is withheld; want of memory is the only error.
    pub fn new(alloc: Global, stations: Stations, messages: &Messages) -> Result<Taken, AllocError>
        ensures stations { IfOk result (λ taken. devices_known taken ≡ devices_in stations) }
        ensures had { IfOk result (λ taken. had_in taken
            ≡ had_by (withheld_by (devices_in stations) (map.entries messages.now)) []) }
    {
        let rpdos = TakenRpdos::new(alloc)?;
        let withheld_rpdos = withheld_rpdos(alloc, &stations, messages)?;
        let known = KnownStations::new(alloc, stations)?;
        Ok(Taken {
            known,
            identifiers: BTreeSet::new(alloc),
            tpdos: BTreeSet::new(alloc),
            rpdos,
            withheld_rpdos,
        })
    }

    /// Takes what a clean message has: its identifier, its TPDO and the RPDO of each consumer. Takes time by the number
    /// of its consumers and the logarithm of that of messages; want of memory is the only error.
    pub fn take(&mut self, clean: &Clean) -> Result<(), AllocError>
        requires { IsWithin clean.now }
        ensures stations { OnOk result (devices_known self.new ≡ devices_known self.old) }
        ensures had { OnOk result (had_in self.new ≡ had_too (had_in self.old) clean.now) }
    {
        take_identifier(&mut self.identifiers, clean.identifier)?;
        take_tpdo(&mut self.tpdos, clean.message.node, clean.message.tpdo)?;
        take_rpdos(&mut self.rpdos, clean.consumers.as_slice());
        Ok(())
    }
}
