//! What is kept of each node once it is configured.
ghost use Rattle.std.specs.Prelude.{◌≡◌, ◌++◌, ◌∷◌, [], OnOk, filter_map, option_map};
ghost use Rattle.std.specs.List.{cons_option};
ghost use Rattle.eds_device.specs.Places.{pairs_of};
ghost use Rattle.project_plan.specs.Values.{number_among};
ghost use Rattle.diag_nodes.specs.Rules.{consumer_of, counter_at, heartbeat_time, identifier_at};

use crate::consumer::HeartbeatConsumer;
use cia301::{CobId, Identifier};
use co_dict::Dict;
use eds_device::DataSheet;
use project_plan::{is_tpdo_cob_id, unsigned_8, unsigned_16, unsigned_32};
use std::alloc::{AllocError, Global};

/// What is kept of the nodes once they are configured.
#[derive(Drop)]
pub struct Kept {
    /// The identifiers with which TPDOs are on.
    pub identifiers: Vec<Identifier>,
    /// The heartbeat consumers.
    pub consumers: Vec<HeartbeatConsumer>,
    /// The producer heartbeat time of each node in milliseconds, where it has that entry.
    pub times: Vec<(u8, Option<u16>)>,
    /// The synchronous counter overflow value of each node that has one.
    pub counters: Vec<(u8, u8)>,
}

/// The identifier with which a TPDO is on.
fn identifier_at(device: &DataSheet, values: &Dict, index: u16, sub: u8) -> Option<Identifier>
    ensures { result ≡ identifier_at (number_among device.now values.now) (index, sub) }
{
    if !is_tpdo_cob_id(index, sub) {
        return None;
    }
    let cob_id = CobId::of(unsigned_32(device, values, index, sub)?);
    if cob_id.is_valid() && cob_id.is_of_base_frames() {
        Some(cob_id.identifier())
    } else {
        None
    }
}

/// Keeps the identifiers of a node's TPDOs.
fn keep_identifiers(
    identifiers: &mut Vec<Identifier>,
    device: &DataSheet,
    values: &Dict,
) -> Result<(), AllocError>
    ensures { OnOk result (identifiers.new.items ≡ identifiers.old.items
        ++ filter_map (identifier_at (number_among device.now values.now)) (pairs_of device.now.sections)) }
{
    for (index, sub) in device.pairs() {
        if let Some(identifier) = identifier_at(device, values, *index, *sub) {
            identifiers.push(identifier)?;
        }
    }
    Ok(())
}

/// The heartbeat consumer that an entry is.
fn consumer_of(
    id: u8,
    device: &DataSheet,
    values: &Dict,
    index: u16,
    sub: u8,
) -> Option<HeartbeatConsumer>
    ensures { result ≡ consumer_of (number_among device.now values.now) id (index, sub) }
{
    if index != 0x1016 || sub == 0 {
        return None;
    }
    let number = unsigned_32(device, values, index, sub)?;
    Some(HeartbeatConsumer {
        node: id,
        sub,
        number,
    })
}

/// Keeps the heartbeat consumers of a node.
fn keep_consumers(
    consumers: &mut Vec<HeartbeatConsumer>,
    id: u8,
    device: &DataSheet,
    values: &Dict,
) -> Result<(), AllocError>
    ensures { OnOk result (consumers.new.items ≡ consumers.old.items
        ++ filter_map (consumer_of (number_among device.now values.now) id) (pairs_of device.now.sections)) }
{
    for (index, sub) in device.pairs() {
        if let Some(consumer) = consumer_of(id, device, values, *index, *sub) {
            consumers.push(consumer)?;
        }
    }
    Ok(())
}

/// Keeps what a node has once it is configured, by the values that are wanted of it.
pub(crate) fn keep_values(
    kept: &mut Kept,
    id: u8,
    device: &DataSheet,
    values: &Dict,
) -> Result<(), AllocError>
    ensures identifiers { OnOk result (kept.new.identifiers.items ≡ kept.old.identifiers.items
        ++ filter_map (identifier_at (number_among device.now values.now)) (pairs_of device.now.sections)) }
    ensures consumers { OnOk result (kept.new.consumers.items ≡ kept.old.consumers.items
        ++ filter_map (consumer_of (number_among device.now values.now) id) (pairs_of device.now.sections)) }
    ensures times { OnOk result (kept.new.times.items ≡ kept.old.times.items
        ++ (id, heartbeat_time (number_among device.now values.now)) ∷ []) }
    ensures counters { OnOk result (kept.new.counters.items ≡ kept.old.counters.items
        ++ cons_option (option_map (λ n. (id, n)) (counter_at (number_among device.now values.now))) []) }
{
    keep_identifiers(&mut kept.identifiers, device, values)?;
    keep_consumers(&mut kept.consumers, id, device, values)?;
    let time = unsigned_16(device, values, 0x1017, 0);
    kept.times.push((id, time))?;
    if let Some(counter) = unsigned_8(device, values, 0x1019, 0) {
        kept.counters.push((id, counter))?;
    }
    Ok(())
}

impl Kept {
    /// Nothing is kept.
    pub(crate) fn new(alloc: Global) -> Kept
        ensures identifiers { result.identifiers.items ≡ [] }
        ensures consumers { result.consumers.items ≡ [] }
        ensures times { result.times.items ≡ [] }
        ensures counters { result.counters.items ≡ [] }
    {
        Kept {
            identifiers: Vec::new(alloc),
            consumers: Vec::new(alloc),
            times: Vec::new(alloc),
            counters: Vec::new(alloc),
        }
    }

    /// Keeps what is kept of further nodes.
    pub(crate) fn add(&mut self, more: &Kept) -> Result<(), AllocError>
        ensures identifiers { OnOk result (self.new.identifiers.items
            ≡ self.old.identifiers.items ++ more.now.identifiers.items) }
        ensures consumers { OnOk result (self.new.consumers.items
            ≡ self.old.consumers.items ++ more.now.consumers.items) }
        ensures times { OnOk result (self.new.times.items ≡ self.old.times.items ++ more.now.times.items) }
        ensures counters { OnOk result (self.new.counters.items
            ≡ self.old.counters.items ++ more.now.counters.items) }
    {
        self.identifiers.extend_from_slice(&more.identifiers)?;
        self.consumers.extend_from_slice(&more.consumers)?;
        self.times.extend_from_slice(&more.times)?;
        self.counters.extend_from_slice(&more.counters)?;
        Ok(())
    }
}
