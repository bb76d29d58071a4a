//! The writes of a node's RPDOs.
ghost use Rattle.std.specs.Prelude.{◌≡◌, ℕ, true, List, ◌++◌, length, filter_map, OnOk, IfOk};
ghost use Rattle.std.specs.Option.{option_map, option_and_then};
ghost use Rattle.cia301.specs.PdoObjects.{rpdo_object};
ghost use Rattle.eds_device.specs.Sheets.{Sheet};
ghost use Rattle.pdo_plan.specs.Plan.{HasPdo, IsMadeFor, clean, clean_of};
ghost use Rattle.pdo_choices.specs.Limits.{IsNumbered};
ghost use Rattle.pdo_links.specs.Tables.{AreFew, AreValues, IsTableOf};
ghost use Rattle.pdo_links.specs.PdoWrites.{taken_type, rpdo_of};
ghost use Rattle.pdo_links.specs.Writes.{rpdo_writes, by_number};

use crate::first::put_first;
use crate::mapping::put_mapping;
use crate::parameters::{AT_ONCE, COB_ID, TRANSMISSION_TYPE, WITH_SYNC};
use crate::put::{put_u8, put_u32};
use crate::taken::Taken;
use cia301::{CobId, TransmissionType, mapping_object, rpdo_object};
use concise_dcf::Write;
use eds_device::DataSheet;
use pdo_plan::{Clean, Consumer, Outcome, Plan, PlannedMessage, consumer_at};
use std::alloc::{AllocError, Global};
use std::collections::BTreeMap;

/// The transmission type of the RPDOs of a message: what is sent with the SYNC is taken with it.
pub(crate) fn taken_type(transmission: u8) -> u8
    ensures { result ≡ taken_type transmission }
{
    if TransmissionType::of(transmission).is_synchronous() {
        WITH_SYNC
    } else {
        AT_ONCE
    }
}

/// Adds the writes of an RPDO: it is switched off; when what it takes counts, and what it maps; it is
/// switched on.
#[tactic(auto, unfolding(crate::specs::Writes::rpdo_writes))]
fn put_rpdo(writes: &mut Vec<Write>, clean: &Clean, consumer: &Consumer) -> Result<(), AllocError>
    requires { IsNumbered consumer.now.rpdo consumer.now.mapping }
    ensures writes { OnOk result (writes.new.items ≡ writes.old.items ++ rpdo_writes clean.now consumer.now) }
    ensures fits { (sheet : Sheet) (node : ℕ)
        → HasPdo sheet node (rpdo_object consumer.now.rpdo) (length consumer.now.mapping)
        → OnOk result (AreValues sheet (rpdo_writes clean.now consumer.now)) }
{
    let object = rpdo_object(consumer.rpdo);
    let identifier = u32::from(clean.identifier);
    put_u32(writes, object, COB_ID, CobId::OFF_BIT + identifier)?;
    put_u8(
        writes,
        object,
        TRANSMISSION_TYPE,
        taken_type(clean.message.transmission),
    )?;
    put_mapping(writes, mapping_object(object), consumer.mapping.as_slice())?;
    put_u32(writes, object, COB_ID, identifier)?;
    Ok(())
}

/// The RPDO by which a node takes a message of a plan.
fn rpdo_of(planned: &PlannedMessage, node: u8) -> Option<Taken<'_>>
    ensures { option_map (λ t. (t.consumer.now.rpdo, (t.clean.now, t.consumer.now))) result
        ≡ option_and_then (rpdo_of node) (clean_of planned.now.outcome) }
{
    let Outcome::Planned(clean) = &planned.outcome else {
        return None;
    };
    let consumer = consumer_at(clean.consumers.as_slice(), node)?;
    Some(Taken { clean, consumer })
}

/// The RPDOs by which a node takes the messages of a plan, by number.
pub(crate) fn rpdos_of(
    alloc: Global,
    messages: &[PlannedMessage],
    node: u8,
) -> Result<BTreeMap<u16, Taken<'_>>, AllocError>
    ensures { IfOk result (λ table. IsTableOf (λ t. (t.clean.now, t.consumer.now)) table.entries
        (filter_map (rpdo_of node) (clean messages.now))) }
{
    let mut rpdos = BTreeMap::new(alloc);
    for planned in messages {
        if let Some(taken) = rpdo_of(planned, node) {
            put_first(&mut rpdos, taken.consumer.rpdo, taken)?;
        }
    }
    Ok(rpdos)
}

/// Adds the writes of the RPDOs that a plan gives a node, by number.
pub(crate) fn put_rpdos(
    alloc: Global,
    writes: &mut Vec<Write>,
    plan: &Plan,
    node: u8,
) -> Result<(), AllocError>
    ensures writes { OnOk result (writes.new.items ≡ writes.old.items ++ by_number (λ t. rpdo_writes t.0 t.1)
        (filter_map (rpdo_of node) (clean plan.now))) }
    ensures few { OnOk result (AreFew (by_number (λ t. rpdo_writes t.0 t.1)
        (filter_map (rpdo_of node) (clean plan.now)))) }
    ensures fits { (sheet : Sheet) → IsMadeFor plan.now sheet node
        → OnOk result (AreValues sheet (by_number (λ t. rpdo_writes t.0 t.1)
        (filter_map (rpdo_of node) (clean plan.now)))) }
{
    let rpdos = rpdos_of(alloc, plan.messages(), node)?;
    'pdos: for (_number, taken) in rpdos.iter() {
        put_rpdo(writes, taken.clean, taken.consumer)?;
    }
    Ok(())
}
