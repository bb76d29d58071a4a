//! The values of a node that its diagnostics want once it is configured, and no others.
ghost use Rattle.std.specs.Prelude.{◌≡◌, ◌≤◌, ◌+◌, All, IfOk, IfSome, OnOk, filter, length};
ghost use Rattle.std.specs.FinMap as map;
ghost use Rattle.std.specs.Option.{option_and_then, option_map_or};
ghost use Rattle.cia301.specs.CobIds.{no_rtr_bit};
ghost use Rattle.co_values.specs.Values.{longest_value};
ghost use Rattle.concise_dcf.specs.Writes.{IsSized, place_of};
ghost use Rattle.pdo_links.specs.PdoWrites.{tpdo_of};
ghost use Rattle.pdo_plan.specs.Plan.{clean_of};
ghost use Rattle.project_plan.specs.Values.{after_writes};
ghost use Rattle.project_plan.specs.Wanted.{is_tpdo_cob_id, is_wanted, parameter_value, value_given, wanted_value};
ghost use Rattle.project_plan.specs.Wanted.{is_sent_by, sends, values_given, with_tpdo, with_tpdos};

use base::Octets;
use byteorder::{ByteOrder, LittleEndian};
use cia301::{CobId, is_communication_object, is_of_tpdos, tpdo_object};
use co_dict::Dict;
use concise_dcf::Write;
use eds_device::DataSheet;
use node_parameters::{Params, judge, parameter_text};
use pdo_plan::{Clean, Outcome, Plan, PlannedMessage};
use std::alloc::{AllocError, Global};

/// The sub-index of a COB-ID.
const COB_ID: u8 = 1;

/// Whether an entry is the COB-ID of a TPDO (CiA 301): sub-index 1 of 1800h to 19FFh.
pub fn is_tpdo_cob_id(index: u16, sub: u8) -> bool
    ensures { result ≡ is_tpdo_cob_id (index, sub) }
{
    is_of_tpdos(index) && is_communication_object(index) && sub == COB_ID
}

/// Whether the value of an entry is wanted: the COB-ID of a TPDO, a heartbeat consumer, the heartbeat time and
/// the synchronous counter overflow value.
fn is_wanted(index: u16, sub: u8) -> bool
    ensures { result ≡ is_wanted (index, sub) }
{
    is_tpdo_cob_id(index, sub) || matches!(index, 0x1016..=0x1017 | 0x1019)
}

/// What the parameter of an entry gives it, where it has a text and no fault.
fn parameter_value(
    alloc: Global,
    id: u8,
    params: &Params,
    device: &DataSheet,
    index: u16,
    sub: u8,
) -> Result<Option<Octets>, AllocError>
    ensures value { IfOk result (λ value. value ≡ parameter_value device.now params.now id (index, sub)) }
    ensures short { IfOk result (λ value. IfSome value (λ bytes. length bytes ≤ longest_value)) }
{
    let Some(text) = parameter_text(params, device, index, sub) else {
        return Ok(None);
    };
    match judge(alloc, device, id, index, sub, text)? {
        Ok(bytes) => Ok(Some(bytes)),
        Err(_fault) => Ok(None),
    }
}

/// Sets what is given to an entry: by its parameter, else its default.
fn add_given(
    values: &mut Dict,
    alloc: Global,
    id: u8,
    params: &Params,
    device: &DataSheet,
    index: u16,
    sub: u8,
) -> Result<(), AllocError>
    ensures { OnOk result (values.new ≡ option_map_or (map.insert values.old (index, sub))
        (value_given device.now params.now id (index, sub)) values.old) }
{
    match parameter_value(alloc, id, params, device, index, sub)? {
        Some(bytes) => values.write(index, sub, bytes.as_slice()),
        None => device.add_default(values, id, index, sub),
    }
}

/// Sets it where it is wanted.
fn add_wanted(
    values: &mut Dict,
    alloc: Global,
    id: u8,
    params: &Params,
    device: &DataSheet,
    index: u16,
    sub: u8,
) -> Result<(), AllocError>
    ensures { OnOk result (values.new ≡ option_map_or (map.insert values.old (index, sub))
        (wanted_value device.now params.now id (index, sub)) values.old) }
{
    if is_wanted(index, sub) {
        add_given(values, alloc, id, params, device, index, sub)
    } else {
        Ok(())
    }
}

/// What is given to the entries whose value diagnostics want of a node once it is configured: the COB-IDs of its
/// TPDOs, its heartbeat consumers, its heartbeat time and its synchronous counter overflow value. Each has what its
/// parameter gives it, else its default.
///
/// Takes time by the number of entries, memory by that of the values.
pub fn values_given(
    alloc: Global,
    id: u8,
    params: &Params,
    device: &DataSheet,
) -> Result<Dict, AllocError>
    ensures { IfOk result (λ values. values ≡ values_given device.now params.now id) }
{
    let mut values = Dict::new(alloc);
    for place in device.pairs() {
        add_wanted(&mut values, alloc, id, params, device, place.0, place.1)?;
    }
    Ok(values)
}

/// The COB-ID of a TPDO that is on, by the identifier of its frames.
fn switched_on(identifier: u16) -> u32
    ensures { result ≡ no_rtr_bit + identifier }
{
    CobId::NO_RTR_BIT + u32::from(identifier)
}

/// Writes the COB-ID with which a message switches its sender's TPDO on.
fn write_cob_id(values: &mut Dict, clean: &Clean) -> Result<(), AllocError>
    ensures { OnOk result (values.new ≡ with_tpdo values.old (clean.now.message.tpdo, clean.now)) }
{
    let number = clean.message.tpdo;
    if !matches!(number, 1..=512) {
        return Ok(());
    }
    let mut bytes = [0u8; 4];
    LittleEndian::write_u32(&mut bytes, switched_on(clean.identifier));
    values.write(tpdo_object(number), COB_ID, &bytes)
}

/// Writes it of a message that a node sends.
fn write_message(values: &mut Dict, planned: &PlannedMessage, id: u8) -> Result<(), AllocError>
    ensures { OnOk result (values.new ≡ option_map_or (with_tpdo values.old)
        (option_and_then (tpdo_of id) (clean_of planned.now.outcome)) values.old) }
{
    match &planned.outcome {
        Outcome::Planned(clean) if clean.message.node == id => write_cob_id(values, clean),
        _ => Ok(()),
    }
}

/// Writes those of all messages that a node sends, from the last one on: of two of a number the first counts.
fn write_messages(values: &mut Dict, messages: &[PlannedMessage], id: u8) -> Result<(), AllocError>
    ensures { OnOk result (values.new ≡ with_tpdos values.old id messages.now) }
{
    let mut left = messages.len();
    while left > 0 {
        left -= 1;
        write_message(values, &messages[left], id)?;
    }
    Ok(())
}

/// Whether a node sends a message, if that is clean.
fn is_sent_by(planned: &PlannedMessage, id: u8) -> bool
    ensures { result ≡ is_sent_by id planned.now }
{
    match &planned.outcome {
        Outcome::Planned(clean) => clean.message.node == id,
        Outcome::Faulty(_faults) => false,
    }
}

/// Whether a node sends one of the clean messages of a plan. Takes time by the number of messages.
pub fn sends(plan: &Plan, id: u8) -> bool
    ensures { result ≡ sends plan.now id }
{
    plan.messages()
        .iter()
        .any(|planned| is_sent_by(planned, id))
}

/// The values that are wanted of a node once it is configured by a plan, by those that `values_given` finds: each is as
/// among all its values, and the COB-ID of a TPDO that of the message that is sent by it.
///
/// Takes time by the number of messages, memory by that of those that the node sends.
pub fn wanted_values(given: &Dict, plan: &Plan, id: u8) -> Result<Dict, AllocError>
    ensures { IfOk result (λ values. values ≡ with_tpdos given.now id plan.now) }
{
    let mut values = given.copy()?;
    write_messages(&mut values, plan.messages(), id)?;
    Ok(values)
}

/// Sets the COB-IDs of TPDOs among writes, each in turn.
fn write_tpdo_cob_ids(values: &mut Dict, writes: &[Write]) -> Result<(), AllocError>
    requires { All IsSized writes.now }
    ensures { OnOk result (values.new
        ≡ after_writes values.old (filter (λ w. is_tpdo_cob_id (place_of w)) writes.now)) }
{
    let mut rest = writes;
    while let [write, after @ ..] = rest {
        if is_tpdo_cob_id(write.index, write.sub) {
            values.write(write.index, write.sub, write.bytes.as_slice())?;
        }
        rest = after;
    }
    Ok(())
}

/// The values that are wanted of a node once it is configured by a plan of version 3, by those that `values_given` finds
/// and what the plan writes to the node's PDOs: each is as among all its values.
///
/// Takes time by the number of writes, memory by that of the TPDOs that are switched.
pub fn vendor_wanted_values(given: &Dict, writes: &[Write]) -> Result<Dict, AllocError>
    requires { All IsSized writes.now }
    ensures { IfOk result (λ values. values
        ≡ after_writes given.now (filter (λ w. is_tpdo_cob_id (place_of w)) writes.now)) }
{
    let mut values = given.copy()?;
    write_tpdo_cob_ids(&mut values, writes)?;
    Ok(values)
}
