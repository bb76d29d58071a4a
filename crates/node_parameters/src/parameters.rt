//! The writes of a node's parameters.
ghost use Rattle.std.specs.Prelude.{◌≡◌, ◌≤◌, length, All, IfOk, IfSome, Some, option_copied};
ghost use Rattle.std.specs.List.{slice_get};
ghost use Rattle.co_values.specs.Values.{Fits};
ghost use Rattle.eds_device.specs.Described.{kind_at};
ghost use Rattle.eds_device.specs.Faults.{most_entries};
ghost use Rattle.eds_device.specs.Places.{pairs_of};
ghost use Rattle.node_parameters.specs.Parameters.{parameter_text, parameter_write, parameter_writes};
ghost use Rattle.concise_dcf.specs.Writes.{IsSized};

use crate::judgement::judge;
use crate::params::Params;
use cia301::is_of_pdos;
use concise_dcf::Write;
use eds_device::DataSheet;
use std::alloc::{AllocError, Global};

/// The text of the parameter of an entry: the one that the node has for it, else the ParameterValue
/// of the device's text (CiA 306) outside 1400h to 1BFFh. `None` where that is missing or empty.
#[tactic(auto, unfolding(crate::specs::Parameters::parameter_text))]
pub fn parameter_text<'a>(
    params: &'a Params,
    device: &'a DataSheet,
    index: u16,
    sub: u8,
) -> Option<&'a [u8]>
    ensures { option_copied result ≡ parameter_text device.now.sections params.now (index, sub) }
{
    let text = match params.get(index, sub) {
        Some(text) => text,
        None if is_of_pdos(index) => return None,
        None => device.value_text(index, sub)?,
    };
    if text.is_empty() { None } else { Some(text) }
}

/// The text of the parameter of the entry at a position of the device's entries, as `parameter_text` gives
/// it.
#[tactic(auto, unfolding(crate::specs::Parameters::parameter_text))]
fn parameter_text_at<'a>(
    params: &'a Params,
    device: &'a DataSheet,
    position: usize,
    index: u16,
    sub: u8,
) -> Option<&'a [u8]>
    requires { slice_get (pairs_of device.now.sections) position ≡ Some (index, sub) }
    ensures { option_copied result ≡ parameter_text device.now.sections params.now (index, sub) }
{
    let text = match params.get(index, sub) {
        Some(text) => text,
        None if is_of_pdos(index) => return None,
        None => device.value_text_at(position, index, sub)?,
    };
    if text.is_empty() { None } else { Some(text) }
}

/// The write of the parameter of the entry at a position, where it has a text and no fault.
fn parameter_write(
    alloc: Global,
    params: &Params,
    device: &DataSheet,
    node: u8,
    position: usize,
    index: u16,
    sub: u8,
) -> Result<Option<Write>, AllocError>
    requires { slice_get (pairs_of device.now.sections) position ≡ Some (index, sub) }
    ensures write { IfOk result (λ write. write ≡ parameter_write device.now params.now node (index, sub)) }
    ensures fits { IfOk result (λ write. IfSome write
        (λ w. Fits (kind_at device.now (w.index, w.sub)) w.bytes)) }
{
    let Some(text) = parameter_text_at(params, device, position, index, sub) else {
        return Ok(None);
    };
    match judge(alloc, device, node, index, sub, text)? {
        Ok(bytes) => Ok(Some(Write { index, sub, bytes })),
        Err(_fault) => Ok(None),
    }
}

/// The writes that give a node its parameters, by index and sub-index: for each entry the text that
/// the node has for it, else the ParameterValue of the device's text (CiA 306) outside 1400h to
/// 1BFFh. A parameter that has a fault isn't written.
#[tactic(auto, unfolding(crate::specs::Parameters::parameter_writes))]
pub fn writes(
    alloc: Global,
    params: &Params,
    device: &DataSheet,
    node: u8,
) -> Result<Vec<Write>, AllocError>
    ensures writes { IfOk result (λ writes. writes.items ≡ parameter_writes device.now params.now node) }

    // Each is a value of its entry, of from 1 to 512 bytes, and they are at most as many as a device has entries.
    ensures fits { IfOk result (λ writes. All (λ w. Fits (kind_at device.now (w.index, w.sub)) w.bytes)
        writes.items) }
    ensures sizes { IfOk result (λ writes. All IsSized writes.items) }
    ensures count { IfOk result (λ writes. length writes.items ≤ most_entries) }
{
    let mut writes = Vec::new(alloc);
    let places = device.pairs();
    for position in 0..places.len() {
        let (index, sub) = places[position];
        let write = parameter_write(alloc, params, device, node, position, index, sub)?;
        if let Some(write) = write {
            writes.push(write)?;
        }
    }
    Ok(writes)
}
