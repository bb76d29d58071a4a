//! What a text gives an entry.
ghost use Rattle.std.specs.Prelude.{◌≡◌, IfOk, IfSome};
ghost use Rattle.co_values.specs.Values.{Fits, value};
ghost use Rattle.eds_device.specs.Described.{kind_at};
ghost use Rattle.eds_device.specs.Entries.{entry_at};
ghost use Rattle.node_parameters.specs.Judgement.{is_outside, breaks_limit, parameter_bytes_at, parameter_bytes};
ghost use Rattle.node_parameters.specs.Judgement.{set_bytes_at, set_bytes};

use crate::parameter_fault::ParameterFault;
use base::Octets;
use co_dict::Entry;
use co_values::{DataType, number_in, value_of};
use eds_device::DataSheet;
use std::alloc::{AllocError, Global};

/// Whether a number is below the low limit of an entry or above its high one (CiA 306); an entry without a
/// limit has none.
pub fn is_outside(entry: &Entry, number: i128) -> bool
    ensures { result ≡ is_outside entry.now number }
{
    if let Some(low) = entry.low
        && number < low
    {
        return true;
    }
    match entry.high {
        Some(high) => number > high,
        None => false,
    }
}

/// Whether the bytes of a value are an integer outside a limit of the entry.
fn breaks_limit(entry: &Entry, bytes: &[u8]) -> bool
    requires { Fits entry.now.kind bytes.now }
    ensures { result ≡ breaks_limit entry.now bytes.now }
{
    if !entry.kind.is_integer() {
        return false;
    }
    match number_in(entry.kind, bytes) {
        Some(number) => is_outside(entry, number),
        None => false,
    }
}

/// The bytes that a text spells as a value of a type at a node.
fn read_value(
    alloc: Global,
    kind: DataType,
    text: &[u8],
    node: u8,
) -> Result<Option<Octets>, AllocError>
    ensures bytes { IfOk result (λ given. given ≡ value kind text.now node) }
    ensures fits { IfOk result (λ given. IfSome given (Fits kind)) }
{
    let value = value_of(alloc, kind, text, node)?;
    match value {
        Some(value) => Ok(Some(value.bytes)),
        None => Ok(None),
    }
}

/// What a text gives an entry at a node.
fn judge_at(
    alloc: Global,
    entry: &Entry,
    text: &[u8],
    node: u8,
) -> Result<Result<Octets, ParameterFault>, AllocError>
    ensures given { IfOk result (λ given. given ≡ parameter_bytes_at entry.now text.now node) }
    ensures fits { IfOk result (λ given. IfOk given (Fits entry.now.kind)) }
{
    if !entry.kind.is_modelled() {
        return Ok(Err(ParameterFault::NotModelled));
    }
    if !entry.access.is_writable() {
        return Ok(Err(ParameterFault::NotWritable));
    }
    let Some(bytes) = read_value(alloc, entry.kind, text, node)? else {
        return Ok(Err(ParameterFault::Unreadable));
    };
    if breaks_limit(entry, bytes.as_slice()) {
        return Ok(Err(ParameterFault::OutsideLimits));
    }
    Ok(Ok(bytes))
}

/// The bytes that a text gives an entry of a device at a node, as its parameter; or the first fault
/// that holds: there is no such entry, its type is not modelled, it is read-only or constant, the
/// text spells no value of its type, the value is outside its limits.
#[tactic(auto, unfolding(crate::specs::Judgement::parameter_bytes))]
pub fn judge(
    alloc: Global,
    device: &DataSheet,
    node: u8,
    index: u16,
    sub: u8,
    text: &[u8],
) -> Result<Result<Octets, ParameterFault>, AllocError>
    ensures given { IfOk result (λ given. given
        ≡ parameter_bytes (entry_at device.now node index sub) text.now node) }
    ensures fits { IfOk result (λ given. IfOk given (Fits (kind_at device.now (index, sub)))) }
{
    let Some(entry) = device.entry(node, index, sub) else {
        return Ok(Err(ParameterFault::NoEntry));
    };
    let given = judge_at(alloc, &entry, text, node)?;
    Ok(given)
}

/// What a text gives an entry at a node where its application sets it.
fn judge_set_at(
    alloc: Global,
    entry: &Entry,
    text: &[u8],
    node: u8,
) -> Result<Result<Octets, ParameterFault>, AllocError>
    ensures given { IfOk result (λ given. given ≡ set_bytes_at entry.now text.now node) }
    ensures fits { IfOk result (λ given. IfOk given (Fits entry.now.kind)) }
{
    if !entry.kind.is_modelled() {
        return Ok(Err(ParameterFault::NotModelled));
    }
    match read_value(alloc, entry.kind, text, node)? {
        Some(bytes) => Ok(Ok(bytes)),
        None => Ok(Err(ParameterFault::Unreadable)),
    }
}

/// The bytes that a text gives an entry of a device at a node where the node's own application sets
/// it, whatever its access and limits; or the first fault that holds: there is no such entry, its
/// type is not modelled, the text spells no value of its type.
#[tactic(auto, unfolding(crate::specs::Judgement::set_bytes))]
pub fn judge_set(
    alloc: Global,
    device: &DataSheet,
    node: u8,
    index: u16,
    sub: u8,
    text: &[u8],
) -> Result<Result<Octets, ParameterFault>, AllocError>
    ensures given { IfOk result (λ given. given
        ≡ set_bytes (entry_at device.now node index sub) text.now node) }
    ensures fits { IfOk result (λ given. IfOk given (Fits (kind_at device.now (index, sub)))) }
{
    let Some(entry) = device.entry(node, index, sub) else {
        return Ok(Err(ParameterFault::NoEntry));
    };
    let given = judge_set_at(alloc, &entry, text, node)?;
    Ok(given)
}
