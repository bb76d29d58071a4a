//! What the device has that the manager runs in: it holds its configuration by itself, and has no producer heartbeat
//! time (CiA 301, object 1017h), since the manager's heartbeat is its own.
ghost use Rattle.std.specs.Prelude.{◌≡◌, All, IfOk, OnOk, Some, true};
ghost use Rattle.std.specs.FinMap as map;
ghost use Rattle.std.specs.Option.{option_map_or};
ghost use Rattle.concise_dcf.specs.Writes.{IsSized};
ghost use Rattle.eds_device.specs.Entries.{defaults_of, dummies_of, shape_of};
ghost use Rattle.project_plan.specs.Controller.{defaults_held, producer_time, shape_held};
ghost use Rattle.project_plan.specs.Values.{after_writes};
ghost use Rattle.network_image.specs.Controller.{is_producer_time, other_writes};

use co_dict::{Dict, Shape};
use concise_dcf::Write;
use eds_device::DataSheet;
use std::alloc::{AllocError, Global};

/// Whether this is the producer heartbeat time.
pub(crate) fn is_producer_time(index: u16, sub: u8) -> bool
    ensures { result ≡ is_producer_time (index, sub) }
{
    index == 0x1017 && sub == 0
}

/// Gives an entry its default, unless it is the producer heartbeat time.
fn add_default(values: &mut Dict, defaults: &Dict, index: u16, sub: u8) -> Result<(), AllocError>
    ensures { OnOk result (values.new ≡ option_map_or (map.insert values.old (index, sub))
        (map.get (map.remove defaults.now producer_time) (index, sub)) values.old) }
{
    if is_producer_time(index, sub) {
        return Ok(());
    }
    match defaults.read(index, sub) {
        Some(bytes) => values.write(index, sub, bytes),
        None => Ok(()),
    }
}

/// The defaults of a device at a node, but for the producer heartbeat time. Takes constant time where that has none, and
/// else time and memory by the number of entries.
fn other_defaults(
    alloc: Global,
    device: &DataSheet,
    node: u8,
    defaults: Dict,
) -> Result<Dict, AllocError>
    requires { defaults ≡ defaults_of device.now node }
    ensures { IfOk result (λ values. values ≡ map.remove defaults producer_time) }
{
    if defaults.read(0x1017, 0).is_none() {
        return Ok(defaults);
    }
    let mut values = Dict::new(alloc);
    for place in device.pairs() {
        add_default(&mut values, &defaults, place.0, place.1)?;
    }
    Ok(values)
}

/// Writes data to values, one write after another, but for writes to the producer heartbeat time.
fn put_writes(values: &mut Dict, writes: &[Write]) -> Result<(), AllocError>
    requires { All IsSized writes.now }
    ensures { OnOk result (values.new ≡ after_writes values.old (other_writes writes.now)) }
{
    let mut rest = writes;
    while let [write, after @ ..] = rest {
        if !is_producer_time(write.index, write.sub) {
            values.write(write.index, write.sub, write.bytes.as_slice())?;
        }
        rest = after;
    }
    Ok(())
}

/// The values of the device from its power-on on: its defaults at its node, and over them the data of its writes. Takes
/// time by the number of entries and of writes and their logarithm, and memory by these numbers.
pub fn configured_values(
    alloc: Global,
    device: &DataSheet,
    node: u8,
    defaults: Dict,
    writes: &[Write],
) -> Result<Dict, AllocError>
    requires of_device { defaults ≡ defaults_of device.now node }
    requires sizes { All IsSized writes.now }
    ensures { IfOk result (λ values. values ≡ defaults_held (Some writes.now) defaults) }
{
    let mut values = other_defaults(alloc, device, node, defaults)?;
    put_writes(&mut values, writes)?;
    Ok(values)
}

/// For each of the types 0001h to 0007h whether its dummy is allowed.
fn dummies_of(device: &DataSheet) -> [bool; 7]
    ensures { result ≡ dummies_of device.now.sections }
{
    [
        device.dummy_allowed(1),
        device.dummy_allowed(2),
        device.dummy_allowed(3),
        device.dummy_allowed(4),
        device.dummy_allowed(5),
        device.dummy_allowed(6),
        device.dummy_allowed(7),
    ]
}

/// Sets an entry as a shape has it, unless it is the producer heartbeat time.
fn add_entry(held: &mut Shape, shape: &Shape, index: u16, sub: u8) -> Result<(), AllocError>
    ensures { OnOk result (held.new ≡ record held.old {
      entries = option_map_or (map.insert held.old.entries (index, sub))
          (map.get (map.remove shape.now.entries producer_time) (index, sub)) held.old.entries;
    }) }
{
    if is_producer_time(index, sub) {
        return Ok(());
    }
    match shape.entry(index, sub) {
        Some(entry) => held.insert(index, sub, *entry),
        None => Ok(()),
    }
}

/// The entries of the device: those of its data sheet at its node, but for the producer heartbeat time. Takes constant
/// time where there is none, and else time and memory by the number of entries and its logarithm.
pub fn shape_without_producer_time(
    alloc: Global,
    device: &DataSheet,
    node: u8,
    shape: Shape,
) -> Result<Shape, AllocError>
    requires { shape ≡ shape_of device.now node }
    ensures { IfOk result (λ held. held ≡ shape_held true shape) }
{
    if shape.entry(0x1017, 0).is_none() {
        return Ok(shape);
    }
    let mut held = Shape::new(alloc, dummies_of(device));
    for place in device.pairs() {
        add_entry(&mut held, &shape, place.0, place.1)?;
    }
    Ok(held)
}
