//! The devices of a network as the power comes on.

ghost use Rattle.std.specs.Prelude.{◌≡◌, ◌↔◌, false, length, true, map, slice_get, IfOk, IfSome, IsTrue, OnOk};
ghost use Rattle.image_parts.specs.Record.{GoesBy, Lasts};
ghost use Rattle.image_parts.specs.Each.{each};
ghost use Rattle.bus_devices.specs.Telling.{TellsApart};
ghost use Rattle.co_device.specs.Device.{after_power, without_power};

use crate::apart::Apart;
use device_agenda::ScheduledDevice;
use device_objects::Shapes;
use std::alloc::{AllocError, Global};

/// The devices of these numbers without power.
pub fn new_devices(alloc: Global, numbers: &[u8]) -> Result<Vec<ScheduledDevice>, AllocError>
    ensures { IfOk result (λ devices. devices.items ≡ map (without_power false) numbers.now) }
{
    let mut devices = Vec::new(alloc);
    for number in numbers {
        let device = ScheduledDevice::new(alloc, *number)?;
        devices.push(device)?;
    }
    Ok(devices)
}

/// Devices that are equal to these.
pub(crate) fn copy_all(
    alloc: Global,
    devices: &[ScheduledDevice],
) -> Result<Vec<ScheduledDevice>, AllocError>
    ensures { IfOk result (λ copies. copies.items ≡ devices.now) }
{
    let mut copies = Vec::new(alloc);
    for device in devices {
        let copy = device.copy()?;
        copies.push(copy)?;
    }
    Ok(copies)
}

/// Whether a quick look at the devices of a place tells two lists apart. Takes the time of one such look.
pub(crate) fn differ_at(
    devices: &[ScheduledDevice],
    others: &[ScheduledDevice],
    place: usize,
) -> bool
    ensures { IsTrue result → slice_get devices.now place ≡ slice_get others.now place → ⊥ }
{
    match (devices.get(place), others.get(place)) {
        (Some(device), Some(other)) => !device.may_be(other),
        _ => false,
    }
}

/// Whether the devices of a place are told apart in constant time.
fn looks_differ_at(devices: &[ScheduledDevice], others: &[ScheduledDevice], place: usize) -> bool
    ensures { IsTrue result → slice_get devices.now place ≡ slice_get others.now place → ⊥ }
{
    match (devices.get(place), others.get(place)) {
        (Some(device), Some(other)) => !device.looks_like(other),
        _ => false,
    }
}

/// How closely two devices are looked at, ahead of a comparison by value.
#[derive(Clone, Copy)]
enum Closeness {
    /// At what is told in constant time: the fingerprints of their values, their states, when they are due.
    Glance,
    /// At all that a quick look sees, their PDOs too.
    All,
}

/// Whether a look tells the devices of a place apart.
fn look_differs(
    look: Closeness,
    devices: &[ScheduledDevice],
    others: &[ScheduledDevice],
    place: usize,
) -> bool
    ensures { IsTrue result → slice_get devices.now place ≡ slice_get others.now place → ⊥ }
{
    match look {
        Closeness::Glance => looks_differ_at(devices, others, place),
        Closeness::All => differ_at(devices, others, place),
    }
}

/// The first place at which a look tells the devices of two lists apart, if there is one. Looks at each of them up to
/// that place.
fn first_apart(
    look: Closeness,
    devices: &[ScheduledDevice],
    others: &[ScheduledDevice],
) -> Option<usize>
    ensures { IfSome result (λ place. slice_get devices.now place ≡ slice_get others.now place → ⊥) }
{
    for place in 0..devices.len() {
        if look_differs(look, devices, others, place) {
            return Some(place);
        }
    }
    None
}

/// A place at which the devices of two lists are told apart ahead of a comparison by value, if there is one.
fn place_apart(devices: &[ScheduledDevice], others: &[ScheduledDevice]) -> Option<usize>
    ensures { IfSome result (λ place. slice_get devices.now place ≡ slice_get others.now place → ⊥) }
{
    match first_apart(Closeness::Glance, devices, others) {
        Some(place) => Some(place),
        None => first_apart(Closeness::All, devices, others),
    }
}

/// Whether the devices of two lists of one length are the same. Compares one after another by value.
fn same_each(devices: &[ScheduledDevice], others: &[ScheduledDevice]) -> bool
    requires { length devices.now ≡ length others.now }
    ensures { IsTrue result ↔ (devices.now ≡ others.now) }
{
    for i in 0..devices.len() {
        if !devices[i].same(&others[i]) {
            return false;
        }
    }
    true
}

/// What tells the devices of two lists apart. Looks at each of them in constant time first, then quickly at all of each,
/// before it compares one by value; lists of other lengths are told apart by these.
pub(crate) fn tell_apart(devices: &[ScheduledDevice], others: &[ScheduledDevice]) -> Apart
    ensures { TellsApart result devices.now others.now }
{
    if devices.len() != others.len() {
        return Apart::Elsewhere;
    }
    if let Some(place) = place_apart(devices, others) {
        return Apart::At(place);
    }
    if same_each(devices, others) {
        Apart::No
    } else {
        Apart::Elsewhere
    }
}

/// Switches the power of each on, at time 0.
pub fn power_all<P: Shapes>(
    devices: &mut [ScheduledDevice],
    shapes: &mut P,
) -> Result<(), AllocError>
    ensures ran { OnOk result (GoesBy (each (after_power true 0) devices.old) devices.new
        P.seen P.asks shapes.old shapes.new) }
    ensures lasts { Lasts (P.seen shapes.old) (P.seen shapes.new) }
{
    for device in devices.iter_mut() {
        device.power(true, 0, shapes)?;
    }
    Ok(())
}
