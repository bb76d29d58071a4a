//! What the events of a scenario do to the nodes of a bus.

ghost use Rattle.std.specs.Prelude.{◌≡◌, ◌<◌, ◌≤◌, false, length, map, OnOk};
ghost use Rattle.image_parts.specs.Asking.{outcome};
ghost use Rattle.image_parts.specs.Record.{GoesBy, IsAsked, Lasts};
ghost use Rattle.image_parts.specs.Each.{each};
ghost use Rattle.bus_devices.specs.Events.{after_events_at, after_event, after_power_at, after_set_at};
ghost use Rattle.bus_devices.specs.Steps.{AreFree};
ghost use Rattle.image_parts.specs.Images.{IsFree};
ghost use Rattle.cia301.specs.PdoObjects.{is_of_pdos};
ghost use Rattle.co_scenario.specs.declared.step.Step.TheVariants.{Power};

use base::{Octets, Shared};
use co_scenario::{Step, TimedStep};
use device_agenda::ScheduledDevice;
use device_objects::Shapes;
use image_parts::END;
use nmt_boot::Manager;
use std::alloc::AllocError;

/// A device sets an entry of its own at the moment t, if it has this number.
#[tactic(auto, unfolding(crate::specs::Events::after_set_at))]
fn set_one(
    device: &mut ScheduledDevice,
    t: u64,
    node: u8,
    place: (u16, u8),
    bytes: &Shared<Octets>,
) -> Result<(), AllocError>
    requires soon { t < END }
    requires short { length bytes.now ≤ 512 }
    requires free { is_of_pdos place.0 ≡ false }
    ensures { OnOk result (device.new ≡ after_set_at t node place bytes.now device.old) }
{
    if device.number() != node {
        return Ok(());
    }
    device.set(t, place.0, place.1, bytes)
}

/// The devices of this number set an entry of their own at the moment t.
fn set_each(
    devices: &mut [ScheduledDevice],
    t: u64,
    node: u8,
    place: (u16, u8),
    bytes: &Shared<Octets>,
) -> Result<(), AllocError>
    requires soon { t < END }
    requires short { length bytes.now ≤ 512 }
    requires free { is_of_pdos place.0 ≡ false }
    ensures { OnOk result (devices.new ≡ map (after_set_at t node place bytes.now) devices.old) }
{
    for device in devices.iter_mut() {
        set_one(device, t, node, place, bytes)?;
    }
    Ok(())
}

/// Switches the power of a device at the moment t, if it has this number.
#[tactic(auto, unfolding(crate::specs::Events::after_power_at))]
fn power_one<P: Shapes>(
    device: &mut ScheduledDevice,
    t: u64,
    node: u8,
    on: bool,
    shapes: &mut P,
) -> Result<(), AllocError>
    requires { t < END }
    ensures ran { OnOk result (GoesBy (after_power_at t node on device.old) device.new
        P.seen P.asks shapes.old shapes.new) }
    ensures lasts { Lasts (P.seen shapes.old) (P.seen shapes.new) }
{
    if device.number() != node {
        return Ok(());
    }
    device.power(on, t, shapes)
}

/// Switches the power of the devices of this number at the moment t.
fn power_each<P: Shapes>(
    devices: &mut [ScheduledDevice],
    t: u64,
    node: u8,
    on: bool,
    shapes: &mut P,
) -> Result<(), AllocError>
    requires { t < END }
    ensures ran { OnOk result (GoesBy (each (after_power_at t node on) devices.old) devices.new
        P.seen P.asks shapes.old shapes.new) }
    ensures lasts { Lasts (P.seen shapes.old) (P.seen shapes.new) }
{
    for device in devices.iter_mut() {
        power_one(device, t, node, on, shapes)?;
    }
    Ok(())
}

/// Switches the power of the devices of this number at the moment t, if the manager doesn't run in them.
fn power_others<P: Shapes>(
    devices: &mut [ScheduledDevice],
    manager: &Manager,
    t: u64,
    node: u8,
    on: bool,
    shapes: &mut P,
) -> Result<(), AllocError>
    requires { t < END }
    ensures ran { OnOk result (GoesBy (after_event t (Power node on) (devices.old, manager.now))
        (devices.new, manager.now) P.seen P.asks shapes.old shapes.new) }
    ensures lasts { Lasts (P.seen shapes.old) (P.seen shapes.new) }
{
    if manager.number() == node {
        return Ok(());
    }
    power_each(devices, t, node, on, shapes)
}

/// An event happens at the moment t.
#[tactic(auto, using(crate::proofs::EventLemmas::happens_laws))]
fn happen<P: Shapes>(
    devices: &mut [ScheduledDevice],
    manager: &mut Manager,
    t: u64,
    step: &Step,
    shapes: &mut P,
) -> Result<(), AllocError>
    requires soon { t < END }
    requires free { IsFree step.now }
    ensures devices { OnOk result (devices.new
        ≡ (outcome (after_event t step.now (devices.old, manager.old)) (P.seen shapes.old).image).0) }
    ensures manager { OnOk result (manager.new
        ≡ (outcome (after_event t step.now (devices.old, manager.old)) (P.seen shapes.old).image).1) }
    ensures asked { OnOk result (IsAsked (after_event t step.now (devices.old, manager.old))
        (P.seen shapes.old) (P.seen shapes.new) (P.asks shapes.old) (P.asks shapes.new)) }
    ensures lasts { Lasts (P.seen shapes.old) (P.seen shapes.new) }
{
    match step {
        Step::Set {
            node,
            index,
            sub,
            bytes,
        } => set_each(devices, t, *node, (*index, *sub), bytes),
        Step::Power { node, on } => power_others(devices, manager, t, *node, *on, shapes),
        Step::Nmt { node, command } => manager.command(*command, *node),
    }
}

/// Runs events at the moment t, one after another. Takes time by their number times that of the devices.
pub fn run_events<P: Shapes>(
    devices: &mut [ScheduledDevice],
    manager: &mut Manager,
    t: u64,
    steps: &[TimedStep],
    shapes: &mut P,
) -> Result<(), AllocError>
    requires soon { t < END }
    requires free { AreFree steps.now }
    ensures devices { OnOk result (devices.new
        ≡ (outcome (after_events_at t steps.now (devices.old, manager.old)) (P.seen shapes.old).image).0) }
    ensures manager { OnOk result (manager.new
        ≡ (outcome (after_events_at t steps.now (devices.old, manager.old)) (P.seen shapes.old).image).1) }
    ensures asked { OnOk result (IsAsked (after_events_at t steps.now (devices.old, manager.old))
        (P.seen shapes.old) (P.seen shapes.new) (P.asks shapes.old) (P.asks shapes.new)) }
    ensures lasts { Lasts (P.seen shapes.old) (P.seen shapes.new) }
{
    for step in steps {
        happen(devices, manager, t, &step.step, shapes)?;
    }
    Ok(())
}
