//! The windows of a bus, and their events.

ghost use Rattle.std.specs.Prelude.{◌≡◌, ◌<◌, OnOk};
ghost use Rattle.image_parts.specs.Record.{GoesBy, Lasts};
ghost use Rattle.can_bus.specs.Bus.{after_events, after_window_start};

use crate::bus_state::BusState;
use crate::parts::Parts;
use crate::steps_left::StepsLeft;
use bus_devices::{Devices, run_events};
use image_parts::{END, WINDOW};
use std::alloc::AllocError;
use std::mem::replace;

/// Asks for the events of the window that starts at the moment t, if one does.
#[tactic(auto, using(crate::proofs::WindowLemmas::free_window, crate::proofs::WindowLemmas::window_in_order), unfolding(crate::specs::Bus::after_window_start))]
pub(crate) fn begin_window<P: Parts>(
    bus: &mut BusState,
    t: u64,
    parts: &mut P,
) -> Result<(), AllocError>
    requires { t < END }
    ensures ran { OnOk result (GoesBy (after_window_start t bus.old) bus.new P.seen P.asks parts.old parts.new) }
    ensures lasts { Lasts (P.seen parts.old) (P.seen parts.new) }
{
    if t != bus.window {
        return Ok(());
    }
    let window = parts.events((t / WINDOW) as u32)?;
    bus.steps = StepsLeft::of_window(window);
    bus.window = t + WINDOW;
    Ok(())
}

/// Runs the events of the moment t, and forgets them.
#[tactic(auto, using(crate::proofs::WindowLemmas::events_laws))]
pub(crate) fn run_due<P: Parts>(bus: &mut BusState, t: u64, parts: &mut P) -> Result<(), AllocError>
    requires { t < END }
    ensures ran { OnOk result (GoesBy (after_events t bus.old) bus.new P.seen P.asks parts.old parts.new) }
    ensures lasts { Lasts (P.seen parts.old) (P.seen parts.new) }
{
    let steps = bus.steps.due(t);
    if steps.is_empty() {
        return Ok(());
    }
    let mut devices = replace(&mut bus.devices, Devices::none(bus.alloc)).into_vec();
    run_events(devices.as_mut_slice(), &mut bus.manager, t, steps, parts)?;
    bus.devices = Devices::of(bus.alloc, devices);
    bus.steps.forget(t);
    Ok(())
}
