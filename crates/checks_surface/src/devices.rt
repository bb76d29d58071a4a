//! A device and the manager at a moment: `co_device`, `nmt_boot`.

ghost use Rattle.std.specs.Prelude.{◌≡◌, ◌<◌, ◌≤◌, length, false};
ghost use Rattle.cia301.specs.PdoObjects.{is_of_pdos};
ghost use Rattle.co_values.specs.Values.{longest_value};

use base::{Octets, Shared};
use can_bus::{Boots, Shapes};
use can_frame::Frame;
use co_device::DeviceState;
use image_parts::END;
use nmt_boot::{Manager, Note, NoteKind, Notes};
use std::alloc::{AllocError, Global};

/// A device without power.
pub fn device(alloc: Global, number: u8) -> DeviceState {
    DeviceState::new(alloc, number)
}

/// A device is switched on or off.
pub fn power<P: Shapes>(
    device: &mut DeviceState,
    on: bool,
    t: u64,
    shapes: &mut P,
) -> Result<(), AllocError>
    requires { t < END }
{
    device.power(on, t, shapes)
}

/// A frame is delivered to a device.
pub fn on_frame<P: Shapes>(
    device: &mut DeviceState,
    t: u64,
    frame: &Frame,
    shapes: &mut P,
) -> Result<(), AllocError>
    requires { t < END }
{
    device.on_frame(t, frame, shapes)
}

/// The timers and TPDOs of a device at a moment.
pub fn on_instant(device: &mut DeviceState, t: u64) -> Result<(), AllocError>
    requires { t < END }
{
    device.on_instant(t)
}

/// The application of a device sets an entry.
pub fn set(
    device: &mut DeviceState,
    t: u64,
    index: u16,
    sub: u8,
    bytes: &Shared<Octets>,
) -> Result<(), AllocError>
    requires soon { t < END }
    requires own { is_of_pdos index ≡ false }
    requires short { length bytes.now ≤ longest_value }
{
    device.set(t, index, sub, bytes)
}

/// The next moment of a device.
pub fn next_due(device: &DeviceState) -> Option<u64> {
    device.next_due()
}

/// Whether memory ran out before.
pub fn spent(device: &DeviceState) -> bool {
    device.spent()
}

/// A manager of no network.
pub fn manager(alloc: Global) -> Manager {
    Manager::new(alloc)
}

/// A frame is delivered to the manager.
pub fn manager_on_frame<P: Boots>(
    manager: &mut Manager,
    t: u64,
    frame: &Frame,
    boots: &mut P,
    notes: &mut Notes,
) -> Result<(), AllocError>
    requires { t < END }
{
    manager.on_frame(t, frame, boots, notes)
}

/// The time-outs and periodic messages of the manager at a moment.
pub fn manager_on_instant(
    manager: &mut Manager,
    t: u64,
    notes: &mut Notes,
) -> Result<(), AllocError>
    requires { t < END }
{
    manager.on_instant(t, notes)
}

/// The next moment of the manager.
pub fn manager_next_due(manager: &Manager) -> Option<u64> {
    manager.next_due()
}

/// Whether memory ran out before.
pub fn spent_manager(manager: &Manager) -> bool {
    manager.spent()
}

/// The notes of an instant.
pub fn notes(notes: &Notes) -> &[Note] {
    notes.as_slice()
}

/// A note is a node and what is noted of it.
pub fn note(node: u8, kind: NoteKind) -> Note {
    Note { node, kind }
}
