//! The frame that starts at an idle wire.

ghost use Rattle.std.specs.Prelude.{◌≡◌, Some, IfOk, OnOk};
ghost use Rattle.bus_devices.specs.Senders.{sender_place as place_of_sender};
ghost use Rattle.can_bus.specs.Bus.{devices_without_winner, winning_frame, manager_without_winner};
ghost use Rattle.can_bus.specs.Bus.{winner as winner_among};

use bus_devices::Devices;
use can_frame::{Contender, Frame};
use nmt_boot::Manager;
use std::alloc::AllocError;

/// The least frame that waits, at a device or at the manager.
pub(crate) fn winner(devices: &Devices, manager: &Manager) -> Option<Contender>
    ensures { result ≡ winner_among devices.now manager.now }
{
    Contender::lower(devices.contender(), manager.contender())
}

/// Takes the frame that wins from its list.
pub(crate) fn send(
    contender: &Contender,
    devices: &mut Devices,
    manager: &mut Manager,
) -> Result<Frame, AllocError>
    requires { winner_among devices.old manager.old ≡ Some contender.now }
    ensures frame { IfOk result (λ frame. frame
        ≡ winning_frame contender.now (place_of_sender contender.now devices.old) devices.old manager.old) }
    ensures devices { OnOk result (devices.new
        ≡ devices_without_winner contender.now (place_of_sender contender.now devices.old) devices.old) }
    ensures manager { OnOk result (manager.new
        ≡ manager_without_winner contender.now (place_of_sender contender.now devices.old) manager.old) }
{
    match devices.sender_place(contender) {
        Some(i) => {
            let sent = devices.send(i, contender.place)?;
            Ok(sent.frame)
        }
        None => Ok(manager.send(contender.place).frame),
    }
}
