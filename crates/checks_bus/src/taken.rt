//! Frames that are taken from a list of waiting ones.

use can_frame::Waiting;
use co_device::Device;
use nmt_boot::Manager;

/// Takes the first frame in order of place, or the one that wins.
pub fn take_of_device(device: &mut Device, wins: bool) -> Option<Waiting> {
    let contender = device.contender()?;
    let place = if wins { contender.place } else { 0 };
    Some(device.send(place))
}

/// Takes the first frame in order of place, or the one that wins.
pub fn take_of_manager(manager: &mut Manager, wins: bool) -> Option<Waiting> {
    let contender = manager.contender()?;
    let place = if wins { contender.place } else { 0 };
    Some(manager.send(place))
}
