//! Frames of which a device takes nothing.

ghost use Rattle.std.specs.Prelude.{◌≡◌};
ghost use Rattle.co_device.specs.Receiving.{is_ignored};
ghost use Rattle.device_objects.specs.Profile.{sync_identifier};

use can_frame::Frame;
use cia301::NmtState;
use co_device::Device;
use device_objects::{Reception, any_expects};
use device_pdos::any_has_identifier;

/// Whether a device with this identifier of SYNC takes nothing of a frame: none of its services expects it in
/// its NMT state. Takes time by its consumers or its RPDOs.
#[tactic(auto, unfolding(co_device::specs::Receiving::is_ignored, co_device::specs::Receiving::is_ignored_as))]
pub(crate) fn ignores(device: &Device, sync: u16, frame: &Frame) -> bool
    requires { sync ≡ sync_identifier device.now.learnt device.now.values }
    ensures { result ≡ is_ignored frame.now device.now }
{
    match device.reception(sync, frame) {
        Reception::Nothing => true,
        Reception::NmtService(_service) => false,
        Reception::Sync => !device.is_in(NmtState::Operational),
        Reception::SdoRequest => device.is_in(NmtState::Stopped),
        Reception::ErrorControl(producer) => !any_expects(device.consumers(), producer),
        Reception::Pdo => {
            !(device.is_in(NmtState::Operational) && any_has_identifier(device.rpdos(), frame.id()))
        }
    }
}
