//! The emergency objects of a device.

ghost use Rattle.std.specs.Prelude.{◌≡◌, ◌++◌, replicate, OnOk};
ghost use Rattle.can_frame.specs.WaitingFrames.{waiting as to_wait};
ghost use Rattle.device_objects.specs.Profile.{emergency_frame as frame_of_emergency, error_register as register_of};
ghost use Rattle.co_device.specs.Device.{with_emergencies, with_emergency};

use crate::device::Device;
use can_frame::{Frame, Pending, Purpose};
use cia301::NmtState;
use device_objects::{emergency_frame, error_register};
use std::alloc::AllocError;

/// So many equal emergency objects wait.
fn add_emergencies(waiting: &mut Pending, count: usize, frame: Frame) -> Result<(), AllocError>
    ensures { OnOk result (waiting.new ≡ waiting.old ++ replicate count (to_wait Purpose.Emergency frame)) }
{
    for _added in 0..count {
        waiting.add(Purpose::Emergency, frame)?;
    }
    Ok(())
}

impl Device {
    /// The emergency object of an error code, with the error register as it stands.
    fn emergency(&self, code: u16) -> Frame
        ensures { result ≡ frame_of_emergency self.now.number code (register_of self.now.learnt self.now.values) }
    {
        emergency_frame(self.number, code, error_register(self.learnt, &self.values))
    }

    /// Lets the emergency object of an error code wait; in Stopped none.
    #[tactic(auto, unfolding(crate::specs::Device::with_emergency))]
    pub(crate) fn tell(&mut self, code: u16) -> Result<(), AllocError>
        ensures { OnOk result (self.new ≡ with_emergency code self.old) }
    {
        if self.is_in(NmtState::Stopped) {
            return Ok(());
        }
        let frame = self.emergency(code);
        self.waiting.add(Purpose::Emergency, frame)
    }

    /// Lets so many emergency objects of an error code wait; in Stopped none.
    pub(crate) fn tell_often(&mut self, count: usize, code: u16) -> Result<(), AllocError>
        ensures { OnOk result (self.new ≡ with_emergencies count code self.old) }
    {
        if !self.is_in(NmtState::Stopped) {
            let frame = self.emergency(code);
            add_emergencies(&mut self.waiting, count, frame)?;
        }
        Ok(())
    }
}
