//! The heartbeats that a device consumes.

ghost use Rattle.std.specs.Prelude.{◌≡◌, ◌<◌, OnOk};
ghost use Rattle.co_device.specs.Device.{after_error_control};

use crate::device::Device;
use device_objects::{any_failed, hear};
use image_parts::END;
use std::alloc::AllocError;

/// The error code that there is no error any more (CiA 301).
const NO_ERROR: u16 = 0x0000;

impl Device {
    /// Takes an error control frame of another node.
    #[tactic(auto, unfolding(crate::specs::Device::after_error_control, device_objects::specs::Consumers::is_last_failure_over))]
    pub(crate) fn take_error_control(&mut self, t: u64, producer: u8) -> Result<(), AllocError>
        requires { t < END }
        ensures { OnOk result (self.new ≡ after_error_control t producer self.old) }
    {
        let had_failed = any_failed(&self.consumers);
        hear(&mut self.consumers, t, producer);
        if had_failed && !any_failed(&self.consumers) {
            self.clear_error_if(true)?;
            return self.tell(NO_ERROR);
        }
        Ok(())
    }
}
