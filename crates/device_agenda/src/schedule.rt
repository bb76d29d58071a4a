//! What is kept of a device that runs only when it has to.

ghost use Rattle.std.specs.Prelude.{◌≡◌};

use crate::agenda::Agenda;
use crate::low_bytes::LowBytes;
use co_device::Device;
use std::alloc::AllocError;

/// A device, its agenda, and where it isn't awake the low bytes of the identifiers of the frames that are something
/// to it, and the identifier of its SYNC.
#[derive(Drop)]
pub(crate) struct Schedule {
    pub(crate) device: Device,
    pub(crate) agenda: Agenda,
    pub(crate) low_bytes: LowBytes,
    pub(crate) sync: u16,
}

impl Clone for Schedule {
    ghost is_clone = { λ a b. b ≡ a };

    #[inline(never)]
    fn clone(&self) -> Result<Schedule, AllocError> {
        let device = self.device.copy()?;
        Ok(Schedule {
            device,
            agenda: self.agenda,
            low_bytes: self.low_bytes,
            sync: self.sync,
        })
    }
}
