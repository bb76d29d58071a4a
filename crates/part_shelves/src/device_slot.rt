//! A device that is kept.

use crate::eds_text::EdsText;
use base::Shared;
use eds_device::DataSheet;
use kept_values::Kept;

/// A device with what it was read from, and whether that is known to be what it is to be read from now.
#[derive(Drop)]
pub struct DeviceSlot {
    pub kept: Kept<EdsText, Shared<DataSheet>>,
    pub fresh: bool,
}
