//! What the parts of a node are built from.
ghost use Rattle.std.specs.Prelude.{◌≡◌, ◌↔◌, IfOk, IsTrue};

use crate::device_parts::DeviceParts;
use base::{Shared, share_of};
use concise_dcf::same_writes;
use eds_device::DataSheet;
use image_parts::Identity;
use kept_values::{Makes, Offers};
use network_image::{configured_values, shape_without_producer_time};
use project_plan::NodeWrites;
use std::alloc::{AllocError, Global};

/// The device and the number of a node, and its writes where the manager runs in it.
#[derive(Drop)]
pub struct DeviceAt {
    /// The device of the node.
    pub device: Shared<DataSheet>,
    /// Its number.
    pub node: u8,
    /// Its writes, which it holds by itself where the manager runs in it.
    pub own: Option<Shared<NodeWrites>>,
}

/// Whether both are the same writes, or none are there.
fn same_own(own: &Option<Shared<NodeWrites>>, other: &Option<Shared<NodeWrites>>) -> bool
    ensures { IsTrue result ↔ (own.now ≡ other.now) }
{
    match (own, other) {
        (None, None) => true,
        (Some(own), Some(other)) => same_writes(own.get().as_slice(), other.get().as_slice()),
        _ => false,
    }
}

impl DeviceAt {
    /// Whether both are the same device, number and writes. Takes time by the length of the device's text at most and
    /// by that of the writes, and no memory.
    pub fn is_same(&self, other: &DeviceAt) -> bool
        ensures { IsTrue result ↔ (self.now ≡ other.now) }
    {
        self.node == other.node
            && same_own(&self.own, &other.own)
            && self.device.get().same(other.device.get())
    }

    /// The same device, number and writes, shared. Takes constant time.
    pub fn share(&self) -> Result<DeviceAt, AllocError>
        ensures { IfOk result (λ d. d ≡ self.now) }
    {
        let device = self.device.share()?;
        let own = share_of(self.own.as_ref())?;
        Ok(DeviceAt {
            device,
            node: self.node,
            own,
        })
    }
}

impl Makes<DeviceParts> for DeviceAt {
    ghost use Rattle.project_parts.specs.Made.{device_parts};

    ghost made = { device_parts };
}

impl Offers<DeviceAt, DeviceParts> for DeviceAt {
    ghost offered = { λ d. d };

    fn same(&self, kept: &DeviceAt) -> bool {
        kept.is_same(self)
    }

    fn copy(&self, _alloc: Global) -> Result<DeviceAt, AllocError> {
        self.share()
    }

    #[tactic(auto, unfolding(crate::specs::Made::device_parts))]
    fn make(&self, alloc: Global) -> Result<DeviceParts, AllocError> {
        let device = self.device.get();
        let defaults = device.defaults(self.node)?;
        let shape = device.shared_shape(self.node)?;
        let numbers = device.identity(self.node);
        let expect = Identity { numbers };
        let Some(own) = &self.own else {
            return DeviceParts::new(alloc, defaults, shape, expect);
        };
        let defaults = configured_values(alloc, device, self.node, defaults, own.get().as_slice())?;
        let shape = shape_without_producer_time(alloc, device, self.node, shape)?;
        DeviceParts::new(alloc, defaults, shape, expect)
    }
}
