//! The devices of now, in which events set values.
ghost use Rattle.std.specs.Prelude.{◌≡◌, IfOk};
ghost use Rattle.project_plan.specs.Events.{bytes_set, shape_of_node};
ghost use Rattle.network_image.specs.Devices.{HoldsDevices};

use crate::controller::is_producer_time;
use base::Octets;
use co_project::Project;
use node_parameters::judge_set;
use part_shelves::DeviceShelf;
use std::alloc::{AllocError, Global};

/// A project, and the devices of its nodes as they are now.
#[derive(Drop)]
pub(crate) struct DevicesNow<'a> {
    pub devices: &'a DeviceShelf,
    pub project: &'a Project,
    pub ghost holds: { HoldsDevices project.now devices.now },
}

impl<'a> DevicesNow<'a> {
    /// The value that an event sets by its text: none where the entry isn't there, as the producer heartbeat time of the
    /// device that the manager runs in, or the text spells no value of its type. Want of memory is the only error.
    pub fn bytes_set(
        &self,
        alloc: Global,
        node: u8,
        index: u16,
        sub: u8,
        text: &[u8],
    ) -> Result<Option<Octets>, AllocError>
        ensures { IfOk result (λ bytes. bytes
            ≡ bytes_set (shape_of_node self.now.project.now) node index sub text.now) }
    {
        let Some(known) = self.project.node(node) else {
            return Ok(None);
        };
        let Some(device) = self.devices.value(known.eds.as_slice()) else {
            return Ok(None);
        };
        if self.project.is_controller(node) && is_producer_time(index, sub) {
            return Ok(None);
        }
        let given = judge_set(alloc, device.get(), node, index, sub, text)?;
        match given {
            Ok(bytes) => Ok(Some(bytes)),
            Err(_fault) => Ok(None),
        }
    }
}
