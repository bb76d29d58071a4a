//! What the writes of a node are built from.

use crate::device_writes::DeviceWrites;
use base::Shared;
use eds_device::DataSheet;
use kept_values::Makes;
use node_parameters::Params;
use pdo_plan::Plan;

/// The plan, and the parameters, the device and the number of a node.
#[derive(Drop)]
pub struct WritesFrom {
    /// Whether the rules are those of version 3.
    pub is_three: bool,
    /// The plan of messages.
    pub plan: Shared<Plan>,
    /// The parameters of the node.
    pub params: Params,
    /// Its device.
    pub device: Shared<DataSheet>,
    /// Its number.
    pub node: u8,
}

impl Makes<DeviceWrites> for WritesFrom {
    ghost use Rattle.project_parts.specs.Made.{written_made};

    ghost made = { written_made };
}
