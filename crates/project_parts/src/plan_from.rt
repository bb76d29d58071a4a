//! What the plan of messages is built from.

use crate::node_devices::NodeDevices;
use base::Shared;
use kept_values::Makes;
use pdo_plan::Plan;
use project_messages::Messages;

/// The version's rules, the controller, the nodes with their devices, and the messages.
#[derive(Drop)]
pub struct PlanFrom {
    /// Whether the rules are those of version 3.
    pub is_three: bool,
    /// The node that the manager runs in, if it runs in one.
    pub controller: Option<u8>,
    /// The nodes that have one with their devices, by number.
    pub devices: NodeDevices,
    /// The messages.
    pub messages: Messages,
}

impl Makes<Shared<Plan>> for PlanFrom {
    ghost use Rattle.project_parts.specs.Made.{plan_made};

    ghost made = { plan_made };
}
