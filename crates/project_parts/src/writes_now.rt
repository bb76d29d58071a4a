//! The inputs of a node's writes as they lie in a project.
ghost use Rattle.std.specs.Prelude.{◌≡◌, false};
ghost use Rattle.pdo_plan.specs.Plan.{IsMadeFor};

use crate::device_writes::DeviceWrites;
use crate::writes_from::WritesFrom;
use base::Shared;
use co_project::Project;
use eds_device::DataSheet;
use kept_values::Offers;
use node_parameters::Params;
use pdo_plan::Plan;
use project_plan::NodeWrites;
use std::alloc::{AllocError, Global};

/// The version's rules, the plan, and the parameters, the device and the number of a node. In versions 1 and 2 the plan
/// is made for that device as this node.
#[derive(Drop)]
pub struct WritesNow<'a> {
    pub is_three: bool,
    pub plan: Shared<Plan>,
    pub params: &'a Params,
    pub device: Shared<DataSheet>,
    pub node: u8,
    ghost made_for: { is_three ≡ false → IsMadeFor plan device node },
}

impl<'a> WritesNow<'a> {
    ghost use Rattle.std.specs.Prelude.{◌≡◌, option_map, option_and_then};
    ghost use Rattle.co_project.specs.Tables.{node_at};
    ghost use Rattle.project_parts.specs.Given.{plan_from, writes_from};
    ghost use Rattle.project_plan.specs.Network.{device_at};
    ghost use Rattle.project_parts.specs.Made.{plan_made};
    ghost use Rattle.project_parts.specs.Offered.{offered_writes};

    /// What the writes of a node are built from now, if it is there with its device.
    pub fn of(
        project: &'a Project,
        node: u8,
        plan: Shared<Plan>,
        device: Option<Shared<DataSheet>>,
    ) -> Option<WritesNow<'a>>
        requires plan { plan ≡ plan_made (plan_from project.now) }
        requires device { device
            ≡ option_and_then (λ n. device_at project.now n.eds) (node_at project.now.nodes node) }
        ensures { option_map offered_writes result ≡ writes_from project.now node }
    {
        let known = project.node(node)?;
        let device = device?;
        Some(WritesNow {
            is_three: project.version().is_three(),
            plan,
            params: &known.params,
            device,
            node,
        })
    }
}

impl<'a> Offers<WritesFrom, DeviceWrites> for WritesNow<'a> {
    ghost use Rattle.std.specs.Prelude.{◌≡◌, ◌↔◌, IfOk, IsTrue};
    ghost use Rattle.project_parts.specs.Offered.{offered_writes};

    ghost offered = { offered_writes };

    fn same(&self, kept: &WritesFrom) -> bool {
        kept.is_three == self.is_three
            && kept.node == self.node
            && kept.params.same(self.params)
            && kept.plan.get().same(self.plan.get())
            && kept.device.get().same(self.device.get())
    }

    fn copy(&self, _alloc: Global) -> Result<WritesFrom, AllocError> {
        let plan = self.plan.share()?;
        let params = self.params.copy()?;
        let device = self.device.share()?;
        Ok(WritesFrom {
            is_three: self.is_three,
            plan,
            params,
            device,
            node: self.node,
        })
    }

    #[tactic(auto, unfolding(crate::specs::Made::writes_made, crate::specs::Written::AreValuesOf))]
    fn make(&self, alloc: Global) -> Result<DeviceWrites, AllocError> {
        let writes = pdo_links::writes(
            alloc,
            self.is_three,
            self.plan.get(),
            self.params,
            self.device.get(),
            self.node,
        )?;
        let device = self.device.share()?;
        let writes = Shared::new(alloc, NodeWrites::new(writes))?;
        Ok(DeviceWrites::new(device, writes))
    }
}
