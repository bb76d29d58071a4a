//! The inputs of the plan as they lie in a project.
ghost use Rattle.std.specs.Prelude.{◌≡◌, ◌↔◌, false, true, IfOk, IsTrue};
ghost use Rattle.project_parts.specs.Made.{plan_made};

use crate::node_devices::NodeDevices;
use crate::plan_from::PlanFrom;
use base::Shared;
use co_project::Project;
use kept_values::Offers;
use pdo_plan::Plan;
use project_messages::Messages;
use project_plan::Named;
use std::alloc::{AllocError, Global};

/// The plan of messages over the devices of the nodes, of which it looks at those that the messages name.
fn planned_of_named(
    alloc: Global,
    controller: Option<u8>,
    devices: &NodeDevices,
    messages: &Messages,
) -> Result<Plan, AllocError>
    ensures { IfOk result (λ plan. plan
        ≡ plan_made (record {
          is_three = false;
          controller = controller;
          devices = devices.now;
          messages = messages.now;
        })) }
{
    let named = Named::by(messages);
    let nodes = devices.references(alloc, &named)?;
    let plan = pdo_links::plan(alloc, false, controller, &nodes, messages)?;
    Ok(plan)
}

/// The same by the rules of version 3, where each device has PDOs that others keep clear of.
fn planned_as_made(
    alloc: Global,
    controller: Option<u8>,
    devices: &NodeDevices,
    messages: &Messages,
) -> Result<Plan, AllocError>
    ensures { IfOk result (λ plan. plan
        ≡ plan_made (record {
          is_three = true;
          controller = controller;
          devices = devices.now;
          messages = messages.now;
        })) }
{
    let nodes = devices.all_references(alloc)?;
    let plan = pdo_links::plan(alloc, true, controller, &nodes, messages)?;
    Ok(plan)
}

/// The version's rules, the node that the manager runs in, the nodes with their devices, and the messages.
#[derive(Drop)]
pub struct PlanNow<'a> {
    pub is_three: bool,
    pub controller: Option<u8>,
    pub devices: NodeDevices,
    pub messages: &'a Messages,
}

impl<'a> PlanNow<'a> {
    ghost use Rattle.std.specs.Prelude.{◌≡◌, filter_map};
    ghost use Rattle.std.specs.FinMap as finmap;
    ghost use Rattle.project_parts.specs.Given.{node_with_device, plan_from};
    ghost use Rattle.project_parts.specs.Offered.{offered_plan};

    /// What the plan of a project is built from now, by the devices of its nodes.
    pub fn of(project: &'a Project, devices: NodeDevices) -> PlanNow<'a>
        requires { devices ≡ filter_map (node_with_device project.now) (finmap.entries project.now.nodes) }
        ensures { offered_plan result ≡ plan_from project.now }
    {
        PlanNow {
            is_three: project.version().is_three(),
            controller: project.controller(),
            devices,
            messages: project.messages(),
        }
    }

    /// The plan of the messages.
    fn planned(&self, alloc: Global) -> Result<Plan, AllocError>
        ensures { IfOk result (λ plan. plan ≡ plan_made (offered_plan self.now)) }
    {
        if self.is_three {
            planned_as_made(alloc, self.controller, &self.devices, self.messages)
        } else {
            planned_of_named(alloc, self.controller, &self.devices, self.messages)
        }
    }
}

impl<'a> Offers<PlanFrom, Shared<Plan>> for PlanNow<'a> {
    ghost use Rattle.project_parts.specs.Offered.{offered_plan};

    ghost offered = { offered_plan };

    fn same(&self, kept: &PlanFrom) -> bool {
        kept.is_three == self.is_three
            && kept.controller == self.controller
            && kept.messages.same(self.messages)
            && kept.devices.same(&self.devices)
    }

    fn copy(&self, alloc: Global) -> Result<PlanFrom, AllocError> {
        let devices = self.devices.copy(alloc)?;
        let messages = self.messages.copy()?;
        Ok(PlanFrom {
            is_three: self.is_three,
            controller: self.controller,
            devices,
            messages,
        })
    }

    fn make(&self, alloc: Global) -> Result<Shared<Plan>, AllocError> {
        let plan = self.planned(alloc)?;
        Shared::new(alloc, plan)
    }
}
