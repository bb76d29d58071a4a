//! The plan of messages, what it gives each node, and what is wrong with a project: `pdo_links`, `co_diag`.

ghost use Rattle.std.specs.Prelude.{◌≡◌};
ghost use Rattle.project_plan.specs.Network.{plan_of_project};

use co_diag::{Diag, diagnostics};
use co_project::{Messages, Params, Project};
use concise_dcf::Write;
use eds_dcf::Device;
use pdo_links::{Plan, PlannedMessage, plan, writes};
use std::alloc::{AllocError, Global};

/// The plan of messages, over the devices of their nodes, of version 3 or of those before, and the node that the
/// manager runs in.
pub fn planned(
    alloc: Global,
    is_three: bool,
    controller: Option<u8>,
    nodes: &[(u8, &Device)],
    messages: &Messages,
) -> Result<Plan, AllocError> {
    plan(alloc, is_three, controller, nodes, messages)
}

/// Each message with its identifier and PDOs, or with its faults.
pub fn messages(plan: &Plan) -> &[PlannedMessage] {
    plan.messages()
}

/// The writes of a node.
pub fn written(
    alloc: Global,
    is_three: bool,
    plan: &Plan,
    params: &Params,
    device: &Device,
    node: u8,
) -> Result<Vec<Write>, AllocError> {
    writes(alloc, is_three, plan, params, device, node)
}

/// All that is wrong with a project.
pub fn wrong(alloc: Global, project: &Project, plan: &Plan) -> Result<Vec<Diag>, AllocError>
    requires { plan.now ≡ plan_of_project project.now }
{
    diagnostics(alloc, project, plan)
}

/// The line of a diagnostic.
pub fn line(alloc: Global, diag: &Diag) -> Result<Vec<u8>, AllocError> {
    diag.line(alloc)
}
