//! Laws of the nodes of a project, once they are configured.
#![tactic(auto)]

ghost use Rattle.std.specs.Prelude.{◌≡◌, ◌⊎◌, ℕ, true};
ghost use Rattle.cia301.specs.Limits.{is_pdo_number};
ghost use Rattle.project_edits.specs.Versions.{is_three};
ghost use Rattle.co_project.specs.Project.{Content};
ghost use Rattle.project_plan.specs.Network.{Member};
ghost use Rattle.project_plan.specs.Nodes.{IsSoundNode};
ghost use Rattle.co_diag.specs.Holds.{SendsUnplanned};
ghost use Rattle.configured_laws.specs.Sending.{SendsBy, is_on};

use project_plan::plan_laws::each_pdo_is_had_once;
use project_plan::write_laws::{
    the_writes_to_a_pdo_are_those_of_its_message,
    the_writes_to_pdos_are_those_of_the_nodes_messages,
};

/// In version 3 each TPDO that is on once its node is configured (CiA 301) is one by which the node sends a clean
/// message, or one that its diagnostics report as sent beside the plan: its vendor made it so that it can't be
/// switched off.
pub fn in_version_3_each_tpdo_that_is_on_is_of_a_message_or_reported()
    ensures { (project : Content) (id : ℕ) (m : Member) (number : ℕ) → is_three project.version ≡ true
        → IsSoundNode project id m → is_pdo_number number ≡ true → is_on project m id number ≡ true
        → SendsBy project id number ⊎ SendsUnplanned project id number }
{
    each_pdo_is_had_once();
    the_writes_to_a_pdo_are_those_of_its_message();
    the_writes_to_pdos_are_those_of_the_nodes_messages();
}
