//! Laws of the plan of a sound project.
ghost use Rattle.std.specs.Prelude.{◌≡◌, ◌==◌, ◌⊎◌, ℕ, List, Some, true, option_map};
ghost use Rattle.std.specs.FinMap as map;
ghost use Rattle.std.specs.Map.{lookup};
ghost use Rattle.project_edits.specs.Versions.{is_three};
ghost use Rattle.project_messages.specs.Messages.{is_of_messages};
ghost use Rattle.co_project.specs.Project.{Content, controller_of};
ghost use Rattle.co_project.specs.Sound.{IsSound};
ghost use Rattle.pdo_stations.specs.Devices.{devices_of};
ghost use Rattle.pdo_choices.specs.declared.clean.Clean.{Clean};
ghost use Rattle.pdo_choices.specs.declared.consumer.Consumer.{Consumer};
ghost use Rattle.pdo_plan.specs.Plan.{clean, plan_of};
ghost use Rattle.pdo_links.specs.Order.{IsSentAlone, IsTakenAlone};
ghost use Rattle.project_plan.specs.Network.{member_at, plan_of_project, Member};
ghost use Rattle.project_plan.specs.Nodes.{Sends, Takes};
ghost use Rattle.eds_device.specs.Sheets.{Sheet};

/// The plan of a project's messages over devices that are those of the EDS of its nodes, at each
/// number that a message names, and in version 3 at each number, is the plan of the project, by which its
/// diagnostics are found.
pub fn the_plan_over_the_nodes_devices_is_that_of_the_project()
    ensures { (project : Content) (nodes : List (ℕ × Sheet)) → IsSound project
        → ((id : ℕ) → (is_three project.version ≡ true) ⊎ (is_of_messages id project.messages ≡ true)
        → lookup (λ n. n == id) nodes ≡ option_map (λ (m : Member). m.sheet) (member_at project id))
        → plan_of (devices_of (is_three project.version) (controller_of project) nodes) (map.entries project.messages)
        ≡ plan_of_project project }
{}

/// Each PDO is had once: no other message of the plan is sent by the TPDO by which a node sends one,
/// none is taken by the RPDO by which it takes one, and it takes a message by one RPDO alone.
pub fn each_pdo_is_had_once()
    ensures sent { (project : Content) (id : ℕ) (c : Clean) → IsSound project → Sends project id c
        → IsSentAlone (clean (plan_of_project project)) id c }
    ensures taken { (project : Content) (id : ℕ) (c : Clean) (k : Consumer) → IsSound project → Takes project id c k
        → IsTakenAlone (clean (plan_of_project project)) id c k }
{}
