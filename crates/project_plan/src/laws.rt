//! Laws of a project's plan.
ghost use Rattle.std.specs.Prelude.{◌≡◌, ℕ, false, Some};
ghost use Rattle.project_edits.specs.Versions.{is_three};
ghost use Rattle.co_project.specs.Project.{Content};
ghost use Rattle.pdo_plan.specs.Plan.{IsMadeFor};
ghost use Rattle.project_plan.specs.Network.{member_at, plan_of_project, Member};

/// In versions 1 and 2 each PDO that the plan gives a node is one that the device of its EDS has.
pub fn plans_are_made_for_their_nodes()
    ensures { (project : Content) (id : ℕ) (m : Member) → is_three project.version ≡ false
        → member_at project id ≡ Some m → IsMadeFor (plan_of_project project) m.sheet id }
{}
