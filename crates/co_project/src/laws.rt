//! Laws of the project.
ghost use Rattle.std.specs.Prelude.{◌≡◌, Ok};
ghost use Rattle.project_edits.specs.declared.edit.Edit.{Edit};
ghost use Rattle.project_edits.specs.Edits.{IsEdit};
ghost use Rattle.co_project.specs.Project.{Content, first, accept};
ghost use Rattle.co_project.specs.Sound.{IsSound};

/// The first project keeps to what every project does.
#[tactic(auto, using(crate::proofs::KeepsSound::first_sound))]
pub fn first_is_sound()
    ensures { IsSound first }
{}

/// An edit that is taken leaves a project that keeps to it.
pub fn edits_keep_projects_sound()
    ensures { (p q : Content) (edit : Edit) → IsSound p → IsEdit edit → accept p edit ≡ Ok q → IsSound q }
{}
