//! Laws of the script of a project.
ghost use Rattle.std.specs.Prelude.{◌≡◌, All, Ok};
ghost use Rattle.project_edits.specs.Edits.{IsEdit};
ghost use Rattle.co_project.specs.Project.{Content, first, accept_all};
ghost use Rattle.co_project.specs.Sound.{IsSound};
ghost use Rattle.project_script.specs.Script.{edits};

/// The edits of a project's script keep to what every edit does.
pub fn script_has_edits()
    ensures { (p : Content) → IsSound p → All IsEdit (edits p) }
{}

/// The first project takes all edits of a project's script, and they make the equal project.
pub fn script_makes_the_project_again()
    ensures { (p : Content) → IsSound p → accept_all (Ok first) (edits p) ≡ Ok p }
{}
