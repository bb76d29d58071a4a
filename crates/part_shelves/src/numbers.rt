//! Which numbers are those of nodes.
ghost use Rattle.std.specs.Prelude.{◌≡◌, ◌==◌, ◌||◌, ℕ};
ghost use Rattle.std.specs.FinMap.{contains_key};
ghost use Rattle.kept_values.specs.Shelved.{is_flagged};

use co_project::Project;

/// Sets the flag of a number.
fn take(flags: &mut [bool; 256], number: u8)
    ensures { (q : ℕ) → is_flagged flags.new q ≡ (is_flagged flags.old q || number == q) }
{
    flags[usize::from(number)] = true;
}

/// A flag for each number, set where a project has a node of that number. Takes time by the number of nodes, and
/// no memory.
pub fn node_flags(project: &Project) -> [bool; 256]
    ensures { (q : ℕ) → is_flagged result q ≡ contains_key project.now.nodes q }
{
    let mut flags = [false; 256];
    for (number, _node) in project.nodes() {
        take(&mut flags, *number);
    }
    flags
}
