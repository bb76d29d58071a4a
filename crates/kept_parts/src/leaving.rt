//! What a project doesn't have any more is let go.
ghost use Rattle.std.specs.Prelude.{◌≡◌, ◌&&◌, not};
ghost use Rattle.project_parts.specs.Gone.{drops};
ghost use Rattle.kept_parts.specs.Kept.{kept_inputs, IsOf};
ghost use Rattle.kept_parts.specs.Left.{left_of, IsSwept};

use crate::kept_parts::KeptParts;
use co_project::Project;
use part_shelves::node_flags;
use project_edits::Edit;
use project_parts::Part;

/// Whether it is known still after an edit that nothing is held of what the project doesn't have: not where an
/// EDS or a node is dropped.
pub(crate) fn stays_swept(swept: bool, edit: &Edit) -> bool
    ensures { result ≡ (swept && not (drops edit.now)) }
{
    match edit {
        Edit::DropEds { .. } => false,
        Edit::DropNode { .. } => false,
        _ => swept,
    }
}

impl KeptParts {
    /// Lets go what is kept of names of EDS and of numbers of nodes that a project doesn't have, where that isn't
    /// known to be done. Takes time by the number of nodes and of what is kept, with the logarithm of the number of
    /// texts, and else constant time; no memory.
    pub(crate) fn let_go(&mut self, project: &Project)
        requires is_of { IsOf project.now self.old }
        requires swept { IsSwept project.now self.old }
        ensures is_of { IsOf project.now self.new }
        ensures left { (q : Part) → kept_inputs self.new q ≡ left_of project.now self.old q }
    {
        if self.swept {
            return;
        }
        let nodes = node_flags(project);
        self.devices.let_go(project);
        self.writes.keep_flagged(&nodes);
        self.concise.keep_flagged(&nodes);
        self.dcf.keep_flagged(&nodes);
        self.nodes.keep_flagged(&nodes);
    }
}
