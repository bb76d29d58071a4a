//! What a line asks without changing the project.
ghost use Rattle.std.specs.Prelude.{◌≡◌};
ghost use Rattle.base.specs.Gives.{Gives};
ghost use Rattle.project_edits.specs.Faults.{is_memory};
ghost use Rattle.script_commands.specs.Requests.{query_of};

use crate::edits::id;
use base::is_blank_line;
use project_edits::EditFault;

/// What a line asks without changing the project.
#[derive(Clone, Copy, Debug)]
pub enum Query {
    /// The DCF (CiA 306) of a node.
    Dcf(u8),
    /// The concise DCF (CiA 302) of a node.
    Cdcf(u8),
    /// All that is wrong with the project.
    Diag,
    /// The trace of the simulated network.
    Trace,
    /// The commands that make the project.
    Project,
}

impl Query {
    /// `dcf ID`, `cdcf ID`, `diag`, `trace` or `project`
    #[tactic(auto, unfolding(crate::specs::Requests::query_of))]
    pub(crate) fn read(first: &[u8], rest: &[u8]) -> Result<Query, EditFault>
        ensures { Gives is_memory (λ q. q) result (query_of first.now rest.now) }
    {
        if first == b"dcf".as_slice() {
            Ok(Query::Dcf(id(rest)?))
        } else if first == b"cdcf".as_slice() {
            Ok(Query::Cdcf(id(rest)?))
        } else if first == b"diag".as_slice() && is_blank_line(rest) {
            Ok(Query::Diag)
        } else if first == b"trace".as_slice() && is_blank_line(rest) {
            Ok(Query::Trace)
        } else if first == b"project".as_slice() && is_blank_line(rest) {
            Ok(Query::Project)
        } else {
            Err(EditFault::Syntax)
        }
    }
}
