//! The answers to queries.
ghost use Rattle.std.specs.Prelude.{◌≡◌, IsErrOf, OnOk};
ghost use Rattle.base.specs.Gives.{Gives};
ghost use Rattle.project_edits.specs.Faults.{is_memory};
ghost use Rattle.workbench.specs.Bench.{AnswerTakes};
ghost use Rattle.workbench.specs.Queries.{answer};
ghost use Rattle.workbench.specs.Texts.{text_of};

use crate::answers::Answer;
use crate::workbench::Workbench;
use base::ListedText;
use co_project::EditFault;
use script_commands::Query;
use std::alloc::Global;

/// The answer to a query, of the project as it is now.
///
/// A file and diagnostics are shared with what is kept: where no edit came since, they take no memory, and
/// no time by their lines. The text of a trace is put together of those that are kept with its windows, that of a
/// script is made anew; each is copied once.
pub fn answer(alloc: Global, workbench: &mut Workbench, query: Query) -> Result<Answer, EditFault>
    ensures answer { Gives is_memory text_of result (answer workbench.old.project query) }
    ensures takes { OnOk result (AnswerTakes query workbench.old workbench.new) }

    // Where there is no such node, nothing is looked at.
    ensures unlooked { IsErrOf result EditFault.Unknown → workbench.new ≡ workbench.old }
    ensures same { workbench.new.project ≡ workbench.old.project }
{
    match query {
        Query::Dcf(id) => {
            let file = workbench.listed_dcf(id)?;
            Ok(Answer::File(file))
        }
        Query::Cdcf(id) => {
            let file = workbench.listed_concise(id)?;
            Ok(Answer::Concise(file))
        }
        Query::Diag => {
            let found = workbench.diagnostics()?;
            Ok(Answer::Diagnostics(found))
        }
        Query::Trace => {
            let lines = workbench.trace_text()?;
            Ok(Answer::Made(lines))
        }
        Query::Project => {
            let text = workbench.script()?;
            let lines = ListedText::new(alloc, &text)?;
            Ok(Answer::Made(lines))
        }
    }
}
