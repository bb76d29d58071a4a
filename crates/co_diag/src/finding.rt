//! All that is wrong with a project.
ghost use Rattle.std.specs.Prelude.{◌≡◌, ◌++◌, IfOk, OnOk};
ghost use Rattle.project_plan.specs.Network.{plan_of_project};
ghost use Rattle.diag_nodes.specs.Devices.{AreAllRead};
ghost use Rattle.diag_nodes.specs.Found.{consumers, counters, identifiers, times};
ghost use Rattle.co_diag.specs.Found.{diagnostics_of, other_counters, other_heartbeats};
ghost use Rattle.co_diag.specs.Found.{shared_identifiers, unfit_consumers};
ghost use Rattle.co_diag.specs.Sheets.{diagnostics_met};

use crate::consumers::find_unfit_consumers;
use crate::counters::find_other_counters;
use crate::events::{find_idle_events, find_unfit_events};
use crate::found_before::FoundBefore;
use crate::heartbeats::find_other_heartbeats;
use crate::messages::{find_message_faults, find_warnings};
use crate::shared::find_shared;
use crate::texts::find_skipped_lines;
use crate::vendor::find_in_version_3;
use co_project::Project;
use diag_lines::{Diag, sort_once};
use diag_nodes::{Kept, add_copies, gather_nodes, read_all};
use pdo_plan::Plan;
use project_plan::Library;
use std::alloc::{AllocError, Global};

/// Finds what is wrong with the nodes once they are configured, by what is kept of them then.
fn find_of_configured(
    found: &mut Vec<Diag>,
    project: &Project,
    kept: &Kept,
) -> Result<(), AllocError>
    requires identifiers { kept.now.identifiers.items ≡ identifiers project.now }
    requires consumers { kept.now.consumers.items ≡ consumers project.now }
    requires times { kept.now.times.items ≡ times project.now }
    requires counters { kept.now.counters.items ≡ counters project.now }
    ensures { OnOk result (found.new.items ≡ found.old.items ++ unfit_consumers project.now
        ++ shared_identifiers project.now ++ other_counters project.now ++ other_heartbeats project.now) }
{
    find_unfit_consumers(found, project, &kept.times, &kept.consumers)?;
    find_shared(found, &kept.identifiers)?;
    find_other_counters(found, project, &kept.counters)?;
    find_other_heartbeats(found, project, &kept.times)?;
    Ok(())
}

/// Finds all that is wrong.
#[tactic(auto, unfolding(crate::specs::Sheets::diagnostics_met))]
fn find_all(
    alloc: Global,
    library: &Library<'_>,
    plan: &Plan,
    before: &mut FoundBefore,
) -> Result<Vec<Diag>, AllocError>
    requires read { AreAllRead library.now }
    requires plan { plan.now ≡ plan_of_project library.now.project }
    ensures { IfOk result (λ list. list.items ≡ diagnostics_met library.now.project) }
{
    let mut list = Vec::new(alloc);
    let gathered = gather_nodes(&mut list, alloc, library, plan, &mut before.nodes)?;
    add_copies(&mut list, alloc, &gathered.defaults)?;
    find_of_configured(&mut list, library.project(), &gathered.kept)?;
    find_message_faults(&mut list, alloc, plan)?;
    find_warnings(&mut list, alloc, library.project())?;
    find_unfit_events(&mut list, alloc, library)?;
    find_idle_events(&mut list, library.project())?;
    find_skipped_lines(&mut list, alloc, library, &mut before.lines)?;
    find_in_version_3(&mut list, alloc, library, plan)?;
    Ok(list)
}

/// The diagnostics of a library's project, by the plan of its messages: all that is wrong with it, each
/// once, in order. What is found of nodes by themselves, and the lines that aren't used of texts that no node has, are held
/// for the next time.
///
/// Reads each text of a node that the library hasn't read, and each other text that isn't the same as before. Else takes
/// time by the length of each text, once, the number of the texts' warnings, the entries and parameters of each node
/// that isn't the same, with the same device, as when it was last found, the parameters of each other, the entries of
/// each node that sends a message, the messages for each node, the events, and the diagnostics with their logarithm; in
/// version 3 also for each node the consumers of the messages and 512 PDOs of each kind, each with the logarithm of the
/// node's entries, and for each receive the sinks of its message. Takes memory by the number of diagnostics, the devices
/// of the nodes' texts and of one more with the entries that these give a parameter or a doubtful default, the parameters
/// of all nodes, and for each node the values that are wanted of it; in version 3 also by the writes of one node's PDOs.
/// Want of memory is the only error.
pub fn diagnostics_by(
    alloc: Global,
    library: &mut Library<'_>,
    plan: &Plan,
    before: &mut FoundBefore,
) -> Result<Vec<Diag>, AllocError>
    requires { plan.now ≡ plan_of_project library.old.project }
    ensures list { IfOk result (λ list. list.items ≡ diagnostics_of library.old.project) }
    ensures project { library.new.project ≡ library.old.project }
{
    read_all(library)?;
    let mut list = find_all(alloc, library, plan, before)?;
    sort_once(&mut list);
    Ok(list)
}

/// The diagnostics of a project, by the plan of its messages: all that is wrong with it, each once,
/// in order. Reads each text once; else as `diagnostics_by`.
pub fn diagnostics(alloc: Global, project: &Project, plan: &Plan) -> Result<Vec<Diag>, AllocError>
    requires { plan.now ≡ plan_of_project project.now }
    ensures { IfOk result (λ list. list.items ≡ diagnostics_of project.now) }
{
    let mut library = Library::new(alloc, project);
    let mut before = FoundBefore::new(alloc);
    diagnostics_by(alloc, &mut library, plan, &mut before)
}
