//! The synchronous counter overflow values of nodes that aren't the network's, put at the end of what was
//! found.
ghost use Rattle.std.specs.Prelude.{◌≡◌, ◌++◌, OnOk, filter_map};
ghost use Rattle.co_diag.specs.Found.{counter_diagnostic};

use co_project::Project;
use diag_lines::{Code, Diag, Subject};
use std::alloc::AllocError;

/// What is said of the synchronous counter overflow value of a node.
fn counter_said(project: &Project, counter: &(u8, u8)) -> Option<Diag>
    ensures { result ≡ counter_diagnostic project.now.sync_counter counter.now }
{
    if counter.1 == project.sync_counter() {
        return None;
    }
    Some(Diag {
        code: Code::OtherCounter,
        subject: Subject::Node(counter.0, None),
    })
}

/// Finds the nodes with another synchronous counter overflow value than the network's, by those that
/// have one. Takes time by their number.
pub(crate) fn find_other_counters(
    found: &mut Vec<Diag>,
    project: &Project,
    counters: &[(u8, u8)],
) -> Result<(), AllocError>
    ensures { OnOk result (found.new.items ≡ found.old.items
        ++ filter_map (counter_diagnostic project.now.sync_counter) counters.now) }
{
    for counter in counters {
        if let Some(diag) = counter_said(project, counter) {
            found.push(diag)?;
        }
    }
    Ok(())
}
