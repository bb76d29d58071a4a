//! The producer heartbeat time of the device that the manager runs in, where it isn't the manager's, put at the end of what
//! was found.
ghost use Rattle.std.specs.Prelude.{◌≡◌, ◌++◌, OnOk, filter_map};
ghost use Rattle.co_diag.specs.Found.{heartbeat_diagnostic};

use co_project::Project;
use diag_lines::{Code, Diag, Subject};
use std::alloc::AllocError;

/// What is said of the producer heartbeat time of a node.
fn heartbeat_said(project: &Project, time: &(u8, Option<u16>)) -> Option<Diag>
    ensures { result ≡ heartbeat_diagnostic project.now time.now }
{
    let milliseconds = time.1?;
    if !project.is_controller(time.0) || milliseconds == project.manager().heartbeat_ms {
        return None;
    }
    Some(Diag {
        code: Code::OtherHeartbeat,
        subject: Subject::Node(time.0, None),
    })
}

/// Finds the device that the manager runs in, where its producer heartbeat time isn't the manager's, by the times of all
/// nodes. Takes time by their number.
pub(crate) fn find_other_heartbeats(
    found: &mut Vec<Diag>,
    project: &Project,
    times: &[(u8, Option<u16>)],
) -> Result<(), AllocError>
    ensures { OnOk result (found.new.items ≡ found.old.items
        ++ filter_map (heartbeat_diagnostic project.now) times.now) }
{
    for time in times {
        if let Some(diag) = heartbeat_said(project, time) {
            found.push(diag)?;
        }
    }
    Ok(())
}
