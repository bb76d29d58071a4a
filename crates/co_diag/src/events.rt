//! What is wrong with the events of the scenario, put at the end of what was found.
ghost use Rattle.std.specs.Prelude.{◌≡◌, ◌++◌, OnOk, IfOk, filter_map};
ghost use Rattle.std.specs.FinMap as table;
ghost use Rattle.diag_nodes.specs.Devices.{AreAllRead};
ghost use Rattle.co_diag.specs.Found.{idle_event, set_fault, unfit_event};
ghost use Rattle.co_diag.specs.Holds.{is_idle as does_nothing};

use co_project::Project;
use co_scenario::Event;
use diag_lines::{Code, Diag, Subject};
use diag_nodes::{device_for, parameter_code};
use node_parameters::judge_set;
use project_plan::Library;
use std::alloc::{AllocError, Global};

/// What is said of an event by its number.
fn unfit_event(
    alloc: Global,
    library: &Library<'_>,
    number: u16,
    event: &Event,
) -> Result<Option<Diag>, AllocError>
    requires { AreAllRead library.now }
    ensures { IfOk result (λ diag. diag ≡ set_fault library.now.project number event.now) }
{
    let Event::Set {
        node,
        index,
        sub,
        text,
    } = event
    else {
        return Ok(None);
    };
    let Some(device) = device_for(library, *node) else {
        return Ok(None);
    };
    match judge_set(alloc, device, *node, *index, *sub, text.as_slice())? {
        Ok(_bytes) => Ok(None),
        Err(fault) => Ok(Some(Diag {
            code: parameter_code(fault),
            subject: Subject::Event(number),
        })),
    }
}

/// Finds the events that set what they can't.
pub(crate) fn find_unfit_events(
    found: &mut Vec<Diag>,
    alloc: Global,
    library: &Library<'_>,
) -> Result<(), AllocError>
    requires { AreAllRead library.now }
    ensures { OnOk result (found.new.items ≡ found.old.items ++ filter_map (unfit_event library.now.project)
        (table.entries library.now.project.events)) }
{
    for (number, timed) in library.project().events().iter() {
        if let Some(diag) = unfit_event(alloc, library, *number, &timed.event)? {
            found.push(diag)?;
        }
    }
    Ok(())
}

/// Whether an event does nothing: it switches the power of the device that the manager runs in, or sets its producer
/// heartbeat time.
fn is_idle(project: &Project, event: &Event) -> bool
    ensures { result ≡ does_nothing project.now event.now }
{
    match event {
        Event::Set {
            node,
            index,
            sub,
            ..
        } => project.is_controller(*node) && *index == 0x1017 && *sub == 0,
        Event::Power { node, .. } => project.is_controller(*node),
        Event::Nmt { .. } => false,
    }
}

/// Finds the events that do nothing.
pub(crate) fn find_idle_events(found: &mut Vec<Diag>, project: &Project) -> Result<(), AllocError>
    ensures { OnOk result (found.new.items ≡ found.old.items ++ filter_map (idle_event project.now)
        (table.entries project.now.events)) }
{
    for (number, timed) in project.events().iter() {
        if is_idle(project, &timed.event) {
            found.push(Diag {
                code: Code::IdleEvent,
                subject: Subject::Event(*number),
            })?;
        }
    }
    Ok(())
}
