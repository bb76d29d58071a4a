//! What the events of a scenario do.
ghost use Rattle.std.specs.Prelude.{◌≡◌, ◌+◌, ◌*◌, IfOk, filter_map};
ghost use Rattle.co_scenario.specs.Scenario.{events_between};
ghost use Rattle.project_plan.specs.Events.{shape_of_node, step_of};
ghost use Rattle.network_image.specs.Devices.{HoldsDevices};
ghost use Rattle.network_image.specs.Image.{window_steps};
ghost use Rattle.network_image.specs.Steps.{timed_step_of};

use crate::devices_now::DevicesNow;
use base::Shared;
use co_project::Project;
use co_scenario::{Event, Script, Step, TimedStep};
use part_shelves::DeviceShelf;
use std::alloc::{AllocError, Global};

/// What an event does: none where it sets no value.
fn step_of(alloc: Global, nodes: &DevicesNow<'_>, event: &Event) -> Result<Option<Step>, AllocError>
    ensures { IfOk result (λ step. step ≡ step_of (shape_of_node nodes.now.project.now) event.now) }
{
    match event {
        Event::Set {
            node,
            index,
            sub,
            text,
        } => {
            let bytes = nodes.bytes_set(alloc, *node, *index, *sub, text.as_slice())?;
            let Some(bytes) = bytes else {
                return Ok(None);
            };
            let bytes = Shared::new(alloc, bytes)?;
            Ok(Some(Step::Set {
                node: *node,
                index: *index,
                sub: *sub,
                bytes,
            }))
        }
        Event::Power { node, on } => Ok(Some(Step::Power {
            node: *node,
            on: *on,
        })),
        Event::Nmt { node, command } => Ok(Some(Step::Nmt {
            node: *node,
            command: *command,
        })),
    }
}

/// What the event of a time and a number does.
#[tactic(auto, unfolding(crate::specs::Steps::timed_step_of))]
fn timed_step_of(
    alloc: Global,
    nodes: &DevicesNow<'_>,
    script: &Script,
    moment: (u32, u16),
) -> Result<Option<TimedStep>, AllocError>
    ensures { IfOk result (λ step. step ≡ timed_step_of (shape_of_node nodes.now.project.now) script.now moment) }
{
    let (time, number) = moment;
    let Some(timed) = script.get(number) else {
        return Ok(None);
    };
    match step_of(alloc, nodes, &timed.event)? {
        Some(step) => Ok(Some(TimedStep { number, time, step })),
        None => Ok(None),
    }
}

/// What the events of these times and numbers do.
fn steps_of(
    alloc: Global,
    nodes: &DevicesNow<'_>,
    script: &Script,
    moments: &[(u32, u16)],
) -> Result<Vec<TimedStep>, AllocError>
    ensures { IfOk result (λ steps. steps.items
        ≡ filter_map (timed_step_of (shape_of_node nodes.now.project.now) script.now) moments.now) }
{
    let mut steps = Vec::with_capacity(alloc, moments.len())?;
    for moment in moments {
        if let Some(step) = timed_step_of(alloc, nodes, script, *moment)? {
            steps.push(step)?;
        }
    }
    Ok(steps)
}

/// The steps of window i of a project, 0 to 1000, of whose events these are the times and numbers: by the
/// devices of its nodes as they are now. Takes time by the number of these events, and for each by its text
/// and the logarithms of the numbers of events and entries.
pub fn window_steps(
    alloc: Global,
    devices: &DeviceShelf,
    project: &Project,
    i: u16,
    moments: &[(u32, u16)],
) -> Result<Vec<TimedStep>, AllocError>
    requires devices { HoldsDevices project.now devices.now }
    requires moments { moments.now ≡ events_between (10000 * i) (10000 * i + 9999) project.now.events }
    ensures { IfOk result (λ steps. steps.items ≡ window_steps project.now i) }
{
    let _ = i;
    let nodes = DevicesNow { devices, project };
    let steps = steps_of(alloc, &nodes, project.events(), moments)?;
    Ok(steps)
}
