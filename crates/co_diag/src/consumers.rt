//! The heartbeat consumers that are unfit, put at the end of what was found.
ghost use Rattle.std.specs.Prelude.{◌≡◌, ◌++◌, ◌==◌, OnOk, filter_map, option_copied};
ghost use Rattle.std.specs.List.{find};
ghost use Rattle.co_diag.specs.Found.{consumer_diagnostic};
ghost use Rattle.diag_nodes.specs.Kept.{time_among};
ghost use Rattle.co_diag.specs.Rules.{is_unfit, time_by, time_heard};
ghost use Rattle.co_diag.specs.Times.{times_heard};
ghost use Rattle.co_project.specs.Project.{is_controller};

use cia301::ConsumerHeartbeatTime;
use co_project::Project;
use diag_lines::{Code, Diag, Subject};
use diag_nodes::HeartbeatConsumer;
use std::alloc::AllocError;

/// The node of a number and its time.
fn find_time(times: &[(u8, Option<u16>)], node: u8) -> Option<&(u8, Option<u16>)>
    ensures { option_copied result ≡ find (λ t. t.0 == node) times.now }
{
    times.iter().find(|time| time.0 == node)
}

/// The heartbeat time of the manager or a node in milliseconds, if it is there.
fn producer_time(project: &Project, times: &[(u8, Option<u16>)], node: u8) -> Option<u16>
    ensures { result ≡ time_by project.now.manager (time_among times.now) node }
{
    let manager = project.manager();
    if node == manager.id {
        return Some(manager.heartbeat_ms);
    }
    let time = find_time(times, node)?;
    Some(time.1.unwrap_or(0))
}

/// That time as a device hears it: nothing of itself, where the manager runs in it.
fn time_heard(project: &Project, times: &[(u8, Option<u16>)], device: u8, node: u8) -> Option<u16>
    ensures { result ≡ time_heard (is_controller project.now device) device
        (time_by project.now.manager (time_among times.now)) node }
{
    if project.is_controller(device) && node == device {
        return None;
    }
    producer_time(project, times, node)
}

/// Whether a heartbeat consumer of a device is on, and no such node is there, or its heartbeat doesn't come
/// within the time.
fn is_unfit(project: &Project, times: &[(u8, Option<u16>)], device: u8, consumer: u32) -> bool
    ensures { result ≡ is_unfit (time_heard (is_controller project.now device) device
        (time_by project.now.manager (time_among times.now))) consumer }
{
    let consumer = ConsumerHeartbeatTime::of(consumer);
    let (node, time) = (consumer.node(), consumer.time());
    if node == 0 || time == 0 {
        return false;
    }
    match time_heard(project, times, device, node) {
        Some(period) => period == 0 || time <= period,
        None => true,
    }
}

/// What is said of a heartbeat consumer.
fn unfit_said(
    project: &Project,
    times: &[(u8, Option<u16>)],
    consumer: &HeartbeatConsumer,
) -> Option<Diag>
    ensures { result ≡ consumer_diagnostic (times_heard project.now times.now) consumer.now }
{
    if !is_unfit(project, times, consumer.node, consumer.number) {
        return None;
    }
    Some(Diag {
        code: Code::UnfitConsumer,
        subject: Subject::Node(consumer.node, Some(consumer.sub)),
    })
}

/// Finds the heartbeat consumers that are unfit, by the times of the nodes. Takes time
/// by the number of consumers and that of nodes.
pub(crate) fn find_unfit_consumers(
    found: &mut Vec<Diag>,
    project: &Project,
    times: &[(u8, Option<u16>)],
    consumers: &[HeartbeatConsumer],
) -> Result<(), AllocError>
    ensures { OnOk result (found.new.items ≡ found.old.items
        ++ filter_map (consumer_diagnostic (times_heard project.now times.now)) consumers.now) }
{
    for consumer in consumers {
        if let Some(diag) = unfit_said(project, times, consumer) {
            found.push(diag)?;
        }
    }
    Ok(())
}
