//! The roster of a project.
ghost use Rattle.std.specs.Prelude.{◌≡◌, ◌↔◌, IfOk, IsTrue};
ghost use Rattle.std.specs.FinMap as map;
ghost use Rattle.network_image.specs.Image.{mandatory_of, roster_of_project, slot_rule, start_mode_of};

use base::Octets;
use can_frame::SlotRule;
use co_project::{Project, ScriptVersion, TimeStamps};
use image_parts::{Roster, StartMode};
use std::alloc::{AllocError, Global};

/// The numbers of a project's nodes, in rising order.
fn node_numbers(alloc: Global, project: &Project) -> Result<Octets, AllocError>
    ensures { IfOk result (λ numbers. numbers ≡ map.keys project.now.nodes) }
{
    let mut numbers = Vec::new(alloc);
    for (id, _node) in project.nodes() {
        numbers.push(*id)?;
    }
    Ok(Octets::from_vec(numbers))
}

/// The numbers of a project's mandatory nodes, in rising order, but for the one that the manager runs in.
fn mandatory_numbers(alloc: Global, project: &Project) -> Result<Octets, AllocError>
    ensures { IfOk result (λ numbers. numbers ≡ mandatory_of project.now) }
{
    let mut numbers = Vec::new(alloc);
    for (id, node) in project.nodes() {
        if node.mandatory && !project.is_controller(*id) {
            numbers.push(*id)?;
        }
    }
    Ok(Octets::from_vec(numbers))
}

/// When the nodes of a network are started, by the version of its script.
fn start_mode(version: ScriptVersion) -> StartMode
    ensures { result ≡ start_mode_of version }
{
    match version {
        ScriptVersion::One => StartMode::EachNode,
        ScriptVersion::Two => StartMode::WholeNetwork,
        ScriptVersion::Three => StartMode::ConfiguredNodes,
    }
}

/// Which bits of a frame take the bus, by the version of a script.
fn slot_rule(version: ScriptVersion) -> SlotRule
    ensures { result ≡ slot_rule version }
{
    match version {
        ScriptVersion::One | ScriptVersion::Two => SlotRule::Unstuffed,
        ScriptVersion::Three => SlotRule::Stuffed,
    }
}

/// The roster of a project. Takes time by the number of nodes. Want of memory is the only error.
#[tactic(auto, unfolding(crate::specs::Image::roster_of_project))]
pub fn make_roster(alloc: Global, project: &Project) -> Result<Roster, AllocError>
    ensures { IfOk result (λ roster. roster ≡ roster_of_project project.now) }
{
    let manager = project.manager();
    let mandatory = mandatory_numbers(alloc, project)?;
    let nodes = node_numbers(alloc, project)?;
    Ok(Roster {
        bit_rate: project.bitrate(),
        slots: slot_rule(project.version()),
        manager: manager.id,
        sync_us: manager.sync_us,
        sync_counter: project.sync_counter(),
        time_us: TimeStamps::period_of(project.time_stamps()),
        first_day: TimeStamps::first_day_of(project.time_stamps()),
        heartbeat_ms: manager.heartbeat_ms,
        timeout_ms: manager.timeout_ms,
        start_mode: start_mode(project.version()),
        mandatory,
        nodes,
    })
}

/// Whether these are the numbers of a project's nodes, in rising order.
fn are_numbers(numbers: &[u8], project: &Project) -> bool
    ensures { IsTrue result ↔ (numbers.now ≡ map.keys project.now.nodes) }
{
    let mut rest = numbers;
    for (id, _node) in project.nodes() {
        let Some((first, after)) = rest.split_first() else {
            return false;
        };
        if first != id {
            return false;
        }
        rest = after;
    }
    rest.is_empty()
}

/// Whether these are the numbers of a project's mandatory nodes, in rising order, but for the one that the manager runs
/// in.
fn are_mandatory(numbers: &[u8], project: &Project) -> bool
    ensures { IsTrue result ↔ (numbers.now ≡ mandatory_of project.now) }
{
    let mut rest = numbers;
    for (id, node) in project.nodes() {
        if !node.mandatory || project.is_controller(*id) {
            continue;
        }
        let Some((first, after)) = rest.split_first() else {
            return false;
        };
        if first != id {
            return false;
        }
        rest = after;
    }
    rest.is_empty()
}

/// Whether this is the roster of a project. Takes time by the number of nodes, and no memory.
#[tactic(auto, unfolding(crate::specs::Image::roster_of_project))]
pub fn is_roster(roster: &Roster, project: &Project) -> bool
    ensures { IsTrue result ↔ (roster.now ≡ roster_of_project project.now) }
{
    let manager = project.manager();
    roster.bit_rate == project.bitrate()
        && roster.slots == slot_rule(project.version())
        && roster.manager == manager.id
        && roster.sync_us == manager.sync_us
        && roster.sync_counter == project.sync_counter()
        && roster.time_us == TimeStamps::period_of(project.time_stamps())
        && roster.first_day == TimeStamps::first_day_of(project.time_stamps())
        && roster.heartbeat_ms == manager.heartbeat_ms
        && roster.timeout_ms == manager.timeout_ms
        && roster.start_mode == start_mode(project.version())
        && are_mandatory(roster.mandatory.as_slice(), project)
        && are_numbers(roster.nodes.as_slice(), project)
}
