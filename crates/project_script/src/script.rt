//! The script of a project.
ghost use Rattle.std.specs.Prelude.{◌≡◌, ◌++◌, IfOk, OnOk, map};
ghost use Rattle.std.specs.FinMap.{entries};
ghost use Rattle.std.specs.List.{flat_map};
ghost use Rattle.project_edits.specs.Lines.{text_of};
ghost use Rattle.project_messages.specs.Messages.{IsLinked};
ghost use Rattle.co_project.specs.Sound.{IsSound};
ghost use Rattle.project_script.specs.Script.{counter_edits, event_edit, message_edits, need_edits, node_edits};
ghost use Rattle.project_script.specs.Script.{param_edit, param_edits, receive_edit, script, settings, sink_edit, source_edit};
ghost use Rattle.project_script.specs.Script.{stamps_edits, start_edits, text_edit, version_edits};

use co_project::{Node, Params, Project};
use co_scenario::Script;
use project_edits::{
    ScriptVersion, TimeStamps, write_bitrate, write_eds, write_event, write_horizon, write_manager,
    write_message, write_need, write_node, write_param, write_receive, write_sink, write_source,
    write_start, write_sync_counter, write_time_stamps, write_version,
};
use project_messages::{Linked, Messages, Receives, Sinks, Sources};
use std::alloc::{AllocError, Global};

/// Writes the command of the version, where it isn't that of the first project.
fn write_version_set(
    out: &mut Vec<u8>,
    alloc: Global,
    version: ScriptVersion,
) -> Result<(), AllocError>
    ensures { OnOk result (out.new.items ≡ out.old.items ++ flat_map text_of (version_edits version)) }
{
    match version {
        ScriptVersion::One => Ok(()),
        ScriptVersion::Two | ScriptVersion::Three => write_version(out, alloc, version),
    }
}

/// Writes the command of the time stamps, where there are some.
fn write_stamps_set(
    out: &mut Vec<u8>,
    alloc: Global,
    stamps: Option<TimeStamps>,
) -> Result<(), AllocError>
    ensures { OnOk result (out.new.items ≡ out.old.items ++ flat_map text_of (stamps_edits stamps)) }
{
    match stamps {
        None => Ok(()),
        Some(stamps) => write_time_stamps(out, alloc, stamps),
    }
}

/// Writes the command of the SYNC counter, where there is one.
fn write_counter_set(out: &mut Vec<u8>, alloc: Global, last: u8) -> Result<(), AllocError>
    ensures { OnOk result (out.new.items ≡ out.old.items ++ flat_map text_of (counter_edits last)) }
{
    if last == 0 {
        return Ok(());
    }
    write_sync_counter(out, alloc, last)
}

/// Writes the commands that make the settings: the version, the bit rate, the horizon, the manager with its
/// time stamps, and the SYNC counter.
#[tactic(auto, using(crate::proofs::LineLemmas::settings_parts))]
fn write_settings(out: &mut Vec<u8>, alloc: Global, project: &Project) -> Result<(), AllocError>
    ensures { OnOk result (out.new.items ≡ out.old.items ++ flat_map text_of (settings project.now)) }
{
    write_version_set(out, alloc, project.version())?;
    write_bitrate(out, alloc, project.bitrate())?;
    write_horizon(out, alloc, project.horizon())?;
    write_manager(out, alloc, project.manager())?;
    write_stamps_set(out, alloc, project.time_stamps())?;
    write_counter_set(out, alloc, project.sync_counter())
}

/// Writes the commands that make the texts, by name.
fn write_texts(out: &mut Vec<u8>, alloc: Global, project: &Project) -> Result<(), AllocError>
    ensures { OnOk result (out.new.items
        ≡ out.old.items ++ flat_map text_of (map text_edit (entries project.now.texts))) }
{
    for (name, text) in project.texts() {
        write_eds(out, alloc, name, text.get().as_slice())?;
    }
    Ok(())
}

/// Writes the command that makes a node mandatory, where it is.
fn write_need_set(
    out: &mut Vec<u8>,
    alloc: Global,
    id: u8,
    mandatory: bool,
) -> Result<(), AllocError>
    ensures { OnOk result (out.new.items ≡ out.old.items ++ flat_map text_of (need_edits id mandatory)) }
{
    if !mandatory {
        return Ok(());
    }
    write_need(out, alloc, id, true)
}

/// Writes the commands that make a node without parameters.
fn write_member(out: &mut Vec<u8>, alloc: Global, id: u8, node: &Node) -> Result<(), AllocError>
    ensures { OnOk result (out.new.items ≡ out.old.items ++ flat_map text_of (node_edits (id, node.now))) }
{
    write_node(out, alloc, id, node.name.as_slice(), node.eds.as_slice())?;
    write_need_set(out, alloc, id, node.mandatory)
}

/// Writes the commands that make the nodes without parameters, by number.
fn write_nodes(out: &mut Vec<u8>, alloc: Global, project: &Project) -> Result<(), AllocError>
    ensures { OnOk result (out.new.items
        ≡ out.old.items ++ flat_map text_of (flat_map node_edits (entries project.now.nodes))) }
{
    for (id, node) in project.nodes() {
        write_member(out, alloc, *id, node)?;
    }
    Ok(())
}

/// Writes the commands that make the parameters of a node, by entry.
fn write_params(out: &mut Vec<u8>, alloc: Global, id: u8, params: &Params) -> Result<(), AllocError>
    ensures { OnOk result (out.new.items ≡ out.old.items
        ++ flat_map text_of (map (param_edit id) (entries params.now))) }
{
    for ((index, sub), text) in params.iter() {
        write_param(out, alloc, id, *index, *sub, text.as_slice())?;
    }
    Ok(())
}

/// Writes the commands that make the parameters of all nodes, by number and entry.
fn write_all_params(out: &mut Vec<u8>, alloc: Global, project: &Project) -> Result<(), AllocError>
    ensures { OnOk result (out.new.items ≡ out.old.items
        ++ flat_map text_of (flat_map param_edits (entries project.now.nodes))) }
{
    for (id, node) in project.nodes() {
        write_params(out, alloc, *id, &node.params)?;
    }
    Ok(())
}

/// Writes the command of a SYNC start value, where a message has one.
fn write_start_set(
    out: &mut Vec<u8>,
    alloc: Global,
    name: &[u8],
    start: u8,
) -> Result<(), AllocError>
    ensures { OnOk result (out.new.items ≡ out.old.items ++ flat_map text_of (start_edits name.now start)) }
{
    if start == 0 {
        return Ok(());
    }
    write_start(out, alloc, name, start)
}

/// Writes the commands that make the sources of a message, by position.
fn write_sources(
    out: &mut Vec<u8>,
    alloc: Global,
    name: &[u8],
    sources: &Sources,
) -> Result<(), AllocError>
    ensures { OnOk result (out.new.items ≡ out.old.items ++ flat_map text_of (map (source_edit name.now) sources.now)) }
{
    for (position, (index, sub)) in sources.iter() {
        write_source(out, alloc, name, *position, *index, *sub)?;
    }
    Ok(())
}

/// Writes the commands that make the sinks of a message, by position and node.
fn write_sinks(
    out: &mut Vec<u8>,
    alloc: Global,
    name: &[u8],
    sinks: &Sinks,
) -> Result<(), AllocError>
    ensures { OnOk result (out.new.items ≡ out.old.items ++ flat_map text_of (map (sink_edit name.now) sinks.now)) }
{
    for ((position, node), (index, sub)) in sinks.iter() {
        write_sink(out, alloc, name, *position, *node, *index, *sub)?;
    }
    Ok(())
}

/// Writes the commands that make the receives of a message, by node.
fn write_receives(
    out: &mut Vec<u8>,
    alloc: Global,
    name: &[u8],
    receives: &Receives,
) -> Result<(), AllocError>
    ensures { OnOk result (out.new.items
        ≡ out.old.items ++ flat_map text_of (map (receive_edit name.now) receives.now)) }
{
    for (node, receive) in receives.iter() {
        write_receive(out, alloc, name, *node, *receive)?;
    }
    Ok(())
}

/// Writes the commands that make a message with its SYNC start value, its sources, its sinks and its
/// receives.
#[tactic(auto, using(crate::proofs::LineLemmas::linked_parts), unfolding(project_messages::specs::Messages::IsLinked, project_messages::specs::Messages::IsMessage))]
fn write_linked(
    out: &mut Vec<u8>,
    alloc: Global,
    name: &[u8],
    linked: &Linked,
) -> Result<(), AllocError>
    requires { IsLinked linked.now }
    ensures { OnOk result (out.new.items ≡ out.old.items ++ flat_map text_of (message_edits (name.now, linked.now))) }
{
    write_message(out, alloc, name, &linked.message)?;
    write_start_set(out, alloc, name, linked.start)?;
    write_sources(out, alloc, name, &linked.sources)?;
    write_sinks(out, alloc, name, &linked.sinks)?;
    write_receives(out, alloc, name, &linked.receives)
}

/// Writes the commands that make the messages, by name.
fn write_messages(out: &mut Vec<u8>, alloc: Global, messages: &Messages) -> Result<(), AllocError>
    ensures { OnOk result (out.new.items ≡ out.old.items
        ++ flat_map text_of (flat_map message_edits (entries messages.now))) }
{
    for (name, linked) in messages.iter() {
        write_linked(out, alloc, name, linked)?;
    }
    Ok(())
}

/// Writes the commands that make the events, by number.
fn write_events(out: &mut Vec<u8>, alloc: Global, events: &Script) -> Result<(), AllocError>
    ensures { OnOk result (out.new.items ≡ out.old.items ++ flat_map text_of (map event_edit (entries events.now))) }
{
    for (number, event) in events.iter() {
        write_event(out, alloc, *number, event)?;
    }
    Ok(())
}

/// The commands that make a project of the first one, as text: its settings, the EDS by name with
/// their lines, the nodes by number, their parameters by entry, the messages by name, each with its
/// SYNC start value, its sources, its sinks and its receives, and the events by number. Takes time and
/// memory by the length of the text.
#[tactic(auto, using(crate::proofs::LineLemmas::script_parts))]
pub fn script_text(alloc: Global, project: &Project) -> Result<Vec<u8>, AllocError>
    ensures text { IfOk result (λ text. text.items ≡ script project.now) }
    ensures sound { IsSound project.now }
{
    project.keeps_to_rules();
    let mut out = Vec::new(alloc);
    write_settings(&mut out, alloc, project)?;
    write_texts(&mut out, alloc, project)?;
    write_nodes(&mut out, alloc, project)?;
    write_all_params(&mut out, alloc, project)?;
    write_messages(&mut out, alloc, project.messages())?;
    write_events(&mut out, alloc, project.events())?;
    Ok(out)
}
