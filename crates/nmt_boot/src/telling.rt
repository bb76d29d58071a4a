//! What a step of a boot queues at the manager, which nodes it starts, and what it notes.

ghost use Rattle.std.specs.Prelude.{◌≡◌, ◌++◌, ◌∷◌, [], OnOk};
ghost use Rattle.image_parts.specs.Record.{BeginsWith};
ghost use Rattle.manager_nodes.specs.Table.{notes_of, sdo_frames};
ghost use Rattle.can_frame.specs.WaitingFrames.{waiting as queued};
ghost use Rattle.can_frame.specs.declared.purpose.Purpose.TheVariants as purposes;
ghost use Rattle.nmt_boot.specs.Startup.{nmt_frame as frame_of_command, start_frames, startup_after};
ghost use Rattle.nmt_boot.specs.Startup.{frames_of_configured, network_start_frames, start_with_network as queued_with_network};
ghost use Rattle.nmt_boot.specs.Startup.{own_start, starts_with_network, startup_of_configured};

use crate::startup::Startup;
use can_frame::{Frame, Pending, Purpose, identifiers};
use co_scenario::NmtCommand;
use image_parts::StartMode;
use manager_nodes::{Booting, NodeTable, Sent, note, send_request};
use node_boot::{NoteKind, Notes};
use std::alloc::AllocError;

/// The frame of a command to a node, 0 for all nodes.
fn nmt_frame(command: NmtCommand, node: u8) -> Frame
    ensures { result ≡ frame_of_command command node }
{
    Frame::of(identifiers::nmt(), &[command.number(), node])
}

/// Queues a command to a node, 0 for all nodes.
pub(crate) fn send_command(
    waiting: &mut Pending,
    command: NmtCommand,
    node: u8,
) -> Result<(), AllocError>
    ensures { OnOk result (waiting.new ≡ waiting.old ++ queued purposes.Nmt (frame_of_command command node) ∷ []) }
{
    waiting.add(Purpose::Nmt, nmt_frame(command, node))
}

/// Queues the start of a node that is started with the network: where it is configured, or the manager's own.
fn start_with_network(waiting: &mut Pending, node: &Booting) -> Result<(), AllocError>
    ensures { OnOk result (waiting.new ≡ waiting.old ++ queued_with_network node.now) }
{
    if node.has_booted() || node.is_own() {
        send_command(waiting, NmtCommand::Start, node.number)?;
    }
    Ok(())
}

/// Queues the start of each node that is started with the network, by number.
fn start_each(waiting: &mut Pending, nodes: &[Booting]) -> Result<(), AllocError>
    ensures { OnOk result (waiting.new ≡ waiting.old ++ starts_with_network nodes.now) }
{
    for node in nodes {
        start_with_network(waiting, node)?;
    }
    Ok(())
}

/// Queues what starts the network.
fn start_network(
    waiting: &mut Pending,
    mode: StartMode,
    nodes: &NodeTable,
) -> Result<(), AllocError>
    ensures { OnOk result (waiting.new ≡ waiting.old ++ network_start_frames mode nodes.now) }
{
    match mode {
        StartMode::EachNode => Ok(()),
        StartMode::WholeNetwork => send_command(waiting, NmtCommand::Start, 0),
        StartMode::ConfiguredNodes => start_each(waiting, nodes.as_slice()),
    }
}

/// Queues what starts nodes where a node was configured: the start of that node, or of the network, or nothing.
#[tactic(auto, unfolding(crate::specs::Startup::frames_of_configured, crate::specs::Startup::startup_of_configured))]
fn start_configured(
    waiting: &mut Pending,
    startup: &mut Startup,
    nodes: &NodeTable,
    node: u8,
) -> Result<(), AllocError>
    ensures queued { OnOk result (waiting.new ≡ waiting.old ++ frames_of_configured startup.old nodes.now node) }
    ensures started { OnOk result (startup.new ≡ startup_of_configured startup.old nodes.now) }
{
    if startup.starts_each() {
        return send_command(waiting, NmtCommand::Start, node);
    }
    if startup.starts_network(nodes) {
        startup.start();
        return start_network(waiting, startup.mode(), nodes);
    }
    Ok(())
}

/// Queues what starts nodes, where a node was configured.
fn start(
    waiting: &mut Pending,
    startup: &mut Startup,
    nodes: &NodeTable,
    node: u8,
    note: Option<NoteKind>,
) -> Result<(), AllocError>
    ensures queued { OnOk result (waiting.new ≡ waiting.old ++ start_frames startup.old nodes.now node note) }
    ensures started { OnOk result (startup.new ≡ startup_after startup.old nodes.now note) }
{
    match note {
        Some(NoteKind::Configured) => start_configured(waiting, startup, nodes, node),
        _ => Ok(()),
    }
}

/// Queues the start of the manager's own node, where the network is started.
#[tactic(auto, unfolding(crate::specs::Startup::own_start))]
pub(crate) fn start_own(
    waiting: &mut Pending,
    startup: &Startup,
    node: u8,
) -> Result<(), AllocError>
    ensures { OnOk result (waiting.new ≡ waiting.old ++ own_start startup.now node) }
{
    if startup.is_started() {
        send_command(waiting, NmtCommand::Start, node)?;
    }
    Ok(())
}

/// Queues what a step of a boot queues, starts the nodes that are to be started then, and notes what it notes. The
/// table has the step's stage already.
pub(crate) fn tell(
    waiting: &mut Pending,
    startup: &mut Startup,
    nodes: &NodeTable,
    notes: &mut Notes,
    node: u8,
    sent: Sent,
) -> Result<(), AllocError>
    ensures queued { OnOk result (waiting.new ≡ (waiting.old ++ sdo_frames node sent.request)
        ++ start_frames startup.old nodes.now node sent.note) }
    ensures started { OnOk result (startup.new ≡ startup_after startup.old nodes.now sent.note) }
    ensures notes { OnOk result (notes.new ≡ notes.old ++ notes_of node sent.note) }
    ensures notes_before { BeginsWith notes.new notes.old }
{
    send_request(waiting, node, sent.request)?;
    start(waiting, startup, nodes, node, sent.note)?;
    note(notes, node, sent.note)
}
