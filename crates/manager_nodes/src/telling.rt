//! What a rule of a boot queues at the manager, and notes.

ghost use Rattle.std.specs.Prelude.{◌≡◌, ◌++◌, OnOk};
ghost use Rattle.image_parts.specs.Record.{BeginsWith};
ghost use Rattle.manager_nodes.specs.Table.{notes_of, sdo_frames};

use can_frame::{Frame, Pending, Purpose, identifiers};
use node_boot::{Note, NoteKind, Notes};
use std::alloc::AllocError;

/// Queues an SDO frame to a node, if there is one.
pub fn send_request(
    waiting: &mut Pending,
    node: u8,
    request: Option<[u8; 8]>,
) -> Result<(), AllocError>
    ensures { OnOk result (waiting.new ≡ waiting.old ++ sdo_frames node request) }
{
    if let Some(bytes) = request {
        let frame = Frame::of(identifiers::sdo_request(node), &bytes);
        waiting.add(Purpose::Sdo(node), frame)?;
    }
    Ok(())
}

/// Notes what there is to note of a node, if there is one.
pub fn note(notes: &mut Notes, node: u8, note: Option<NoteKind>) -> Result<(), AllocError>
    ensures notes { OnOk result (notes.new ≡ notes.old ++ notes_of node note) }
    ensures notes_before { BeginsWith notes.new notes.old }
{
    if let Some(kind) = note {
        notes.add(Note { node, kind })?;
    }
    Ok(())
}
