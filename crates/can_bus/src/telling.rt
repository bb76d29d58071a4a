//! What an instant tells.

ghost use Rattle.std.specs.Prelude.{◌≡◌, ◌++◌, OnOk};
ghost use Rattle.image_parts.specs.Record.{BeginsWith};
ghost use Rattle.can_bus.specs.Bus.{frame_lines, note_lines};

use crate::line::Line;
use crate::lines::Lines;
use crate::slot::Slot;
use node_boot::Note;
use std::alloc::AllocError;

/// Tells of the frame of a slot that ends at a time.
fn tell_frame(lines: &mut Lines, time: u32, ended: &Option<Slot>) -> Result<(), AllocError>
    ensures told { OnOk result (lines.new ≡ lines.old ++ frame_lines time ended.now) }
    ensures lines_before { BeginsWith lines.new lines.old }
{
    match ended {
        None => Ok(()),
        Some(slot) => lines.add(Line::Frame {
            time,
            frame: slot.frame,
        }),
    }
}

/// Tells what the manager noted at a time.
fn tell_notes(lines: &mut Lines, time: u32, notes: &[Note]) -> Result<(), AllocError>
    ensures told { OnOk result (lines.new ≡ lines.old ++ note_lines time notes.now) }
    ensures lines_before { BeginsWith lines.new lines.old }
{
    for note in notes {
        lines.add(Line::Note { time, note: *note })?;
    }
    Ok(())
}

/// Tells of the frame of a slot that ends at a time, and then what the manager noted.
pub(crate) fn tell(
    lines: &mut Lines,
    time: u32,
    ended: &Option<Slot>,
    notes: &[Note],
) -> Result<(), AllocError>
    ensures told { OnOk result (lines.new ≡ lines.old ++ (frame_lines time ended.now ++ note_lines time notes.now)) }
    ensures lines_before { BeginsWith lines.new lines.old }
{
    tell_frame(lines, time, ended)?;
    tell_notes(lines, time, notes)
}
