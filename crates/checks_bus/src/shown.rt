//! How frames, states and notes are shown.

use crate::one_node::OneNode;
use crate::taken::{take_of_device, take_of_manager};
use anyhow::Result;
use can_frame::{Frame, Purpose, Waiting};
use co_device::Device;
use co_dict::Dict;
use nmt_boot::Manager;
use node_boot::{Note, NoteKind};
use std::alloc::AllocError;
use std::io::Write;

/// The word for what a frame is for.
fn purpose_word(purpose: Purpose) -> &'static str {
    match purpose {
        Purpose::BootUp => "boot-up",
        Purpose::Heartbeat => "heartbeat",
        Purpose::Tpdo(_) => "tpdo",
        Purpose::Sdo(_) => "sdo",
        Purpose::Emergency => "emergency",
        Purpose::Sync => "sync",
        Purpose::Time => "time",
        Purpose::Nmt => "nmt",
    }
}

/// Shows bytes, two digits each.
fn show_bytes<W: Write>(out: &mut W, bytes: &[u8]) -> Result<()> {
    for byte in bytes {
        write!(out, " {byte:02X}")?;
    }
    Ok(())
}

/// Shows the value of an entry, if one is named and has one.
pub fn show_value<W: Write>(out: &mut W, values: &Dict, place: Option<(u16, u8)>) -> Result<()> {
    let Some((index, sub)) = place else {
        return Ok(());
    };
    match values.read(index, sub) {
        Some(bytes) => show_bytes(out, bytes),
        None => Ok(out.write_all(b" none")?),
    }
}

/// Shows what a frame is for: of a TPDO with its number.
fn show_purpose<W: Write>(out: &mut W, purpose: Purpose) -> Result<()> {
    let word = purpose_word(purpose);
    write!(out, " | {word}")?;
    if let Purpose::Tpdo(number) = purpose {
        write!(out, " {number}")?;
    }
    Ok(())
}

/// Shows what a frame is for, and the frame.
pub fn show_frame<W: Write>(out: &mut W, waiting: &Waiting) -> Result<()> {
    show_purpose(out, waiting.purpose)?;
    let id = waiting.frame.id();
    write!(out, " {id:03X}")?;
    show_bytes(out, waiting.frame.bytes())
}

/// Takes the frames of a device, in order of place, and shows them.
pub fn show_left<W: Write>(out: &mut W, device: &mut Device) -> Result<()> {
    for _ in 0..100 {
        if let Some(waiting) = take_of_device(device, false) {
            show_frame(out, &waiting)?;
        }
    }
    Ok(())
}

/// Shows a moment, if there is one.
fn show_due<W: Write>(out: &mut W, due: Option<u64>) -> Result<()> {
    match due {
        Some(t) => write!(out, " due {t}")?,
        None => write!(out, " due never")?,
    }
    Ok(())
}

/// The word for what a step changed.
fn change(same: bool, spent: bool) -> &'static str {
    match (same, spent) {
        (_, true) => "spent",
        (true, false) => "same",
        (false, false) => "new",
    }
}

/// The frame of an NMT service for all nodes.
fn frame_of(service: u8) -> Option<Frame> {
    Frame::new(0, &[service, 0])
}

/// A device takes an NMT service for all nodes.
fn order(device: &mut Device, service: u8, node: &mut OneNode) -> Result<(), AllocError> {
    match frame_of(service) {
        Some(frame) => device.on_frame(0, &frame, node),
        None => Ok(()),
    }
}

/// Whether an NMT service for all nodes changes nothing of a device.
fn obeys_unchanged(device: &Device, service: u8, node: &mut OneNode) -> Result<bool> {
    let mut other = device.copy()?;
    order(&mut other, service, node)?;
    Ok(other.same(device))
}

/// The byte of a device's state: that whose NMT service changes nothing. 0 where it has no power.
fn state_byte(device: &Device, node: &mut OneNode) -> Result<u8> {
    let starts = obeys_unchanged(device, 1, node)?;
    let stops = obeys_unchanged(device, 2, node)?;
    let enters = obeys_unchanged(device, 128, node)?;
    Ok(match (starts, stops, enters) {
        (true, true, true) => 0,
        (true, false, false) => 5,
        (false, true, false) => 4,
        (false, false, true) => 127,
        _ => 255,
    })
}

/// Shows a device, and whether it is the same as before.
pub fn show_device<W: Write>(
    out: &mut W,
    device: &Device,
    before: &Device,
    node: &mut OneNode,
) -> Result<()> {
    let byte = state_byte(device, node)?;
    let same = change(device.same(before), device.spent());
    write!(out, "  {same} {byte}")?;
    show_due(out, device.next_due())?;
    let mut left = device.copy()?;
    show_left(out, &mut left)?;
    writeln!(out, "")?;
    Ok(())
}

/// Shows a manager, and whether it is the same as before.
pub fn show_manager<W: Write>(out: &mut W, manager: &Manager, before: &Manager) -> Result<()> {
    let same = change(manager.same(before), manager.spent());
    write!(out, "  {same}")?;
    show_due(out, manager.next_due())?;
    let mut left = manager.copy()?;
    for _ in 0..100 {
        if let Some(waiting) = take_of_manager(&mut left, false) {
            show_frame(out, &waiting)?;
        }
    }
    writeln!(out, "")?;
    Ok(())
}

/// Shows a note.
fn show_note<W: Write>(out: &mut W, note: &Note) -> Result<()> {
    let node = note.node;
    match note.kind {
        NoteKind::Lost => writeln!(out, "  note {node} lost")?,
        NoteKind::Configured => writeln!(out, "  note {node} configured")?,
        NoteKind::Difference => writeln!(out, "  note {node} failed difference")?,
        NoteKind::Aborted(abort) => writeln!(out, "  note {node} failed {:08X}", abort.code())?,
        NoteKind::TimedOut => writeln!(out, "  note {node} failed timeout")?,
    }
    Ok(())
}

/// Shows notes in their order, a line each.
pub fn show_notes<W: Write>(out: &mut W, notes: &[Note]) -> Result<()> {
    for note in notes {
        show_note(out, note)?;
    }
    Ok(())
}
