//! The line of a note in a trace.

ghost use Rattle.std.specs.Prelude.{◌≡◌, ◌++◌, OnOk};
ghost use Rattle.can_bus.specs.Lines.{abort_digits, note_line as line_of_note, kind_text};

use base::index_digits;
use can_frame::write_time;
use co_dict::Abort;
use node_boot::{Note, NoteKind};
use std::alloc::{AllocError, Global};

/// Writes the line of a note at a time in microseconds: the time in ten digits, the node, and what is noted of
/// it; it has no line feed.
pub(crate) fn write_note(
    alloc: Global,
    out: &mut Vec<u8>,
    time: u32,
    note: &Note,
) -> Result<(), AllocError>
    ensures { OnOk result (out.new.items ≡ out.old.items ++ line_of_note time note.now) }
{
    write_time(out, time)?;
    out.extend_from_slice(b" note ")?;
    let node = note.node.to_string(alloc)?;
    out.extend_from_slice(node.as_bytes())?;
    out.push(b' ')?;
    write_kind(out, note.kind)
}

/// Writes what is noted of a node.
fn write_kind(out: &mut Vec<u8>, kind: NoteKind) -> Result<(), AllocError>
    ensures { OnOk result (out.new.items ≡ out.old.items ++ kind_text kind) }
{
    match kind {
        NoteKind::Lost => out.extend_from_slice(b"lost"),
        NoteKind::Configured => out.extend_from_slice(b"configured"),
        NoteKind::Difference => out.extend_from_slice(b"failed difference"),
        NoteKind::Aborted(abort) => {
            out.extend_from_slice(b"failed ")?;
            write_abort(out, abort)
        }
        NoteKind::TimedOut => out.extend_from_slice(b"failed timeout"),
    }
}

/// Writes an abort in eight digits.
fn write_abort(out: &mut Vec<u8>, abort: Abort) -> Result<(), AllocError>
    ensures { OnOk result (out.new.items ≡ out.old.items ++ abort_digits abort.0) }
{
    let code = abort.code();
    out.extend_from_slice(&index_digits((code / 65536) as u16))?;
    out.extend_from_slice(&index_digits((code % 65536) as u16))?;
    Ok(())
}
