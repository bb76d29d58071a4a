//! A line of a trace.

ghost use Rattle.std.specs.Prelude.{◌≡◌, ◌++◌, IfOk, OnOk};
ghost use Rattle.can_bus.specs.Lines.{line_text, line_time};

use crate::note_line::write_note;
use can_frame::{Frame, write_line};
use node_boot::Note;
use std::alloc::{AllocError, Global};

/// What a trace tells of a moment in microseconds.
#[derive(Clone, Copy, Debug)]
pub enum Line {
    /// A frame was delivered.
    Frame {
        /// The moment.
        time: u32,
        /// The frame.
        frame: Frame,
    },
    /// The manager noted something of a node.
    Note {
        /// The moment.
        time: u32,
        /// What it noted.
        note: Note,
    },
}

impl Line {
    /// The moment of which it tells, in microseconds.
    pub fn time(&self) -> u32
        ensures { result ≡ line_time self.now }
    {
        match self {
            Line::Frame { time, .. } => *time,
            Line::Note { time, .. } => *time,
        }
    }

    /// Its text, without a line feed.
    pub fn text(&self, alloc: Global) -> Result<Vec<u8>, AllocError>
        ensures { IfOk result (λ text. text.items ≡ line_text self.now) }
    {
        let mut out = Vec::new(alloc);
        self.write(alloc, &mut out)?;
        Ok(out)
    }

    /// Writes its text, without a line feed, at the end of what was written.
    pub fn write(&self, alloc: Global, out: &mut Vec<u8>) -> Result<(), AllocError>
        ensures { OnOk result (out.new.items ≡ out.old.items ++ line_text self.now) }
    {
        match self {
            Line::Frame { time, frame } => write_line(out, *time, frame),
            Line::Note { time, note } => write_note(alloc, out, *time, note),
        }
    }
}
