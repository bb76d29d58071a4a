//! The text of a trace.
#![tactic(auto)]

ghost use Rattle.std.specs.Prelude.{◌≡◌, ◌++◌, [], IfOk, OnErr, OnOk, filter};
ghost use Rattle.can_bus.specs.Lines.{lines_text};
ghost use Rattle.can_bus.specs.Runs.{is_shown};

use crate::passage::Passage;
use crate::passages::{cut_all, lines_of, write_all};
use crate::text_size::{TextSize, size_of_text};
use base::{ListedText, Shared};
use can_bus::Line;
use std::alloc::{AllocError, Global};
use std::marker::Model;

/// The lines of a trace with their text, in passages that others may hold too. Contracts see the lines, one
/// behind the other.
#[derive(Drop)]
pub struct TraceText {
    alloc: Global,
    passages: Vec<Shared<Passage>>,
}

impl Model for TraceText {
    ghost use Rattle.std.specs.Coded.{coded_list};
    ghost use Rattle.std.specs.Prelude.{List};
    ghost use Rattle.can_bus.specs.contracts.line.Line as told;
    ghost use Rattle.can_bus.specs.declared.line.Line.{Line};
    ghost use Rattle.trace_spans.specs.Passages.{lines_of_passages};

    ghost Value = { List Line };

    ghost coded = { coded_list told.the_row.coded };

    ghost view = { λ t. lines_of_passages t.passages.items };
}

impl TraceText {
    /// No lines. Takes no memory.
    pub fn new(alloc: Global) -> TraceText
        ensures { result ≡ [] }
    {
        TraceText {
            alloc,
            passages: Vec::new(alloc),
        }
    }

    /// Adds a passage at the end, which is shared and not copied: takes memory for a handle. Want of it is the
    /// only error, and changes nothing.
    pub fn add(&mut self, passage: Shared<Passage>) -> Result<(), AllocError>
        ensures added { OnOk result (self.new ≡ self.old ++ passage) }
        ensures unchanged { OnErr result (self.new ≡ self.old) }
    {
        self.passages.push(passage)?;
        Ok(())
    }

    /// Keeps the lines up to the horizon. Takes time by the number of passages, and time and memory by the
    /// text of those that aren't shown whole, which are written anew; each other stays as it is. Want of
    /// memory is the only error.
    pub fn keep_shown(&mut self, horizon: u32) -> Result<(), AllocError>
        ensures { OnOk result (self.new ≡ filter (is_shown horizon) self.old) }
    {
        let alloc = self.alloc;
        cut_all(alloc, self.passages.as_mut_slice(), horizon)
    }

    /// A copy of the lines. Takes time and memory by their number; want of memory is the only error.
    pub fn lines(&self) -> Result<Vec<Line>, AllocError>
        ensures { IfOk result (λ lines. lines.items ≡ self.now) }
    {
        lines_of(self.alloc, &self.passages)
    }

    /// The text of the lines, each ended by LF, with the reply that shows them. Takes time and memory by its
    /// length: each byte is copied once. Want of memory is the only error.
    #[tactic(auto, unfolding(base::specs::Replies::lines_reply))]
    pub fn listed(&self) -> Result<ListedText, AllocError>
        ensures { IfOk result (λ text. text ≡ lines_text self.now) }
    {
        let passages = self.passages.as_slice();
        let TextSize { lines, bytes } = size_of_text(passages).ok_or(AllocError)?;
        let mut reply = base::head(self.alloc, lines, bytes)?;
        let start = reply.len();
        write_all(passages, &mut reply)?;
        Ok(ListedText::of_reply(reply, start))
    }
}
