//! Lines with their text.
#![tactic(auto)]

ghost use Rattle.std.specs.Prelude.{◌≡◌, ◌↔◌, IfOk, IsTrue, filter};
ghost use Rattle.can_bus.specs.Lines.{lines_text};
ghost use Rattle.can_bus.specs.Runs.{is_shown};
ghost use Rattle.base.specs.Lines.{line_count};

use crate::shown::{last_time, shown_lines};
use can_bus::Line;
use std::alloc::{AllocError, Global};
use std::marker::Model;

/// The lines of one window of a trace, one behind the other, with their text. Contracts see the lines.
#[derive(Drop)]
pub struct Passage {
    lines: Vec<Line>,
    /// The lines, each ended by LF.
    text: Vec<u8>,
    /// How many lines the text has.
    count: usize,
    /// The last time of the lines.
    last: u32,
}

impl Model for Passage {
    ghost use Rattle.std.specs.Coded.{coded_list};
    ghost use Rattle.std.specs.Prelude.{◌≡◌, List};
    ghost use Rattle.can_bus.specs.Lines.{lines_text};
    ghost use Rattle.can_bus.specs.contracts.line.Line as told;
    ghost use Rattle.can_bus.specs.declared.line.Line.{Line};
    ghost use Rattle.base.specs.Lines.{line_count};
    ghost use Rattle.trace_spans.specs.Passages.{latest};

    ghost Value = { List Line };

    ghost coded = { coded_list told.the_row.coded };

    ghost view = { λ p. p.lines.items };

    ghost invariant = { λ p. (p.text.items ≡ lines_text p.lines.items)
        × (p.count ≡ line_count p.text.items)
        × (p.last ≡ latest p.lines.items) };
}

impl Passage {
    /// These lines, written. Takes time and memory by the length of their text; want of memory is the only
    /// error.
    pub fn new(alloc: Global, lines: Vec<Line>) -> Result<Passage, AllocError>
        ensures { IfOk result (λ passage. passage ≡ lines.items) }
    {
        let text = can_bus::text(alloc, &lines)?;
        let count = base::line_count(&text);
        let last = last_time(&lines);
        Ok(Passage {
            lines,
            text,
            count,
            last,
        })
    }

    /// Its lines. Takes constant time.
    pub fn lines(&self) -> &[Line]
        ensures { result.now ≡ self.now }
    {
        &self.lines
    }

    /// The text of its lines, each ended by LF. Takes constant time: it was written with the passage.
    pub fn text(&self) -> &[u8]
        ensures { result.now ≡ lines_text self.now }
    {
        &self.text
    }

    /// How many lines its text has. Takes constant time: they were counted with the passage.
    pub fn count(&self) -> usize
        ensures { result ≡ line_count (lines_text self.now) }
    {
        self.count
    }

    /// Whether it has no line behind the horizon. Takes constant time: the last time is known.
    pub fn is_shown(&self, horizon: u32) -> bool
        ensures { IsTrue result ↔ (filter (is_shown horizon) self.now ≡ self.now) }
    {
        self.last <= horizon
    }

    /// The passage of its lines up to the horizon. Takes time by its lines, and memory by the text of those;
    /// want of memory is the only error.
    pub fn up_to(&self, alloc: Global, horizon: u32) -> Result<Passage, AllocError>
        ensures { IfOk result (λ passage. passage ≡ filter (is_shown horizon) self.now) }
    {
        let lines = shown_lines(alloc, &self.lines, horizon)?;
        Passage::new(alloc, lines)
    }
}
