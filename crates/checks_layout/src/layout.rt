//! The lines of edits.

ghost use Rattle.std.specs.Prelude.{◌≡◌, ◌↔◌, IsTrue, IsSome, None, OnErr};
ghost use Rattle.base.specs.Gives.{Gives};
ghost use Rattle.project_edits.specs.Faults.{is_memory};
ghost use Rattle.checks_layout.specs.Lines.{after_line, sheet_of};

use crate::step::{Sheet, line_of_sheet, request};
use script_commands::{Command, EditFault};
use std::alloc::Global;
use std::marker::Model;

/// What takes lines, and gives the edits that they lay out. Contracts see the data sheet whose lines come, if one
/// does.
#[derive(Drop)]
pub struct Layout {
    alloc: Global,
    sheet: Option<Sheet>,
}

impl Model for Layout {
    ghost use Rattle.std.specs.Prelude.{Option};
    ghost use Rattle.checks_layout.specs.Lines.{OpenSheet, sheet_of};

    ghost Value = { Option OpenSheet };

    ghost view = { λ layout. sheet_of layout.sheet };
}

impl Layout {
    /// No line came.
    pub fn new(alloc: Global) -> Layout
        ensures { result ≡ None }
    {
        Layout { alloc, sheet: None }
    }

    /// Whether the next line is one of a data sheet.
    pub fn takes_sheet(&self) -> bool
        ensures { IsTrue result ↔ IsSome self.now }
    {
        self.sheet.is_some()
    }

    /// Takes a line, without the LF and the CRs at its end, and gives the edit that it completes: the one that it
    /// asks, or that of the data sheet whose last line it is.
    ///
    /// The faults are those of `Request::read`, and where a data sheet is complete those of `Command::eds`; Syntax
    /// also of a query, and of a data sheet without a name, whose lines aren't awaited. Memory can come in place of
    /// each. After a fault no data sheet is open.
    #[tactic(auto, unfolding(crate::specs::Lines::after_line))]
    pub fn take_line(&mut self, line: &[u8]) -> Result<Option<Command>, EditFault>
        ensures given { Gives is_memory (λ edit. record { edit = edit; sheet = self.new }) result
            (after_line self.old line.now) }
        ensures err { OnErr result (self.new ≡ None) }
    {
        let step = match self.sheet.take() {
            Some(sheet) => line_of_sheet(self.alloc, sheet, line)?,
            None => request(self.alloc, line)?,
        };
        self.sheet = step.sheet;
        Ok(step.edit)
    }
}
