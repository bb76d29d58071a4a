//! An edit that keeps to its forms and limits.
ghost use Rattle.std.specs.Prelude.{◌≡◌};
ghost use Rattle.base.specs.Gives.{Gives};
ghost use Rattle.project_edits.specs.Faults.{is_memory};
ghost use Rattle.project_edits.specs.Eds.{block_lines, eds_edit};
ghost use Rattle.project_edits.specs.Edits.{IsEdit};

use crate::block::{check, has_bad_line, has_long_line, shared_text, text_of};
use crate::edit::Edit;
use crate::fault::EditFault;
use crate::forms::is_name;
use base::Octets;
use std::alloc::Global;
use std::marker::Model;

const MAX_LINES: usize = 65_536;

const MAX_BYTES: usize = 1_048_576;

/// An edit, whose words are of their forms and within their limits.
#[derive(Debug, Drop)]
pub struct Command {
    edit: Edit,
}

impl Model for Command {
    ghost use Rattle.project_edits.specs.declared.edit.Edit.{Edit};
    ghost use Rattle.project_edits.specs.Edits.{IsEdit};

    ghost Value = { Edit };

    ghost view = { λ command. command.edit };

    ghost invariant = { λ command. IsEdit command.edit };
}

impl Command {
    /// The edit that keeps the text of an EDS (CiA 306) under a name, from its lines without their
    /// LFs. The CRs at their ends are removed.
    ///
    /// The first fault that applies is answered. Syntax: the name isn't 1 to 32 of `A-Z a-z 0-9
    /// _`. Range: over 65,536 lines, a line over 4,096 bytes as it is handed over, or a text over
    /// 1,048,576 bytes. BadByte: a byte 00h to 1Fh other than tab and CR, so also an LF. Limit:
    /// over 4,096 entries. Memory can come in place of each.
    #[tactic(auto, unfolding(crate::specs::Eds::eds_edit))]
    pub fn eds(alloc: Global, name: &[u8], lines: &[Vec<u8>]) -> Result<Command, EditFault>
        ensures { Gives is_memory (λ c. c) result (eds_edit name.now (block_lines lines.now)) }
    {
        if !is_name(name) {
            return Err(EditFault::Syntax);
        }
        if lines.len() > MAX_LINES || has_long_line(lines) {
            return Err(EditFault::Range);
        }
        let text = text_of(alloc, lines)?;
        if text.len() > MAX_BYTES {
            return Err(EditFault::Range);
        }
        if has_bad_line(lines) {
            return Err(EditFault::BadByte);
        }
        check(alloc, &text)?;
        let name = Octets::from_slice(alloc, name)?;
        let shared = shared_text(alloc, text)?;
        Ok(Command::new(Edit::Eds { name, text: shared }))
    }

    /// An edit whose words are of their forms and within their limits, as one that can be done.
    pub fn new(edit: Edit) -> Self
        requires { IsEdit edit }
        ensures { result ≡ edit }
    {
        Command { edit }
    }

    /// What the edit does, to look at.
    pub fn edit(&self) -> &Edit
        ensures { result.now ≡ self.now }
    {
        &self.edit
    }

    /// What the edit does.
    pub fn into_edit(self) -> Edit
        ensures same { result ≡ self }
        ensures kept { IsEdit result }
    {
        self.edit
    }
}
