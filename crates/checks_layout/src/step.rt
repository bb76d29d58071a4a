//! What a line leads to.

ghost use Rattle.std.specs.Prelude.{◌∷◌, ◌++◌, ◌-◌, [], Ok};
ghost use Rattle.base.specs.Gives.{Gives};
ghost use Rattle.project_edits.specs.Eds.{block_lines};
ghost use Rattle.project_edits.specs.Faults.{is_memory};
ghost use Rattle.script_commands.specs.declared.request.Request.TheVariants.{Block};
ghost use Rattle.script_commands.specs.Requests.{request as request_of};
ghost use Rattle.checks_layout.specs.Lines.{after_request, in_sheet, step_of};

use base::Octets;
use script_commands::{Command, EditFault, Request};
use std::alloc::Global;

/// The name of a data sheet, the number of its lines that are to come, and those that came.
#[derive(Drop)]
pub struct Sheet {
    pub name: Octets,
    pub left: u32,
    pub lines: Vec<Vec<u8>>,
}

/// The edit that a line completes, if it does, and the data sheet that is open behind it.
#[derive(Drop)]
pub struct Step {
    pub edit: Option<Command>,
    pub sheet: Option<Sheet>,
}

/// A data sheet with some of its lines, and the number of those to come: its edit, where these are all.
fn go_on(alloc: Global, name: Octets, left: u32, lines: Vec<Vec<u8>>) -> Result<Step, EditFault>
    ensures { Gives is_memory step_of result (in_sheet name left (block_lines lines.items)) }
{
    if left > 0 {
        return Ok(Step {
            edit: None,
            sheet: Some(Sheet { name, left, lines }),
        });
    }
    let edit = Command::eds(alloc, name.as_slice(), &lines)?;
    Ok(Step {
        edit: Some(edit),
        sheet: None,
    })
}

/// One more line of a data sheet.
pub fn line_of_sheet(alloc: Global, sheet: Sheet, line: &[u8]) -> Result<Step, EditFault>
    ensures { Gives is_memory step_of result
        (in_sheet sheet.name (sheet.left - 1) (block_lines sheet.lines.items ++ line.now ∷ [])) }
{
    let Sheet {
        name,
        left,
        mut lines,
    } = sheet;
    lines.push(Vec::from_slice(alloc, line)?)?;
    go_on(alloc, name, left.saturating_sub(1), lines)
}

/// The first line of a data sheet.
fn begin(alloc: Global, name: Option<Octets>, lines: u32) -> Result<Step, EditFault>
    ensures { Gives is_memory step_of result (after_request (Ok (Block name lines))) }
{
    match name {
        Some(name) => go_on(alloc, name, lines, Vec::new(alloc)),
        None => Err(EditFault::Syntax),
    }
}

/// What a line asks that is none of a data sheet.
pub fn request(alloc: Global, line: &[u8]) -> Result<Step, EditFault>
    ensures { Gives is_memory step_of result (after_request (request_of line.now)) }
{
    match Request::read(alloc, line)? {
        Request::Edit(edit) => Ok(Step {
            edit: Some(edit),
            sheet: None,
        }),
        Request::Block { name, lines } => begin(alloc, name, lines),
        Request::Query(_query) => Err(EditFault::Syntax),
    }
}
