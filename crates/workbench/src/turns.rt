//! What one line does.
ghost use Rattle.std.specs.Prelude.{◌≡◌, IfOk, None};
ghost use Rattle.script_commands.specs.Requests.{request};
ghost use Rattle.project_edits.specs.Eds.{block_lines};
ghost use Rattle.co_project.specs.Project.{accept};
ghost use Rattle.workbench.specs.Queries.{answer};
ghost use Rattle.workbench.specs.Replies.{after_line, after_request, in_block, after_verdict, after_query, is_skipped};
ghost use Rattle.workbench.specs.Views.{taken_at, block_of, Refuses};

use crate::open_block::OpenBlock;
use crate::queries::answer;
use crate::reply::Reply;
use crate::workbench::Workbench;
use base::{Octets, is_blank_line, without_crs};
use co_project::{Command, EditFault, refusal};
use script_commands::{Query, Request};
use std::alloc::{AllocError, Global};

/// The longest line of blanks that is skipped.
const MAX_BLANKS: usize = 4096;

fn is_skipped(line: &[u8]) -> bool
    ensures { result ≡ is_skipped line.now }
{
    line.len() <= MAX_BLANKS && is_blank_line(line)
}

/// Takes one more line, with the CRs at its end.
#[tactic(auto, unfolding(crate::specs::Replies::after_line))]
pub fn take_line(
    alloc: Global,
    workbench: &mut Workbench,
    block: Option<OpenBlock>,
    line: &[u8],
) -> Result<(Reply, Option<OpenBlock>), AllocError>
    ensures { IfOk result (λ r. taken_at workbench.new.project r.1 r.0
        ≡ after_line (record { project = workbench.old.project; block = block_of block }) line.now) }
{
    match block {
        None => {
            let mut opened = None;
            let reply = take_command(alloc, workbench, &mut opened, line)?;
            Ok((reply, opened))
        }
        Some(
            OpenBlock {
                name,
                left,
                mut lines,
            },
        ) => {
            lines.push(Vec::from_slice(alloc, without_crs(line))?)?;
            go_on(alloc, workbench, name, left.saturating_sub(1), lines)
        }
    }
}

/// Takes one more line where no block is open, with the CRs at its end, and opens the block that it asks for.
#[tactic(auto, unfolding(crate::specs::Replies::after_line))]
pub fn take_command(
    alloc: Global,
    workbench: &mut Workbench,
    block: &mut Option<OpenBlock>,
    line: &[u8],
) -> Result<Reply, AllocError>
    requires { block.old ≡ None }
    ensures { IfOk result (λ reply. taken_at workbench.new.project block.new reply
        ≡ after_line (record { project = workbench.old.project; block = None }) line.now) }
{
    let line = without_crs(line);
    if is_skipped(line) {
        return Ok(Reply::Nothing);
    }
    ask(alloc, workbench, block, line)
}

fn ask(
    alloc: Global,
    workbench: &mut Workbench,
    block: &mut Option<OpenBlock>,
    line: &[u8],
) -> Result<Reply, AllocError>
    requires { block.old ≡ None }
    ensures { IfOk result (λ reply. taken_at workbench.new.project block.new reply
        ≡ after_request workbench.old.project (request line.now)) }
{
    match Request::read(alloc, line) {
        Ok(Request::Edit(command)) => edit(workbench, command),
        Ok(Request::Query(query)) => reply_to(alloc, workbench, query),
        Ok(Request::Block { name, lines }) => {
            let (reply, opened) = go_on(alloc, workbench, name, lines, Vec::new(alloc))?;
            *block = opened;
            Ok(reply)
        }
        Err(fault) => refuse(fault),
    }
}

/// An `eds` command with some lines of its block, and the number of those to come.
fn go_on(
    alloc: Global,
    workbench: &mut Workbench,
    name: Option<Octets>,
    left: u32,
    lines: Vec<Vec<u8>>,
) -> Result<(Reply, Option<OpenBlock>), AllocError>
    ensures { IfOk result (λ r. taken_at workbench.new.project r.1 r.0
        ≡ in_block workbench.old.project name left (block_lines lines.items)) }
{
    if left > 0 {
        return Ok((Reply::Nothing, Some(OpenBlock { name, left, lines })));
    }
    let Some(name) = name else {
        return Ok((refuse(EditFault::Syntax)?, None));
    };
    match Command::eds(alloc, name.as_slice(), &lines) {
        Ok(command) => Ok((edit(workbench, command)?, None)),
        Err(fault) => Ok((refuse(fault)?, None)),
    }
}

fn edit(workbench: &mut Workbench, command: Command) -> Result<Reply, AllocError>
    ensures { IfOk result (λ reply. taken_at workbench.new.project None reply
        ≡ after_verdict workbench.old.project (accept workbench.old.project command)) }
{
    match workbench.edit(command) {
        Ok(()) => Ok(Reply::Fixed(b"ok\n")),
        Err(fault) => refuse(fault),
    }
}

/// What is written for a query.
fn reply_to(alloc: Global, workbench: &mut Workbench, query: Query) -> Result<Reply, AllocError>
    ensures { IfOk result (λ reply. taken_at workbench.new.project None reply
        ≡ after_query workbench.old.project (answer workbench.old.project query)) }
{
    match answer(alloc, workbench, query) {
        Ok(given) => Ok(Reply::Lines(given)),
        Err(fault) => refuse(fault),
    }
}

/// What is written for a refusal. Memory has no reply.
fn refuse(fault: EditFault) -> Result<Reply, AllocError>
    ensures { Refuses fault result }
{
    if fault == EditFault::Memory {
        return Err(AllocError);
    }
    Ok(Reply::Fixed(refusal(fault)))
}
