//! What one line asks.
ghost use Rattle.std.specs.Prelude.{◌≡◌, false, codes};
ghost use Rattle.std.specs.Str.{bytes_eq};
ghost use Rattle.base.specs.Gives.{Gives};
ghost use Rattle.project_edits.specs.Faults.{is_memory};
ghost use Rattle.script_commands.specs.Requests.{block_of, command_of, edit_request, query_request, link_of, request};

use crate::edits::{
    bitrate, drop_eds, drop_node, horizon, manager, need, node, param, sync_counter, time_period,
    unparam, version,
};
use crate::events::{drop_event, event};
use crate::links::{
    drop_message, message, receive, sink, source, start, unreceive, unsink, unsource,
};
use crate::numbers::decimal;
use crate::query::Query;
use crate::words::{is_bad_line, last_word};
use base::{Octets, next_word};
use project_edits::{Command, EditFault, is_name};
use std::alloc::Global;

const MAX_BLOCK: u64 = 65_536;

/// What one line asks.
#[derive(Debug, Drop)]
pub enum Request {
    /// An edit of the project.
    Edit(Command),
    /// What changes nothing.
    Query(Query),
    /// The lines of an EDS (CiA 306) follow. Without a name the command is refused with Syntax
    /// once they have come.
    Block {
        /// The name of the EDS, if the command is of its form.
        name: Option<Octets>,
        /// The number of lines, 0 to 65,536.
        lines: u32,
    },
}

impl Request {
    /// What a line asks. The line has neither the LF nor the CRs at its end.
    ///
    /// Syntax: an unknown command, a wrong number of words, a word not of its form, over 4,096
    /// bytes, or a byte 00h to 1Fh other than tab. Range: a number outside its limits, or not
    /// allowed there. An `eds` line of three words with a number of lines up to 65,536 is a block
    /// whatever else is wrong with it.
    #[tactic(auto, unfolding(crate::specs::Requests::request))]
    pub fn read(alloc: Global, line: &[u8]) -> Result<Request, EditFault>
        ensures { Gives is_memory (λ r. r) result (request line.now) }
    {
        let (first, rest) = next_word(line);
        if first == b"eds".as_slice() {
            return block(alloc, is_bad_line(line), rest);
        }
        if is_bad_line(line) {
            return Err(EditFault::Syntax);
        }
        command(alloc, first, rest)
    }
}

/// `eds NAME LINES`
#[tactic(auto, unfolding(crate::specs::Requests::block_of))]
fn block(alloc: Global, is_bad: bool, rest: &[u8]) -> Result<Request, EditFault>
    ensures { Gives is_memory (λ r. r) result (block_of is_bad rest.now) }
{
    let (called, rest) = next_word(rest);
    let lines = decimal(last_word(rest)?)?;
    if lines > MAX_BLOCK {
        return Err(EditFault::Syntax);
    }
    let lines = lines as u32;
    if is_bad || !is_name(called) {
        return Ok(Request::Block { name: None, lines });
    }
    let name = Octets::from_slice(alloc, called)?;
    Ok(Request::Block {
        name: Some(name),
        lines,
    })
}

fn edit(command: Result<Command, EditFault>) -> Result<Request, EditFault>
    ensures { Gives is_memory (λ r. r) result (edit_request command) }
{
    Ok(Request::Edit(command?))
}

fn query(query: Result<Query, EditFault>) -> Result<Request, EditFault>
    ensures { Gives is_memory (λ r. r) result (query_request query) }
{
    Ok(Request::Query(query?))
}

/// What a command asks. Three of those that a project can have many of are tried first.
#[tactic(auto, using(crate::proofs::FrequentLemmas::frequent_commands))]
fn command(alloc: Global, first: &[u8], rest: &[u8]) -> Result<Request, EditFault>
    ensures { Gives is_memory (λ r. r) result (command_of first.now rest.now) }
{
    if first == b"param".as_slice() {
        edit(param(alloc, rest))
    } else if first == b"sink".as_slice() {
        edit(sink(alloc, rest))
    } else if first == b"event".as_slice() {
        edit(event(alloc, rest))
    } else {
        rarer_command(alloc, first, rest)
    }
}

#[tactic(auto, unfolding(crate::specs::Requests::command_of))]
fn rarer_command(alloc: Global, first: &[u8], rest: &[u8]) -> Result<Request, EditFault>
    requires param { bytes_eq first.now (codes "param") ≡ false }
    requires event { bytes_eq first.now (codes "event") ≡ false }
    requires sink { bytes_eq first.now (codes "sink") ≡ false }
    ensures { Gives is_memory (λ r. r) result (command_of first.now rest.now) }
{
    if first == b"version".as_slice() {
        edit(version(rest))
    } else if first == b"bitrate".as_slice() {
        edit(bitrate(rest))
    } else if first == b"horizon".as_slice() {
        edit(horizon(rest))
    } else if first == b"manager".as_slice() {
        edit(manager(rest))
    } else if first == b"time-period".as_slice() {
        edit(time_period(rest))
    } else if first == b"sync-counter".as_slice() {
        edit(sync_counter(rest))
    } else if first == b"drop-eds".as_slice() {
        edit(drop_eds(alloc, rest))
    } else if first == b"node".as_slice() {
        edit(node(alloc, rest))
    } else if first == b"need".as_slice() {
        edit(need(rest))
    } else if first == b"drop-node".as_slice() {
        edit(drop_node(rest))
    } else if first == b"unparam".as_slice() {
        edit(unparam(rest))
    } else if first == b"drop-event".as_slice() {
        edit(drop_event(rest))
    } else {
        link(alloc, first, rest)
    }
}

#[tactic(auto, unfolding(crate::specs::Requests::link_of))]
fn link(alloc: Global, first: &[u8], rest: &[u8]) -> Result<Request, EditFault>
    requires sink { bytes_eq first.now (codes "sink") ≡ false }
    ensures { Gives is_memory (λ r. r) result (link_of first.now rest.now) }
{
    if first == b"message".as_slice() {
        edit(message(alloc, rest))
    } else if first == b"start".as_slice() {
        edit(start(alloc, rest))
    } else if first == b"drop-message".as_slice() {
        edit(drop_message(alloc, rest))
    } else if first == b"source".as_slice() {
        edit(source(alloc, rest))
    } else if first == b"unsource".as_slice() {
        edit(unsource(alloc, rest))
    } else if first == b"unsink".as_slice() {
        edit(unsink(alloc, rest))
    } else if first == b"receive".as_slice() {
        edit(receive(alloc, rest))
    } else if first == b"unreceive".as_slice() {
        edit(unreceive(alloc, rest))
    } else {
        query(Query::read(first, rest))
    }
}
