//! Where a session is in its input.
ghost use Rattle.std.specs.Prelude.{◌≡◌, ◌++◌, [], IfOk, None};
ghost use Rattle.workbench.specs.Replies.{after_line, cut_off};
ghost use Rattle.workbench.specs.Machine.{first_cursor, at_break, last_line};
ghost use Rattle.workbench.specs.Views.{cursor_of, ended_at, replies_of};

use crate::open_block::OpenBlock;
use crate::reply::Reply;
use crate::turns::{take_command, take_line};
use crate::work::Work;
use crate::workbench::Workbench;
use co_project::{EditFault, refusal};
use std::alloc::{AllocError, Global};

#[derive(Drop)]
pub struct Cursor {
    pub alloc: Global,
    pub workbench: Workbench,
    pub block: Option<OpenBlock>,
    /// The line so far.
    pub line: Vec<u8>,
}

impl Cursor {
    pub fn new(alloc: Global) -> Result<Cursor, AllocError>
        ensures { IfOk result (λ cursor. cursor_of cursor ≡ first_cursor) }
    {
        let workbench = Workbench::new(alloc)?;
        Ok(Cursor {
            alloc,
            workbench,
            block: None,
            line: Vec::new(alloc),
        })
    }

    /// Takes the line so far as whole.
    pub fn end_line(&mut self) -> Result<Reply, AllocError>
        ensures { IfOk result (λ reply. ended_at self.new reply
            ≡ at_break (after_line (cursor_of self.old).state self.old.line.items)) }
    {
        let block = self.block.take();
        let (reply, block) = take_line(self.alloc, &mut self.workbench, block, &self.line)?;
        self.block = block;
        self.line.clear();
        Ok(reply)
    }

    /// Takes the line so far as the last one, where the end of the input ends it: not an empty one.
    pub fn end_last_line(&mut self) -> Result<Reply, AllocError>
        ensures { IfOk result (λ reply. ended_at self.new reply ≡ last_line (cursor_of self.old)) }
    {
        if self.line.is_empty() {
            return Ok(Reply::Nothing);
        }
        self.end_line()
    }

    /// What is written where the input ends in a block that isn't complete.
    pub fn cut_off(&self) -> Reply
        ensures { replies_of result ≡ cut_off (cursor_of self.now).state.block }
    {
        if self.block.is_none() {
            return Reply::Nothing;
        }
        Reply::Fixed(refusal(EditFault::Truncated))
    }

    /// Takes a line of which nothing came before, where no block is open: it is read where it stands.
    fn take_whole(&mut self, line: &[u8]) -> Result<Reply, AllocError>
        requires block { self.old.block ≡ None }
        requires line { self.old.line.items ≡ [] }
        ensures { IfOk result (λ reply. ended_at self.new reply
            ≡ at_break (after_line (cursor_of self.old).state line.now)) }
    {
        take_command(self.alloc, &mut self.workbench, &mut self.block, line)
    }

    /// Takes the line so far and these bytes behind it as a whole line. Where no block is open, a line of which nothing
    /// came before is read where it stands; every other line is copied.
    pub fn take_rest(&mut self, rest: &[u8]) -> Result<Reply, AllocError>
        ensures { IfOk result (λ reply. ended_at self.new reply
            ≡ at_break (after_line (cursor_of self.old).state (self.old.line.items ++ rest.now))) }
    {
        if self.block.is_none() && self.line.is_empty() {
            return self.take_whole(rest);
        }
        self.line.extend_from_slice(rest)?;
        self.end_line()
    }

    /// How much work the answers took.
    pub fn work(&self) -> Work
        ensures segments { result.segments ≡ self.now.workbench.work.segments }
        ensures parts { result.parts ≡ self.now.workbench.work.parts }
    {
        self.workbench.work()
    }
}
