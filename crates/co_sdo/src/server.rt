//! The SDO server of a device.

ghost use Rattle.std.specs.Prelude.{◌≡◌, ◌↔◌, Option, Some, None, ℕ, IsTrue, IsErr, IfOk, OnErr, option_map};
ghost use Rattle.co_dict.specs.Values.{HoldEach};
ghost use Rattle.co_sdo.specs.declared.transfer.Transfer.TheVariants.{Idle as idle};
ghost use Rattle.co_sdo.specs.Server.{Serves, server_answer as is_answered};

use crate::downloads::{download_begun, download_segment, expedited_taken};
use crate::step::{Step, not_understood};
use crate::transfer::{Transfer, copy, same};
use crate::uploads::{upload_begun, upload_segment};
use co_dict::{Dict, Shape};
use std::alloc::{AllocError, Global};
use std::marker::Model;

/// The SDO server of a device (CiA 301): one transfer at a time, expedited or segmented. A server that
/// found no memory in a call is spent.
#[derive(Drop)]
pub struct Server {
    alloc: Global,
    transfer: Option<Transfer>,
}

impl Model for Server {
    ghost use Rattle.std.specs.Prelude.{Option};
    ghost use Rattle.co_sdo.specs.declared.transfer.Transfer.{Transfer as opened};

    ghost Value = { Option opened };

    ghost view = { λ server. server.transfer };
}

/// What a server answers to a request.
#[derive(Clone, Copy, Debug, PartialEq, Eq)]
pub struct Reply {
    /// The frame to send, if there is one.
    pub answer: Option<[u8; 8]>,
    /// The index and sub of the entry that was written, if one was.
    pub wrote: Option<(u16, u8)>,
}

/// What a request makes a server do that has a transfer open, over values of the entries of `shape`; an entry
/// without a value counts as one that holds no bytes. Want of memory leaves the values as they were. Takes
/// time as `Server::serve`.
#[tactic(auto, unfolding(crate::specs::Server::server_answer))]
pub fn answered(
    alloc: Global,
    transfer: Transfer,
    request: &[u8; 8],
    shape: &Shape,
    dict: &mut Dict,
) -> Result<Step, AllocError>
    ensures ok { IfOk result (λ step. is_answered shape.now dict.old transfer request.now
        ≡ record { answer = step.answer; values = dict.new; transfer = step.transfer; wrote = step.wrote }) }
    ensures held { HoldEach shape.now.entries dict.old → HoldEach shape.now.entries dict.new }
    ensures err { OnErr result (dict.new ≡ dict.old) }
{
    match request[0] {
        0..0x20 => download_segment(shape, dict, transfer, request),
        0x21 => Ok(download_begun(alloc, shape, request)),
        0x2F => expedited_taken(shape, dict, request, 1),
        0x2B => expedited_taken(shape, dict, request, 2),
        0x27 => expedited_taken(shape, dict, request, 3),
        0x23 => expedited_taken(shape, dict, request, 4),
        0x40 => upload_begun(alloc, shape, dict, request),
        0x60 | 0x70 => Ok(upload_segment(transfer, request)),
        0x80 => Ok(Step {
            answer: None,
            transfer: Transfer::Idle,
            wrote: None,
        }),
        _ => Ok(not_understood(&transfer)),
    }
}

impl Server {
    /// A server with no open transfer.
    pub fn new(alloc: Global) -> Server
        ensures { result ≡ Some idle }
    {
        Server {
            alloc,
            transfer: Some(Transfer::Idle),
        }
    }

    /// Whether a call before found no memory.
    pub fn spent(&self) -> bool
        ensures { IsTrue result ↔ (self.now ≡ None) }
    {
        self.transfer.is_none()
    }

    /// Drops the open transfer, if there is one.
    pub fn close(&mut self)
        ensures { self.new ≡ option_map (λ transfer. idle) self.old }
    {
        if self.transfer.is_some() {
            self.transfer = Some(Transfer::Idle);
        }
    }

    /// An equal server. A spent one has none.
    pub fn copy(&self) -> Result<Server, AllocError>
        ensures same { IfOk result (λ server. server ≡ self.now) }
        ensures refused { self.now ≡ None → IsErr result }
    {
        let Some(transfer) = &self.transfer else {
            return Err(AllocError);
        };
        Ok(Server {
            alloc: self.alloc,
            transfer: Some(copy(transfer)?),
        })
    }

    /// Whether two servers are equal: they have the same transfer open, or both are spent.
    pub fn same(&self, other: &Server) -> bool
        ensures { IsTrue result ↔ (self.now ≡ other.now) }
    {
        match (&self.transfer, &other.transfer) {
            (Some(transfer), Some(other)) => same(transfer, other),
            (None, None) => true,
            _ => false,
        }
    }

    /// Takes a request of the client, and tells the answer and which entry was written. The values are
    /// those of the entries of `shape`; an entry without a value counts as one that holds no bytes.
    ///
    /// Want of memory leaves the values as they were, and the server spent: each later call answers
    /// `AllocError`. Takes time by the logarithm of the number of entries and by the length of the
    /// value that is written or given.
    pub fn serve(
        &mut self,
        request: &[u8; 8],
        shape: &Shape,
        dict: &mut Dict,
    ) -> Result<Reply, AllocError>
        ensures serves { IfOk result (λ reply. Serves self.old shape.now dict.old request.now reply.answer reply.wrote
            dict.new self.new) }
        ensures held { HoldEach shape.now.entries dict.old → HoldEach shape.now.entries dict.new }
        ensures err { OnErr result ((self.new ≡ None) × (dict.new ≡ dict.old)) }
        ensures spent { self.old ≡ None → IsErr result }
    {
        let Some(transfer) = self.transfer.take() else {
            return Err(AllocError);
        };
        let step = answered(self.alloc, transfer, request, shape, dict)?;
        self.transfer = Some(step.transfer);
        Ok(Reply {
            answer: step.answer,
            wrote: step.wrote,
        })
    }

    /// The answer to a request of the client, if it has one; else as `serve`.
    pub fn on_request(
        &mut self,
        request: &[u8; 8],
        shape: &Shape,
        dict: &mut Dict,
    ) -> Result<Option<[u8; 8]>, AllocError>
        ensures serves { IfOk result (λ answer. (wrote : Option (ℕ × ℕ))
            × Serves self.old shape.now dict.old request.now answer wrote dict.new self.new) }
        ensures held { HoldEach shape.now.entries dict.old → HoldEach shape.now.entries dict.new }
        ensures err { OnErr result ((self.new ≡ None) × (dict.new ≡ dict.old)) }
        ensures spent { self.old ≡ None → IsErr result }
    {
        let reply = self.serve(request, shape, dict)?;
        Ok(reply.answer)
    }
}
