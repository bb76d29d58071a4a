//! The SDO client.

ghost use Rattle.std.specs.Prelude.{◌≡◌, ◌≤◌, ◌↔◌, Some, None, IsTrue, IsErr, IfOk, OnErr, length, option_map};
ghost use Rattle.co_values.specs.Values.{longest_value};
ghost use Rattle.sdo_client.specs.declared.client_transfer.ClientTransfer.TheVariants.{Idle as idle};
ghost use Rattle.sdo_client.specs.Client.{Advances, Starts, after_answer as is_advanced};
ghost use Rattle.sdo_client.specs.Client.{download_start as is_download_started, timed_out_at};
ghost use Rattle.sdo_client.specs.Client.{upload_start as is_upload_started};

use crate::advance::timed_out;
use crate::answers::advanced;
use crate::client_transfer::{ClientTransfer, copy, same};
use crate::progress::Progress;
use base::Octets;
use co_sdo::Rest;
use co_sdo::frames::{expedited_download, is_expedited, segmented_download, upload_request};
use std::alloc::{AllocError, Global};
use std::marker::Model;

/// An SDO client (CiA 301): one transfer at a time, expedited where the value has one to four bytes and
/// else segmented. A client that found no memory in a call is spent.
#[derive(Drop)]
pub struct Client {
    alloc: Global,
    stage: Option<ClientTransfer>,
}

impl Model for Client {
    ghost use Rattle.std.specs.Prelude.{Option};
    ghost use Rattle.sdo_client.specs.declared.client_transfer.ClientTransfer.{ClientTransfer as awaited};

    ghost Value = { Option awaited };

    ghost view = { λ client. client.stage };
}

/// The first frame of the download of a value, and what is awaited then.
#[tactic(auto, unfolding(crate::specs::Client::download_start))]
pub fn download_started(
    alloc: Global,
    place: (u16, u8),
    value: &[u8],
) -> Result<([u8; 8], ClientTransfer), AllocError>
    requires { length value.now ≤ longest_value }
    ensures { IfOk result (λ start. start ≡ is_download_started place value.now) }
{
    if is_expedited(value) {
        let frame = expedited_download(place, value);
        return Ok((frame, ClientTransfer::Downloading { place }));
    }
    let frame = segmented_download(place, value.len() as u32);
    let rest = Rest::new(Octets::from_slice(alloc, value)?);
    Ok((frame, ClientTransfer::Offering { place, rest }))
}

/// The frame of the upload of an entry, and what is awaited then.
pub fn upload_started(place: (u16, u8)) -> ([u8; 8], ClientTransfer)
    ensures { result ≡ is_upload_started place }
{
    (upload_request(place), ClientTransfer::Uploading { place })
}

impl Client {
    /// A client with no open transfer.
    pub fn new(alloc: Global) -> Client
        ensures { result ≡ Some idle }
    {
        Client {
            alloc,
            stage: Some(ClientTransfer::Idle),
        }
    }

    /// Whether a call before found no memory.
    pub fn spent(&self) -> bool
        ensures { IsTrue result ↔ (self.now ≡ None) }
    {
        self.stage.is_none()
    }

    /// Drops the open transfer, if there is one.
    pub fn close(&mut self)
        ensures { self.new ≡ option_map (λ stage. idle) self.old }
    {
        if self.stage.is_some() {
            self.stage = Some(ClientTransfer::Idle);
        }
    }

    /// An equal client. A spent one has none.
    pub fn copy(&self) -> Result<Client, AllocError>
        ensures same { IfOk result (λ client. client ≡ self.now) }
        ensures refused { self.now ≡ None → IsErr result }
    {
        let Some(stage) = &self.stage else {
            return Err(AllocError);
        };
        Ok(Client {
            alloc: self.alloc,
            stage: Some(copy(stage)?),
        })
    }

    /// Whether two clients are equal: they await the same, or both are spent.
    pub fn same(&self, other: &Client) -> bool
        ensures { IsTrue result ↔ (self.now ≡ other.now) }
    {
        match (&self.stage, &other.stage) {
            (Some(stage), Some(other)) => same(stage, other),
            (None, None) => true,
            _ => false,
        }
    }

    /// Starts the download of a value to an entry, and drops an open transfer: the frame to send. Want
    /// of memory leaves the client spent, and each later call answers `AllocError`.
    pub fn start_write(&mut self, index: u16, sub: u8, value: &[u8]) -> Result<[u8; 8], AllocError>
        requires { length value.now ≤ longest_value }
        ensures starts { IfOk result (λ frame. Starts self.old (is_download_started (index, sub) value.now) frame
            self.new) }
        ensures err { OnErr result (self.new ≡ None) }
        ensures spent { self.old ≡ None → IsErr result }
    {
        let Some(_stage) = self.stage.take() else {
            return Err(AllocError);
        };
        let (frame, stage) = download_started(self.alloc, (index, sub), value)?;
        self.stage = Some(stage);
        Ok(frame)
    }

    /// Starts the upload of an entry's value, and drops an open transfer: the frame to send. Only a
    /// spent client answers `AllocError`.
    pub fn start_read(&mut self, index: u16, sub: u8) -> Result<[u8; 8], AllocError>
        ensures starts { IfOk result (λ frame. Starts self.old (is_upload_started (index, sub)) frame self.new) }
        ensures err { IsErr result ↔ (self.old ≡ None) }
        ensures spent { self.old ≡ None → self.new ≡ None }
    {
        let Some(_stage) = self.stage.take() else {
            return Err(AllocError);
        };
        let (frame, stage) = upload_started((index, sub));
        self.stage = Some(stage);
        Ok(frame)
    }

    /// Takes an answer of the server: how the open transfer goes on. It is none where no transfer is
    /// open. Want of memory leaves the client spent, and each later call answers `AllocError`.
    pub fn on_answer(&mut self, answer: &[u8; 8]) -> Result<Option<Progress>, AllocError>
        ensures advances { IfOk result (λ progress. Advances (λ stage. is_advanced stage answer.now) self.old progress
            self.new) }
        ensures err { OnErr result (self.new ≡ None) }
        ensures spent { self.old ≡ None → IsErr result }
    {
        let Some(stage) = self.stage.take() else {
            return Err(AllocError);
        };
        let advance = advanced(self.alloc, stage, answer)?;
        self.stage = Some(advance.stage);
        Ok(advance.progress)
    }

    /// Takes note that no answer came in time: the abort to send, or none where no transfer is open.
    /// Only a spent client answers `AllocError`.
    pub fn on_time_out(&mut self) -> Result<Option<Progress>, AllocError>
        ensures advances { IfOk result (λ progress. Advances timed_out_at self.old progress self.new) }
        ensures err { IsErr result ↔ (self.old ≡ None) }
        ensures spent { self.old ≡ None → self.new ≡ None }
    {
        let Some(stage) = self.stage.take() else {
            return Err(AllocError);
        };
        let advance = timed_out(&stage);
        self.stage = Some(advance.stage);
        Ok(advance.progress)
    }
}
