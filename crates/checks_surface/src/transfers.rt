//! Both ends of an SDO transfer: `co_sdo`, `sdo_client`.

ghost use Rattle.std.specs.Prelude.{◌≤◌, length};
ghost use Rattle.co_values.specs.Values.{longest_value};

use base::Octets;
use co_dict::{Abort, Dict, Shape};
use co_sdo::Server;
use sdo_client::{Client, Progress};
use std::alloc::{AllocError, Global};

/// A server without an open transfer.
pub fn server(alloc: Global) -> Server {
    Server::new(alloc)
}

/// A request is answered.
pub fn on_request(
    server: &mut Server,
    request: &[u8; 8],
    shape: &Shape,
    dict: &mut Dict,
) -> Result<Option<[u8; 8]>, AllocError> {
    server.on_request(request, shape, dict)
}

/// Whether memory ran out before.
pub fn spent_server(server: &Server) -> bool {
    server.spent()
}

/// A client without an open transfer.
pub fn client(alloc: Global) -> Client {
    Client::new(alloc)
}

/// A download begins: its first request.
pub fn start_write(
    client: &mut Client,
    index: u16,
    sub: u8,
    value: &[u8],
) -> Result<[u8; 8], AllocError>
    requires { length value.now ≤ longest_value }
{
    client.start_write(index, sub, value)
}

/// An upload begins: its first request.
pub fn start_read(client: &mut Client, index: u16, sub: u8) -> Result<[u8; 8], AllocError> {
    client.start_read(index, sub)
}

/// An answer came.
pub fn on_answer(client: &mut Client, answer: &[u8; 8]) -> Result<Option<Progress>, AllocError> {
    client.on_answer(answer)
}

/// No answer came in time.
pub fn on_time_out(client: &mut Client) -> Result<Option<Progress>, AllocError> {
    client.on_time_out()
}

/// Whether memory ran out before.
pub fn spent_client(client: &Client) -> bool {
    client.spent()
}

/// A transfer goes on by a request.
pub fn asks(frame: [u8; 8]) -> Progress {
    Progress::Ask(frame)
}

/// A download was confirmed.
pub fn is_written() -> Progress {
    Progress::Written
}

/// An upload came to its end with a value.
pub fn is_read(value: Octets) -> Progress {
    Progress::Read(value)
}

/// A transfer failed, perhaps with an abort to send.
pub fn failed(abort: Abort, frame: Option<[u8; 8]>) -> Progress {
    Progress::Failed { abort, frame }
}
