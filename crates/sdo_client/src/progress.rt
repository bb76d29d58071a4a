//! How a transfer of a client goes on.

use base::Octets;
use co_dict::Abort;

/// What an answer or a time-out did to the open transfer of a client.
#[derive(Debug, Drop)]
pub enum Progress {
    /// It goes on: this frame is to be sent.
    Ask([u8; 8]),
    /// The entry was written.
    Written,
    /// The entry was read, and has this value.
    Read(Octets),
    /// It was aborted. Where the client did so, this frame is to be sent.
    Failed {
        abort: Abort,
        frame: Option<[u8; 8]>,
    },
}
