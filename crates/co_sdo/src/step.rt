//! What a request makes a server do.

ghost use Rattle.std.specs.Prelude.{◌≡◌, Some, None};
ghost use Rattle.co_dict.specs.Aborts.{unknown_command};
ghost use Rattle.co_sdo.specs.declared.transfer.Transfer.TheVariants.{Idle as idle};
ghost use Rattle.co_sdo.specs.Frames.{abort_frame as frame_of};
ghost use Rattle.co_sdo.specs.Server.{place_of as place_open};

use crate::frames::abort_frame;
use crate::transfer::Transfer;
use co_dict::Abort;

/// The answer to a request, the transfer that is open after it, and the entry that it wrote.
#[derive(Drop)]
pub struct Step {
    pub answer: Option<[u8; 8]>,
    pub transfer: Transfer,
    pub wrote: Option<(u16, u8)>,
}

/// An answer that writes nothing.
pub fn replied(frame: [u8; 8], transfer: Transfer) -> Step
    ensures { result ≡ record { answer = Some frame; transfer = transfer; wrote = None } }
{
    Step {
        answer: Some(frame),
        transfer,
        wrote: None,
    }
}

/// An abort, which drops the open transfer.
pub fn aborted(place: (u16, u8), abort: Abort) -> Step
    ensures { result ≡ record { answer = Some (frame_of place abort); transfer = idle; wrote = None } }
{
    Step {
        answer: Some(abort_frame(place, abort)),
        transfer: Transfer::Idle,
        wrote: None,
    }
}

/// The entry of the open transfer.
fn place_of(transfer: &Transfer) -> (u16, u8)
    ensures { result ≡ place_open transfer.now }
{
    match transfer {
        Transfer::Idle => (0, 0),
        Transfer::Download { place, .. } => *place,
        Transfer::Upload { place, .. } => *place,
    }
}

/// The abort of a request that doesn't fit the open transfer, or that no server knows.
pub fn not_understood(transfer: &Transfer) -> Step
    ensures { result ≡ record {
      answer = Some (frame_of (place_open transfer.now) unknown_command);
      transfer = idle;
      wrote = None;
    } }
{
    aborted(place_of(transfer), Abort::UNKNOWN_COMMAND)
}
