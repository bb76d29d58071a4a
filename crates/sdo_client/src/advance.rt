//! What an answer or a time-out makes a client do.

ghost use Rattle.std.specs.Prelude.{◌≡◌};
ghost use Rattle.sdo_client.specs.Client as client;

use crate::client_transfer::{ClientTransfer, entry_of, is_idle};
use crate::progress::Progress;
use co_dict::Abort;
use co_sdo::frames::abort_frame;

/// What the caller is told, and what is awaited then.
#[derive(Drop)]
pub struct Advance {
    pub progress: Option<Progress>,
    pub stage: ClientTransfer,
}

/// Nothing, since no transfer is open.
pub fn ignored() -> Advance
    ensures { result ≡ client.is_not_awaited }
{
    Advance {
        progress: None,
        stage: ClientTransfer::Idle,
    }
}

/// A further frame to send.
pub fn asks(frame: [u8; 8], stage: ClientTransfer) -> Advance
    ensures { result ≡ client.next_request frame stage }
{
    Advance {
        progress: Some(Progress::Ask(frame)),
        stage,
    }
}

/// The end of the transfer.
pub fn ends(progress: Progress) -> Advance
    ensures { result ≡ client.end_of_transfer progress }
{
    Advance {
        progress: Some(progress),
        stage: ClientTransfer::Idle,
    }
}

/// An abort of the transfer by the client.
pub fn fails(place: (u16, u8), abort: Abort) -> Advance
    ensures { result ≡ client.client_abort place abort }
{
    let frame = Some(abort_frame(place, abort));
    ends(Progress::Failed { abort, frame })
}

/// The abort for an answer that isn't the awaited one.
pub fn not_awaited(place: (u16, u8)) -> Advance
    ensures { result ≡ client.unexpected_answer place }
{
    fails(place, Abort::UNKNOWN_COMMAND)
}

/// What is done where no answer came in time.
#[tactic(auto, unfolding(crate::specs::Client::timed_out_at))]
pub fn timed_out(stage: &ClientTransfer) -> Advance
    ensures { result ≡ client.timed_out_at stage.now }
{
    if is_idle(stage) {
        return ignored();
    }
    fails(entry_of(stage), Abort::TIMED_OUT)
}
