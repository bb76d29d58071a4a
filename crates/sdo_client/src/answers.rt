//! What a client makes of an answer.

ghost use Rattle.std.specs.Prelude.{◌≡◌, ◌≤◌, IfOk, drop, take};
ghost use Rattle.sdo_client.specs.declared.progress.Progress.TheVariants.{Read as read};
ghost use Rattle.sdo_client.specs.declared.client_transfer.ClientTransfer.TheVariants.{Downloading as downloading};
ghost use Rattle.sdo_client.specs.declared.client_transfer.ClientTransfer.TheVariants.{Offering as offering};
ghost use Rattle.sdo_client.specs.Client as client;

use crate::advance::{Advance, asks, ends, fails, ignored, not_awaited};
use crate::client_transfer::{ClientTransfer, is_idle};
use crate::progress::Progress;
use base::Octets;
use co_dict::Abort;
use co_sdo::Rest;
use co_sdo::frames::{
    has_toggle, is_last, is_last_piece, is_wrong_length, names, next_segment, number_told, piece,
    segment_request, toggle_bit,
};
use std::alloc::{AllocError, Global};

/// The confirmation of an expedited download.
fn downloaded(place: (u16, u8), answer: &[u8; 8]) -> Advance
    ensures { result ≡ client.after_awaited (downloading place) answer.now }
{
    if answer[0] == 0x60 && names(place, answer) {
        return ends(Progress::Written);
    }
    not_awaited(place)
}

/// The confirmation of the initiate of a segmented download.
fn offered(place: (u16, u8), rest: Rest, answer: &[u8; 8]) -> Advance
    ensures { result ≡ client.after_awaited (offering place rest) answer.now }
{
    if answer[0] == 0x60 && names(place, answer) {
        let frame = next_segment(false, rest.as_slice());
        let toggle = false;
        return asks(
            frame,
            ClientTransfer::SendingSegments {
                place,
                rest,
                toggle,
            },
        );
    }
    not_awaited(place)
}

/// The confirmation of a segment.
#[tactic(auto, unfolding(crate::specs::Client::after_segment_confirmed))]
fn segment_sent(place: (u16, u8), rest: Rest, toggle: bool, answer: &[u8; 8]) -> Advance
    ensures { result ≡ client.after_segment_confirmed place rest toggle answer.now }
{
    if answer[0] != 0x20 && answer[0] != 0x30 {
        return not_awaited(place);
    }
    if answer[0] != 0x20 + toggle_bit(toggle) {
        return fails(place, Abort::TOGGLE_NOT_ALTERNATED);
    }
    if is_last_piece(rest.as_slice()) {
        return ends(Progress::Written);
    }
    let rest = rest.after_segment();
    let toggle = !toggle;
    let frame = next_segment(toggle, rest.as_slice());
    asks(
        frame,
        ClientTransfer::SendingSegments {
            place,
            rest,
            toggle,
        },
    )
}

/// The value in an answer to an upload request, of so many bytes.
fn value_read(alloc: Global, answer: &[u8; 8], count: usize) -> Result<Advance, AllocError>
    requires { count ≤ 4 }
    ensures { IfOk result (λ advance. advance ≡ client.end_of_transfer (read (take count (drop 4 answer.now)))) }
{
    let value = Octets::from_slice(alloc, &answer[4..4 + count])?;
    Ok(ends(Progress::Read(value)))
}

/// The answer to an upload request.
#[tactic(auto, unfolding(crate::specs::Client::after_upload_answer))]
fn upload_answered(alloc: Global, place: (u16, u8), answer: &[u8; 8]) -> Result<Advance, AllocError>
    ensures { IfOk result (λ advance. advance ≡ client.after_upload_answer place answer.now) }
{
    if !names(place, answer) {
        return Ok(not_awaited(place));
    }
    match answer[0] {
        0x4F => value_read(alloc, answer, 1),
        0x4B => value_read(alloc, answer, 2),
        0x47 => value_read(alloc, answer, 3),
        0x43 => value_read(alloc, answer, 4),
        0x41 => {
            let size = number_told(answer);
            let taken = Octets::from_vec(Vec::new(alloc));
            let toggle = false;
            let stage = ClientTransfer::TakingSegments {
                place,
                size,
                taken,
                toggle,
            };
            Ok(asks(segment_request(toggle), stage))
        }
        _ => Ok(not_awaited(place)),
    }
}

/// A segment of an upload.
#[tactic(auto, unfolding(crate::specs::Client::after_upload_segment))]
fn segment_read(
    place: (u16, u8),
    size: u32,
    taken: Octets,
    toggle: bool,
    answer: &[u8; 8],
) -> Result<Advance, AllocError>
    ensures { IfOk result (λ advance. advance ≡ client.after_upload_segment place size taken toggle answer.now) }
{
    if answer[0] >= 0x20 {
        return Ok(not_awaited(place));
    }
    if !has_toggle(toggle, answer) {
        return Ok(fails(place, Abort::TOGGLE_NOT_ALTERNATED));
    }
    let mut came = taken.into_vec();
    came.extend_from_slice(piece(answer))?;
    let taken = Octets::from_vec(came);
    if is_wrong_length(size, taken.len(), is_last(answer)) {
        return Ok(not_awaited(place));
    }
    if is_last(answer) {
        return Ok(ends(Progress::Read(taken)));
    }
    let toggle = !toggle;
    let stage = ClientTransfer::TakingSegments {
        place,
        size,
        taken,
        toggle,
    };
    Ok(asks(segment_request(toggle), stage))
}

/// An answer other than an abort, by what is awaited.
fn awaited(alloc: Global, stage: ClientTransfer, answer: &[u8; 8]) -> Result<Advance, AllocError>
    ensures { IfOk result (λ advance. advance ≡ client.after_awaited stage answer.now) }
{
    match stage {
        ClientTransfer::Idle => Ok(ignored()),
        ClientTransfer::Downloading { place } => Ok(downloaded(place, answer)),
        ClientTransfer::Offering { place, rest } => Ok(offered(place, rest, answer)),
        ClientTransfer::SendingSegments {
            place,
            rest,
            toggle,
        } => Ok(segment_sent(place, rest, toggle, answer)),
        ClientTransfer::Uploading { place } => upload_answered(alloc, place, answer),
        ClientTransfer::TakingSegments {
            place,
            size,
            taken,
            toggle,
        } => segment_read(place, size, taken, toggle, answer),
    }
}

/// What an answer makes the client do.
#[tactic(auto, unfolding(crate::specs::Client::after_answer))]
pub fn advanced(
    alloc: Global,
    stage: ClientTransfer,
    answer: &[u8; 8],
) -> Result<Advance, AllocError>
    ensures { IfOk result (λ advance. advance ≡ client.after_answer stage answer.now) }
{
    if is_idle(&stage) {
        return Ok(ignored());
    }
    if answer[0] == 0x80 {
        let abort = Abort(number_told(answer));
        return Ok(ends(Progress::Failed { abort, frame: None }));
    }
    awaited(alloc, stage, answer)
}
