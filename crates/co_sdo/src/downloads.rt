//! A server's part in downloads.

ghost use Rattle.std.specs.Prelude.{◌≡◌, ◌≤◌, IfOk, OnErr};
ghost use Rattle.co_dict.specs.Values.{HoldEach, Values};
ghost use Rattle.co_sdo.specs.Server.{download_answer as is_begun, download_segment as is_segment};
ghost use Rattle.co_sdo.specs.Server.{expedited_answer as is_taken, download_segment_answer as is_segment_taken};
ghost use Rattle.co_sdo.specs.Server.{write_answer as is_written};

use crate::frames::{
    download_confirmed, has_toggle, is_last, is_wrong_length, number_told, piece, place_named,
    segment_confirmed,
};
use crate::step::{Step, aborted, not_understood, replied};
use crate::transfer::Transfer;
use base::Octets;
use co_dict::{Abort, Dict, Shape, check_access, check_length, check_write};
use std::alloc::{AllocError, Global};

/// The whole write check, and the write.
#[tactic(auto, unfolding(crate::specs::Server::write_answer), using(crate::proofs::WriteLemmas::taken_is_short, crate::proofs::WriteLemmas::each_held))]
fn written(
    shape: &Shape,
    dict: &mut Dict,
    place: (u16, u8),
    bytes: &[u8],
    frame: [u8; 8],
) -> Result<Step, AllocError>
    ensures ok { IfOk result (λ step. is_written shape.now dict.old place bytes.now frame
        ≡ record { answer = step.answer; values = dict.new; transfer = step.transfer; wrote = step.wrote }) }
    ensures held { HoldEach shape.now.entries dict.old → HoldEach shape.now.entries dict.new }
    ensures err { OnErr result (dict.new ≡ dict.old) }
{
    if let Err(abort) = check_write(shape, dict, place.0, place.1, bytes) {
        return Ok(aborted(place, abort));
    }
    dict.write(place.0, place.1, bytes)?;
    Ok(Step {
        answer: Some(frame),
        transfer: Transfer::Idle,
        wrote: Some(place),
    })
}

/// An initiate with the value, of so many bytes.
pub fn expedited_taken(
    shape: &Shape,
    dict: &mut Dict,
    request: &[u8; 8],
    count: usize,
) -> Result<Step, AllocError>
    requires { count ≤ 4 }
    ensures ok { IfOk result (λ step. is_taken count shape.now dict.old request.now
        ≡ record { answer = step.answer; values = dict.new; transfer = step.transfer; wrote = step.wrote }) }
    ensures held { HoldEach shape.now.entries dict.old → HoldEach shape.now.entries dict.new }
    ensures err { OnErr result (dict.new ≡ dict.old) }
{
    let place = place_named(request);
    let bytes = &request[4..4 + count];
    written(shape, dict, place, bytes, download_confirmed(place))
}

/// An initiate with the size of the value, whose segments follow.
#[tactic(auto, unfolding(crate::specs::Server::download_answer))]
pub fn download_begun(alloc: Global, shape: &Shape, request: &[u8; 8]) -> Step
    ensures { (values : Values) → is_begun shape.now values request.now
        ≡ record { answer = result.answer; values = values; transfer = result.transfer; wrote = result.wrote } }
{
    let place = place_named(request);
    let size = number_told(request);
    if let Err(abort) = check_access(shape, place.0, place.1) {
        return aborted(place, abort);
    }
    if let Err(abort) = check_length(shape, place.0, place.1, size as usize) {
        return aborted(place, abort);
    }
    let taken = Octets::from_vec(Vec::new(alloc));
    let transfer = Transfer::Download {
        place,
        size,
        taken,
        toggle: false,
    };
    replied(download_confirmed(place), transfer)
}

/// A segment of the open download.
#[tactic(auto, unfolding(crate::specs::Server::download_segment_answer))]
fn segment_taken(
    shape: &Shape,
    dict: &mut Dict,
    place: (u16, u8),
    size: u32,
    taken: Octets,
    toggle: bool,
    request: &[u8; 8],
) -> Result<Step, AllocError>
    ensures ok { IfOk result (λ step. is_segment_taken shape.now dict.old place size taken toggle request.now
        ≡ record { answer = step.answer; values = dict.new; transfer = step.transfer; wrote = step.wrote }) }
    ensures held { HoldEach shape.now.entries dict.old → HoldEach shape.now.entries dict.new }
    ensures err { OnErr result (dict.new ≡ dict.old) }
{
    if !has_toggle(toggle, request) {
        return Ok(aborted(place, Abort::TOGGLE_NOT_ALTERNATED));
    }
    let mut came = taken.into_vec();
    came.extend_from_slice(piece(request))?;
    let taken = Octets::from_vec(came);
    if is_wrong_length(size, taken.len(), is_last(request)) {
        return Ok(aborted(place, Abort::LENGTH_DOES_NOT_MATCH));
    }
    let frame = segment_confirmed(toggle);
    if is_last(request) {
        return written(shape, dict, place, taken.as_slice(), frame);
    }
    let transfer = Transfer::Download {
        place,
        size,
        taken,
        toggle: !toggle,
    };
    Ok(replied(frame, transfer))
}

/// A segment of a download.
pub fn download_segment(
    shape: &Shape,
    dict: &mut Dict,
    transfer: Transfer,
    request: &[u8; 8],
) -> Result<Step, AllocError>
    ensures ok { IfOk result (λ step. is_segment shape.now dict.old transfer request.now
        ≡ record { answer = step.answer; values = dict.new; transfer = step.transfer; wrote = step.wrote }) }
    ensures held { HoldEach shape.now.entries dict.old → HoldEach shape.now.entries dict.new }
    ensures err { OnErr result (dict.new ≡ dict.old) }
{
    match transfer {
        Transfer::Download {
            place,
            size,
            taken,
            toggle,
        } => segment_taken(shape, dict, place, size, taken, toggle, request),
        other => Ok(not_understood(&other)),
    }
}
