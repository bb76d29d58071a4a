//! A server's part in uploads.

ghost use Rattle.std.specs.Prelude.{◌≡◌, ◌≤◌, IfOk, length};
ghost use Rattle.co_values.specs.Values.{longest_value};
ghost use Rattle.co_dict.specs.Values.{Values, bytes_at};
ghost use Rattle.co_sdo.specs.Server.{upload_segment_answer as is_segment_given, upload_answer as is_begun};
ghost use Rattle.co_sdo.specs.Server.{upload_segment as is_segment, value_answer as is_given};

use crate::frames::{
    expedited_upload, is_expedited, is_last_piece, next_segment, place_named, segmented_upload,
    toggle_bit,
};
use crate::rest::Rest;
use crate::step::{Step, aborted, not_understood, replied};
use crate::transfer::Transfer;
use base::Octets;
use co_dict::{Abort, Dict, Shape, check_read};
use std::alloc::{AllocError, Global};

/// The answer with the value, or with its size; a copy of the value is kept for the segments.
fn value_given(alloc: Global, place: (u16, u8), value: &[u8]) -> Result<Step, AllocError>
    requires { length value.now ≤ longest_value }
    ensures { IfOk result (λ step. (values : Values)
        → is_given place value.now values ≡ record {
          answer = step.answer;
          values = values;
          transfer = step.transfer;
          wrote = step.wrote;
        }) }
{
    if is_expedited(value) {
        return Ok(replied(expedited_upload(place, value), Transfer::Idle));
    }
    let frame = segmented_upload(place, value.len() as u32);
    let rest = Rest::new(Octets::from_slice(alloc, value)?);
    let transfer = Transfer::Upload {
        place,
        rest,
        toggle: false,
    };
    Ok(replied(frame, transfer))
}

/// The bytes that an entry holds; none where it has no value.
fn value_of<'d>(dict: &'d Dict, place: (u16, u8)) -> &'d [u8]
    ensures value { result.now ≡ bytes_at dict.now place }
    ensures short { length result.now ≤ longest_value }
{
    match dict.read(place.0, place.1) {
        Some(value) => value,
        None => &[],
    }
}

/// An upload request.
#[tactic(auto, unfolding(crate::specs::Server::upload_answer))]
pub fn upload_begun(
    alloc: Global,
    shape: &Shape,
    dict: &Dict,
    request: &[u8; 8],
) -> Result<Step, AllocError>
    ensures { IfOk result (λ step. is_begun shape.now dict.now request.now
        ≡ record { answer = step.answer; values = dict.now; transfer = step.transfer; wrote = step.wrote }) }
{
    let place = place_named(request);
    if let Err(abort) = check_read(shape, place.0, place.1) {
        return Ok(aborted(place, abort));
    }
    value_given(alloc, place, value_of(dict, place))
}

/// A request of the next segment of the open upload.
#[tactic(auto, unfolding(crate::specs::Server::upload_segment_answer))]
fn segment_given(place: (u16, u8), rest: Rest, toggle: bool, request: &[u8; 8]) -> Step
    ensures { (values : Values) → is_segment_given values place rest toggle request.now
        ≡ record { answer = result.answer; values = values; transfer = result.transfer; wrote = result.wrote } }
{
    if request[0] != 0x60 + toggle_bit(toggle) {
        return aborted(place, Abort::TOGGLE_NOT_ALTERNATED);
    }
    let frame = next_segment(toggle, rest.as_slice());
    if is_last_piece(rest.as_slice()) {
        return replied(frame, Transfer::Idle);
    }
    let transfer = Transfer::Upload {
        place,
        rest: rest.after_segment(),
        toggle: !toggle,
    };
    replied(frame, transfer)
}

/// A request of a segment of an upload.
pub fn upload_segment(transfer: Transfer, request: &[u8; 8]) -> Step
    ensures { (values : Values) → is_segment values transfer request.now
        ≡ record { answer = result.answer; values = values; transfer = result.transfer; wrote = result.wrote } }
{
    match transfer {
        Transfer::Upload {
            place,
            rest,
            toggle,
        } => segment_given(place, rest, toggle, request),
        other => not_understood(&other),
    }
}
