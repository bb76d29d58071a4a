//! Frames, and those that wait: `can_frame`.

use can_frame::{
    Contender, Frame, Pending, Purpose, Unwanted, exact_bits, line, slot_bits, winner,
};
use std::alloc::{AllocError, Global};

/// A frame of an identifier and bytes, where there is one.
pub fn frame(id: u16, bytes: &[u8]) -> Option<Frame> {
    Frame::new(id, bytes)
}

/// A frame is its identifier and its bytes.
pub fn parts(frame: &Frame) -> (u16, &[u8]) {
    (frame.id(), frame.bytes())
}

/// The bit times of a frame without its stuff bits.
pub fn bits(frame: &Frame) -> u32 {
    slot_bits(frame)
}

/// The bit times of a frame with its stuff bits.
pub fn bits_with_stuff_bits(frame: &Frame) -> u32 {
    exact_bits(frame)
}

/// The line of a frame in a trace.
pub fn shown(alloc: Global, time: u32, frame: &Frame) -> Result<Vec<u8>, AllocError> {
    line(alloc, time, frame)
}

/// No frames wait.
pub fn pending(alloc: Global) -> Pending {
    Pending::new(alloc)
}

/// A frame waits behind all others.
pub fn add(pending: &mut Pending, purpose: Purpose, frame: Frame) -> Result<(), AllocError> {
    pending.add(purpose, frame)
}

/// A frame takes the place of that of its purpose.
pub fn replace(pending: &mut Pending, purpose: Purpose, frame: Frame) -> Result<(), AllocError> {
    pending.replace(purpose, frame)
}

/// Frames are dropped.
pub fn drop_of(pending: &mut Pending, unwanted: Unwanted) {
    pending.drop_of(unwanted);
}

/// The frame that wins the bus, among those that wait at these senders.
pub fn first(lists: &[(u16, &Pending)]) -> Option<Contender> {
    winner(lists)
}
