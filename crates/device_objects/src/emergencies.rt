//! The emergency object.

ghost use Rattle.std.specs.Prelude.{◌≡◌};
ghost use Rattle.device_objects.specs.Profile.{emergency_frame as frame_of_emergency};

use can_frame::{Frame, identifiers};

/// The emergency object of a node (CiA 301): an error code, the error register, and five bytes that are
/// 0. Needs no memory.
#[tactic(auto, unfolding(crate::specs::Profile::emergency_frame))]
pub fn emergency_frame(number: u8, code: u16, register: u8) -> Frame
    ensures { result ≡ frame_of_emergency number code register }
{
    let [low, high] = code.to_le_bytes();
    Frame::of(
        identifiers::emergency(number),
        &[low, high, register, 0, 0, 0, 0, 0],
    )
}
