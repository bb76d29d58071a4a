//! Walks over a list of waiting frames.
ghost use Rattle.std.specs.Prelude.{◌≡◌, ◌↔◌, length, position, IsTrue};
ghost use Rattle.can_frame.specs.Least.{IsFirstLeast};
ghost use Rattle.can_frame.specs.WaitingFrames.{identifiers, is_same, without_unwanted};

use crate::purpose::Purpose;
use crate::unwanted::Unwanted;
use crate::waiting::Waiting;

/// The place of the first of those with the least identifier, and 0 where none waits.
pub(crate) fn least_place(frames: &[Waiting]) -> usize
    ensures { IsFirstLeast (identifiers frames.now) (length frames.now) result }
{
    let mut least = 0;
    for place in 0..frames.len() {
        if frames[place].frame.id() < frames[least].frame.id() {
            least = place;
        }
    }
    least
}

/// The place of the first frame of a purpose.
pub(crate) fn place_of(frames: &[Waiting], purpose: Purpose) -> Option<usize>
    ensures { result ≡ position (λ w. is_same w.purpose purpose) frames.now }
{
    frames
        .iter()
        .position(|waiting| waiting.purpose.is_same(purpose))
}

/// Keeps what is wanted.
pub(crate) fn drop_unwanted(frames: &mut Vec<Waiting>, unwanted: Unwanted)
    ensures { frames.new.items ≡ without_unwanted unwanted frames.old.items }
{
    frames.retain(|waiting| !unwanted.includes(waiting.purpose));
}

/// Whether two lists are the same.
pub(crate) fn are_same(frames: &[Waiting], others: &[Waiting]) -> bool
    ensures { IsTrue result ↔ (frames.now ≡ others.now) }
{
    if frames.len() != others.len() {
        return false;
    }
    for place in 0..frames.len() {
        if !frames[place].same(&others[place]) {
            return false;
        }
    }
    true
}
