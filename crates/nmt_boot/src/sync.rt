//! The SYNC messages of the manager.

ghost use Rattle.std.specs.Prelude.{◌≡◌, ◌<◌};
ghost use Rattle.nmt_boot.specs.Periodic as rules;

use can_frame::{Frame, identifiers};

/// The number that the k-th SYNC of a run carries, where the counter has this last number.
fn sync_number(last: u8, k: u64) -> u8
    requires { 0 < last }
    ensures { result ≡ rules.sync_number last k }
{
    let number = k.saturating_sub(1) % u64::from(last) + 1;
    number as u8
}

/// The frame of the k-th SYNC of a run: it carries its number, where the counter has a last one, and else no byte.
#[tactic(auto, unfolding(crate::specs::Periodic::sync_frame))]
pub(crate) fn sync_frame(last: u8, k: u64) -> Frame
    ensures { result ≡ rules.sync_frame last k }
{
    if last == 0 {
        return Frame::of(identifiers::sync(), &[]);
    }
    let number = sync_number(last, k);
    Frame::of(identifiers::sync(), &[number])
}
