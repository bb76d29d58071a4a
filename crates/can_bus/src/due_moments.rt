//! The due moments of a bus.

ghost use Rattle.std.specs.Prelude.{◌≡◌};
ghost use Rattle.can_bus.specs.Dues.{least, slot_moments};
ghost use Rattle.base.specs.Moments.{moments_of};

use crate::slot::Slot;

/// The earlier of two moments, the second if there is one.
pub(crate) fn sooner(moment: u64, other: Option<u64>) -> u64
    ensures { result ≡ least moment (moments_of other) }
{
    match other {
        None => moment,
        Some(other) => other.min(moment),
    }
}

/// The earlier of a moment and the end of the slot on the wire, where one is.
pub(crate) fn before_end(moment: u64, wire: &Option<Slot>) -> u64
    ensures { result ≡ least moment (slot_moments wire.now) }
{
    match wire {
        None => moment,
        Some(slot) => slot.end.min(moment),
    }
}
