//! The earlier of two moments.

ghost use Rattle.std.specs.Prelude.{◌≡◌};
ghost use Rattle.base.specs.Moments.{earlier as earlier_of};

/// The earlier of two moments, in microseconds; where one isn't there, the other.
pub fn earlier(one: Option<u64>, other: Option<u64>) -> Option<u64>
    ensures { result ≡ earlier_of one other }
{
    match (one, other) {
        (None, _) => other,
        (_, None) => one,
        (Some(one), Some(other)) => Some(one.min(other)),
    }
}
