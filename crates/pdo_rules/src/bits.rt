//! Bits in a number of 64, position 0 the lowest.

ghost use Rattle.std.specs.Prelude.{◌≡◌, ◌≤◌, ◌+◌, ◌*◌, ◌/◌, ◌%◌, ◌^◌};

/// The lowest bits of a number, `length` of them, moved to a position.
pub(crate) fn moved_up(number: u64, length: u32, position: u32) -> u64
    requires { position + length ≤ 64 }
    ensures moved { result ≡ 2 ^ position * (number % 2 ^ length) }
    ensures bound { result + 2 ^ position ≤ 2 ^ (position + length) }
{
    ((u128::from(number) % (1u128 << length)) << position) as u64
}

/// The bits of a number from a position on, `length` of them.
pub(crate) fn moved_down(number: u64, length: u32, position: u32) -> u64
    requires { position + length ≤ 64 }
    ensures { result ≡ number / 2 ^ position % 2 ^ length }
{
    ((u128::from(number) >> position) % (1u128 << length)) as u64
}
