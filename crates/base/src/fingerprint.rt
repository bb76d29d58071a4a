//! Numbers that tell values apart.

ghost use Rattle.std.specs.Prelude.{◌≡◌};
ghost use Rattle.std.specs.List.{fold};
ghost use Rattle.base.specs.Fingerprint.{mix};

/// What a fingerprint is multiplied by ahead of each number (the factor of Knuth's MMIX generator): odd, so that no
/// two become one by it.
const FACTOR: u64 = 0x5851_F42D_4C95_7F2D;

/// A fingerprint with one more number.
#[inline]
#[tactic(auto, unfolding(crate::specs::Fingerprint::mix))]
pub fn mix(fingerprint: u64, number: u64) -> u64
    ensures { result ≡ mix fingerprint number }
{
    fingerprint.wrapping_mul(FACTOR).wrapping_add(number)
}

/// A fingerprint with each of these bytes, one behind the other.
pub fn mix_bytes(fingerprint: u64, bytes: &[u8]) -> u64
    ensures { result ≡ fold mix fingerprint bytes.now }
{
    let mut all = fingerprint;
    let mut rest = bytes;
    while let [byte, after @ ..] = rest {
        all = mix(all, u64::from(*byte));
        rest = after;
    }
    all
}
