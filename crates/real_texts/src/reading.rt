//! Values of texts.

ghost use Rattle.std.specs.Prelude.{◌≡◌};
ghost use Rattle.std.specs.Float.{binary32, binary64};
ghost use Rattle.real_texts.specs.Reals.{format_of, finite_bits};
ghost use Rattle.real_texts.specs.Texts.{real_bits};

use crate::real::Real;

/// The bits of a number of binary32.
fn bits_32(value: f32) -> Option<u64>
    ensures { result ≡ finite_bits binary32 value }
{
    if value.is_finite() {
        Some(u64::from(value.to_bits()))
    } else {
        None
    }
}

/// The bits of a number of binary64.
fn bits_64(value: f64) -> Option<u64>
    ensures { result ≡ finite_bits binary64 value }
{
    if value.is_finite() {
        Some(value.to_bits())
    } else {
        None
    }
}

/// The bits of the value of REAL32 or REAL64 (IEEE 754) that is nearest to a decimal number, ties to
/// even: an optional `+` or `-`; digits with at most one point, at least one digit; then optionally
/// `e` or `E`, an optional sign and at least one digit. `None` where the text is no such number, or
/// where that value isn't finite. Takes time linear in the text, and no memory.
#[tactic(auto, unfolding(crate::specs::Texts::real_bits))]
pub fn read_real(real: Real, text: &[u8]) -> Option<u64>
    ensures { result ≡ real_bits (format_of real) text.now }
{
    match real {
        Real::Real32 => bits_32(fast_float::parse(text).ok()?),
        Real::Real64 => bits_64(fast_float::parse(text).ok()?),
    }
}
