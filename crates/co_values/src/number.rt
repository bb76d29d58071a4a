//! Numbers from text.

ghost use Rattle.std.specs.Prelude.{◌≡◌, ℕ, pos, neg_ℤ, Option, option_map, option_and_then};
ghost use Rattle.base.specs.Digits.{within_cap};
ghost use Rattle.co_values.specs.Number.{number, in_range as in_range_number, hexadecimal as hexadecimal_number};
ghost use Rattle.co_values.specs.Number.{octal as octal_number, unsigned_number};

use base::read_digits;

/// 2^64, which is past every number that a text may give.
pub(crate) const LIMIT: u128 = 0x1_0000_0000_0000_0000;

/// The number behind `0x`, cut at 2^64.
pub(crate) fn hexadecimal(text: &[u8]) -> Option<u128>
    ensures { result ≡ within_cap (hexadecimal_number text.now) }
{
    match text {
        [b'0', b'x' | b'X', rest @ ..] => read_digits(16, rest),
        _ => None,
    }
}

/// The number that octal digits write behind a 0, cut at 2^64.
fn octal(text: &[u8]) -> Option<u128>
    ensures { result ≡ within_cap (octal_number text.now) }
{
    match text {
        [b'0', rest @ ..] => read_digits(8, rest),
        _ => None,
    }
}

/// The number that a text without sign spells, cut at 2^64.
pub(crate) fn unsigned(text: &[u8]) -> Option<u128>
    ensures { result ≡ within_cap (unsigned_number text.now) }
{
    if let Some(number) = hexadecimal(text) {
        return Some(number);
    }
    if let Some(number) = octal(text) {
        return Some(number);
    }
    read_digits(10, text)
}

/// A number that isn't below 0, where it is in range.
pub(crate) fn in_range(number: u128) -> Option<i128>
    ensures { result ≡ in_range_number (pos number) }
{
    if number < LIMIT {
        Some(number as i128)
    } else {
        None
    }
}

/// A number that isn't below 0, cut at 2^64: the number itself, where it is in range.
fn positive(number: Option<u128>) -> Option<i128>
    ensures { (o : Option ℕ) → number ≡ within_cap o
        → result ≡ option_and_then in_range_number (option_map pos o) }
{
    in_range(number?)
}

/// The size of a number below 0, cut at 2^64: that number, where it is in range.
fn negative(size: Option<u128>) -> Option<i128>
    ensures { (o : Option ℕ) → size ≡ within_cap o
        → result ≡ option_and_then in_range_number (option_map (λ n. neg_ℤ (pos n)) o) }
{
    let size = size?;
    if size <= LIMIT / 2 {
        Some(-(size as i128))
    } else {
        None
    }
}

/// The number that a text of an EDS or DCF (CiA 306) spells, from -2^63 to 2^64 - 1: an optional
/// `-`, and then `0x` and hexadecimal digits, or 0 and octal digits alone, or any other decimal
/// digits. `None` for any other text.
#[tactic(auto, unfolding(crate::specs::Number::number))]
pub fn read_number(text: &[u8]) -> Option<i128>
    ensures { result ≡ number text.now }
{
    match text {
        [b'-', rest @ ..] => negative(unsigned(rest)),
        _ => positive(unsigned(text)),
    }
}
