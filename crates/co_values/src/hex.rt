//! Bytes as pairs of hexadecimal digits.

ghost use Rattle.std.specs.Prelude.{◌≡◌, ◌<◌, ◌++◌, Some, IfOk, IsSome, is_some};
ghost use Rattle.std.specs.Char.{digit_value, is_digit};
ghost use Rattle.std.specs.List.{list_all};
ghost use Rattle.co_values.specs.Values.{bytes_of_pairs, pair_number as number_of_pair, pairs_of};

use base::byte_digits;
use std::alloc::{AllocError, Global};

/// Appends each byte as two upper-case digits.
pub(crate) fn push_pairs(mut text: Vec<u8>, bytes: &[u8]) -> Result<Vec<u8>, AllocError>
    ensures { IfOk result (λ after. after.items ≡ text.items ++ pairs_of bytes.now) }
{
    for byte in bytes {
        text.extend_from_slice(&byte_digits(*byte))?;
    }
    Ok(text)
}

/// Whether each byte is a hexadecimal digit.
fn are_digits(text: &[u8]) -> bool
    ensures { result ≡ list_all (λ c. is_digit c 16) text.now }
{
    text.iter().all(|byte| char::from(*byte).is_digit(16))
}

/// Whether a text is pairs of hexadecimal digits.
#[tactic(auto, using(crate::proofs::Pairs::pairs))]
pub(crate) fn is_paired(text: &[u8]) -> bool
    ensures { result ≡ is_some (bytes_of_pairs text.now) }
{
    text.len() % 2 == 0 && are_digits(text)
}

/// The number that a hexadecimal digit writes.
fn digit_number(digit: u8) -> u8
    requires { digit_value digit < 16 }
    ensures { result ≡ digit_value digit }
{
    match digit {
        b'0'..=b'9' => digit - b'0',
        b'a'..=b'f' => digit - b'a' + 10,
        _ => digit - b'A' + 10,
    }
}

/// The byte that two hexadecimal digits write.
fn pair_number(high: u8, low: u8) -> u8
    requires high { digit_value high < 16 }
    requires low { digit_value low < 16 }
    ensures { result ≡ number_of_pair high low }
{
    16 * digit_number(high) + digit_number(low)
}

/// The bytes that pairs of hexadecimal digits write.
pub(crate) fn read_pairs(alloc: Global, text: &[u8]) -> Result<Vec<u8>, AllocError>
    requires { IsSome (bytes_of_pairs text.now) }
    ensures { IfOk result (λ bytes. Some bytes.items ≡ bytes_of_pairs text.now) }
{
    let mut bytes = Vec::with_capacity(alloc, text.len() / 2)?;
    for pair in 0..text.len() / 2 {
        bytes.push(pair_number(text[2 * pair], text[2 * pair + 1]))?;
    }
    Ok(bytes)
}
