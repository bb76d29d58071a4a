//! Values as texts.

ghost use Rattle.std.specs.Prelude.{◌≡◌, ℕ, ◌-◌, ◌*◌, ◌^◌, ◌<◌, ◌≤◌, ◌++◌, length, min, drop, IfOk};
ghost use Rattle.std.specs.List.{prefix_len, suffix_len};
ghost use Rattle.std.specs.Fmt.{sign_text};
ghost use Rattle.real_texts.specs.Naturals.{low_digits, all_digits};
ghost use Rattle.real_texts.specs.Reals.{format_of, octets, AreFinite};
ghost use Rattle.real_texts.specs.Texts.{is_zero, without_last_zeros, point_and, decimal_text, bits_text, exact_text};

use crate::natural::Natural;
use crate::real::Real;
use byteorder::{ByteOrder, LittleEndian};
use std::alloc::{AllocError, Global};

/// Whether a digit is `0`.
fn is_zero(digit: u8) -> bool
    ensures { result ≡ is_zero digit }
{
    digit == b'0'
}

/// The number of zeros that digits begin with.
fn first_zeros(digits: &[u8]) -> usize
    ensures { result ≡ prefix_len is_zero digits.now }
{
    digits.iter().take_while(|digit| is_zero(**digit)).count()
}

/// The number of zeros that digits end with.
fn last_zeros(digits: &[u8]) -> usize
    ensures count { result ≡ suffix_len is_zero digits.now }
    ensures within { result ≤ length digits.now }
{
    digits
        .iter()
        .rev()
        .take_while(|digit| is_zero(**digit))
        .count()
}

/// Digits without the zeros at their start, the last digit apart.
fn without_first_zeros(digits: &[u8]) -> &[u8]
    requires { 0 < length digits.now }
    ensures { result.now ≡ drop (min (prefix_len is_zero digits.now) (length digits.now - 1)) digits.now }
{
    &digits[first_zeros(digits).min(digits.len() - 1)..]
}

/// Digits without the zeros at their end.
fn without_last_zeros(digits: &[u8]) -> &[u8]
    ensures { result.now ≡ without_last_zeros digits.now }
{
    &digits[..digits.len() - last_zeros(digits)]
}

/// A minus, or nothing.
fn sign(alloc: Global, is_negative: bool) -> Result<Vec<u8>, AllocError>
    ensures { IfOk result (λ text. text.items ≡ sign_text is_negative) }
{
    if is_negative {
        Vec::from_slice(alloc, b"-")
    } else {
        Ok(Vec::new(alloc))
    }
}

/// Appends a point and the digits behind it, where there are any.
fn push_fraction(text: Vec<u8>, digits: &[u8]) -> Result<Vec<u8>, AllocError>
    ensures { IfOk result (λ longer. longer.items ≡ text.items ++ point_and digits.now) }
{
    if digits.is_empty() {
        return Ok(text);
    }
    let mut text = text;
    text.push(b'.')?;
    text.extend_from_slice(digits)?;
    Ok(text)
}

/// Appends n / 2^places, given the digits of n * 5^places, of which so many stand behind the point.
fn push_decimal(text: Vec<u8>, digits: &[u8], places: usize) -> Result<Vec<u8>, AllocError>
    requires { places < length digits.now }
    ensures { IfOk result (λ longer. (n : ℕ)
        → digits.now ≡ low_digits (length digits.now) (n * 5 ^ places)
        → n * 5 ^ places < 10 ^ length digits.now
        → longer.items ≡ text.items ++ decimal_text n places) }
{
    let (whole, fraction) = digits.split_at(digits.len() - places);
    let mut text = text;
    text.extend_from_slice(without_first_zeros(whole))?;
    let text = push_fraction(text, without_last_zeros(fraction))?;
    Ok(text)
}

/// The exact decimal number of finite bits.
fn finite_text(alloc: Global, real: Real, bits: u64) -> Result<Vec<u8>, AllocError>
    requires { AreFinite (format_of real) bits }
    ensures { IfOk result (λ text. text.items ≡ bits_text (format_of real) bits) }
{
    let places = real.places(bits);
    let number = Natural::new(alloc, real.significand(bits))?;
    let doubled = number.times_twos(real.doublings(bits))?;
    let shifted = doubled.times_fives(places)?;
    let digits = shifted.digits(alloc, places as usize + 1)?;
    let sign = sign(alloc, real.is_negative(bits))?;
    let text = push_decimal(sign, &digits, places as usize)?;
    Ok(text)
}

/// The exact decimal number of bits, without an exponent, as `real_text` prints it.
#[tactic(auto, unfolding(crate::specs::Texts::bits_text))]
pub fn bits_text(alloc: Global, real: Real, bits: u64) -> Result<Vec<u8>, AllocError>
    ensures { IfOk result (λ text. text.items ≡ bits_text (format_of real) bits) }
{
    if real.is_finite(bits) {
        finite_text(alloc, real, bits)
    } else {
        Ok(Vec::new(alloc))
    }
}

/// The exact decimal number of a value of REAL32 or REAL64 (IEEE 754), whose 4 or 8 bytes are given
/// lowest first: `-` where its sign is set; the digits of its whole part; and where it has a
/// fraction a point and the fraction's digits, the last of which isn't 0. `read_real` reads it back
/// as that value. Of infinities and NaNs, which are no numbers, it is empty. A fraction has up to 149
/// or 1,074 digits; takes time quadratic in the digits.
pub fn real_text(alloc: Global, real: Real, bytes: &[u8]) -> Result<Vec<u8>, AllocError>
    requires { length bytes.now ≡ octets (format_of real) }
    ensures { IfOk result (λ text. text.items ≡ exact_text (format_of real) bytes.now) }
{
    bits_text(alloc, real, LittleEndian::read_uint(bytes, real.octets()))
}
