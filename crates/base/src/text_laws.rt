//! Laws of digits, each a function whose contract is the law.
ghost use Rattle.std.specs.Prelude.{◌≡◌, ◌^◌, ◌<◌, ◌≤◌, ℕ, Some, decimal, List, length};
ghost use Rattle.base.specs.Digits.{digits_number, byte_digits, index_digits, identifier_digits};

/// The digits of a number are read as that number.
#[tactic(auto, using(crate::proofs::DigitLemmas::digit_laws))]
pub fn digits_are_read()
    ensures byte { (n : ℕ) → n ≤ 255 → digits_number 16 (byte_digits n) ≡ Some n }
    ensures index { (n : ℕ) → n ≤ 65535 → digits_number 16 (index_digits n) ≡ Some n }
    ensures identifier { (n : ℕ) → n ≤ 4095 → digits_number 16 (identifier_digits n) ≡ Some n }
    ensures decimal { (n : ℕ) → n < 10 ^ 64 → digits_number 10 (decimal n) ≡ Some n }
{}

/// A number is less than the base to the power of its digits.
pub fn digits_bound_the_number()
    ensures { (base n : ℕ) (text : List ℕ) → digits_number base text ≡ Some n → n < base ^ length text }
{}
