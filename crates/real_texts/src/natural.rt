//! Natural numbers of any size.

ghost use Rattle.std.specs.Prelude.{◌≡◌, ℕ, ◌+◌, ◌*◌, ◌^◌, ◌<◌, ◌≤◌, ◌++◌, length, IfOk};
ghost use Rattle.real_texts.specs.Naturals.{limbs_number, AreLimbs, billion, low_digits};

use std::alloc::{AllocError, Global};
use std::marker::Model;

/// What a limb counts to: nine decimal digits.
const BILLION: u64 = 1_000_000_000;

/// A natural number of any size. Contracts see it as that number.
#[derive(Drop)]
pub(crate) struct Natural {
    /// Its limbs to the base 10^9, the lowest first.
    limbs: Vec<u32>,
}

impl Model for Natural {
    ghost Value = { ℕ };

    ghost view = { λ n. limbs_number n.limbs.items };

    ghost invariant = { λ n. AreLimbs n.limbs.items };
}

/// Multiplies the number that limbs are, and hands out what is carried beyond them.
fn multiply(limbs: &mut [u32], factor: u32) -> u32
    requires limbs { AreLimbs limbs.old }
    requires factor { factor ≤ billion }
    ensures length { length limbs.new ≡ length limbs.old }
    ensures limbs { AreLimbs limbs.new }
    ensures carry { result < billion }
    ensures value { limbs_number limbs.new + result * billion ^ length limbs.old
        ≡ limbs_number limbs.old * factor }
{
    let mut carry = 0u64;
    for limb in limbs.iter_mut() {
        let product = u64::from(*limb) * u64::from(factor) + carry;
        *limb = (product % BILLION) as u32;
        carry = product / BILLION;
    }
    carry as u32
}

/// The nine lowest decimal digits of a number, leading zeros too.
fn nine_digits(number: u32) -> [u8; 9]
    ensures { result ≡ low_digits 9 number }
{
    let mut digits = [b'0'; 9];
    let mut left = number;
    let mut at = 9;
    while at > 0 {
        at -= 1;
        digits[at] = b'0' + (left % 10) as u8;
        left /= 10;
    }
    digits
}

/// Appends nine digits of each limb, the highest limb first.
fn push_digits(text: Vec<u8>, limbs: &[u32]) -> Result<Vec<u8>, AllocError>
    requires { AreLimbs limbs.now }
    ensures { IfOk result (λ longer. longer.items ≡ text.items ++ low_digits (9 * length limbs.now)
        (limbs_number limbs.now)) }
{
    let mut text = text;
    let mut at = limbs.len();
    while at > 0 {
        at -= 1;
        text.extend_from_slice(&nine_digits(limbs[at]))?;
    }
    Ok(text)
}

impl Natural {
    /// A number of up to 64 bits.
    pub(crate) fn new(alloc: Global, number: u64) -> Result<Natural, AllocError>
        ensures { IfOk result (λ natural. natural ≡ number) }
    {
        let mut limbs = Vec::new(alloc);
        let mut left = number;
        while left > 0 {
            limbs.push((left % BILLION) as u32)?;
            left /= BILLION;
        }
        Ok(Natural { limbs })
    }

    /// The product with a number of up to 10^9.
    fn times(self, factor: u32) -> Result<Natural, AllocError>
        requires { factor ≤ billion }
        ensures { IfOk result (λ product. product ≡ self * factor) }
    {
        let mut limbs = self.limbs;
        let carry = multiply(limbs.as_mut_slice(), factor);
        if carry > 0 {
            limbs.push(carry)?;
        }
        Ok(Natural { limbs })
    }

    /// The product with a power of a base, so many factors at once.
    fn times_power(self, base: u32, at_once: u32, count: u32) -> Result<Natural, AllocError>
        requires base { 0 < base }
        requires some { 0 < at_once }
        requires few { base ^ at_once ≤ billion }
        ensures { IfOk result (λ product. product ≡ self * base ^ count) }
    {
        let mut product = self;
        let mut left = count;
        while left > 0 {
            let step = left.min(at_once);
            product = product.times(base.pow(step))?;
            left -= step;
        }
        Ok(product)
    }

    /// The product with a power of two: 2^29 is the greatest one below 10^9.
    pub(crate) fn times_twos(self, count: u32) -> Result<Natural, AllocError>
        ensures { IfOk result (λ product. product ≡ self * 2 ^ count) }
    {
        self.times_power(2, 29, count)
    }

    /// The product with a power of five: 5^12 is the greatest one below 10^9.
    pub(crate) fn times_fives(self, count: u32) -> Result<Natural, AllocError>
        ensures { IfOk result (λ product. product ≡ self * 5 ^ count) }
    {
        self.times_power(5, 12, count)
    }

    /// The decimal digits of the number, the highest first, behind at least so many zeros.
    pub(crate) fn digits(&self, alloc: Global, zeros: usize) -> Result<Vec<u8>, AllocError>
        ensures digits { IfOk result (λ text. text.items ≡ low_digits (length text.items) self.now) }
        ensures enough { IfOk result (λ text. self.now * 10 ^ zeros < 10 ^ length text.items) }
        ensures more { IfOk result (λ text. zeros ≤ length text.items) }
    {
        let zeros = vec![in alloc; b'0'; zeros]?;
        let text = push_digits(zeros, self.limbs.as_slice())?;
        Ok(text)
    }
}
