//! Bit patterns, one after another.

use crate::type_of;
use real_texts::{Real, bits_text, read_real};
use std::alloc::{AllocError, Global};

/// So many bit patterns from the first on, by a step.
#[derive(Drop)]
pub struct Sweep {
    real: Real,
    first: u64,
    step: u64,
    count: u64,
}

/// The number that hexadecimal digits write.
fn number(digits: &str) -> Option<u64> {
    u64::from_str_radix(digits, 16).ok()
}

/// Whether the text of a value is read as that value.
fn reads_back(alloc: Global, real: Real, bits: u64) -> Result<bool, AllocError> {
    let text = bits_text(alloc, real, bits)?;
    Ok(read_real(real, &text) == Some(bits))
}

/// The bits of a pattern of a type.
fn cut(real: Real, bits: u64) -> u64 {
    match real {
        Real::Real32 => bits % (1 << 32),
        Real::Real64 => bits,
    }
}

impl Sweep {
    /// What a text of a type and three numbers asks for: the first, the step and how many.
    pub fn read(text: &str) -> Option<Sweep> {
        let (word, text) = text.split_once(' ')?;
        let (first, text) = text.split_once(' ')?;
        let (step, count) = text.split_once(' ')?;
        Some(Sweep {
            real: type_of(word)?,
            first: number(first)?,
            step: number(step)?,
            count: number(count)?,
        })
    }

    /// How many of the patterns are finite, and how many of these are read as other bits.
    pub fn run(&self, alloc: Global) -> Result<(u64, u64), AllocError> {
        let mut bits = cut(self.real, self.first);
        let mut finite = 0u64;
        let mut wrong = 0u64;
        for _ in 0..self.count {
            if self.real.is_finite(bits) {
                finite = finite.saturating_add(1);
                if !reads_back(alloc, self.real, bits)? {
                    wrong = wrong.saturating_add(1);
                }
            }
            bits = cut(self.real, bits.wrapping_add(self.step));
        }
        Ok((finite, wrong))
    }
}
