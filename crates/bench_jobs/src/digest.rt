//! A writer that keeps a digest of what it takes.

use std::io;
use std::io::Write;

/// An odd factor by which the bits of a word spread.
const FACTOR: u64 = 0x9E37_79B9_7F4A_7C15;

/// Keeps a digest of the bytes that it takes, however they are cut into writes: each word of eight bytes, the
/// first one lowest, and at the end those that are left with their number, go into it one after another.
#[derive(Drop)]
pub struct Digest {
    value: u64,
    /// The bytes of the word that isn't whole, the first one lowest.
    word: u64,
    bytes: u64,
}

fn mixed(value: u64, word: u64) -> u64 {
    let value = (value ^ word).wrapping_mul(FACTOR);
    value ^ (value >> 29)
}

impl Digest {
    pub fn new() -> Digest {
        Digest {
            value: 0,
            word: 0,
            bytes: 0,
        }
    }

    /// The digest of all bytes that were taken.
    pub fn value(&self) -> u64 {
        mixed(mixed(self.value, self.word), self.bytes)
    }

    /// How many bytes were taken.
    pub fn bytes(&self) -> u64 {
        self.bytes
    }

    fn take(&mut self, byte: u8) {
        self.word |= u64::from(byte) << (self.bytes % 8 * 8);
        self.bytes = self.bytes.wrapping_add(1);
        if self.bytes % 8 == 0 {
            self.value = mixed(self.value, self.word);
            self.word = 0;
        }
    }

    fn take_word(&mut self, word: u64) {
        self.value = mixed(self.value, word);
        self.bytes = self.bytes.wrapping_add(8);
    }
}

impl Write for Digest {
    fn write(&mut self, buf: &[u8]) -> io::Result<usize> {
        let mut rest = buf;
        'single: while self.bytes % 8 != 0 {
            let Some((first, others)) = rest.split_first() else {
                return Ok(buf.len());
            };
            self.take(*first);
            rest = others;
        }
        let (words, left) = rest.as_chunks::<8>();
        for word in words {
            self.take_word(u64::from_le_bytes(*word));
        }
        for byte in left {
            self.take(*byte);
        }
        Ok(buf.len())
    }

    fn flush(&mut self) -> io::Result<()> {
        Ok(())
    }
}
