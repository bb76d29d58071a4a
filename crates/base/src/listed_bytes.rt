//! Bytes with the reply that shows them in hexadecimal digits.
ghost use Rattle.std.specs.Prelude.{◌≡◌, IfOk};
ghost use Rattle.base.specs.Hex.{hex_text};
ghost use Rattle.base.specs.Replies.{lines_reply};

use crate::hex::hex_text;
use crate::listed_text::ListedText;
use std::alloc::{AllocError, Global};
use std::marker::Model;

/// Bytes with the reply that shows them as lines of hexadecimal digits. Contracts see the bytes.
#[derive(Debug, Drop)]
pub struct ListedBytes {
    bytes: Vec<u8>,
    digits: ListedText,
}

impl Model for ListedBytes {
    ghost use Rattle.std.specs.Prelude.{◌≡◌, List, ℕ};
    ghost use Rattle.base.specs.Hex.{hex_text};

    ghost Value = { List ℕ };

    ghost view = { λ b. b.bytes.items };

    ghost invariant = { λ b. b.digits ≡ hex_text b.bytes.items };
}

impl ListedBytes {
    /// These bytes, with their reply. Takes time and memory by their number; want of memory is the only
    /// error.
    pub fn new(alloc: Global, bytes: Vec<u8>) -> Result<ListedBytes, AllocError>
        ensures { IfOk result (λ b. b ≡ bytes.items) }
    {
        let text = hex_text(alloc, &bytes)?;
        let digits = ListedText::new(alloc, &text)?;
        Ok(ListedBytes { bytes, digits })
    }

    /// The bytes. Takes constant time.
    pub fn bytes(&self) -> &[u8]
        ensures { result.now ≡ self.now }
    {
        &self.bytes
    }

    /// `lines K`, and the K lines of the bytes in hexadecimal digits, 16 a line. Takes constant time: they
    /// were made with the bytes.
    pub fn reply(&self) -> &[u8]
        ensures { result.now ≡ lines_reply (hex_text self.now) }
    {
        self.digits.reply()
    }
}
