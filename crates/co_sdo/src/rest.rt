//! The bytes of a value that are still to be sent.

ghost use Rattle.std.specs.Prelude.{◌≡◌, ◌↔◌, ◌+◌, ◌≤◌, drop, min, IsTrue, IfOk};

use base::Octets;
use std::alloc::AllocError;
use std::marker::Model;

/// The bytes of a value that weren't sent yet, which contracts see as their list.
#[derive(Drop)]
pub struct Rest {
    value: Octets,
    sent: usize,
}

impl Model for Rest {
    ghost use Rattle.std.specs.Prelude.{List, ℕ, ◌≤◌, drop, length};

    ghost Value = { List ℕ };

    ghost view = { λ rest. drop rest.sent rest.value };

    ghost invariant = { λ rest. rest.sent ≤ length rest.value };
}

impl Rest {
    /// All bytes of a value.
    pub fn new(value: Octets) -> Rest
        ensures { result ≡ value }
    {
        Rest { value, sent: 0 }
    }

    /// The bytes.
    pub fn as_slice(&self) -> &[u8]
        ensures { result.now ≡ self.now }
    {
        &self.value.as_slice()[self.sent..]
    }

    /// An equal one.
    pub fn copy(&self) -> Result<Rest, AllocError>
        ensures { IfOk result (λ rest. rest ≡ self.now) }
    {
        Ok(Rest {
            value: self.value.clone()?,
            sent: self.sent,
        })
    }

    /// Whether the bytes are the same.
    pub fn same(&self, other: &Rest) -> bool
        ensures { IsTrue result ↔ (self.now ≡ other.now) }
    {
        self.as_slice() == other.as_slice()
    }

    /// What is left after the bytes of a segment.
    pub fn after_segment(self) -> Rest
        ensures { result ≡ drop 7 self }
    {
        let sent = after_segment(self.sent, self.value.len());
        Rest {
            value: self.value,
            sent,
        }
    }
}

/// How many bytes of a value were sent, once a further segment of up to seven was.
fn after_segment(sent: usize, len: usize) -> usize
    requires { sent ≤ len }
    ensures { result ≡ min (sent + 7) len }
{
    if len - sent < 7 { len } else { sent + 7 }
}
