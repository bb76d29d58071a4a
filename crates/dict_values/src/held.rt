//! The bytes of one value.

ghost use Rattle.std.specs.Prelude.{◌≡◌, ◌≤◌, ◌↔◌, ℕ, List, length, IfOk, IsTrue};
ghost use Rattle.co_values.specs.Values.{longest_value};

use base::{Octets, Shared};
use std::alloc::{AllocError, Global};
use std::marker::Model;
use std::rc::Rc;

/// The longest value that lies in place.
pub(crate) const IN_PLACE: usize = 8;

/// How the bytes of a value lie: eight at most in place, more behind a handle that copies share.
#[derive(Drop)]
enum Kept {
    Short { count: u8, bytes: [u8; 8] },
    Long(Rc<Octets>),
}

/// The bytes of one value, at most 512.
#[derive(Drop)]
pub(crate) struct Held {
    kept: Kept,
}

impl Model for Held {
    ghost use Rattle.std.specs.Prelude.{List, ℕ};
    ghost use Rattle.dict_values.specs.Held.{bytes_of, IsKept};

    ghost Value = { List ℕ };

    ghost view = { λ held. bytes_of held.kept };

    ghost invariant = { λ held. IsKept held.kept };
}

/// At most eight bytes, in place.
fn short(bytes: &[u8]) -> Held
    requires { length bytes.now ≤ 8 }
    ensures { result ≡ bytes.now }
{
    let mut stored = [0; IN_PLACE];
    stored[..bytes.len()].copy_from_slice(bytes);
    Held {
        kept: Kept::Short {
            count: bytes.len() as u8,
            bytes: stored,
        },
    }
}

/// Bytes behind a handle.
fn long(alloc: Global, bytes: &[u8]) -> Result<Held, AllocError>
    requires { length bytes.now ≤ longest_value }
    ensures { IfOk result (λ held. held ≡ bytes.now) }
{
    let octets = Octets::from_slice(alloc, bytes)?;
    let octets = Rc::new(alloc, octets)?;
    Ok(Held {
        kept: Kept::Long(octets),
    })
}

/// Whether eight bytes are the same eight.
fn same_eight(bytes: &[u8; 8], others: &[u8; 8]) -> bool
    ensures { IsTrue result → bytes.now ≡ others.now }
{
    u64::from_le_bytes(*bytes) == u64::from_le_bytes(*others)
}

impl Held {
    /// A copy of a slice's bytes. Takes no memory for at most eight.
    pub(crate) fn of(alloc: Global, bytes: &[u8]) -> Result<Held, AllocError>
        requires { length bytes.now ≤ longest_value }
        ensures { IfOk result (λ held. held ≡ bytes.now) }
    {
        if bytes.len() <= IN_PLACE {
            Ok(short(bytes))
        } else {
            long(alloc, bytes)
        }
    }

    /// The bytes that others hold too: more than eight are shared with them. Takes no memory.
    pub(crate) fn shared(bytes: &Shared<Octets>) -> Result<Held, AllocError>
        requires { length bytes.now ≤ longest_value }
        ensures { IfOk result (λ held. held ≡ bytes.now) }
    {
        let octets = bytes.get();
        if octets.len() <= IN_PLACE {
            return Ok(short(octets.as_slice()));
        }
        let octets = bytes.pointer()?;
        Ok(Held {
            kept: Kept::Long(octets),
        })
    }

    /// The bytes.
    pub(crate) fn as_slice(&self) -> &[u8]
        ensures bytes { result.now ≡ self.now }
        ensures short { length result.now ≤ longest_value }
    {
        match &self.kept {
            Kept::Short { count, bytes } => &bytes[..usize::from(*count)],
            Kept::Long(octets) => octets.as_slice(),
        }
    }
    /// Whether both lie in place, with the same in all of it.
    fn is_like(&self, other: &Held) -> bool
        ensures { IsTrue result → self.now ≡ other.now }
    {
        match (&self.kept, &other.kept) {
            (
                Kept::Short { count, bytes },
                Kept::Short {
                    count: other_count,
                    bytes: others,
                },
            ) => *count == *other_count && same_eight(bytes, others),
            _ => false,
        }
    }

    /// Whether the bytes are the same. Takes time by their number, and next to none where both lie in place.
    pub(crate) fn same(&self, other: &Held) -> bool
        ensures { IsTrue result ↔ (self.now ≡ other.now) }
    {
        self.is_like(other) || self.as_slice() == other.as_slice()
    }
}

impl Clone for Held {
    ghost is_clone = { λ a b. b ≡ a };

    /// The same bytes. Takes no memory.
    fn clone(&self) -> Result<Held, AllocError> {
        match &self.kept {
            Kept::Short { count, bytes } => Ok(Held {
                kept: Kept::Short {
                    count: *count,
                    bytes: *bytes,
                },
            }),
            Kept::Long(octets) => {
                let octets = octets.clone()?;
                Ok(Held {
                    kept: Kept::Long(octets),
                })
            }
        }
    }
}
