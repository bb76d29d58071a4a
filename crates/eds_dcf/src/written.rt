//! What writes leave.
ghost use Rattle.std.specs.Prelude.{◌≡◌, ◌≤◌, ℕ, All, IfOk, None, Some, length, option_copied};
ghost use Rattle.std.specs.Bool.{IsFalse};
ghost use Rattle.std.specs.FinMap.{empty, get};
ghost use Rattle.co_values.specs.Values.{longest_value};
ghost use Rattle.eds_dcf.specs.Writes.{last_of};

use co_dict::Dict;
use concise_dcf::Write;
use std::alloc::{AllocError, Global};
use std::marker::Model;

/// How many flags there are.
const FLAGS: usize = 4096;

/// The values that writes leave, and flags by index: where that of an object isn't set, no entry of it
/// has a value. Contracts see the values.
#[derive(Drop)]
pub(crate) struct Written {
    values: Dict,
    flags: [bool; FLAGS],
}

impl Model for Written {
    ghost use Rattle.std.specs.Coded.{coded_ℕ, coded_list, coded×};
    ghost use Rattle.std.specs.FinMap as map;
    ghost use Rattle.co_dict.specs.Values.{Values};
    ghost use Rattle.eds_dcf.specs.Template.{Tells};

    ghost Value = { Values };

    ghost coded = { map.code (coded× coded_ℕ coded_ℕ) (coded_list coded_ℕ) };

    ghost view = { λ w. w.values };

    ghost invariant = { λ w. Tells w.flags (map.get w.values) };
}

/// The index and the sub-index of a write.
fn place_of(write: &Write) -> (u16, u8)
    ensures index { result.0 ≡ write.now.index }
    ensures sub { result.1 ≡ write.now.sub }
{
    (write.index, write.sub)
}

impl Written {
    /// No value.
    pub(crate) fn none(alloc: Global) -> Written
        ensures { result ≡ empty }
    {
        Written {
            values: Dict::new(alloc),
            flags: [false; FLAGS],
        }
    }

    /// The values that writes leave: of each entry that of its last write.
    pub(crate) fn by(alloc: Global, writes: &[Write]) -> Result<Written, AllocError>
        requires { All (λ w. length w.bytes ≤ longest_value) writes.now }
        ensures { IfOk result (λ values. (place : ℕ × ℕ) → get values place ≡ last_of writes.now place) }
    {
        let mut values = Dict::new(alloc);
        let mut flags = [false; FLAGS];
        for write in writes {
            let (index, sub) = place_of(write);
            values.write(index, sub, write.bytes.as_slice())?;
            flags[usize::from(index) % FLAGS] = true;
        }
        Ok(Written { values, flags })
    }

    /// The value of an entry, if it has one.
    pub(crate) fn read(&self, index: u16, sub: u8) -> Option<&[u8]>
        ensures value { option_copied result ≡ get self.now (index, sub) }
    {
        self.values.read(index, sub)
    }

    /// Whether an entry of an object may have a value, if there is an object. Takes constant time.
    pub(crate) fn may_have(&self, object: Option<u16>) -> bool
        ensures { IsFalse result → (index sub : ℕ) → object ≡ Some index → get self.now (index, sub) ≡ None }
    {
        match object {
            Some(index) => self.flags[usize::from(index) % FLAGS],
            None => false,
        }
    }
}
