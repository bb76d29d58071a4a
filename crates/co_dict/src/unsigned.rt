//! Entries of unsigned types.

ghost use Rattle.std.specs.Prelude.{◌≡◌};
ghost use Rattle.co_dict.specs.PdoChecks.{has_type, is_unsigned8, is_unsigned16, is_unsigned32};

use crate::shape::Shape;
use co_values::DataType;

impl Shape {
    /// Whether there is such an entry, an UNSIGNED8.
    pub fn has_unsigned8(&self, index: u16, sub: u8) -> bool
        ensures { result ≡ has_type is_unsigned8 self.now (index, sub) }
    {
        self.entry(index, sub)
            .is_some_and(|entry| matches!(entry.kind, DataType::Unsigned8))
    }

    /// Whether there is such an entry, an UNSIGNED16.
    pub fn has_unsigned16(&self, index: u16, sub: u8) -> bool
        ensures { result ≡ has_type is_unsigned16 self.now (index, sub) }
    {
        self.entry(index, sub)
            .is_some_and(|entry| matches!(entry.kind, DataType::Unsigned16))
    }

    /// Whether there is such an entry, an UNSIGNED32.
    pub fn has_unsigned32(&self, index: u16, sub: u8) -> bool
        ensures { result ≡ has_type is_unsigned32 self.now (index, sub) }
    {
        self.entry(index, sub)
            .is_some_and(|entry| matches!(entry.kind, DataType::Unsigned32))
    }
}
