//! COB-IDs.

ghost use Rattle.std.specs.Prelude.{◌≡◌};
ghost use Rattle.cia301.specs.CobIds.{identifier_in, identifier_with_form as identifier_with_its_form};
ghost use Rattle.cia301.specs.CobIds.{is_of_base_frames as is_of_base, is_valid as is_of_valid};

use crate::identifier::Identifier;
use std::marker::Model;

/// Bit 29 of a COB-ID: its frames have an identifier of 29 bits.
const EXTENDED: u32 = 0x2000_0000;

/// A COB-ID (CiA 301): an identifier in the low bits, and what bits 31 to 29 say of it.
#[derive(Clone, Copy, Debug)]
pub struct CobId {
    bits: u32,
}

impl Model for CobId {
    ghost use Rattle.std.specs.Prelude.{ℕ};

    ghost Value = { ℕ };

    ghost view = { λ cob_id. cob_id.bits };

    ghost inverse = { λ bits. record { bits = bits } };
}

impl CobId {
    /// Bit 31: the object is off.
    pub const OFF_BIT: u32 = 0x8000_0000;

    /// Bit 30 of a TPDO: no RTR is allowed.
    pub const NO_RTR_BIT: u32 = 0x4000_0000;

    /// That of 32 bits.
    pub fn of(bits: u32) -> CobId
        ensures { result ≡ bits }
    {
        CobId { bits }
    }

    /// Whether the object exists: bit 31 is clear.
    pub fn is_valid(&self) -> bool
        ensures { result ≡ is_of_valid self.now }
    {
        self.bits < CobId::OFF_BIT
    }

    /// Whether its frames have an identifier of 11 bits: bit 29 is clear.
    pub fn is_of_base_frames(&self) -> bool
        ensures { result ≡ is_of_base self.now }
    {
        self.bits / EXTENDED % 2 == 0
    }

    /// The identifier of 11 bits: bits 0 to 10.
    pub fn identifier(&self) -> Identifier
        ensures { result ≡ identifier_in self.now }
    {
        Identifier::of_cob(self.bits)
    }

    /// The identifier with its form: bits 0 to 29.
    pub fn identifier_with_form(&self) -> u32
        ensures { result ≡ identifier_with_its_form self.now }
    {
        self.bits % 0x4000_0000
    }
}
