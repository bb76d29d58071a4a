//! The identity of a device (CiA 301).
ghost use Rattle.std.specs.Prelude.{◌≡◌};
ghost use Rattle.eds_device.specs.Identity.{four_bytes, is_identity_type, identity_by, identity_number, identity};
ghost use Rattle.eds_entries.specs.Shown.{description_shown};

use crate::data_sheet::DataSheet;
use co_values::{DataType, integer_of};
use eds_entries::{DefaultText, Described};

/// A number, where it has four bytes, else 0.
fn four_bytes(number: i128) -> u32
    ensures { result ≡ four_bytes number }
{
    match u32::try_from(number) {
        Ok(number) => number,
        Err(_) => 0,
    }
}

/// Whether a type is one that an identity may have.
fn is_identity_type(kind: DataType) -> bool
    ensures { result ≡ is_identity_type kind }
{
    matches!(
        kind,
        DataType::Unsigned8 | DataType::Unsigned16 | DataType::Unsigned24 | DataType::Unsigned32
    )
}

/// The number of a description's default at a node, where its type is UNSIGNEDn of at most four
/// bytes, else 0.
fn identity_by(node: u8, described: &Described<'_>) -> u32
    ensures { result ≡ identity_by node (description_shown described.now) }
{
    if !is_identity_type(described.kind) {
        return 0;
    }
    match &described.default {
        DefaultText::Written(text) => match integer_of(described.kind, text, node) {
            Some(number) => four_bytes(number),
            None => 0,
        },
        DefaultText::Count(count) => u32::from(*count),
    }
}

impl DataSheet {
    /// The default of an UNSIGNEDn of at most four bytes at a node, else 0.
    fn identity_number(&self, node: u8, index: u16, sub: u8) -> u32
        ensures { result ≡ identity_number self.now node index sub }
    {
        match self.described(index, sub) {
            Some(described) => identity_by(node, &described),
            None => 0,
        }
    }

    /// Device type, vendor, product code, revision and serial number at a node: the defaults of 1000h
    /// and of 1018h, subs 1 to 4. One that is missing or not readable, or whose
    /// type is no UNSIGNEDn of at most four bytes, is 0. Needs no memory.
    #[tactic(auto, unfolding(crate::specs::Identity::identity))]
    pub fn identity(&self, node: u8) -> [u32; 5]
        ensures { result ≡ identity self.now node }
    {
        [
            self.identity_number(node, 0x1000, 0),
            self.identity_number(node, 0x1018, 1),
            self.identity_number(node, 0x1018, 2),
            self.identity_number(node, 0x1018, 3),
            self.identity_number(node, 0x1018, 4),
        ]
    }
}
