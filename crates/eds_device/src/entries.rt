//! The entries of a device at a node (CiA 306).
ghost use Rattle.std.specs.Prelude.{◌≡◌, ◌≤◌, IfOk, IfSome, length};
ghost use Rattle.co_values.specs.Values.{longest_value};
ghost use Rattle.std.specs.Option.{option_copied, option_map, option_map_or};
ghost use Rattle.eds_device.specs.Entries.{limit_at, entry_by, entry_at, default_bytes, default_at, dummy_allowed};
ghost use Rattle.eds_entries.specs.Shown.{default_shown, description_shown};

use crate::data_sheet::DataSheet;
use base::Octets;
use co_dict::Entry;
use co_values::{DataType, Spelling, default_value, integer_of, read_number, spelled_value};
use eds_entries::{DefaultText, Described, is_not_zero};
use std::alloc::{AllocError, Global};

/// The limit that a text is for integers of a type at a node.
#[tactic(auto, unfolding(crate::specs::Entries::limit_at))]
fn limit_at(kind: DataType, text: &Spelling<'_>, node: u8) -> Option<i128>
    ensures { result ≡ limit_at kind text.now node }
{
    if kind.is_integer() {
        integer_of(kind, text, node)
    } else {
        None
    }
}

/// The entry that is described, at a node.
pub(crate) fn entry_of(described: &Described<'_>, node: u8) -> Entry
    ensures { result ≡ entry_by node (description_shown described.now) }
{
    Entry {
        kind: described.kind,
        access: described.access,
        low: limit_at(described.kind, &described.low, node),
        high: limit_at(described.kind, &described.high, node),
        mappable: described.mappable,
    }
}

/// The value of a default of a type at a node.
fn default_bytes(
    alloc: Global,
    kind: DataType,
    default: &DefaultText<'_>,
    node: u8,
) -> Result<Octets, AllocError>
    ensures { IfOk result (λ bytes. bytes ≡ default_bytes kind (default_shown default.now) node) }
{
    match default {
        DefaultText::Written(text) => {
            let value = match spelled_value(alloc, kind, text, node)? {
                Some(value) => value,
                None => default_value(alloc, kind)?,
            };
            Ok(value.bytes)
        }
        DefaultText::Count(count) => Octets::from_slice(alloc, &[*count]),
    }
}

impl DataSheet {
    /// An entry at a node: its limits are the numbers that its texts spell there as values of its
    /// type, which must be an integer. `None` where there is no such entry.
    #[tactic(auto, unfolding(crate::specs::Entries::entry_at))]
    pub fn entry(&self, node: u8, index: u16, sub: u8) -> Option<Entry>
        ensures { result ≡ entry_at self.now node index sub }
    {
        let described = self.described(index, sub)?;
        Some(entry_of(&described, node))
    }

    /// The default of an entry at a node: what its text spells there as a value of its type, else 0
    /// or the empty string. `None` where there is no such entry or its type is not modelled.
    #[tactic(auto, using(crate::proofs::LengthLemmas::default_short), unfolding(crate::specs::Entries::default_at))]
    pub(crate) fn default(
        &self,
        node: u8,
        index: u16,
        sub: u8,
    ) -> Result<Option<Octets>, AllocError>
        ensures bytes { IfOk result (λ bytes. bytes ≡ default_at self.now node index sub) }
        ensures short { IfOk result (λ bytes. IfSome bytes (λ b. length b ≤ longest_value)) }
    {
        let Some(described) = self.described(index, sub) else {
            return Ok(None);
        };
        if !described.kind.is_modelled() {
            return Ok(None);
        }
        let bytes = default_bytes(self.allocator(), described.kind, &described.default, node)?;
        Ok(Some(bytes))
    }

    /// Whether an RPDO may map the dummy entry of a data type's code, 0001h to 0007h: DummyUsage. No
    /// other number is a dummy.
    #[tactic(auto, unfolding(crate::specs::Entries::dummy_allowed))]
    pub fn dummy_allowed(&self, kind: u16) -> bool
        ensures { result ≡ dummy_allowed self.now.sections kind }
    {
        if !matches!(kind, 1..=7) {
            return false;
        }
        let key = [
            b'D',
            b'u',
            b'm',
            b'm',
            b'y',
            b'0',
            b'0',
            b'0',
            b'0' + kind as u8,
        ];
        match self.reading().text(b"DummyUsage", &key) {
            Some(text) => match read_number(text) {
                Some(number) => is_not_zero(number),
                None => false,
            },
            None => false,
        }
    }
}
