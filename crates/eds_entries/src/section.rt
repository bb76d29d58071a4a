//! What one object section says (CiA 306).
ghost use Rattle.std.specs.Prelude.{◌≡◌, ◌≤◌, IfSome};
ghost use Rattle.eds_entries.specs.Sections.{number_at, object_type as type_of_object, is_plain, compact_count};
ghost use Rattle.eds_entries.specs.Sections.{kind_of};

use crate::object_type::ObjectType;
use crate::text::value_at;
use co_values::{DataType, read_number};
use ini_text::Section;

/// The number that the value of a key spells.
#[tactic(auto, unfolding(crate::specs::Sections::number_at))]
pub(crate) fn number_at(section: &Section, key: &[u8]) -> Option<i128>
    ensures { result ≡ number_at section.now key.now }
{
    let text = value_at(section, key)?;
    read_number(text)
}

/// The object that a section is of: without the key ObjectType a VAR.
#[tactic(auto, unfolding(crate::specs::Sections::object_type))]
fn object_type(section: &Section) -> ObjectType
    ensures { result ≡ type_of_object section.now }
{
    let Some(text) = value_at(section, b"ObjectType") else {
        return ObjectType::Variable;
    };
    match read_number(text) {
        Some(number) => ObjectType::of_code(number),
        None => ObjectType::Other,
    }
}

/// Whether a section is that of one entry: a VAR or a DOMAIN.
#[tactic(auto, unfolding(crate::specs::Sections::is_plain))]
pub fn is_plain(section: &Section) -> bool
    ensures { result ≡ is_plain section.now }
{
    match object_type(section) {
        ObjectType::Variable | ObjectType::Domain => true,
        ObjectType::Array | ObjectType::Record | ObjectType::Other => false,
    }
}

/// The highest sub-index of a compact object, from 1 to 254: CompactSubObj of an ARRAY or a RECORD.
#[tactic(auto, unfolding(crate::specs::Sections::compact_count))]
pub fn compact_count(section: &Section) -> Option<u8>
    ensures count { result ≡ compact_count section.now }
    ensures bound { IfSome result (λ n. n ≤ 254) }
{
    match object_type(section) {
        ObjectType::Array | ObjectType::Record => {}
        ObjectType::Variable | ObjectType::Domain | ObjectType::Other => return None,
    }
    let count = number_at(section, b"CompactSubObj")?;
    if 0 < count && count <= 254 {
        Some(count as u8)
    } else {
        None
    }
}

/// The type of a section's entries: DataType. Without that key a DOMAIN's is DOMAIN, and any other's
/// is not modelled.
#[tactic(auto, unfolding(crate::specs::Sections::kind_of))]
pub fn kind_of(section: &Section) -> DataType
    ensures { result ≡ kind_of section.now }
{
    if let Some(text) = value_at(section, b"DataType") {
        return match read_number(text) {
            Some(number) => DataType::of_code(number),
            None => DataType::NotModelled,
        };
    }
    match object_type(section) {
        ObjectType::Domain => DataType::Domain,
        ObjectType::Variable | ObjectType::Array | ObjectType::Record | ObjectType::Other => {
            DataType::NotModelled
        }
    }
}
