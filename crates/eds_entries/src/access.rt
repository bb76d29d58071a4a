//! Who may read and write an entry, and whether a PDO may carry it.
ghost use Rattle.std.specs.Prelude.{◌≡◌};
ghost use Rattle.eds_entries.specs.Described.{access_named, access_of, is_not_zero, is_set};

use crate::name::same;
use crate::section::number_at;
use crate::text::text_at;
use co_dict::Access;
use ini_text::Section;

/// The access that a word says, in any case.
#[tactic(auto, unfolding(crate::specs::Described::access_named))]
fn access_named(word: &[u8]) -> Access
    ensures { result ≡ access_named word.now }
{
    if same(word, b"ro") {
        Access::ReadOnly
    } else if same(word, b"wo") {
        Access::WriteOnly
    } else if same(word, b"rwr") {
        Access::ReadWriteOnInput
    } else if same(word, b"rww") {
        Access::ReadWriteOnOutput
    } else if same(word, b"const") {
        Access::Constant
    } else {
        Access::ReadWrite
    }
}

/// The access of a section's entries: AccessType, and rw where it is missing or another word.
#[tactic(auto, unfolding(crate::specs::Described::access_of))]
pub(crate) fn access_of(section: &Section) -> Access
    ensures { result ≡ access_of section.now }
{
    access_named(text_at(section, b"AccessType"))
}

/// Whether a key of a section is a number other than 0.
#[tactic(auto, unfolding(crate::specs::Described::is_set))]
pub(crate) fn is_set(section: &Section, key: &[u8]) -> bool
    ensures { result ≡ is_set section.now key.now }
{
    match number_at(section, key) {
        Some(number) => is_not_zero(number),
        None => false,
    }
}

/// Whether a number isn't 0.
pub fn is_not_zero(number: i128) -> bool
    ensures { result ≡ is_not_zero number }
{
    number != 0
}
