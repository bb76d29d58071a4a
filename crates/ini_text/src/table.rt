//! The table of a text's sections.
ghost use Rattle.std.specs.Prelude.{◌≡◌, ◌<◌, not, length, ◌++◌, IfOk, OnErr, OnOk};
ghost use Rattle.indexmap.specs.IndexMap.{values};
ghost use Rattle.ini_text.specs.Keyed.{AreFolded};
ghost use Rattle.ini_text.specs.Reading.{position_of, with_name, with_pair_at, has_key_at};
ghost use Rattle.ini_text.specs.Change.{with_value, text_of};

use crate::name::{Name, lower_case};
use crate::section::Section;
use crate::text_hash::TextHash;
use indexmap::IndexMap;
use std::alloc::{AllocError, Global};

/// The position of the section of this name, which goes last where it is new.
pub(crate) fn open(
    sections: &mut IndexMap<Vec<u8>, Section, TextHash>,
    alloc: Global,
    name: &[u8],
) -> Result<usize, AllocError>
    requires { AreFolded (λ s. s.name) sections.old.entries }
    ensures kept { AreFolded (λ s. s.name) sections.new.entries }
    ensures position { IfOk result (λ i. i ≡ position_of (values sections.old) name.now) }
    ensures ok { OnOk result (values sections.new ≡ with_name (values sections.old) name.now) }
    ensures err { OnErr result (sections.new.entries ≡ sections.old.entries) }
{
    if let Some(position) = sections.get_index_of(Name(name)) {
        return Ok(position);
    }
    let folded = lower_case(alloc, name)?;
    let section = Section::new(alloc, name, *sections.hasher())?;
    let (position, _) = sections.insert_full(folded, section)?;
    Ok(position)
}

/// Adds a pair to the section at a position, unless that has the key, and answers whether it was new.
pub(crate) fn add_at(
    sections: &mut IndexMap<Vec<u8>, Section, TextHash>,
    alloc: Global,
    position: usize,
    key: &[u8],
    value: &[u8],
) -> Result<bool, AllocError>
    requires { AreFolded (λ s. s.name) sections.old.entries }
    ensures kept { AreFolded (λ s. s.name) sections.new.entries }
    ensures added { IfOk result (λ added.
        added ≡ not (has_key_at (values sections.old) position key.now)) }
    ensures ok { OnOk result (values sections.new
        ≡ with_pair_at (values sections.old) position key.now value.now) }
    ensures err { OnErr result (values sections.new ≡ values sections.old) }
{
    match sections.get_index_mut(position) {
        Some(section) => section.add(alloc, key, value),
        None => Ok(true),
    }
}

/// Sets the value of a key in the section of this name, which goes last where it is new.
pub(crate) fn set_in(
    sections: &mut IndexMap<Vec<u8>, Section, TextHash>,
    alloc: Global,
    name: &[u8],
    key: &[u8],
    value: &[u8],
) -> Result<(), AllocError>
    requires { AreFolded (λ s. s.name) sections.old.entries }
    ensures kept { AreFolded (λ s. s.name) sections.new.entries }
    ensures ok { OnOk result (values sections.new
        ≡ with_value (values sections.old) name.now key.now value.now) }
    ensures err { OnErr result (values sections.new ≡ values sections.old) }
{
    match sections.get_mut(Name(name)) {
        Some(section) => section.set(alloc, key, value),
        None => {
            let folded = lower_case(alloc, name)?;
            let mut section = Section::new(alloc, name, *sections.hasher())?;
            section.set(alloc, key, value)?;
            sections.insert(folded, section)?;
            Ok(())
        }
    }
}

/// The text of sections.
pub(crate) fn print(alloc: Global, sections: &[Section]) -> Result<Vec<u8>, AllocError>
    ensures { IfOk result (λ text. text.items ≡ text_of sections.now) }
{
    let mut out = Vec::new(alloc);
    for section in sections {
        section.print(&mut out)?;
    }
    Ok(out)
}
