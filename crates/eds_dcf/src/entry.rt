//! Sections in which one entry stands.
ghost use Rattle.std.specs.Prelude.{◌≡◌, ◌++◌, OnOk, IfSome, IfOk, option_copied, option_map};
ghost use Rattle.ini_text.specs.Change.{section_text};
ghost use Rattle.co_values.specs.Values.{Fits, text_of_value};
ghost use Rattle.eds_device.specs.Shown.{origin_shown};
ghost use Rattle.eds_dcf.specs.Entries.{is_in as is_in_section, own_place as place_owned, parameter_pairs};
ghost use Rattle.eds_dcf.specs.Entries.{parameter_place};
ghost use Rattle.eds_device.specs.Described.{kind_at};

use crate::printing::{put_line, put_name, put_pairs_without};
use base::Octets;
use co_values::{DataType, Value, hex_text};
use eds_device::{DataSheet, Origin, Placed, Section, index_named, place_named};
use std::alloc::{AllocError, Global};

const PARAMETER_VALUE: &[u8] = b"ParameterValue";

/// The entry that a section is named for.
#[tactic(auto, unfolding(crate::specs::Entries::own_place))]
fn own_place(name: &[u8]) -> Option<(u16, u8)>
    ensures { result ≡ place_owned name.now }
{
    if let Some(place) = place_named(name) {
        return Some(place);
    }
    let index = index_named(name)?;
    Some((index, 0))
}

/// Whether an entry stands in the section of that name.
fn is_in(name: &[u8], origin: Option<Origin<'_>>) -> bool
    ensures { result ≡ is_in_section name.now (option_map origin_shown origin.entry) }
{
    match origin {
        Some(Origin::Own(section)) => section.name() == name,
        Some(Origin::Compact(_, _)) | None => false,
    }
}

/// A modelled entry that stands in a section of its own.
#[derive(Clone, Copy)]
pub(crate) struct Parameter {
    /// Its position among the entries of the device.
    pub position: usize,
    pub index: u16,
    pub sub: u8,
    pub kind: DataType,
}

/// The modelled entry that stands in the section of a name, by one look-up, near a position first.
#[tactic(auto, unfolding(crate::specs::Entries::parameter_place))]
pub(crate) fn parameter_of(device: &DataSheet, near: usize, name: &[u8]) -> Option<Parameter>
    ensures place { option_map (λ p. (p.index, p.sub)) result ≡ parameter_place device.now name.now }
    ensures kind { IfSome result (λ p. p.kind ≡ kind_at device.now (p.index, p.sub)) }
{
    let (index, sub) = own_place(name)?;
    let Placed {
        position,
        origin,
        kind,
    } = device.placed(near, index, sub)?;
    if is_in(name, Some(origin)) && kind.is_modelled() {
        Some(Parameter {
            position,
            index,
            sub,
            kind,
        })
    } else {
        None
    }
}

/// The text of bytes as a value of a type.
pub(crate) fn text_of(alloc: Global, kind: DataType, bytes: &[u8]) -> Result<Vec<u8>, AllocError>
    requires { Fits kind bytes.now }
    ensures { IfOk result (λ text. text.items ≡ text_of_value kind bytes.now) }
{
    let value = Value {
        kind,
        bytes: Octets::from_slice(alloc, bytes)?,
    };
    hex_text(alloc, &value)
}

/// Writes the section of an entry of a type, with the value as its ParameterValue, or with none.
pub(crate) fn put_entry(
    out: &mut Vec<u8>,
    alloc: Global,
    section: &Section,
    kind: DataType,
    value: Option<&[u8]>,
) -> Result<(), AllocError>
    requires { IfSome value (λ bytes. Fits kind bytes.now) }
    ensures { OnOk result (out.new.items ≡ out.old.items
        ++ section_text (record {
          name = section.now.name;
          pairs = parameter_pairs section.now.pairs kind (option_copied value.entry);
        })) }
{
    put_name(out, section.name())?;
    put_pairs_without(out, section.pairs(), PARAMETER_VALUE)?;
    if let Some(bytes) = value {
        let text = text_of(alloc, kind, bytes)?;
        put_line(out, PARAMETER_VALUE, text.as_slice())?;
    }
    Ok(())
}
