//! The compact objects of a device, and the values that are set of them.
ghost use Rattle.std.specs.Prelude.{◌≡◌, ◌++◌, ℕ, IfOk, IfSome, OnOk, option_map};
ghost use Rattle.std.specs.FinMap.{get};
ghost use Rattle.std.specs.List.{flat_map};
ghost use Rattle.std.specs.Option.{option_to_list};
ghost use Rattle.ini_text.specs.Change.{section_text};
ghost use Rattle.co_values.specs.Values.{Fits};
ghost use Rattle.eds_dcf.specs.Compact.{compact_object as object_of, is_compact as is_compact_origin, made_section};
ghost use Rattle.eds_dcf.specs.Compact.{new_values, value_pair, values_set as values_set_of};
ghost use Rattle.eds_dcf.specs.Compact.{values_name as name_of_values, values_pairs_at};
ghost use Rattle.eds_device.specs.Shown.{origin_shown};
ghost use Rattle.eds_device.specs.Described.{kind_at};

use crate::entry::text_of;
use crate::printing::{put_line, put_name, put_pairs, put_settings};
use crate::setting::Setting;
use crate::values::{NR_OF_ENTRIES, put_values};
use crate::written::Written;
use base::index_digits;
use eds_device::{DataSheet, Origin, Section, compact_count, kind_of};
use std::alloc::{AllocError, Global};

/// A compact object's section, and its highest sub-index.
#[tactic(auto, unfolding(crate::specs::Compact::compact_object))]
fn compact_object(device: &DataSheet, index: u16) -> Option<(&Section, u8)>
    ensures { option_map (λ object. (object.0.now, object.1)) result ≡ object_of device.now index }
{
    let section = device.object_section(index)?;
    let highest = compact_count(section)?;
    Some((section, highest))
}

/// Whether an entry stands in the section of a compact object.
fn is_compact(origin: Option<Origin<'_>>) -> bool
    ensures { result ≡ is_compact_origin (option_map origin_shown origin.entry) }
{
    matches!(origin, Some(Origin::Compact(_, _)))
}

/// `k=value` for a compact sub k with a value.
fn value_setting(
    alloc: Global,
    device: &DataSheet,
    values: &Written,
    index: u16,
    sub: u8,
) -> Result<Option<Setting>, AllocError>
    requires { (place : ℕ × ℕ) → IfSome (get values.now place) (Fits (kind_at device.now place)) }
    ensures { IfOk result (λ setting. setting ≡ value_pair device.now (get values.now) (index, sub)) }
{
    let Some(bytes) = values.read(index, sub) else {
        return Ok(None);
    };
    if !is_compact(device.origin(index, sub)) {
        return Ok(None);
    }
    let text = text_of(alloc, device.kind(index, sub), bytes)?;
    let key = sub.to_string(alloc)?.into_bytes();
    Ok(Some(Setting::new(key, text)))
}

/// Adds a setting last, if there is one.
fn push_some(set: &mut Vec<Setting>, setting: Option<Setting>) -> Result<(), AllocError>
    ensures { OnOk result (set.new.items ≡ set.old.items ++ option_to_list setting) }
{
    if let Some(setting) = setting {
        set.push(setting)?;
    }
    Ok(())
}

/// The values that are set of an object's compact subs, by sub.
fn values_set(
    alloc: Global,
    device: &DataSheet,
    values: &Written,
    index: u16,
    highest: u8,
) -> Result<Vec<Setting>, AllocError>
    requires { (place : ℕ × ℕ) → IfSome (get values.now place) (Fits (kind_at device.now place)) }
    ensures { IfOk result (λ set. set.items ≡ values_set_of device.now (get values.now) index highest) }
{
    let mut set = Vec::new(alloc);
    for sub in 0..u16::from(highest) + 1 {
        push_some(
            &mut set,
            value_setting(alloc, device, values, index, sub as u8)?,
        )?;
    }
    Ok(set)
}

/// The name of a section of values that is made.
fn values_name(alloc: Global, index: u16) -> Result<Vec<u8>, AllocError>
    ensures { IfOk result (λ name. name.items ≡ name_of_values index) }
{
    let mut name = Vec::from_slice(alloc, &index_digits(index))?;
    name.extend_from_slice(b"Value")?;
    Ok(name)
}

/// Writes a new section of values, if there are any.
fn put_new(out: &mut Vec<u8>, alloc: Global, index: u16, set: &[Setting]) -> Result<(), AllocError>
    ensures { OnOk result (out.new.items ≡ out.old.items
        ++ flat_map section_text (option_to_list (new_values index set.now))) }
{
    if set.is_empty() {
        return Ok(());
    }
    let name = values_name(alloc, index)?;
    let count = set.len().to_string(alloc)?.into_bytes();
    put_name(out, name.as_slice())?;
    put_line(out, NR_OF_ENTRIES, count.as_slice())?;
    put_settings(out, set)?;
    Ok(())
}

/// Writes the section that is made for a compact object without one, if values of it are set. An object
/// of which none may be set isn't looked for.
pub(crate) fn put_made(
    out: &mut Vec<u8>,
    alloc: Global,
    device: &DataSheet,
    values: &Written,
    index: u16,
) -> Result<(), AllocError>
    requires { (place : ℕ × ℕ) → IfSome (get values.now place) (Fits (kind_at device.now place)) }
    ensures { OnOk result (out.new.items ≡ out.old.items
        ++ flat_map section_text (option_to_list (made_section device.now (get values.now) index))) }
{
    if !values.may_have(Some(index)) {
        return Ok(());
    }
    if device.values_section(index).is_some() {
        return Ok(());
    }
    let Some((_, highest)) = compact_object(device, index) else {
        return Ok(());
    };
    let set = values_set(alloc, device, values, index, highest)?;
    put_new(out, alloc, index, set.as_slice())?;
    Ok(())
}

/// Writes a section `[xxxxValue]` with the values that are set.
#[tactic(auto, unfolding(crate::specs::Compact::values_pairs_at))]
pub(crate) fn put_values_section(
    out: &mut Vec<u8>,
    alloc: Global,
    device: &DataSheet,
    values: &Written,
    section: &Section,
    index: u16,
) -> Result<(), AllocError>
    requires { (place : ℕ × ℕ) → IfSome (get values.now place) (Fits (kind_at device.now place)) }
    ensures { OnOk result (out.new.items ≡ out.old.items
        ++ section_text (record {
          name = section.now.name;
          pairs = values_pairs_at device.now (get values.now) index section.now.pairs;
        })) }
{
    put_name(out, section.name())?;
    let Some((object, highest)) = compact_object(device, index) else {
        put_pairs(out, section.pairs())?;
        return Ok(());
    };
    let set = values_set(alloc, device, values, index, highest)?;
    put_values(
        out,
        alloc,
        kind_of(object).in_version(device.is_three()).is_modelled(),
        section.pairs(),
        set,
    )?;
    Ok(())
}
