//! The section that names the node of a DCF.
ghost use Rattle.std.specs.Prelude.{◌≡◌, ◌++◌, [], OnOk, is_some};
ghost use Rattle.std.specs.List.{find, flat_map};
ghost use Rattle.std.specs.Option.{option_copied, option_map_or};
ghost use Rattle.ini_text.specs.Content.{same, value_at};
ghost use Rattle.ini_text.specs.Change.{pair_text, section_text};
ghost use Rattle.eds_dcf.specs.Commissioning.{commissioning, is_commissioning as is_commissioning_name};
ghost use Rattle.eds_dcf.specs.Commissioning.{is_set_anew as is_set_anew_key, node_pairs, others, others_beside};
ghost use Rattle.eds_dcf.specs.Commissioning.{pairs_named as pairs_of_name};

use crate::printing::{is_key, put_line, put_name};
use eds_device::{Pair, Section};
use std::alloc::{AllocError, Global};

const FIRST_SPELLING: &[u8] = b"DeviceComissioning";

const SECOND_SPELLING: &[u8] = b"DeviceCommissioning";

const NODE_ID: &[u8] = b"NodeID";

const NODE_NAME: &[u8] = b"NodeName";

const BAUDRATE: &[u8] = b"Baudrate";

/// Whether a section of that name names the node.
pub(crate) fn is_commissioning(name: &[u8]) -> bool
    ensures { result ≡ is_commissioning_name name.now }
{
    is_key(FIRST_SPELLING, name) || is_key(SECOND_SPELLING, name)
}

/// Whether a key is set anew.
fn is_set_anew(key: &[u8]) -> bool
    ensures { result ≡ is_set_anew_key key.now }
{
    is_key(NODE_ID, key) || is_key(NODE_NAME, key) || is_key(BAUDRATE, key)
}

/// The first section of a name.
fn section_named<'a>(sections: &'a [Section], name: &[u8]) -> Option<&'a Section>
    ensures { option_copied result ≡ find (λ s. same name.now s.name) sections.now }
{
    sections.iter().find(|section| is_key(name, section.name()))
}

/// The pairs of the first section of a name.
fn pairs_named<'a>(sections: &'a [Section], name: &[u8]) -> &'a [Pair]
    ensures { result.now ≡ pairs_of_name sections.now name.now }
{
    match section_named(sections, name) {
        Some(section) => section.pairs(),
        None => &[],
    }
}

/// Whether the first section of a name has a key.
fn has_key(section: Option<&Section>, key: &[u8]) -> bool
    ensures { result ≡ is_some (value_at (option_map_or (λ s. s.pairs) (option_copied section.entry) []) key.now) }
{
    match section {
        Some(section) => section.get(key).is_some(),
        None => false,
    }
}

/// Writes the node's number, its name and the bit rate in kbit/s.
fn put_node(
    out: &mut Vec<u8>,
    alloc: Global,
    node: u8,
    name: &[u8],
    bitrate: u16,
) -> Result<(), AllocError>
    ensures { OnOk result (out.new.items ≡ out.old.items ++ flat_map pair_text (node_pairs node name.now bitrate)) }
{
    let number = node.to_string(alloc)?.into_bytes();
    let rate = bitrate.to_string(alloc)?.into_bytes();
    put_line(out, NODE_ID, number.as_slice())?;
    put_line(out, NODE_NAME, name)?;
    put_line(out, BAUDRATE, rate.as_slice())?;
    Ok(())
}

/// Writes the pairs that are not set anew.
fn put_others(out: &mut Vec<u8>, pairs: &[Pair]) -> Result<(), AllocError>
    ensures { OnOk result (out.new.items ≡ out.old.items ++ flat_map pair_text (others pairs.now)) }
{
    for pair in pairs {
        if !is_set_anew(pair.key()) {
            put_line(out, pair.key(), pair.value())?;
        }
    }
    Ok(())
}

/// Writes the pairs that are not set anew, and whose key a section doesn't have.
fn put_others_beside(
    out: &mut Vec<u8>,
    first: Option<&Section>,
    pairs: &[Pair],
) -> Result<(), AllocError>
    ensures { OnOk result (out.new.items ≡ out.old.items
        ++ flat_map pair_text (others_beside (option_map_or (λ s. s.pairs) (option_copied first.entry) []) pairs.now)) }
{
    for pair in pairs {
        if !is_set_anew(pair.key()) && !has_key(first, pair.key()) {
            put_line(out, pair.key(), pair.value())?;
        }
    }
    Ok(())
}

/// Writes the section of the node: its number, its name and the bit rate, and what the text has there
/// besides.
pub(crate) fn put_commissioning(
    out: &mut Vec<u8>,
    alloc: Global,
    sections: &[Section],
    node: u8,
    name: &[u8],
    bitrate: u16,
) -> Result<(), AllocError>
    ensures { OnOk result (out.new.items ≡ out.old.items
        ++ section_text (commissioning sections.now node name.now bitrate)) }
{
    let first = section_named(sections, FIRST_SPELLING);
    put_name(out, FIRST_SPELLING)?;
    put_node(out, alloc, node, name, bitrate)?;
    put_others(out, pairs_named(sections, FIRST_SPELLING))?;
    put_others_beside(out, first, pairs_named(sections, SECOND_SPELLING))?;
    Ok(())
}
