//! The DCF text of a device.
ghost use Rattle.std.specs.Prelude.{◌≡◌, ◌++◌, ℕ, All, IfOk, IfSome, OnOk};
ghost use Rattle.std.specs.FinMap.{get};
ghost use Rattle.std.specs.List.{flat_map};
ghost use Rattle.ini_text.specs.Change.{text_of};
ghost use Rattle.co_values.specs.Values.{Fits};
ghost use Rattle.eds_dcf.specs.Dcf.{dcf_sections, made_sections};
ghost use Rattle.eds_dcf.specs.Template.{piece};
ghost use Rattle.eds_device.specs.Described.{kind_at};

use crate::commissioning::{is_commissioning, put_commissioning};
use crate::compact::{put_made, put_values_section};
use crate::entry::{parameter_of, put_entry};
use crate::printing::put_section;
use crate::written::Written;
use concise_dcf::Write;
use eds_device::{DataSheet, Section, values_named};
use std::alloc::{AllocError, Global};

/// Writes a section with the values, unless it names the node. Answers a position among the entries that
/// the next one is likely near: that of the section's entry, or `near` where it is of none.
pub(crate) fn put_with_values(
    out: &mut Vec<u8>,
    alloc: Global,
    device: &DataSheet,
    values: &Written,
    near: usize,
    section: &Section,
) -> Result<usize, AllocError>
    requires { (place : ℕ × ℕ) → IfSome (get values.now place) (Fits (kind_at device.now place)) }
    ensures { OnOk result (out.new.items ≡ out.old.items
        ++ piece device.now (get values.now) section.now) }
{
    if is_commissioning(section.name()) {
        return Ok(near);
    }
    if let Some(parameter) = parameter_of(device, near, section.name()) {
        let value = values.read(parameter.index, parameter.sub);
        put_entry(out, alloc, section, parameter.kind, value)?;
        return Ok(parameter.position);
    }
    if let Some(index) = values_named(section.name()) {
        put_values_section(out, alloc, device, values, section, index)?;
        return Ok(near);
    }
    put_section(out, section)?;
    Ok(near)
}

/// Writes the sections of the text but the node's, with the values.
fn put_sections(
    out: &mut Vec<u8>,
    alloc: Global,
    device: &DataSheet,
    values: &Written,
) -> Result<(), AllocError>
    requires { (place : ℕ × ℕ) → IfSome (get values.now place) (Fits (kind_at device.now place)) }
    ensures { OnOk result (out.new.items ≡ out.old.items
        ++ flat_map (piece device.now (get values.now)) device.now.sections) }
{
    let mut near = 0;
    for section in device.sections() {
        near = put_with_values(out, alloc, device, values, near, section)?;
    }
    Ok(())
}

/// Writes the sections that are made for compact objects, by index: each entry with sub 0 is that of
/// an object.
pub(crate) fn put_all_made(
    out: &mut Vec<u8>,
    alloc: Global,
    device: &DataSheet,
    values: &Written,
) -> Result<(), AllocError>
    requires { (place : ℕ × ℕ) → IfSome (get values.now place) (Fits (kind_at device.now place)) }
    ensures { OnOk result (out.new.items ≡ out.old.items
        ++ text_of (made_sections device.now (get values.now))) }
{
    for (index, sub) in device.pairs() {
        if *sub == 0 {
            put_made(out, alloc, device, values, *index)?;
        }
    }
    Ok(())
}

/// The DCF text (CiA 306) of a device as a node of a network: the sections of its EDS text, in which
/// each modelled entry has the bytes of its last write as its ParameterValue, or none where no write
/// is to it. The values of a compact object's subs stand in its section `[xxxxValue]`, and where it
/// has none, in one that is made behind the sections of the text. Last comes `[DeviceComissioning]`
/// with the node's number, its name and the bit rate in kbit/s. The only error is want of memory.
///
/// Takes time and memory linear in the text and in the writes, but for the look-ups of entries,
/// which take the logarithm of their number.
pub fn dcf_text(
    alloc: Global,
    device: &DataSheet,
    node: u8,
    name: &[u8],
    bitrate: u16,
    writes: &[Write],
) -> Result<Vec<u8>, AllocError>
    requires { All (λ w. Fits (kind_at device.now (w.index, w.sub)) w.bytes) writes.now }
    ensures { IfOk result (λ text. text.items
        ≡ text_of (dcf_sections device.now node name.now bitrate writes.now)) }
{
    let values = Written::by(alloc, writes)?;
    let mut out = Vec::new(alloc);
    put_sections(&mut out, alloc, device, &values)?;
    put_all_made(&mut out, alloc, device, &values)?;
    put_commissioning(&mut out, alloc, device.sections(), node, name, bitrate)?;
    Ok(out)
}
