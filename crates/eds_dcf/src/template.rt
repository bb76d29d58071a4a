//! What the DCFs of one data sheet have alike.
ghost use Rattle.std.specs.Prelude.{◌≡◌, ◌++◌, ℕ, All, IfOk, IfSome, OnOk};
ghost use Rattle.std.specs.FinMap.{get};
ghost use Rattle.std.specs.List.{flat_map};
ghost use Rattle.ini_text.specs.Change.{text_of};
ghost use Rattle.co_values.specs.Values.{Fits};
ghost use Rattle.eds_device.specs.Described.{kind_at};
ghost use Rattle.eds_dcf.specs.Dcf.{dcf_sections};
ghost use Rattle.eds_dcf.specs.Template.{IsTemplate, object_begun as object_at_start, piece};

use crate::commissioning::put_commissioning;
use crate::text::{put_all_made, put_with_values};
use crate::written::Written;
use concise_dcf::Write;
use eds_device::{DataSheet, index_named};
use std::alloc::{AllocError, Global};
use std::marker::Model;
use std::rc::Rc;

/// What a template has of a section: the object that its name begins with, and the length of its piece
/// of the text.
type Room = (Option<u16>, usize);

/// What the DCFs of one data sheet have alike: the text of its sections where no entry has a value.
/// Contracts see it as the sheet.
#[derive(Drop)]
pub struct Template {
    device: Rc<DataSheet>,
    rooms: Vec<Room>,
    text: Vec<u8>,
}

impl Model for Template {
    ghost use Rattle.eds_device.specs.Sheets.{Sheet};
    ghost use Rattle.eds_dcf.specs.Template.{IsTemplate};

    ghost Value = { Sheet };

    ghost view = { λ t. t.device.value };

    ghost invariant = { λ t. IsTemplate t.device.value t.rooms.items t.text.items };
}

/// The object that a name begins with.
#[tactic(auto, unfolding(crate::specs::Template::object_begun))]
fn object_begun(name: &[u8]) -> Option<u16>
    ensures { result ≡ object_at_start name.now }
{
    if name.len() < 4 {
        return None;
    }
    index_named(&name[..4])
}

/// What a template has of each section of a device, and the text where no entry has a value.
fn rooms_of(alloc: Global, device: &DataSheet) -> Result<(Vec<Room>, Vec<u8>), AllocError>
    ensures { IfOk result (λ parts. IsTemplate device.now parts.0.items parts.1.items) }
{
    let values = Written::none(alloc);
    let mut rooms = Vec::new(alloc);
    let mut text = Vec::new(alloc);
    let mut near = 0;
    for section in device.sections() {
        let before = text.len();
        near = put_with_values(&mut text, alloc, device, &values, near, section)?;
        rooms.push((object_begun(section.name()), text.len() - before))?;
    }
    Ok((rooms, text))
}

/// Writes the sections of a device but the node's, with the values. Where no entry of a section's object
/// may have a value its piece of the text is copied, in one run with those beside it.
fn put_runs(
    out: &mut Vec<u8>,
    alloc: Global,
    device: &DataSheet,
    rooms: &[Room],
    text: &[u8],
    values: &Written,
) -> Result<(), AllocError>
    requires fits { (place : ℕ × ℕ) → IfSome (get values.now place) (Fits (kind_at device.now place)) }
    requires template { IsTemplate device.now rooms.now text.now }
    ensures { OnOk result (out.new.items ≡ out.old.items
        ++ flat_map (piece device.now (get values.now)) device.now.sections) }
{
    let sections = device.sections();
    out.reserve(text.len())?;
    let mut near = 0;
    let mut from = 0;
    let mut end = 0;
    for (position, (object, size)) in rooms.iter().enumerate() {
        let start = end;
        end += *size;
        if values.may_have(*object) {
            out.extend_from_slice(&text[from..start])?;
            near = put_with_values(out, alloc, device, values, near, &sections[position])?;
            from = end;
        }
    }
    out.extend_from_slice(&text[from..])?;
    Ok(())
}

impl Template {
    /// The template of a device. Takes the time of one `dcf_text`, and memory by the length of the sheet's
    /// text; want of memory is the only error.
    pub fn of(alloc: Global, device: Rc<DataSheet>) -> Result<Template, AllocError>
        ensures { IfOk result (λ t. t ≡ device.value) }
    {
        let (rooms, text) = rooms_of(alloc, &device)?;
        Ok(Template {
            device,
            rooms,
            text,
        })
    }

    /// The text that `dcf_text` gives of the device. Of the sections only those of objects to which writes
    /// are, and some more, are looked at; the others are copied in runs. Takes time and memory by the length
    /// of the text and the number of writes, with its logarithm; want of memory is the only error.
    pub fn dcf_text(
        &self,
        alloc: Global,
        node: u8,
        name: &[u8],
        bitrate: u16,
        writes: &[Write],
    ) -> Result<Vec<u8>, AllocError>
        requires { All (λ w. Fits (kind_at self.now (w.index, w.sub)) w.bytes) writes.now }
        ensures { IfOk result (λ text. text.items
            ≡ text_of (dcf_sections self.now node name.now bitrate writes.now)) }
    {
        let values = Written::by(alloc, writes)?;
        let mut out = Vec::new(alloc);
        put_runs(
            &mut out,
            alloc,
            &self.device,
            &self.rooms,
            &self.text,
            &values,
        )?;
        put_all_made(&mut out, alloc, &self.device, &values)?;
        put_commissioning(&mut out, alloc, self.device.sections(), node, name, bitrate)?;
        Ok(out)
    }
}
