//! A device, and where its entries stand.
ghost use Rattle.std.specs.Prelude.{◌≡◌, ◌≤◌, ◌&&◌, length, IfOk, IfSome, IsTrue, ◌↔◌, IsErrOf};
ghost use Rattle.std.specs.Bool.{IsFalse};
ghost use Rattle.std.specs.Option.{option_copied, option_map};
ghost use Rattle.ini_text.specs.Content.{content_of};
ghost use Rattle.ini_text.specs.Text.{is_out_of_range, has_bad_byte};
ghost use Rattle.base.specs.Gives.{Gives};
ghost use Rattle.eds_places.specs.Faults.{is_memory, most_entries};
ghost use Rattle.eds_places.specs.Places.{pairs_of};
ghost use Rattle.eds_places.specs.Shown.{origin_shown};
ghost use Rattle.eds_places.specs.Origins.{object_section, values_section, origin_of};
ghost use Rattle.eds_device.specs.Faults.{device_of};
ghost use Rattle.eds_device.specs.Sheets.{content_in, has_new_types};
ghost use Rattle.eds_device.specs.Common.{AreAlike};

use crate::common::{Alike, Common};
use crate::described::has_new_types;
use base::Octets;
use eds_places::{DeviceFault, Origin, Reading, places_of};
use ini_text::{Ini, Section};
use std::alloc::Global;
use std::marker::Model;
use std::sync::Arc;

/// The device that an EDS text describes (CiA 306). Contracts see it as a `Sheet`: the content of the text, and
/// whether the data types that version 3 alone models count.
///
/// It has at most 4,096 entries. A look-up takes time by the logarithm of the sections.
#[derive(Drop)]
pub struct DataSheet {
    pub(crate) reading: Arc<Reading>,
    pub(crate) is_three: bool,
    pub(crate) text: Option<Arc<Octets>>,
    pub(crate) common: Option<Common>,
}

impl Model for DataSheet {
    ghost use Rattle.std.specs.Arc.{arc_value};
    ghost use Rattle.std.specs.Prelude.{◌≡◌, IfSome, option_map};
    ghost use Rattle.eds_device.specs.Common.{IsOfAll};
    ghost use Rattle.eds_device.specs.Sheets.{Sheet, sheet_with};
    ghost use Rattle.ini_text.specs.Content.{content_of};

    ghost Value = { Sheet };

    ghost view = { λ a. sheet_with a.is_three (arc_value a.reading) };

    ghost invariant = { λ a. let content = arc_value a.reading
        in IfSome a.common (λ c. IsOfAll (sheet_with a.is_three content) c)
        × IfSome (option_map arc_value a.text) (λ t. content ≡ content_of t) };
}

impl DataSheet {
    /// Reads an EDS text by the rules of version 3, or by those of the versions before it, which model fewer data
    /// types: `Range` where it or a line of it is too long, else `BadByte` where it has a byte that no INI text may
    /// have, else `Limit` where it gives over 4,096 entries. `Memory` can come in place of the content or of `Limit`
    /// alone. Takes time by the length of the text and its logarithm, and no memory for the entries past the limit.
    pub fn read(alloc: Global, is_three: bool, text: &[u8]) -> Result<DataSheet, DeviceFault>
        ensures content { Gives is_memory content_in result (device_of text.now) }
        ensures version { IfOk result (λ device. device.is_three ≡ (is_three && has_new_types device.sections)) }
        ensures range { IsErrOf result DeviceFault.Range ↔ IsTrue (is_out_of_range text.now) }
        ensures bad_byte { IsErrOf result DeviceFault.BadByte
            ↔ (IsFalse (is_out_of_range text.now) × IsTrue (has_bad_byte text.now)) }
    {
        let ini = Ini::read(alloc, text)?;
        let reading = Reading::of(alloc, ini)?;
        let is_three = is_three && has_new_types(&reading);
        let shared = Arc::new(alloc, reading)?;
        Ok(DataSheet {
            reading: shared,
            is_three,
            text: None,
            common: None,
        })
    }

    /// Whether an EDS text can be read: the faults of `read`, each where it comes there, with no table of
    /// the entries made. Takes time by the length of the text and its logarithm, and no memory for the
    /// entries past the limit.
    pub fn check(alloc: Global, text: &[u8]) -> Result<(), DeviceFault>
        ensures content { Gives is_memory (λ _. content_of text.now) result (device_of text.now) }
        ensures range { IsErrOf result DeviceFault.Range ↔ IsTrue (is_out_of_range text.now) }
        ensures bad_byte { IsErrOf result DeviceFault.BadByte
            ↔ (IsFalse (is_out_of_range text.now) × IsTrue (has_bad_byte text.now)) }
    {
        let ini = Ini::read(alloc, text)?;
        let _places = places_of(alloc, ini.sections())?;
        Ok(())
    }

    /// What was read of the text.
    pub(crate) fn reading(&self) -> &Reading
        ensures sections { result.now.sections ≡ self.now.sections }
        ensures warnings { result.now.warnings ≡ self.now.warnings }
    {
        &self.reading
    }

    /// Whether it has a data type that version 3 alone models, and was read by that version: then these types count.
    pub fn is_three(&self) -> bool
        ensures { result ≡ self.now.is_three }
    {
        self.is_three
    }

    /// Where this device takes its memory.
    pub(crate) fn allocator(&self) -> Global {
        self.reading.allocator()
    }

    /// The sections of the text, in order.
    pub fn sections(&self) -> &[Section]
        ensures { result.now ≡ self.now.sections }
    {
        self.reading.sections()
    }

    /// The numbers of the warned lines, from 1, in rising order.
    pub fn warnings(&self) -> &[u32]
        ensures { result.now ≡ self.now.warnings }
    {
        self.reading.warnings()
    }

    /// The index and sub-index of each entry, in order, at most 4,096.
    pub fn pairs(&self) -> &[(u16, u8)]
        ensures pairs { result.now ≡ pairs_of self.now.sections }
        ensures bound { length result.now ≤ most_entries }
    {
        self.reading.pairs()
    }

    /// The first section that is named for an object, as `[1018]`.
    pub fn object_section(&self, index: u16) -> Option<&Section>
        ensures { option_copied result ≡ object_section self.now.sections index }
    {
        self.reading.object_section(index)
    }

    /// The first section that is named for an object's compact values, as `[1003Value]`.
    pub fn values_section(&self, index: u16) -> Option<&Section>
        ensures { option_copied result ≡ values_section self.now.sections index }
    {
        self.reading.values_section(index)
    }

    /// The defaults that are kept for all nodes.
    pub(crate) fn kept_defaults(&self) -> Option<&Alike>
        ensures { IfSome result (λ alike. AreAlike self.now alike.now) }
    {
        match &self.common {
            Some(common) => Some(&common.alike),
            None => None,
        }
    }

    /// Where an entry stands: in `[xxxxsubN]`; else, of sub 0, in `[xxxx]` of a VAR or DOMAIN; else in
    /// `[xxxx]` of a compact object. `None` where there is no such entry.
    pub fn origin(&self, index: u16, sub: u8) -> Option<Origin<'_>>
        ensures { option_map origin_shown result ≡ origin_of self.now.sections index sub }
    {
        let reading = self.reading();
        let stand = reading.stand(index, sub)?;
        let section = reading.sections().get(stand.position)?;
        match stand.highest {
            None => Some(Origin::Own(section)),
            Some(highest) => Some(Origin::Compact(section, highest)),
        }
    }
}
