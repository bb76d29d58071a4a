//! The devices of EDS, by name.
ghost use Rattle.std.specs.Prelude.{◌≡◌, ◌↔◌, ℕ, List, IsTrue, true, false, None, Some, Ok, IfOk, IfSome, OnOk, OnErr, cond};
ghost use Rattle.std.specs.Prelude.{option_copied, option_map};
ghost use Rattle.std.specs.FinMap as map;
ghost use Rattle.std.specs.Ordering.{eq_by_cmp};
ghost use Rattle.eds_device.specs.Faults.{device_of};
ghost use Rattle.ini_text.specs.Content.{content_of};
ghost use Rattle.project_messages.specs.Messages.{by_name, name_cmp};
ghost use Rattle.kept_values.specs.Work.{Refreshes, Rises};
ghost use Rattle.part_shelves.specs.SheetText.{sheet_given, sheet_made, sheet_text};
ghost use Rattle.part_shelves.specs.Slots.{fresh_at, fresh_slot, marked, sheet_kept, with_fresh};

use crate::eds_text::keep_device;
use crate::seat::Seat;
use base::{Shared, share_of};
use co_dict::Shape;
use co_project::Project;
use eds_dcf::Template;
use eds_device::DataSheet;
use kept_values::Meter;
use std::alloc::{AllocError, Global};
use std::collections::BTreeMap;
use std::marker::Model;

/// The devices of EDS by the names of these, each with what it was read from and a mark. A call takes time by the
/// logarithm of their number.
#[derive(Drop)]
pub struct DeviceShelf {
    slots: BTreeMap<Vec<u8>, Seat>,
}

impl Model for DeviceShelf {
    ghost use Rattle.std.specs.Coded.{coded_ℕ, coded_list};
    ghost use Rattle.std.specs.FinMap as map;
    ghost use Rattle.project_messages.specs.Messages.{by_name};
    ghost use Rattle.part_shelves.specs.Slots.{Slots};
    ghost use Rattle.part_shelves.specs.contracts.device_slot.DeviceSlot as slot;

    ghost Value = { Slots };

    ghost coded = { map.code (coded_list coded_ℕ) slot.the_row.coded };

    ghost view = { λ s. map.from_entries (by_name s.slots.entries) };
}

/// Lets go the devices of names under which a project has no text.
fn keep_named(slots: &mut BTreeMap<Vec<u8>, Seat>, project: &Project)
    ensures { map.from_entries {R = name_cmp} (by_name slots.new.entries)
        ≡ map.retain_keys (map.from_entries (by_name slots.old.entries)) (map.contains_key project.now.texts) }
{
    slots.retain(|name, _seat| project.text(name).is_some());
}

/// Sets the mark of each device.
fn mark_each(slots: &mut BTreeMap<Vec<u8>, Seat>)
    ensures { (q : List ℕ) → map.get (map.from_entries {R = name_cmp} (by_name slots.new.entries)) q
        ≡ option_map marked (map.get (map.from_entries {R = name_cmp} (by_name slots.old.entries)) q) }
{
    slots.retain(|_name, seat| {
        seat.set_fresh(false);
        true
    });
}

impl DeviceShelf {
    pub fn new(alloc: Global) -> DeviceShelf
        ensures { result ≡ map.empty }
    {
        DeviceShelf {
            slots: BTreeMap::new(alloc),
        }
    }

    fn get(&self, name: &[u8]) -> Option<&Seat>
        ensures { option_copied result ≡ map.get self.now name.now }
    {
        self.slots.get(name)
    }

    fn put(&mut self, name: Vec<u8>, seat: Seat) -> Result<(), AllocError>
        ensures ok { OnOk result (self.new ≡ map.insert self.old name.items seat) }
        ensures err { OnErr result (self.new ≡ self.old) }
    {
        self.slots.insert(name, seat)?;
        Ok(())
    }

    fn remove(&mut self, name: &[u8])
        ensures { self.new ≡ map.remove self.old name.now }
    {
        self.slots.remove(name);
    }

    /// Lets go the devices of names under which a project has no text. Takes time by the number of names, with
    /// its logarithm.
    pub fn let_go(&mut self, project: &Project)
        ensures { self.new ≡ map.retain_keys self.old (map.contains_key project.now.texts) }
    {
        keep_named(&mut self.slots, project);
    }

    /// Sets or takes the mark of a name, if a device is kept under it.
    fn set_fresh(&mut self, name: &[u8], fresh: bool)
        ensures { self.new ≡ with_fresh self.old name.now fresh }
    {
        let Some(seat) = self.slots.get_mut(name) else {
            return;
        };
        seat.set_fresh(fresh);
    }

    /// The text of a name may be another one now. The template of its DCFs is let go.
    pub fn mark(&mut self, name: &[u8])
        ensures { self.new ≡ with_fresh self.old name.now false }
    {
        self.set_fresh(name, false);
    }

    /// Sets the mark of each name, as `mark` does. Takes time by their number.
    pub fn mark_all(&mut self)
        ensures { (q : List ℕ) → map.get self.new q ≡ option_map marked (map.get self.old q) }
    {
        mark_each(&mut self.slots);
    }

    /// The device of a name that is kept.
    pub fn value(&self, name: &[u8]) -> Option<&Shared<DataSheet>>
        ensures { option_copied result ≡ option_map sheet_made (sheet_kept self.now name.now) }
    {
        match self.get(name) {
            Some(seat) => Some(seat.device()),
            None => None,
        }
    }

    /// The device of a name that is kept, with what it has alike at every node: that is found at the first
    /// asking, and kept till the text is another one. Takes time by the logarithm of the number of names, and at the
    /// first asking time and memory by the number of entries, and time by its logarithm; want of memory is the
    /// only error.
    pub fn common(
        &mut self,
        alloc: Global,
        name: &[u8],
    ) -> Result<Option<Shared<DataSheet>>, AllocError>
        ensures same { self.new ≡ self.old }
        ensures device { IfOk result (λ d. d ≡ option_map sheet_made (sheet_kept self.old name.now)) }
    {
        let Some(seat) = self.slots.get_mut(name) else {
            return Ok(None);
        };
        let device = seat.common(alloc)?;
        Ok(Some(device))
    }

    /// The template of the DCFs of the device of a name that is kept: it is made at the second asking, and kept
    /// till the name is marked; at the first there is none. Takes time by the logarithm of the number of names,
    /// and at the second asking the time of one DCF and memory by the length of the text; want of memory is the
    /// only error.
    pub fn template(
        &mut self,
        alloc: Global,
        name: &[u8],
    ) -> Result<Option<Shared<Template>>, AllocError>
        ensures same { self.new ≡ self.old }
        ensures template { IfOk result (λ t. IfSome t (λ t.
            option_map sheet_made (sheet_kept self.old name.now) ≡ Some t)) }
    {
        let Some(seat) = self.slots.get_mut(name) else {
            return Ok(None);
        };
        let template = seat.template(alloc)?;
        Ok(template)
    }

    /// The device of a name that is kept, shared: where many build from it as `common` gives it, else as
    /// `value`. Takes the time and the memory of these.
    pub fn shared(
        &mut self,
        alloc: Global,
        name: &[u8],
        many: bool,
    ) -> Result<Option<Shared<DataSheet>>, AllocError>
        ensures same { self.new ≡ self.old }
        ensures device { IfOk result (λ d. d ≡ option_map sheet_made (sheet_kept self.old name.now)) }
    {
        if many {
            let common = self.common(alloc, name)?;
            return Ok(common);
        }
        let device = share_of(self.value(name))?;
        Ok(device)
    }

    pub fn is_fresh(&self, name: &[u8]) -> bool
        ensures { result ≡ fresh_at self.now name.now }
    {
        match self.get(name) {
            Some(seat) => seat.is_fresh(),
            None => false,
        }
    }

    fn has_text(&self, name: &[u8], is_three: bool, text: &[u8]) -> bool
        ensures { IsTrue result ↔ (sheet_kept self.now name.now ≡ Some (sheet_text is_three text.now)) }
    {
        match self.get(name) {
            Some(seat) => seat.is_of(is_three, text),
            None => false,
        }
    }

    /// The shape that the device of a name has at every node, if it is known.
    fn shape(&self, name: &[u8]) -> Result<Option<Shape>, AllocError> {
        match self.get(name) {
            Some(seat) => seat.shape(),
            None => Ok(None),
        }
    }

    /// Reads the text of a name by the rules of version 3 or not, and keeps its device.
    fn read(
        &mut self,
        alloc: Global,
        name: &[u8],
        is_three: bool,
        text: &[u8],
    ) -> Result<(), AllocError>
        requires { device_of text.now ≡ Ok (content_of text.now) }
        ensures ok { OnOk result (self.new
            ≡ map.insert self.old name.now (fresh_slot (sheet_text is_three text.now))) }
        ensures err { OnErr result (self.new ≡ self.old) }
    {
        let kept = keep_device(alloc, is_three, text)?;
        let before = self.shape(name)?;
        let name = Vec::from_slice(alloc, name)?;
        self.put(name, Seat::new(kept, before))
    }

    /// Reads the text that a project has under a name anew if it is another one than before, or if the version has
    /// become 3 since or is 3 no longer; and lets the device go if there is no text. A name without a mark takes
    /// no look at the text, the same text time by its length, and one that is read time and memory by its length and
    /// its logarithm.
    pub fn bring(
        &mut self,
        alloc: Global,
        project: &Project,
        name: &[u8],
        meter: &mut Meter,
    ) -> Result<(), AllocError>
        requires { fresh_at self.old name.now ≡ true
            → sheet_kept self.old name.now ≡ sheet_given project.now name.now }
        ensures ok { OnOk result ((q : List ℕ) → map.get self.new q
            ≡ cond (eq_by_cmp name_cmp q name.now)
            (option_map fresh_slot (sheet_given project.now name.now)) (map.get self.old q)) }
        ensures err { OnErr result (self.new ≡ self.old) }
        ensures counted { OnOk result (Refreshes
            (sheet_kept self.old name.now) (sheet_given project.now name.now) meter.old meter.new) }
        ensures uncounted { OnErr result (meter.new ≡ meter.old) }
        ensures rises { Rises meter.old meter.new }
    {
        if self.is_fresh(name) {
            return Ok(());
        }
        let Some(text) = project.text(name) else {
            self.remove(name);
            return Ok(());
        };
        let is_three = project.version().is_three();
        if self.has_text(name, is_three, text) {
            self.set_fresh(name, true);
            return Ok(());
        }
        self.read(alloc, name, is_three, text)?;
        meter.refreshed();
        Ok(())
    }
}
