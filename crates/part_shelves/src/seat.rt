//! A slot, with the device for many nodes.
ghost use Rattle.std.specs.Prelude.{◌≡◌, ◌↔◌, IfOk, IfSome, IsTrue, true};
ghost use Rattle.part_shelves.specs.SheetText.{sheet_made, sheet_text};
ghost use Rattle.part_shelves.specs.Slots.{fresh_slot};

use crate::device_slot::DeviceSlot;
use crate::eds_text::EdsText;
use base::Shared;
use co_dict::Shape;
use eds_dcf::Template;
use eds_device::DataSheet;
use kept_values::Kept;
use std::alloc::{AllocError, Global};
use std::marker::Model;

/// A device that is kept. Once it was asked for, the same device stands beside it with what it has alike at every
/// node; and once it was asked for twice, and until the text may be another one, the template of its DCFs.
#[derive(Drop)]
pub struct Seat {
    slot: DeviceSlot,
    common: Option<Shared<DataSheet>>,
    /// The shape of a device that had this place before: an equal one is shared.
    before: Option<Shape>,
    /// Whether a template was asked for.
    asked: bool,
    template: Option<Shared<Template>>,
}

impl Model for Seat {
    ghost use Rattle.std.specs.Prelude.{◌≡◌, IfSome};
    ghost use Rattle.part_shelves.specs.SheetText.{sheet_made};
    ghost use Rattle.part_shelves.specs.declared.device_slot.DeviceSlot.{DeviceSlot as Slot};

    ghost Value = { Slot };

    ghost view = { λ s. s.slot };

    ghost invariant = { λ s. IfSome s.common (λ d. d ≡ sheet_made s.slot.kept)
        × IfSome s.template (λ t. t ≡ sheet_made s.slot.kept) };
}

impl Seat {
    /// A device of now, and the shape of the one that had its place before, if that is known.
    pub fn new(kept: Kept<EdsText, Shared<DataSheet>>, before: Option<Shape>) -> Seat
        ensures { result ≡ fresh_slot kept }
    {
        Seat {
            slot: DeviceSlot { kept, fresh: true },
            common: None,
            before,
            asked: false,
            template: None,
        }
    }

    /// Whether it has no mark.
    pub fn is_fresh(&self) -> bool
        ensures { result ≡ self.now.fresh }
    {
        self.slot.fresh
    }

    /// Whether it was read from this text, by the rules of version 3 or not.
    pub fn is_of(&self, is_three: bool, text: &[u8]) -> bool
        ensures { IsTrue result ↔ (self.now.kept ≡ sheet_text is_three text.now) }
    {
        self.slot.kept.inputs().is_text(is_three, text)
    }

    /// The device, with what it has alike at every node once that was found.
    pub fn device(&self) -> &Shared<DataSheet>
        ensures { result.now ≡ sheet_made self.now.kept }
    {
        match &self.common {
            Some(common) => common,
            None => self.slot.kept.value(),
        }
    }

    /// The shape that it has at every node, or that the device before had, if one is known. Takes constant time and
    /// no memory; the only error is that the count of handles is full.
    pub fn shape(&self) -> Result<Option<Shape>, AllocError> {
        let kept = match &self.common {
            Some(common) => common.get().kept_shape(),
            None => self.before.as_ref(),
        };
        match kept {
            Some(shape) => {
                let shape = shape.share()?;
                Ok(Some(shape))
            }
            None => Ok(None),
        }
    }

    /// Sets or takes the mark. With a mark the template goes.
    pub fn set_fresh(&mut self, fresh: bool)
        ensures { self.new ≡ record self.old { fresh = fresh } }
    {
        if !fresh {
            self.asked = false;
            self.template = None;
        }
        self.slot.fresh = fresh;
    }

    /// The device with what it has alike at every node, which is found at the first asking. Want of memory is
    /// the only error.
    pub fn common(&mut self, alloc: Global) -> Result<Shared<DataSheet>, AllocError>
        ensures same { self.new ≡ self.old }
        ensures device { IfOk result (λ d. d ≡ sheet_made self.old.kept) }
    {
        if let Some(common) = &self.common {
            return common.share();
        }
        let device = self.device().get().with_common(self.before.as_ref())?;
        let device = Shared::new(alloc, device)?;
        let common = device.share()?;
        self.common = Some(common);
        self.before = None;
        Ok(device)
    }

    /// The template of the device's DCFs, which is made at the second asking: at the first there is none, since
    /// one DCF alone is made at less cost without. Want of memory is the only error.
    pub fn template(&mut self, alloc: Global) -> Result<Option<Shared<Template>>, AllocError>
        ensures same { self.new ≡ self.old }
        ensures template { IfOk result (λ t. IfSome t (λ t. t ≡ sheet_made self.old.kept)) }
    {
        if let Some(template) = &self.template {
            let template = template.share()?;
            return Ok(Some(template));
        }
        if !self.asked {
            self.asked = true;
            return Ok(None);
        }
        let device = self.device().pointer()?;
        let template = Template::of(alloc, device)?;
        let template = Shared::new(alloc, template)?;
        let kept = template.share()?;
        self.template = Some(kept);
        Ok(Some(template))
    }
}
