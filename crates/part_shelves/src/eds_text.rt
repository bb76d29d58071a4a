//! What a device is read from.
ghost use Rattle.std.specs.Prelude.{◌≡◌, ◌↔◌, IfOk, IsTrue, Ok};
ghost use Rattle.std.specs.Arc.{arc_value};
ghost use Rattle.eds_device.specs.Faults.{device_of};
ghost use Rattle.ini_text.specs.Content.{content_of};
ghost use Rattle.part_shelves.specs.SheetText.{sheet_text};

use base::{Octets, Shared};
use co_project::read_device;
use eds_device::DataSheet;
use kept_values::{Kept, Makes};
use std::alloc::{AllocError, Global};
use std::marker::Model;
use std::sync::Arc;

/// An EDS text (CiA 306) that describes a device, and whether it is read by the rules of version 3: what a device is
/// read from.
#[derive(Drop)]
pub struct EdsText {
    is_three: bool,
    text: Arc<Octets>,
}

impl Model for EdsText {
    ghost use Rattle.std.specs.Prelude.{◌≡◌, Ok};
    ghost use Rattle.std.specs.Arc.{arc_value};
    ghost use Rattle.eds_device.specs.Faults.{device_of};
    ghost use Rattle.ini_text.specs.Content.{content_of};
    ghost use Rattle.part_shelves.specs.SheetText.{SheetText};

    ghost Value = { SheetText };

    ghost view = { λ t. record { is_three = t.is_three; text = arc_value t.text } };

    ghost invariant = { λ t. device_of (arc_value t.text) ≡ Ok (content_of (arc_value t.text)) };
}

impl EdsText {
    /// A copy of a text that describes a device, to be read by the rules of version 3 or not. Takes time and memory by
    /// its length; want of memory is the only error.
    pub fn of(alloc: Global, is_three: bool, text: &[u8]) -> Result<EdsText, AllocError>
        requires { device_of text.now ≡ Ok (content_of text.now) }
        ensures { IfOk result (λ t. t ≡ sheet_text is_three text.now) }
    {
        let text = Octets::from_slice(alloc, text)?;
        let text = Arc::new(alloc, text)?;
        Ok(EdsText { is_three, text })
    }

    /// Whether it is this text, read by the rules of version 3 or not. Takes time by its length, and no memory.
    pub fn is_text(&self, is_three: bool, text: &[u8]) -> bool
        ensures { IsTrue result ↔ (self.now ≡ sheet_text is_three text.now) }
    {
        self.is_three == is_three && self.text.as_slice() == text
    }

    /// The text, for its device to share.
    fn handle(&self) -> &Arc<Octets>
        ensures { arc_value result.now ≡ self.now.text }
    {
        &self.text
    }
}

impl Makes<Shared<DataSheet>> for EdsText {
    ghost use Rattle.part_shelves.specs.SheetText.{sheet_made};

    ghost made = { sheet_made };
}

/// The device of a text, read by the rules of version 3 or not, with the text, which both share where most of it is
/// content.
pub fn keep_device(
    alloc: Global,
    is_three: bool,
    text: &[u8],
) -> Result<Kept<EdsText, Shared<DataSheet>>, AllocError>
    requires { device_of text.now ≡ Ok (content_of text.now) }
    ensures { IfOk result (λ kept. kept ≡ sheet_text is_three text.now) }
{
    let inputs = EdsText::of(alloc, is_three, text)?;
    let mut device = read_device(alloc, is_three, text)?;
    device.keep_text(inputs.handle())?;
    let device = Shared::new(alloc, device)?;
    Ok(Kept::new(inputs, device))
}
