//! The device of a text.
ghost use Rattle.std.specs.Prelude.{◌≡◌, IfOk, Ok};
ghost use Rattle.eds_device.specs.Faults.{device_of};
ghost use Rattle.eds_device.specs.Sheets.{sheet_of};
ghost use Rattle.ini_text.specs.Content.{content_of};

use eds_device::{DataSheet, DeviceFault};
use std::alloc::{AllocError, Global};

/// Reads a text that describes a device (CiA 306), as each EDS text of a project does: with the data types that
/// version 3 models, or with those of the versions before it. Takes memory by the length of the text, and time by that
/// and its logarithm; want of memory is the only error.
#[tactic(auto, using(crate::proofs::SheetLemmas::read_is))]
pub fn read_device(alloc: Global, is_three: bool, text: &[u8]) -> Result<DataSheet, AllocError>
    requires { device_of text.now ≡ Ok (content_of text.now) }
    ensures { IfOk result (λ device. device ≡ sheet_of is_three text.now) }
{
    match DataSheet::read(alloc, is_three, text) {
        Ok(device) => Ok(device),
        Err(DeviceFault::Memory) => Err(AllocError),
        Err(_fault) => unreachable!(),
    }
}
