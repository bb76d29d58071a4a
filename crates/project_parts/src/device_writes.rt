//! The writes of a node, with its device.
ghost use Rattle.std.specs.Prelude.{◌≡◌, IfOk, option_copied};
ghost use Rattle.ini_text.specs.Change.{text_of};
ghost use Rattle.eds_dcf.specs.Dcf.{dcf_sections};
ghost use Rattle.project_parts.specs.Written.{AreValuesOf};

use base::Shared;
use eds_dcf::Template;
use eds_device::DataSheet;
use project_plan::NodeWrites;
use std::alloc::{AllocError, Global};
use std::marker::Model;

/// The writes of a node, with its device: each write is a value of its entry.
#[derive(Drop)]
pub struct DeviceWrites {
    device: Shared<DataSheet>,
    writes: Shared<NodeWrites>,
}

impl Model for DeviceWrites {
    ghost use Rattle.project_parts.specs.Written.{AreValuesOf, DeviceWithWrites};

    ghost Value = { DeviceWithWrites };

    ghost view = { λ d. record { device = d.device; writes = d.writes } };

    ghost invariant = { λ d. AreValuesOf d.device d.writes };
}

impl DeviceWrites {
    /// These writes, with the device.
    pub fn new(device: Shared<DataSheet>, writes: Shared<NodeWrites>) -> DeviceWrites
        requires { AreValuesOf device writes }
        ensures { result ≡ record { device = device; writes = writes } }
    {
        DeviceWrites { device, writes }
    }

    /// The device.
    pub fn device(&self) -> &Shared<DataSheet>
        ensures { result.now ≡ self.now.device }
    {
        &self.device
    }

    /// The writes in their order.
    pub fn writes(&self) -> &Shared<NodeWrites>
        ensures { result.now ≡ self.now.writes }
    {
        &self.writes
    }

    /// The writes without the device.
    pub fn into_writes(self) -> Shared<NodeWrites>
        ensures { result ≡ self.writes }
    {
        self.writes
    }

    /// Another handle on the same. Takes constant time.
    pub fn share(&self) -> Result<DeviceWrites, AllocError>
        ensures { IfOk result (λ d. d ≡ self.now) }
    {
        let device = self.device.share()?;
        let writes = self.writes.share()?;
        Ok(DeviceWrites { device, writes })
    }

    /// The DCF text (CiA 306) of the device as a node of a network: its number, its name, and the bit
    /// rate in kbit/s. Takes time and memory by the length of the text and of the writes and by the
    /// logarithm of the number of entries; want of memory is the only error.
    pub fn dcf_text(
        &self,
        alloc: Global,
        node: u8,
        name: &[u8],
        rate: u16,
    ) -> Result<Vec<u8>, AllocError>
        ensures { IfOk result (λ text. text.items
            ≡ text_of (dcf_sections self.now.device node name.now rate self.now.writes)) }
    {
        let writes = self.writes.get().as_slice();
        let text = eds_dcf::dcf_text(alloc, self.device.get(), node, name, rate, writes)?;
        Ok(text)
    }

    /// The same by a template of the device, in which only sections of objects to which writes are, and a few
    /// more, are looked at.
    pub fn dcf_text_by(
        &self,
        alloc: Global,
        template: &Template,
        node: u8,
        name: &[u8],
        rate: u16,
    ) -> Result<Vec<u8>, AllocError>
        requires { template.now ≡ self.now.device }
        ensures { IfOk result (λ text. text.items
            ≡ text_of (dcf_sections self.now.device node name.now rate self.now.writes)) }
    {
        let writes = self.writes.get().as_slice();
        let text = template.dcf_text(alloc, node, name, rate, writes)?;
        Ok(text)
    }
}

/// Another handle on what is there.
pub fn share_written(written: Option<&DeviceWrites>) -> Result<Option<DeviceWrites>, AllocError>
    ensures { IfOk result (λ d. d ≡ option_copied written.entry) }
{
    match written {
        Some(written) => {
            let written = written.share()?;
            Ok(Some(written))
        }
        None => Ok(None),
    }
}
