//! The devices of a project that were read.
ghost use Rattle.std.specs.Prelude.{◌≡◌, IfSome, OnOk, OnErr, Some, option_copied};
ghost use Rattle.std.specs.FinMap as map;
ghost use Rattle.project_plan.specs.Library.{with_device, IsRead};
ghost use Rattle.project_plan.specs.Network.{device_at};

use base::Shared;
use co_project::{Project, read_device};
use eds_device::DataSheet;
use std::alloc::{AllocError, Global};
use std::collections::BTreeMap;
use std::marker::Model;

/// The devices of a project that were read, by the names of their EDS: each text is read at most
/// once. Contracts see it as a record with the project and these devices.
#[derive(Drop)]
pub struct Library<'a> {
    alloc: Global,
    project: &'a Project,
    devices: BTreeMap<Vec<u8>, Shared<DataSheet>>,
}

impl<'a> Model for Library<'a> {
    ghost use Rattle.project_messages.specs.Messages.{by_name};
    ghost use Rattle.co_project.specs.contracts.project.Project as held;
    ghost use Rattle.eds_device.specs.contracts.data_sheet.DataSheet as device;
    ghost use Rattle.std.specs.FinMap as map;
    ghost use Rattle.project_plan.specs.Library.{Read, read_code, AreRead};

    ghost Value = { Read };

    ghost coded = { read_code held.the_row.coded device.the_row.coded };

    ghost view = { λ l. record { project = l.project.now; devices = map.from_entries (by_name l.devices.entries) } };

    ghost invariant = { λ l. AreRead l.project.now (map.from_entries (by_name l.devices.entries)) };
}

impl<'a> Library<'a> {
    /// The library of a project of which nothing was read.
    pub fn new(alloc: Global, project: &'a Project) -> Self
        ensures project { result.project ≡ project.now }
        ensures devices { result.devices ≡ map.empty }
    {
        Library {
            alloc,
            project,
            devices: BTreeMap::new(alloc),
        }
    }

    /// The project.
    pub fn project(&self) -> &'a Project
        ensures { result.now ≡ self.now.project }
    {
        self.project
    }

    /// Reads the device of an EDS, with the data types that the version of the project knows, unless it was read or
    /// there is no text of that name. Want of memory changes nothing.
    ///
    /// Takes time by the length of the text and its logarithm, or by the logarithm of the number of
    /// texts where it was read before.
    pub fn read(&mut self, name: &[u8]) -> Result<(), AllocError>
        ensures ok { OnOk result (self.new ≡ with_device self.old name.now) }
        ensures err { OnErr result (self.new ≡ self.old) }

        // So it is there afterwards, if there is such a text.
        ensures read { OnOk result (IsRead self.new name.now) }
    {
        if self.devices.get(name).is_some() {
            return Ok(());
        }
        let project = self.project;
        let Some(text) = project.text(name) else {
            return Ok(());
        };
        let is_three = project.version().is_three();
        let read = read_device(self.alloc, is_three, text)?;
        let device = Shared::new(self.alloc, read)?;
        let name = Vec::from_slice(self.alloc, name)?;
        self.devices.insert(name, device)?;
        Ok(())
    }

    /// Adds the device of an EDS that was read before: what the project's text of that name describes.
    /// Want of memory changes nothing.
    ///
    /// Takes time by the logarithm of the number of texts.
    pub fn put(&mut self, name: &[u8], device: Shared<DataSheet>) -> Result<(), AllocError>
        requires { device_at self.old.project name.now ≡ Some device }
        ensures ok { OnOk result (self.new ≡ with_device self.old name.now) }
        ensures err { OnErr result (self.new ≡ self.old) }
    {
        let name = Vec::from_slice(self.alloc, name)?;
        self.devices.insert(name, device)?;
        Ok(())
    }

    /// The device of an EDS, if it was read, for others to hold.
    pub fn shared(&self, name: &[u8]) -> Option<&Shared<DataSheet>>
        ensures device { option_copied result ≡ map.get self.now.devices name.now }

        // It is what the text of that name describes.
        ensures described { IfSome result (λ device. device_at self.now.project name.now ≡ Some device.now) }
    {
        self.devices.get(name)
    }

    /// The device of an EDS, if it was read.
    pub fn device(&self, name: &[u8]) -> Option<&DataSheet>
        ensures device { option_copied result ≡ map.get self.now.devices name.now }

        // It is what the text of that name describes.
        ensures described { IfSome result (λ device. device_at self.now.project name.now ≡ Some device.now) }
    {
        match self.shared(name) {
            Some(device) => Some(device.get()),
            None => None,
        }
    }
}
