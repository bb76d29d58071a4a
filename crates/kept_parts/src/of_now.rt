//! Devices that are kept, for those who read the devices of a project.
ghost use Rattle.std.specs.Prelude.{◌≡◌, IfOk, IfSome, Some, option_and_then};
ghost use Rattle.co_project.specs.Tables.{node_at};
ghost use Rattle.project_plan.specs.Network.{device_at};
ghost use Rattle.kept_parts.specs.Kept.{IsOf};

use crate::kept_parts::KeptParts;
use base::{Shared, share_of};
use co_project::Project;
use eds_dcf::Template;
use eds_device::DataSheet;
use std::alloc::AllocError;

impl KeptParts {
    /// The device of an EDS, shared, where it is kept and has no mark: so it is what the project's text
    /// describes now. Looks at nothing else, and reads nothing.
    pub fn device_of_now(
        &self,
        project: &Project,
        name: &[u8],
    ) -> Result<Option<Shared<DataSheet>>, AllocError>
        requires { IsOf project.now self.now }
        ensures { IfOk result (λ found. IfSome found (λ device. device_at project.now name.now ≡ Some device)) }
    {
        let _ = project;
        if self.devices.is_fresh(name) {
            let device = share_of(self.devices.value(name))?;
            return Ok(device);
        }
        Ok(None)
    }

    /// The device of an EDS as `device_of_now` gives it, with what it has alike at every node: that is found
    /// at the first asking, by the number of entries and its logarithm, and kept till the text is another one.
    pub(crate) fn common_device_of_now(
        &mut self,
        project: &Project,
        name: &[u8],
    ) -> Result<Option<Shared<DataSheet>>, AllocError>
        requires { IsOf project.now self.old }
        ensures same { self.new ≡ self.old }
        ensures value { IfOk result (λ found. IfSome found (λ device. device_at project.now name.now ≡ Some device)) }
    {
        let _ = project;
        if !self.devices.is_fresh(name) {
            return Ok(None);
        }
        let device = self.devices.common(self.alloc, name)?;
        Ok(device)
    }

    /// The template of a node's device, if that is of now, and its template was asked for before.
    pub(crate) fn template_of_now(
        &mut self,
        project: &Project,
        node: u8,
    ) -> Result<Option<Shared<Template>>, AllocError>
        requires { IsOf project.now self.old }
        ensures same { self.new ≡ self.old }
        ensures value { IfOk result (λ found. IfSome found (λ t.
            option_and_then (λ n. device_at project.now n.eds) (node_at project.now.nodes node) ≡ Some t)) }
    {
        let Some(known) = project.node(node) else {
            return Ok(None);
        };
        let eds = known.eds.as_slice();
        if !self.devices.is_fresh(eds) {
            return Ok(None);
        }
        let template = self.devices.template(self.alloc, eds)?;
        Ok(template)
    }
}
