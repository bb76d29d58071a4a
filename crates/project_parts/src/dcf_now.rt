//! The inputs of a node's DCF as they lie in a project.
ghost use Rattle.std.specs.Prelude.{◌≡◌, Some};
ghost use Rattle.eds_device.specs.Sheets.{Sheet};

use crate::dcf_from::DcfFrom;
use crate::device_writes::DeviceWrites;
use base::{ListedText, Octets, Shared};
use co_project::Project;
use concise_dcf::same_writes;
use eds_dcf::Template;
use kept_values::Offers;
use std::alloc::{AllocError, Global};

/// The writes of a node with its device, its name and its number, and the bit rate in kbit/s. A template that
/// is there is of the device.
#[derive(Drop)]
pub struct DcfNow<'a> {
    pub written: DeviceWrites,
    pub name: &'a Octets,
    pub rate: u16,
    pub node: u8,
    pub template: Option<Shared<Template>>,
    ghost of_device: { (t : Sheet) → template ≡ Some t → t ≡ written.device },
}

impl<'a> DcfNow<'a> {
    ghost use Rattle.std.specs.Prelude.{◌≡◌, IfOk, Some, option_map};
    ghost use Rattle.eds_device.specs.Sheets.{Sheet};
    ghost use Rattle.project_parts.specs.Given.{dcf_from, writes_from};
    ghost use Rattle.project_parts.specs.Made.{dcf_made, written_made};
    ghost use Rattle.project_parts.specs.Offered.{offered_dcf};
    ghost use Rattle.project_parts.specs.declared.dcf_from.DcfFrom.{DcfFrom as Inputs};

    /// What the DCF of a node is built from now, if it is there with its device.
    pub fn of(project: &'a Project, node: u8, written: Option<DeviceWrites>) -> Option<DcfNow<'a>>
        requires { written ≡ option_map written_made (writes_from project.now node) }
        ensures { option_map offered_dcf result ≡ dcf_from project.now node }
    {
        let known = project.node(node)?;
        let written = written?;
        Some(DcfNow {
            written,
            name: &known.name,
            rate: project.bitrate(),
            node,
            template: None,
        })
    }

    /// The same, with a template of the device if there is one.
    pub fn with_template(
        now: Option<DcfNow<'a>>,
        template: Option<Shared<Template>>,
    ) -> Option<DcfNow<'a>>
        requires { (t : Sheet) (d : Inputs) → template ≡ Some t → option_map offered_dcf now ≡ Some d
            → t ≡ d.device }
        ensures { option_map offered_dcf result ≡ option_map offered_dcf now.entry }
    {
        let now = now?;
        Some(DcfNow {
            written: now.written,
            name: now.name,
            rate: now.rate,
            node: now.node,
            template,
        })
    }

    /// The text of the DCF.
    #[tactic(auto, unfolding(crate::specs::Made::dcf_made))]
    fn text(&self, alloc: Global) -> Result<Vec<u8>, AllocError>
        ensures { IfOk result (λ text. text.items ≡ dcf_made (offered_dcf self.now)) }
    {
        let name = self.name.as_slice();
        match &self.template {
            Some(template) => {
                self.written
                    .dcf_text_by(alloc, template.get(), self.node, name, self.rate)
            }
            None => self.written.dcf_text(alloc, self.node, name, self.rate),
        }
    }
}

impl<'a> Offers<DcfFrom, Shared<ListedText>> for DcfNow<'a> {
    ghost use Rattle.std.specs.Prelude.{◌≡◌, ◌↔◌, IfOk, IsTrue};
    ghost use Rattle.project_parts.specs.Offered.{offered_dcf};

    ghost offered = { offered_dcf };

    fn same(&self, kept: &DcfFrom) -> bool {
        if kept.node != self.node || kept.rate != self.rate {
            return false;
        }
        kept.name.as_slice() == self.name.as_slice()
            && same_writes(
                kept.writes.get().as_slice(),
                self.written.writes().get().as_slice(),
            )
            && kept.device.get().same(self.written.device().get())
    }

    fn copy(&self, alloc: Global) -> Result<DcfFrom, AllocError> {
        let device = self.written.device().share()?;
        let name = Octets::from_slice(alloc, self.name.as_slice())?;
        let writes = self.written.writes().share()?;
        Ok(DcfFrom {
            device,
            name,
            rate: self.rate,
            writes,
            node: self.node,
        })
    }

    fn make(&self, alloc: Global) -> Result<Shared<ListedText>, AllocError> {
        let text = self.text(alloc)?;
        let listed = ListedText::new(alloc, &text)?;
        Shared::new(alloc, listed)
    }
}
