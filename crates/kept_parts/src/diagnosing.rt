//! All that is wrong with a project, found by what is kept of it, and brought up to date.
ghost use Rattle.std.specs.Prelude.{◌≡◌, ◌↔◌, IfOk, IsTrue, OnOk, Some};
ghost use Rattle.kept_values.specs.Stale.{AreBrought};
ghost use Rattle.kept_values.specs.Work.{Rises};
ghost use Rattle.project_parts.specs.Given.{inputs_of, same_part, whole};
ghost use Rattle.project_parts.specs.Reached.{parts_for};
ghost use Rattle.kept_parts.specs.Kept.{kept_inputs, IsOf};

use crate::kept_parts::KeptParts;
use co_project::Project;
use kept_values::Meter;
use project_parts::{DiagnosticsNow, Part};
use project_plan::Library;
use std::alloc::AllocError;

impl KeptParts {
    /// Adds the device of an EDS to a library, where it is kept as it is now.
    fn share_device(
        &self,
        library: &mut Library<'_>,
        project: &Project,
        name: &[u8],
    ) -> Result<(), AllocError>
        requires is_of { IsOf project.now self.now }
        requires project { library.old.project ≡ project.now }
        ensures { library.new.project ≡ project.now }
    {
        match self.device_of_now(project, name)? {
            Some(device) => library.put(name, device),
            None => Ok(()),
        }
    }

    /// The library of a project with the devices that are kept as they are now: those it needn't read.
    fn library<'a>(&self, project: &'a Project) -> Result<Library<'a>, AllocError>
        requires { IsOf project.now self.now }
        ensures { IfOk result (λ library. library.project ≡ project.now) }
    {
        let mut library = Library::new(self.alloc, project);
        for (name, _text) in project.texts() {
            self.share_device(&mut library, project, name)?;
        }
        Ok(library)
    }

    /// Whether diagnostics of this project are kept: without a mark they are, else where the project that they are
    /// of is equal.
    fn has_diagnostics(&self, project: &Project) -> bool
        requires { IsOf project.now self.now }
        ensures { IsTrue result ↔ (self.now.found.kept ≡ Some (whole project.now)) }
    {
        let Some(kept) = self.found.inputs() else {
            return false;
        };
        self.found.is_fresh() || kept.project.same(project)
    }

    /// Brings the diagnostics up to date, after the plan.
    pub(crate) fn bring_diagnostics(
        &mut self,
        project: &Project,
        meter: &mut Meter,
    ) -> Result<(), AllocError>
        requires { IsOf project.now self.old }
        ensures is_of { IsOf project.now self.new }
        ensures brings { OnOk result (AreBrought same_part (inputs_of project.now)
            (parts_for project.now Part.Diagnostics) (kept_inputs self.old) (kept_inputs self.new) meter.old meter.new) }
        ensures rises { Rises meter.old meter.new }
    {
        let plan = self.bring_plan(project, meter)?;
        if self.has_diagnostics(project) {
            self.found.unmark();
            return Ok(());
        }
        let mut library = self.library(project)?;
        let found = self.remembered.find(self.alloc, &mut library, plan.get())?;
        self.found
            .build(self.alloc, DiagnosticsNow { project, found }, meter)?;
        Ok(())
    }
}
