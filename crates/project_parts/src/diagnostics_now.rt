//! Diagnostics that were found, with the project that they are of.
ghost use Rattle.std.specs.Prelude.{◌≡◌, ◌↔◌, IfOk, IsTrue};
ghost use Rattle.co_diag.specs.Found.{diagnostics_of};

use crate::diagnostics::Diagnostics;
use crate::diagnostics_from::DiagnosticsFrom;
use base::Shared;
use co_project::Project;
use kept_values::Offers;
use std::alloc::{AllocError, Global};

/// A project with its diagnostics.
#[derive(Drop)]
pub struct DiagnosticsNow<'a> {
    pub project: &'a Project,
    pub found: Shared<Diagnostics>,
    pub ghost are: { found ≡ diagnostics_of project.now },
}

impl<'a> Offers<DiagnosticsFrom, Shared<Diagnostics>> for DiagnosticsNow<'a> {
    ghost offered = { λ o. record { project = o.project.now } };

    fn same(&self, kept: &DiagnosticsFrom) -> bool {
        kept.project.same(self.project)
    }

    fn copy(&self, alloc: Global) -> Result<DiagnosticsFrom, AllocError> {
        let project = self.project.copy(alloc)?;
        Ok(DiagnosticsFrom { project })
    }

    fn make(&self, _alloc: Global) -> Result<Shared<Diagnostics>, AllocError> {
        let found = self.found.share()?;
        Ok(found)
    }
}
