//! What diagnostics are built from.

use crate::diagnostics::Diagnostics;
use base::Shared;
use co_project::Project;
use kept_values::Makes;

/// The project, which shares its texts with the one that it was copied from. The plan of its messages is
/// defined by it.
#[derive(Drop)]
pub struct DiagnosticsFrom {
    pub project: Project,
}

impl Makes<Shared<Diagnostics>> for DiagnosticsFrom {
    ghost use Rattle.co_diag.specs.Found.{diagnostics_of};

    ghost made = { λ f. diagnostics_of f.project };
}
