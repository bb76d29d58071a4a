//! What diagnostics found before.
ghost use Rattle.std.specs.Prelude.{◌≡◌, IfOk};
ghost use Rattle.co_diag.specs.Found.{diagnostics_of};
ghost use Rattle.project_plan.specs.Network.{plan_of_project};

use base::Shared;
use co_diag::{FoundBefore, diagnostics_by};
use pdo_plan::Plan;
use project_parts::Diagnostics;
use project_plan::Library;
use std::alloc::{AllocError, Global};
use std::marker::Model;

/// What diagnostics found before of what may not have changed: no part, and of no answer. So contracts see nothing of it.
#[derive(Drop)]
pub(crate) struct Remembered {
    before: FoundBefore,
}

impl Model for Remembered {
    ghost Value = { Unit {0} };

    ghost view = { λ r. tt };
}

impl Remembered {
    /// Nothing was found yet.
    pub(crate) fn new(alloc: Global) -> Remembered {
        Remembered {
            before: FoundBefore::new(alloc),
        }
    }

    /// Finds the diagnostics of a library's project, by the plan of its messages, and what was found the last time of
    /// nodes that didn't change.
    pub(crate) fn find(
        &mut self,
        alloc: Global,
        library: &mut Library<'_>,
        plan: &Plan,
    ) -> Result<Shared<Diagnostics>, AllocError>
        requires { plan.now ≡ plan_of_project library.old.project }
        ensures { IfOk result (λ d. d ≡ diagnostics_of library.old.project) }
    {
        let list = diagnostics_by(alloc, library, plan, &mut self.before)?;
        let found = Diagnostics::new(alloc, list)?;
        Shared::new(alloc, found)
    }
}
