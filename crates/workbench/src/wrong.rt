//! All that is wrong.
ghost use Rattle.std.specs.Prelude.{◌≡◌, IfOk, OnOk};
ghost use Rattle.co_diag.specs.Found.{diagnostics_of};
ghost use Rattle.kept_values.specs.Stale.{AreBrought};
ghost use Rattle.kept_values.specs.Work.{Rises};
ghost use Rattle.kept_parts.specs.Kept.{kept_inputs, IsOf};
ghost use Rattle.kept_parts.specs.Left.{left_of, IsSwept};
ghost use Rattle.project_parts.specs.Given.{inputs_of, same_part};
ghost use Rattle.project_parts.specs.Reached.{parts_for};

use base::{Shared, share_of};
use co_project::Project;
use kept_parts::KeptParts;
use kept_values::Meter;
use project_parts::{Diagnostics, Part};
use std::alloc::AllocError;

/// The diagnostics of a project: those that are kept, which are first brought up to date. Want of memory is the
/// only error; what is kept is then still of the project.
pub(crate) fn diagnostics(
    project: &Project,
    parts: &mut KeptParts,
    meter: &mut Meter,
) -> Result<Shared<Diagnostics>, AllocError>
    requires is_of { IsOf project.now parts.old }
    requires swept { IsSwept project.now parts.old }
    ensures list { IfOk result (λ list. list ≡ diagnostics_of project.now) }
    ensures brings { OnOk result (AreBrought same_part (inputs_of project.now)
        (parts_for project.now Part.Diagnostics) (left_of project.now parts.old) (kept_inputs parts.new) meter.old meter.new) }
    ensures is_of { IsOf project.now parts.new }
    ensures swept { IsSwept project.now parts.new }
    ensures rises { Rises meter.old meter.new }
{
    parts.refresh(&Part::Diagnostics, project, meter)?;
    let Some(found) = share_of(parts.diagnostics())? else {
        unreachable!()
    };
    Ok(found)
}
