//! The files of a node.
ghost use Rattle.std.specs.Prelude.{◌≡◌, IfOk, IsTrue, OnOk, Some, is_some};
ghost use Rattle.kept_values.specs.Stale.{AreBrought};
ghost use Rattle.project_plan.specs.Network.{member_at};
ghost use Rattle.kept_parts.specs.Kept.{kept_inputs, IsOf};
ghost use Rattle.kept_parts.specs.Left.{left_of, IsSwept};
ghost use Rattle.project_parts.specs.Given.{inputs_of, same_part};
ghost use Rattle.project_parts.specs.Reached.{parts_for};
ghost use Rattle.workbench.specs.Queries.{concise_of, dcf_of};
ghost use Rattle.kept_values.specs.Work.{Rises};

use base::{ListedBytes, ListedText, Shared};
use co_project::Project;
use kept_parts::KeptParts;
use kept_values::Meter;
use project_parts::Part;
use std::alloc::AllocError;

/// The DCF of a node: the one that is kept, which is first brought up to date. Want of memory is the only
/// error; what is kept is then still of the project.
pub(crate) fn dcf(
    project: &Project,
    parts: &mut KeptParts,
    meter: &mut Meter,
    node: u8,
) -> Result<Shared<ListedText>, AllocError>
    requires is_of { IsOf project.now parts.old }
    requires swept { IsSwept project.now parts.old }
    requires node { IsTrue (is_some (member_at project.now node)) }
    ensures file { IfOk result (λ text. dcf_of project.now node ≡ Some text) }
    ensures brings { OnOk result (AreBrought same_part (inputs_of project.now)
        (parts_for project.now (Part.Dcf node))
        (left_of project.now parts.old) (kept_inputs parts.new) meter.old meter.new) }
    ensures is_of { IsOf project.now parts.new }
    ensures swept { IsSwept project.now parts.new }
    ensures rises { Rises meter.old meter.new }
{
    parts.refresh(&Part::Dcf(node), project, meter)?;
    let Some(kept) = parts.dcf(node) else {
        unreachable!()
    };
    let text = kept.share()?;
    Ok(text)
}

/// The concise DCF of a node: the one that is kept, which is first brought up to date. Want of memory is
/// the only error; what is kept is then still of the project.
pub(crate) fn concise(
    project: &Project,
    parts: &mut KeptParts,
    meter: &mut Meter,
    node: u8,
) -> Result<Shared<ListedBytes>, AllocError>
    requires is_of { IsOf project.now parts.old }
    requires swept { IsSwept project.now parts.old }
    requires node { IsTrue (is_some (member_at project.now node)) }
    ensures file { IfOk result (λ bytes. concise_of project.now node ≡ Some bytes) }
    ensures brings { OnOk result (AreBrought same_part (inputs_of project.now)
        (parts_for project.now (Part.Concise node))
        (left_of project.now parts.old) (kept_inputs parts.new) meter.old meter.new) }
    ensures is_of { IsOf project.now parts.new }
    ensures swept { IsSwept project.now parts.new }
    ensures rises { Rises meter.old meter.new }
{
    parts.refresh(&Part::Concise(node), project, meter)?;
    let Some(kept) = parts.concise(node) else {
        unreachable!()
    };
    let bytes = kept.share()?;
    Ok(bytes)
}
