//! What is wrong with a project.

use anyhow::Result;
use base::share_of;
use co_diag::diagnostics;
use co_project::Project;
use diag_lines::Diag;
use kept_parts::KeptParts;
use kept_values::Meter;
use project_parts::Part;
use std::alloc::{AllocError, Global};
use std::io::Write;

/// All that is wrong with a project, by the plan that is kept of it.
fn find_wrong(alloc: Global, project: &Project) -> Result<Vec<Diag>, AllocError> {
    let mut kept = KeptParts::new(alloc);
    let mut meter = Meter::new();
    kept.refresh(&Part::Plan, project, &mut meter)?;
    let Some(plan) = share_of(kept.plan())? else {
        unreachable!()
    };
    let list = diagnostics(alloc, project, plan.get())?;
    Ok(list)
}

/// Shows a diagnostic as its line.
fn show_line<W: Write>(alloc: Global, out: &mut W, diag: &Diag) -> Result<()> {
    let line = diag.line(alloc)?;
    out.write_all(b"  ")?;
    out.write_all(line.as_slice())?;
    out.write_all(b"\n")?;
    Ok(())
}

/// Shows all that is wrong with a project, a line each.
pub fn show_wrong<W: Write>(alloc: Global, out: &mut W, project: &Project) -> Result<()> {
    let list = find_wrong(alloc, project)?;
    for diag in &list {
        show_line(alloc, out, diag)?;
    }
    Ok(())
}
