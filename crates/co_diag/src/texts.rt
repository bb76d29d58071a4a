//! The lines of texts that aren't used, put at the end of what was found.
ghost use Rattle.std.specs.Prelude.{◌≡◌, ◌++◌, Ok, Some, OnOk, IfOk, map};
ghost use Rattle.std.specs.FinMap as table;
ghost use Rattle.std.specs.List.{flat_map};
ghost use Rattle.diag_lines.specs.declared.code.Code.TheVariants.{SkippedLine};
ghost use Rattle.diag_lines.specs.declared.subject.Subject.TheVariants as of;
ghost use Rattle.ini_text.specs.Content.{content_of};
ghost use Rattle.eds_device.specs.Faults.{device_of};
ghost use Rattle.co_project.specs.Tables.{text_at};
ghost use Rattle.co_diag.specs.Lines.{lines_at};
ghost use Rattle.diag_nodes.specs.Found.{diagnostic};
ghost use Rattle.co_diag.specs.Found.{skipped_lines};

use crate::lines_found::LinesFound;
use base::{Octets, Shared};
use diag_lines::{Code, Diag, Name, Subject};
use project_plan::Library;
use std::alloc::{AllocError, Global};

/// Says that a line isn't used.
fn skipped_line(alloc: Global, name: &[u8], line: u32) -> Result<Diag, AllocError>
    ensures { IfOk result (λ diag. diag ≡ diagnostic SkippedLine (of.Eds name.now line)) }
{
    Ok(Diag {
        code: Code::SkippedLine,
        subject: Subject::Eds(Name::from_slice(alloc, name)?, line),
    })
}

/// Finds these lines of a text.
fn find_lines(
    found: &mut Vec<Diag>,
    alloc: Global,
    name: &[u8],
    lines: &[u32],
) -> Result<(), AllocError>
    ensures { OnOk result (found.new.items ≡ found.old.items
        ++ map (λ line. diagnostic SkippedLine (of.Eds name.now line)) lines.now) }
{
    for line in lines {
        let diag = skipped_line(alloc, name, *line)?;
        found.push(diag)?;
    }
    Ok(())
}

/// Finds these lines of the text of a name: where its device isn't in the library, by what was found of it before.
fn find_of_text(
    found: &mut Vec<Diag>,
    alloc: Global,
    library: &Library<'_>,
    before: &mut LinesFound,
    name: &[u8],
    text: &Shared<Octets>,
) -> Result<(), AllocError>
    requires there { text_at library.now.project.texts name.now ≡ Some text.now }
    requires device { device_of text.now ≡ Ok (content_of text.now) }
    ensures { OnOk result (found.new.items ≡ found.old.items ++ lines_at library.now.project name.now) }
{
    if let Some(device) = library.device(name) {
        return find_lines(found, alloc, name, device.warnings());
    }
    let lines = before.take(alloc, name, text)?;
    find_lines(found, alloc, name, lines.as_slice())?;
    before.put(alloc, name, lines)
}

/// Finds the lines of texts that aren't used. A text of which the library hasn't read the device is read where it isn't
/// the one that it was before.
pub(crate) fn find_skipped_lines(
    found: &mut Vec<Diag>,
    alloc: Global,
    library: &Library<'_>,
    before: &mut LinesFound,
) -> Result<(), AllocError>
    ensures { OnOk result (found.new.items
        ≡ found.old.items ++ flat_map skipped_lines (table.entries library.now.project.texts)) }
{
    let project = library.project();
    project.keeps_to_rules();
    before.let_go(library);
    for (name, text) in project.texts() {
        find_of_text(found, alloc, library, before, name, text)?;
    }
    Ok(())
}
