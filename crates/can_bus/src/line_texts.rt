//! The lines of a trace as text.

ghost use Rattle.std.specs.Prelude.{◌≡◌, IfOk};
ghost use Rattle.can_bus.specs.Lines.{lines_text};

use crate::line::Line;
use std::alloc::{AllocError, Global};

/// The lines, each ended by LF. Takes time linear in the text.
pub fn text(alloc: Global, lines: &[Line]) -> Result<Vec<u8>, AllocError>
    ensures { IfOk result (λ text. text.items ≡ lines_text lines.now) }
{
    let mut out = Vec::new(alloc);
    for line in lines {
        line.write(alloc, &mut out)?;
        out.push(b'\n')?;
    }
    Ok(out)
}
