//! What is shown of lines.
#![tactic(auto)]

ghost use Rattle.std.specs.Prelude.{◌≡◌, IfOk, filter};
ghost use Rattle.can_bus.specs.Runs.{is_shown};
ghost use Rattle.trace_spans.specs.Passages.{latest};

use can_bus::Line;
use std::alloc::{AllocError, Global};

/// The last time of lines, or 0 where there are none. Takes time by their number.
pub(crate) fn last_time(lines: &[Line]) -> u32
    ensures { result ≡ latest lines.now }
{
    let mut last: u32 = 0;
    for line in lines {
        last = last.max(line.time());
    }
    last
}

/// The lines up to the horizon. Takes time by the number of lines, and memory for those up to it.
pub(crate) fn shown_lines(
    alloc: Global,
    lines: &[Line],
    horizon: u32,
) -> Result<Vec<Line>, AllocError>
    ensures { IfOk result (λ shown. shown.items ≡ filter (is_shown horizon) lines.now) }
{
    let mut shown = Vec::new(alloc);
    for line in lines {
        if line.time() <= horizon {
            shown.push(*line)?;
        }
    }
    Ok(shown)
}
