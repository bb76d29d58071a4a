//! Passages, one behind the other.
#![tactic(auto)]

ghost use Rattle.std.specs.Prelude.{◌≡◌, ◌++◌, IfOk, OnOk, filter};
ghost use Rattle.can_bus.specs.Lines.{lines_text};
ghost use Rattle.can_bus.specs.Runs.{is_shown};
ghost use Rattle.trace_spans.specs.Passages.{lines_of_passages};

use crate::passage::Passage;
use base::Shared;
use can_bus::Line;
use std::alloc::{AllocError, Global};

/// A copy of the lines of passages. Takes time and memory by their number.
pub(crate) fn lines_of(alloc: Global, passages: &[Shared<Passage>]) -> Result<Vec<Line>, AllocError>
    ensures { IfOk result (λ lines. lines.items ≡ lines_of_passages passages.now) }
{
    let mut lines = Vec::new(alloc);
    for passage in passages {
        lines.extend_from_slice(passage.get().lines())?;
    }
    Ok(lines)
}

/// Writes the text of passages at the end of what was written. Takes time by its length, and no memory where
/// there is room.
#[tactic(auto, using(crate::proofs::PassageLemmas::text_more), unfolding(can_bus::specs::Lines::lines_text))]
pub(crate) fn write_all(passages: &[Shared<Passage>], out: &mut Vec<u8>) -> Result<(), AllocError>
    ensures { OnOk result (out.new.items ≡ out.old.items ++ lines_text (lines_of_passages passages.now)) }
{
    for passage in passages {
        out.extend_from_slice(passage.get().text())?;
    }
    Ok(())
}

/// Keeps of a passage the lines up to the horizon: it stays as it is if those are all, and is written anew
/// if not, which takes time and memory by the text.
fn cut(alloc: Global, passage: &mut Shared<Passage>, horizon: u32) -> Result<(), AllocError>
    ensures { OnOk result (passage.new ≡ filter (is_shown horizon) passage.old) }
{
    if !passage.get().is_shown(horizon) {
        let shown = passage.get().up_to(alloc, horizon)?;
        *passage = Shared::new(alloc, shown)?;
    }
    Ok(())
}

/// Keeps of all passages the lines up to the horizon. Takes time by the number of passages, and time and
/// memory by the text of those that aren't shown whole; each other stays as it is. Want of memory may come
/// halfway: only the passages up to some place are cut then.
pub(crate) fn cut_all(
    alloc: Global,
    passages: &mut [Shared<Passage>],
    horizon: u32,
) -> Result<(), AllocError>
    ensures { OnOk result (lines_of_passages passages.new ≡ filter (is_shown horizon) (lines_of_passages passages.old)) }
{
    for place in 0..passages.len() {
        cut(alloc, &mut passages[place], horizon)?;
    }
    Ok(())
}
