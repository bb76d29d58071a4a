//! How much text passages have.
#![tactic(auto)]

ghost use Rattle.std.specs.Prelude.{◌≡◌, IfSome, length};
ghost use Rattle.can_bus.specs.Lines.{lines_text};
ghost use Rattle.base.specs.Lines.{line_count};
ghost use Rattle.trace_spans.specs.Passages.{lines_of_passages};

use crate::passage::Passage;
use base::Shared;

/// The size of a text.
pub(crate) struct TextSize {
    /// How many lines it has.
    pub(crate) lines: usize,
    /// How many bytes it has.
    pub(crate) bytes: usize,
}

/// The size of the text of passages, if memory can hold so much. Takes time by the number of passages.
#[tactic(auto, using(crate::proofs::PassageLemmas::count_more, crate::proofs::PassageLemmas::length_more), unfolding(can_bus::specs::Lines::lines_text))]
pub(crate) fn size_of_text(passages: &[Shared<Passage>]) -> Option<TextSize>
    ensures lines { IfSome result (λ size. size.lines ≡ line_count (lines_text (lines_of_passages passages.now))) }
    ensures bytes { IfSome result (λ size. size.bytes ≡ length (lines_text (lines_of_passages passages.now))) }
{
    let mut lines: usize = 0;
    let mut bytes: usize = 0;
    for passage in passages {
        let passage = passage.get();
        lines = lines.checked_add(passage.count())?;
        bytes = bytes.checked_add(passage.text().len())?;
    }
    Some(TextSize { lines, bytes })
}
