//! The identifiers that two or more TPDOs have, put at the end of what was found.
ghost use Rattle.std.specs.Prelude.{◌≡◌, ◌++◌, ◌==◌, ℕ, OnOk, filter, filter_map, length, slice_index_or};
ghost use Rattle.std.specs.Prelude.{if◌then◌else◌};
ghost use Rattle.co_diag.specs.Counts.{count_to_two, one_more, shared_among};
ghost use Rattle.co_diag.specs.Found.{shared_in};

use cia301::{Identifier, is_restricted};
use diag_lines::{Code, Diag, Subject};
use std::alloc::AllocError;

/// How often each identifier is had: never, once, or 2 for twice and more.
#[derive(Drop)]
pub(crate) struct Counts {
    pub had: [u8; 2048],
}

impl Counts {
    fn none() -> Self
        ensures { (q : ℕ) → slice_index_or result.had q 0 ≡ 0 }
    {
        Counts { had: [0; 2048] }
    }

    fn count(&mut self, identifier: &Identifier)
        ensures { (q : ℕ) → slice_index_or self.new.had q 0
            ≡ (if identifier.now == q then one_more (slice_index_or self.old.had q 0)
            else slice_index_or self.old.had q 0) }
    {
        let place = usize::from(identifier.number());
        self.had[place] = if self.had[place] == 0 { 1 } else { 2 };
    }

    /// Counts identifiers.
    fn of(identifiers: &[Identifier]) -> Self
        ensures { (q : ℕ) → slice_index_or result.had q 0 ≡ count_to_two (length (filter (λ n. n == q) identifiers.now)) }
    {
        let mut counts = Counts::none();
        for identifier in identifiers {
            counts.count(identifier);
        }
        counts
    }
}

/// What is said of an identifier.
fn shared_among(counts: &Counts, identifier: &Identifier) -> Option<Diag>
    ensures { result ≡ shared_among counts.now.had identifier.now }
{
    let number = identifier.number();
    if counts.had[usize::from(number)] < 2 || is_restricted(number) {
        return None;
    }
    Some(Diag {
        code: Code::SharedIdentifier,
        subject: Subject::Cob(*identifier),
    })
}

/// Finds those that two or more have and that aren't restricted. Takes time by their number.
pub(crate) fn find_shared(
    found: &mut Vec<Diag>,
    identifiers: &[Identifier],
) -> Result<(), AllocError>
    ensures { OnOk result (found.new.items ≡ found.old.items
        ++ filter_map (shared_in identifiers.now) identifiers.now) }
{
    let counts = Counts::of(identifiers);
    for identifier in identifiers {
        if let Some(diag) = shared_among(&counts, identifier) {
            found.push(diag)?;
        }
    }
    Ok(())
}
