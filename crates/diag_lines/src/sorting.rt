//! Diagnostics in order, each once.
ghost use Rattle.std.specs.Prelude.{◌≡◌};
ghost use Rattle.diag_lines.specs.Order.{diag_cmp};
ghost use Rattle.diag_lines.specs.Sets.{sorted_set};

use crate::diag::Diag;

/// Sorts diagnostics, and keeps each once. Takes no memory, and time n log n for n of them.
pub fn sort_once(diags: &mut Vec<Diag>)
    ensures { diags.new.items ≡ sorted_set diag_cmp diags.old.items }
{
    diags.sort_unstable();
    diags.dedup();
}
