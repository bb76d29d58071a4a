//! Laws of counting the parts that are made.
ghost use Rattle.std.specs.Prelude.{◌≡◌, ◌≤◌, ℕ, All, Bool, List, Option, length};
ghost use Rattle.kept_values.specs.Stale.{Counts};

/// Of a list of parts at most as many are to be made as they are reached as it has, and none where each part
/// is held as it is to be made now.
#[tactic(auto, using(crate::proofs::CountLemmas::at_most_all, crate::proofs::CountLemmas::none_stale))]
pub fn no_more_parts_are_counted_than_there_are<N, V>()
    ensures at_most { (same : N → N → Bool) (now : N → Option V) (parts : List N) (held : N → Option V) (n : ℕ)
        → Counts same now parts held n → n ≤ length parts }
    ensures none { (same : N → N → Bool) (now : N → Option V) (parts : List N) (held : N → Option V) (n : ℕ)
        → All (λ p. held p ≡ now p) parts → Counts same now parts held n → n ≡ 0 }
{}
