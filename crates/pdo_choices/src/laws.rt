//! Laws of choices, each a function whose contract is the law.
ghost use Rattle.std.specs.Prelude.{◌≡◌, ◌↔◌, ℕ, Bool, Option};
ghost use Rattle.pdo_choices.specs.Least.{least_free, IsLeastFree};

/// The least free number is free, and none of those before it is; there is none where no number is
/// free.
#[tactic(auto, using(crate::proofs::LeastLemmas::least_free_both))]
pub fn least_free_is_least()
    ensures { (is_free : ℕ → Bool) (first count : ℕ) (o : Option ℕ) → (o ≡ least_free is_free first count)
        ↔ IsLeastFree is_free first count o }
{}
