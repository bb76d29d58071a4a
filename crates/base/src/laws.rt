//! Laws of bytes and of moments, each a function whose contract is the law.
ghost use Rattle.std.specs.Prelude.{◌≡◌, ◌≤◌, ◌↔◌, ℕ, All, Contains, IfSome, List, [], None, length, take};
ghost use Rattle.byteorder.specs.Endian.{little_bytes, little_number};
ghost use Rattle.base.specs.Bytes.{AreBytes};
ghost use Rattle.base.specs.Moments.{earliest};

/// The first bytes of a list are the bytes of the number that they spell, the lowest first.
#[tactic(auto, using(crate::proofs::Little::spelled_again))]
pub fn number_spelled_again()
    ensures { (count : ℕ) (bytes : List ℕ) → count ≤ length bytes → AreBytes bytes
        → little_bytes count (little_number count bytes) ≡ take count bytes }
{}

/// The earliest of moments is one of them, and there is none only where there are no moments.
#[tactic(auto, using(crate::proofs::MomentLemmas::none_only, crate::proofs::MomentLemmas::one_of_them))]
pub fn the_earliest_is_one_of_them()
    ensures none { (moments : List ℕ) → (earliest moments ≡ None) ↔ (moments ≡ []) }
    ensures among { (moments : List ℕ) → IfSome (earliest moments) (Contains moments) }
{}

/// The earliest of moments lies from the moment t on where all of them do, and only there.
#[tactic(auto, using(crate::proofs::MomentLemmas::from_earliest))]
pub fn no_moment_lies_before_the_earliest()
    ensures { (t : ℕ) (moments : List ℕ) → IfSome (earliest moments) (λ moment. t ≤ moment)
        ↔ All (λ moment. t ≤ moment) moments }
{}
