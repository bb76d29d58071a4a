//! Laws of the entries that sections give, each a function whose contract is the law.
ghost use Rattle.std.specs.Prelude.{◌↔◌, ℕ, List, IsSome};
ghost use Rattle.std.specs.List.{Contains};
ghost use Rattle.std.specs.List.Sorted.{IsStrictlySortedBy};
ghost use Rattle.ini_text.specs.Content.{Section, content_of};
ghost use Rattle.co_dict.specs.Places.{place_cmp};
ghost use Rattle.eds_places.specs.Places.{places_given, pairs_of};
ghost use Rattle.eds_places.specs.Origins.{origin_of};

/// The entries of a device stand by index and sub-index, each once, and are those that some section
/// gives.
#[tactic(auto, using(crate::proofs::PlaceLemmas::pairs_sorted))]
pub fn entries_are_those_given()
    ensures sorted { (ss : List Section) → IsStrictlySortedBy place_cmp (pairs_of ss) }
    ensures given { (ss : List Section) (place : ℕ × ℕ)
        → Contains (pairs_of ss) place ↔ ((s : Section) × (Contains ss s × Contains (places_given s) place)) }
{}

/// The entries of a text are those that one of the three rules gives.
#[tactic(auto, using(crate::proofs::ConverseLemmas::given_by_rules))]
pub fn entries_are_those_of_the_rules()
    ensures { (text : List ℕ) (index sub : ℕ) → let ss = (content_of text).sections
        in Contains (pairs_of ss) (index, sub) ↔ IsSome (origin_of ss index sub) }
{}
