//! Laws of the definitions, each in the words of the texts: what the lines of a text say of its
//! content.
ghost use Rattle.std.specs.Prelude.{◌≡◌, ◌↔◌, ℕ, List, [], false, Some, map, slice_get};
ghost use Rattle.std.specs.List.{Contains};
ghost use Rattle.std.specs.List.Sorted.{IsStrictlyIncreasing};
ghost use Rattle.ini_text.specs.Line.{Line};
ghost use Rattle.ini_text.specs.Content.{Section, Pair, section_of, sections_of, warnings_of, content_of, content_at};
ghost use Rattle.ini_text.specs.Content.{pairs_under, value_at};
ghost use Rattle.ini_text.specs.Change.{text_of};
ghost use Rattle.ini_text.specs.First.{GivesFirst};
ghost use Rattle.ini_text.specs.Order.{OpensAt, GivesAt};
ghost use Rattle.ini_text.specs.Warned.{IsWarned};
ghost use Rattle.ini_text.specs.Printable.{IsPrintable, UsesNoCompactPdo};

/// What a text has at a key is what the first line gives that stands under a header of that name
/// and gives that key.
#[tactic(auto, using(crate::proofs::LawLemmas::first_counts))]
pub fn first_counts()
    ensures { (lines : List Line) (name key : List ℕ) →
        content_at (sections_of lines) name key ≡ value_at (pairs_under name false lines) key }
{}

/// What a text has at a key is what some line gives under a header of that name, where no earlier
/// line gives that key.
pub fn value_is_first()
    ensures { (lines : List Line) (name key value : List ℕ) →
        (content_at (sections_of lines) name key ≡ Some value) ↔ GivesFirst lines name key value }
{}

/// The section at a position has the name that a header gives, where no earlier header gives it in any
/// case, and the earlier lines have as many sections as the position says. So sections stand in the
/// order of their first headers, spelled as those spell them.
pub fn sections_in_order()
    ensures { (lines : List Line) (position : ℕ) (name : List ℕ) →
        (slice_get (map (λ s. s.name) (sections_of lines)) position ≡ Some name)
        ↔ OpensAt lines position name }
{}

/// The pair at a position of a section is what a line gives under a header of its name, where no
/// earlier line gives that key there, and the earlier lines give the section as many pairs as the
/// position says. So pairs stand in the order of their first lines, spelled as those spell them.
pub fn pairs_in_order()
    ensures { (lines : List Line) (name : List ℕ) (position : ℕ) (given : Pair) →
        (slice_get (section_of lines name).pairs position ≡ Some given)
        ↔ GivesAt lines name position given }
{}

/// The warned numbers are those of the lines that give nothing though they aren't empty, that give
/// a key again, or that misuse CompactPDO.
pub fn warned_for_a_reason()
    ensures { (lines : List Line) (number : ℕ) →
        Contains (warnings_of lines) number ↔ IsWarned lines number }
{}

/// Each is warned of once, and the numbers rise.
#[tactic(auto, using(crate::proofs::WarnedLemmas::warnings_rise))]
pub fn warnings_rise()
    ensures { (lines : List Line) → IsStrictlyIncreasing (warnings_of lines) }
{}

/// Reading what `print` writes gives the same sections again, exactly where these can be printed.
pub fn printed_is_read()
    ensures { (sections : List Section) →
        ((content_of (text_of sections)).sections ≡ sections) ↔ IsPrintable sections }
{}

/// And it warns of no line, exactly where CompactPDO has no other value than 0.
pub fn printed_without_warnings()
    ensures { (sections : List Section) →
        (content_of (text_of sections) ≡ record { sections = sections; warnings = [] })
        ↔ (IsPrintable sections × UsesNoCompactPdo sections) }
{}

/// What a text gives can be printed.
#[tactic(auto, using(crate::proofs::ReadLemmas::read_is_printable))]
pub fn read_is_printable()
    ensures { (text : List ℕ) → IsPrintable (content_of text).sections }
{}
