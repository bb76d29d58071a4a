//! Whether sections are the same, letter by letter.
ghost use Rattle.std.specs.Prelude.{◌≡◌, ◌↔◌, IsTrue};

use crate::pair::Pair;
use crate::section::Section;

/// Whether pairs have one key and one value, letter by letter.
fn same_pair(a: &Pair, b: &Pair) -> bool
    ensures { IsTrue result ↔ (a.now ≡ b.now) }
{
    a.key() == b.key() && a.value() == b.value()
}

/// Whether lists have the same pairs in the same order.
fn same_pairs(a: &[Pair], b: &[Pair]) -> bool
    ensures { IsTrue result ↔ (a.now ≡ b.now) }
{
    if a.len() != b.len() {
        return false;
    }
    for i in 0..a.len() {
        if !same_pair(&a[i], &b[i]) {
            return false;
        }
    }
    true
}

/// Whether sections have one name, letter by letter, and the same pairs in the same order.
fn same_section(a: &Section, b: &Section) -> bool
    ensures { IsTrue result ↔ (a.now ≡ b.now) }
{
    a.name() == b.name() && same_pairs(a.pairs(), b.pairs())
}

/// Whether lists have the same sections in the same order. Names, keys and values are the same letter
/// by letter: their case counts, unlike where a name is looked up. Takes time by the length of the
/// texts up to the first difference, and no memory.
pub fn same_sections(a: &[Section], b: &[Section]) -> bool
    ensures { IsTrue result ↔ (a.now ≡ b.now) }
{
    if a.len() != b.len() {
        return false;
    }
    for i in 0..a.len() {
        if !same_section(&a[i], &b[i]) {
            return false;
        }
    }
    true
}
