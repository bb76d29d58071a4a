//! Laws of values and their texts, each a function whose contract is the law.

ghost use Rattle.std.specs.Prelude.{◌≡◌, ◌<◌, ◌≤◌, ℕ, List, length, Some, true};
ghost use Rattle.std.specs.Float.{Format};
ghost use Rattle.std.specs.Float.Parse.{completes_number, without_sign};
ghost use Rattle.real_texts.specs.Reals.{AreReal, IsFinite};
ghost use Rattle.std.specs.List.{AllByRecursion};
ghost use Rattle.real_texts.specs.Texts.{IsOfNumber, real_value, exact_text};

/// The exact decimal number of a finite value is read as that value.
pub fn printed_is_read()
    ensures { (f : Format) (bytes : List ℕ) → AreReal f bytes → IsFinite f bytes
        → real_value f (exact_text f bytes) ≡ Some bytes }
{}

/// Different finite values have different texts: 0 and -0 too.
pub fn texts_differ()
    ensures { (f : Format) (left right : List ℕ) → AreReal f left → IsFinite f left
        → AreReal f right → IsFinite f right → exact_text f left ≡ exact_text f right → left ≡ right }
{}

/// What a text gives as a value is finite, and has the bytes of the type.
pub fn what_is_read_is_finite()
    ensures real { (f : Format) (text bytes : List ℕ) → real_value f text ≡ Some bytes → AreReal f bytes }
    ensures finite { (f : Format) (text bytes : List ℕ) → real_value f text ≡ Some bytes → IsFinite f bytes }
{}

/// A text that gives a value is a decimal number behind a sign or none: a word such as `inf` gives none.
pub fn numbers_alone_are_read()
    ensures { (f : Format) (text bytes : List ℕ) → real_value f text ≡ Some bytes
        → completes_number 0 (without_sign text) ≡ true }
{}

/// The text of a value has digits, a point and a minus alone, at most 1,092 of them, and of a finite value one at
/// least: so it can stand in a line.
pub fn texts_can_stand_in_lines()
    ensures bytes { (f : Format) (bytes : List ℕ) → AllByRecursion IsOfNumber (exact_text f bytes) }
    ensures short { (f : Format) (bytes : List ℕ) → length (exact_text f bytes) ≤ 1092 }
    ensures some { (f : Format) (bytes : List ℕ) → IsFinite f bytes → 0 < length (exact_text f bytes) }
{}
