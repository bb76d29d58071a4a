//! Laws of numbers and values, each a function whose contract is the law.

ghost use Rattle.std.specs.Prelude.{◌≡◌, ◌^◌, ◌<◌, ◌≤◌, ◌++◌, ◌*◌, ℕ, Some, decimal, pos, negsuc, List, length, codes};
ghost use Rattle.std.specs.Prelude.{reverse, ℤ, option_map, option_and_then};
ghost use Rattle.std.specs.Fmt.{signed_decimal};
ghost use Rattle.byteorder.specs.Endian.{little_bytes, little_number};
ghost use Rattle.base.specs.Bytes.{AreBytes};
ghost use Rattle.base.specs.Blanks.{without_first_blanks};
ghost use Rattle.co_values.specs.Number.{number, formula, in_range, hexadecimal, node_plus};
ghost use Rattle.co_values.specs.Values.{bytes_of_pairs, pairs_of, value, text_of_value, Fits, IsValueOf, signed_bits};
ghost use Rattle.co_values.specs.Types.{form, octets};
ghost use Rattle.co_values.specs.declared.form.Form.TheVariants.{Signed};
ghost use Rattle.co_values.specs.declared.form.Width.{Width};
ghost use Rattle.co_values.specs.declared.data_type.DataType.{DataType};

/// The decimal text of a number spells it.
#[tactic(auto, using(crate::proofs::Decimal::decimal_laws))]
pub fn decimal_spells()
    ensures positive { (n : ℕ) → n < 2 ^ 64 → number (decimal n) ≡ Some (pos n) }
    ensures negative { (n : ℕ) → n < 2 ^ 63 → number (signed_decimal (negsuc n)) ≡ Some (negsuc n) }
{}

/// Pairs of digits spell their bytes, and `0x` and all digits of a number spell it.
#[tactic(auto, using(crate::proofs::Hexadecimal::hexadecimal_laws))]
pub fn hexadecimal_spells()
    ensures bytes { (bytes : List ℕ) → AreBytes bytes → bytes_of_pairs (pairs_of bytes) ≡ Some bytes }
    ensures number { (bytes : List ℕ) → 0 < length bytes → length bytes ≤ 8 → AreBytes bytes
        → number (codes "0x" ++ pairs_of (reverse bytes)) ≡ Some (pos (little_number (length bytes) bytes)) }
{}

/// What is printed of a value is read as that value at every node: the text of a DCF loses nothing.
#[tactic(auto, using(crate::proofs::Printed::printed_laws))]
pub fn printed_is_read()
    ensures { (kind : DataType) (bytes : List ℕ) (node : ℕ) → Fits kind bytes
        → value kind (text_of_value kind bytes) node ≡ Some bytes }
{}

/// What a text spells as a value fits the type.
pub fn what_is_read_fits()
    ensures { (kind : DataType) (text bytes : List ℕ) (node : ℕ) → AreBytes text
        → value kind text node ≡ Some bytes → Fits kind bytes }
{}

/// What a text can spell as a value of a type is a value of it.
pub fn what_fits_is_a_value()
    ensures { (kind : DataType) (bytes : List ℕ) → Fits kind bytes → IsValueOf kind bytes }
{}

/// A number gives itself at every node, `$NODEID` the node's number, and `$NODEID+` the sum with
/// the term that follows.
#[tactic(auto, using(crate::proofs::Formulas::formula_laws))]
pub fn formulas_give()
    ensures number { (text : List ℕ) (node : ℕ) (z : ℤ) → number text ≡ Some z
        → formula text node ≡ Some z }
    ensures node { (node : ℕ) → formula (codes "$NODEID") node ≡ Some (pos node) }
    ensures sum { (text : List ℕ) (node : ℕ)
        → formula (codes "$NODEID+" ++ text) node ≡ node_plus node (without_first_blanks text) }
{}

/// Each number and each formula lies from -2^63 to 2^64 - 1.
pub fn numbers_are_in_range()
    ensures number { (text : List ℕ) (z : ℤ) → number text ≡ Some z → in_range z ≡ Some z }
    ensures formula { (text : List ℕ) (node : ℕ) (z : ℤ) → node < 2 ^ 64
        → formula text node ≡ Some z → in_range z ≡ Some z }
{}

/// A hexadecimal number without sign that has no more bits than INTEGERn is the two's complement
/// that it writes; a sum is so never, and gives only what is in the type's range.
pub fn complements_are_read()
    ensures complement { (kind : DataType) (width : Width) (text : List ℕ) (n node : ℕ)
        → form kind ≡ Signed width → hexadecimal text ≡ Some n → n < 2 ^ (8 * octets width)
        → value kind text node ≡ Some (little_bytes (octets width) n) }
    ensures sum { (kind : DataType) (width : Width) (text : List ℕ) (node : ℕ)
        → form kind ≡ Signed width
        → value kind (codes "$NODEID+" ++ text) node
        ≡ option_map (little_bytes (octets width))
        (option_and_then (signed_bits width) (node_plus node (without_first_blanks text))) }
{}
