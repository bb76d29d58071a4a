//! Formulas from text.

ghost use Rattle.std.specs.Prelude.{◌≡◌, ◌==◌, ℕ, Option, option_and_then, position};
ghost use Rattle.std.specs.Str.{byte};
ghost use Rattle.base.specs.Digits.{within_cap};
ghost use Rattle.co_values.specs.Number.{formula, formula_in, is_node_id as is_node_id_text, of_node, of_number};
ghost use Rattle.co_values.specs.Number.{number_of, digits_of, has_node, below_limit, term_beside, term_of_sum};

use crate::number::{LIMIT, hexadecimal, in_range, read_number, unsigned};
use base::{without_first_blanks, without_last_blanks};

/// What a text of an EDS or DCF (CiA 306) gives as a number at each node, read once for all of them.
#[derive(Clone, Copy, Debug, PartialEq, Eq)]
pub enum Formula {
    /// No number.
    Nothing,
    /// A number below 0, by its size.
    Negative(u64),
    /// A number that isn't below 0.
    Number(u64),
    /// The same, in hexadecimal digits.
    Hexadecimal(u64),
    /// The number of the node.
    Node,
    /// The sum of that and of this one.
    NodePlus(u64),
}

/// Whether a text is `$NODEID`, in letters of any case.
fn is_node_id(text: &[u8]) -> bool
    ensures { result ≡ is_node_id_text text.now }
{
    text.eq_ignore_ascii_case(b"$NODEID")
}

/// A number that isn't below 0, cut at 2^64: the number itself, where it is in range.
fn below_limit(number: Option<u128>) -> Option<u64>
    ensures { (o : Option ℕ) → number ≡ within_cap o → result ≡ option_and_then below_limit o }
{
    u64::try_from(number?).ok()
}

/// What two terms, of which one is `$NODEID`, add to the number of the node.
fn term_beside(left: &[u8], right: &[u8]) -> Option<u64>
    ensures { result ≡ term_beside left.now right.now }
{
    if is_node_id(left) {
        below_limit(unsigned(right))
    } else if is_node_id(right) {
        below_limit(unsigned(left))
    } else {
        None
    }
}

/// The position of the first `+`.
fn plus_position(text: &[u8]) -> Option<usize>
    ensures { result ≡ position (λ c. c == byte "+") text.now }
{
    text.iter().position(|byte| *byte == b'+')
}

/// What the terms on both sides of the first `+` add to the number of the node.
fn term_of_sum(text: &[u8]) -> Option<u64>
    ensures { result ≡ term_of_sum text.now }
{
    let plus = plus_position(text)?;
    let left = without_last_blanks(&text[..plus]);
    let right = without_first_blanks(&text[plus + 1..]);
    term_beside(left, right)
}

/// What a text gives that is no number.
fn of_node(text: &[u8]) -> Formula
    ensures { result ≡ of_node text.now }
{
    if is_node_id(text) {
        return Formula::Node;
    }
    match term_of_sum(text) {
        Some(number) => Formula::NodePlus(number),
        None => Formula::Nothing,
    }
}

/// A number, as it is kept.
fn of_number(number: i128) -> Formula
    ensures { result ≡ of_number number }
{
    let size = number.unsigned_abs();
    if number >= 0 {
        if size < LIMIT {
            Formula::Number(size as u64)
        } else {
            Formula::Nothing
        }
    } else if size <= LIMIT / 2 {
        Formula::Negative(size as u64)
    } else {
        Formula::Nothing
    }
}

impl Formula {
    /// What a text gives.
    #[tactic(auto, unfolding(crate::specs::Number::formula_in))]
    pub fn read(text: &[u8]) -> Formula
        ensures { result ≡ formula_in text.now }
    {
        if let Some(number) = below_limit(hexadecimal(text)) {
            return Formula::Hexadecimal(number);
        }
        match read_number(text) {
            Some(number) => of_number(number),
            None => of_node(text),
        }
    }

    /// The number that it gives at a node.
    pub(crate) fn at(self, node: u8) -> Option<i128>
        ensures { result ≡ number_of self node }
    {
        match self {
            Formula::Nothing => None,
            Formula::Negative(size) => Some(-i128::from(size)),
            Formula::Number(number) | Formula::Hexadecimal(number) => Some(i128::from(number)),
            Formula::Node => Some(i128::from(node)),
            Formula::NodePlus(number) => in_range(u128::from(number) + u128::from(node)),
        }
    }

    /// The number that its hexadecimal digits are.
    pub(crate) fn digits(self) -> Option<u64>
        ensures { result ≡ digits_of self }
    {
        match self {
            Formula::Hexadecimal(number) => Some(number),
            Formula::Nothing
            | Formula::Negative(_)
            | Formula::Number(_)
            | Formula::Node
            | Formula::NodePlus(_) => None,
        }
    }

    /// Whether it gives another number at another node.
    pub(crate) fn has_node(self) -> bool
        ensures { result ≡ has_node self }
    {
        matches!(self, Formula::Node | Formula::NodePlus(_))
    }
}

/// The number that a formula of an EDS or DCF (CiA 306) gives at a node, from -2^63 to 2^64 - 1: a
/// number, `$NODEID`, or the sum of `$NODEID` and a number without sign in either order, with
/// spaces and tabs next to the `+` alone. `None` for any other text.
#[tactic(auto, using(crate::proofs::KeptFormulas::number_kept))]
pub fn read_formula(text: &[u8], node: u8) -> Option<i128>
    ensures { result ≡ formula text.now node }
{
    Formula::read(text).at(node)
}
