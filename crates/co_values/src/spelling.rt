//! Texts whose number is read once.

ghost use Rattle.std.specs.Prelude.{◌≡◌, ℕ, pos, [], option_map, option_and_then};
ghost use Rattle.std.specs.Bool.{IsFalse};
ghost use Rattle.co_values.specs.declared.form.Width.{Width};
ghost use Rattle.co_values.specs.Number.{formula, formula_in, hexadecimal};
ghost use Rattle.co_values.specs.Values.{may_vary, unsigned_bits, value};

use crate::data_type::DataType;
use crate::formula::Formula;
use std::marker::Model;

/// A text of an EDS or DCF (CiA 306), with what it gives as a number at each node. Contracts see it as the text.
#[derive(Drop)]
pub struct Spelling<'a> {
    text: &'a [u8],
    formula: Formula,
}

impl<'a> Model for Spelling<'a> {
    ghost use Rattle.std.specs.Prelude.{◌≡◌, ℕ, List};
    ghost use Rattle.co_values.specs.Number.{formula_in};

    ghost Value = { List ℕ };

    ghost view = { λ s. s.text.now };

    ghost invariant = { λ s. s.formula ≡ formula_in s.text.now };
}

impl<'a> Spelling<'a> {
    /// No text.
    #[tactic(auto, unfolding(crate::specs::Number::formula_in, crate::specs::Number::number))]
    pub fn empty() -> Spelling<'static>
        ensures { result ≡ [] }
    {
        Spelling {
            text: &[],
            formula: Formula::Nothing,
        }
    }

    /// A text, which is read. Takes time linear in it.
    pub fn read(text: &'a [u8]) -> Spelling<'a>
        ensures { result ≡ text.now }
    {
        let formula = Formula::read(text);
        Spelling { text, formula }
    }

    /// A text that was read. Takes constant time.
    pub fn kept(text: &'a [u8], formula: Formula) -> Spelling<'a>
        requires { formula ≡ formula_in text.now }
        ensures { result ≡ text.now }
    {
        Spelling { text, formula }
    }

    /// The text.
    pub fn text(&self) -> &'a [u8]
        ensures { result.now ≡ self.now }
    {
        self.text
    }

    /// The number that it gives at a node.
    #[tactic(auto, using(crate::proofs::KeptFormulas::number_kept))]
    pub(crate) fn number(&self, node: u8) -> Option<i128>
        ensures { result ≡ formula self.now node }
    {
        self.formula.at(node)
    }

    /// The number that its hexadecimal digits are, where an integer can be as large.
    pub(crate) fn digits(&self) -> Option<u64>
        ensures { (width : Width) → option_and_then (unsigned_bits width) (option_map pos result)
            ≡ option_and_then (unsigned_bits width) (option_map pos (hexadecimal self.now)) }
    {
        self.formula.digits()
    }

    /// Whether it may spell another value of a type at another node: the type's values are numbers, and it is a
    /// formula of `$NODEID`. Takes constant time.
    #[tactic(auto, using(crate::proofs::KeptFormulas::same_without_node))]
    pub fn may_vary(&self, kind: DataType) -> bool
        ensures told { result ≡ may_vary kind self.now }
        ensures same { IsFalse result → (node other : ℕ) → value kind self.now node ≡ value kind self.now other }
    {
        kind.fixed_len().is_some() && self.formula.has_node()
    }
}
