//! What a section says of its entry, read from it once.
ghost use Rattle.std.specs.Prelude.{◌≡◌, map, IfOk, codes};
ghost use Rattle.std.specs.Option.{option_copied};
ghost use Rattle.ini_text.specs.Content.{value_at};
ghost use Rattle.eds_entries.specs.Described.{description_in};
ghost use Rattle.eds_entries.specs.Said.{said_in, number_from, text_from, value_from};
ghost use Rattle.eds_entries.specs.Sections.{kind_of as kind_said};
ghost use Rattle.eds_entries.specs.Shown.{description_shown};

use crate::access::{access_of, is_set};
use crate::described::{DefaultText, Described};
use crate::section::kind_of;
use crate::text::{pair_of, value_from};
use co_dict::Access;
use co_values::{DataType, Formula, Spelling};
use ini_text::Section;
use std::alloc::{AllocError, Global};

/// What a section says of its entry, as it is kept beside the section: its texts by the positions of
/// their pairs, with what those of numbers give.
#[derive(Clone, Copy)]
pub struct Said {
    kind: DataType,
    access: Access,
    mappable: bool,
    default: Option<usize>,
    low: Option<usize>,
    high: Option<usize>,
    value: Option<usize>,
    default_number: Formula,
    low_number: Formula,
    high_number: Formula,
}

/// The value of the pair at a position, empty where there is none.
fn text_from(section: &Section, at: Option<usize>) -> &[u8]
    ensures { result.now ≡ text_from section.now at }
{
    match value_from(section, at) {
        Some(text) => text,
        None => &[],
    }
}

/// What that gives as a number.
fn number_from(section: &Section, at: Option<usize>) -> Formula
    ensures { result ≡ number_from section.now at }
{
    Formula::read(text_from(section, at))
}

/// That value, with what it gives as a number.
fn spelling_from(section: &Section, at: Option<usize>, number: Formula) -> Spelling<'_>
    requires { number ≡ number_from section.now at }
    ensures { result ≡ text_from section.now at }
{
    Spelling::kept(text_from(section, at), number)
}

impl Said {
    /// What a section says. Takes time by the number of its keys and the length of its texts.
    #[tactic(auto, unfolding(crate::specs::Said::said_in))]
    fn of(section: &Section) -> Said
        ensures { result ≡ said_in section.now }
    {
        let default = pair_of(section, b"DefaultValue");
        let low = pair_of(section, b"LowLimit");
        let high = pair_of(section, b"HighLimit");
        Said {
            kind: kind_of(section),
            access: access_of(section),
            mappable: is_set(section, b"PDOMapping"),
            default,
            low,
            high,
            value: pair_of(section, b"ParameterValue"),
            default_number: number_from(section, default),
            low_number: number_from(section, low),
            high_number: number_from(section, high),
        }
    }

    /// What each of the sections says, in their order. Takes time by the number of their keys and the
    /// length of their texts.
    pub fn of_all(alloc: Global, sections: &[Section]) -> Result<Vec<Said>, AllocError>
        ensures { IfOk result (λ said. said.items ≡ map said_in sections.now) }
    {
        let mut said = Vec::with_capacity(alloc, sections.len())?;
        for section in sections {
            said.push(Said::of(section))?;
        }
        Ok(said)
    }

    /// The type that the section says.
    #[tactic(auto, unfolding(crate::specs::Said::said_in))]
    pub fn kind(&self, section: &Section) -> DataType
        requires { self.now ≡ said_in section.now }
        ensures { result ≡ kind_said section.now }
    {
        let _ = section;
        self.kind
    }

    /// What the section says of its entry, with its texts. Takes constant time.
    #[tactic(auto, using(crate::proofs::TextLemmas::value_is_from), unfolding(crate::specs::Said::said_in))]
    pub fn described<'a>(&self, section: &'a Section) -> Described<'a>
        requires { self.now ≡ said_in section.now }
        ensures { description_shown result ≡ description_in section.now }
    {
        let default = spelling_from(section, self.default, self.default_number);
        Described {
            kind: self.kind,
            access: self.access,
            mappable: self.mappable,
            default: DefaultText::Written(default),
            low: spelling_from(section, self.low, self.low_number),
            high: spelling_from(section, self.high, self.high_number),
        }
    }

    /// The text of ParameterValue.
    #[tactic(auto, using(crate::proofs::TextLemmas::value_is_from), unfolding(crate::specs::Said::said_in))]
    pub fn value<'a>(&self, section: &'a Section) -> Option<&'a [u8]>
        requires { self.now ≡ said_in section.now }
        ensures { option_copied result ≡ value_at section.now.pairs (codes "ParameterValue") }
    {
        value_from(section, self.value)
    }
}
