//! What an EDS says of an entry (CiA 306).
ghost use Rattle.std.specs.Prelude.{◌≡◌, IfSome, map};
ghost use Rattle.std.specs.Option.{option_copied, option_map};
ghost use Rattle.eds_entries.specs.Said.{said_in};
ghost use Rattle.eds_entries.specs.Shown.{description_shown};
ghost use Rattle.eds_places.specs.Table.{standing};
ghost use Rattle.eds_device.specs.Sheets.{has_new_types, is_new_at, is_new_entry, is_new_object};
ghost use Rattle.eds_device.specs.Described.{description_by, description_of, kind_at, known_as, default_text, value_text};

use crate::data_sheet::DataSheet;
use co_values::{DataType, Spelling};
use eds_entries::{
    DefaultText, Described, Said, compact_count, highest_sub, kind_of, unless_empty,
};
use eds_places::{Reading, Stand};
use ini_text::Section;

/// What is said of an entry that stands there.
pub(crate) fn described_by<'a>(
    sections: &'a [Section],
    said: &'a [Said],
    stand: Option<Stand>,
    sub: u8,
) -> Option<Described<'a>>
    requires { said.now ≡ map said_in sections.now }
    ensures { option_map description_shown result ≡ option_map (description_by sub) (standing sections.now stand) }
{
    let stand = stand?;
    let section = sections.get(stand.position)?;
    let said = said.get(stand.position)?;
    if sub == 0
        && let Some(highest) = stand.highest
    {
        return Some(highest_sub(highest));
    }
    Some(said.described(section))
}

/// Whether an entry has a type that version 3 alone models.
fn is_new_entry(reading: &Reading, index: u16, sub: u8) -> bool
    ensures { result ≡ is_new_entry reading.now.sections (index, sub) }
{
    let stand = reading.stand(index, sub);
    match described_by(reading.sections(), reading.said(), stand, sub) {
        Some(described) => described.kind.is_new(),
        None => false,
    }
}

/// Whether a compact object says such a type for its subs.
fn is_new_object(reading: &Reading, index: u16) -> bool
    ensures { result ≡ is_new_object reading.now.sections index }
{
    match reading.object_section(index) {
        Some(section) => compact_count(section).is_some() && kind_of(section).is_new(),
        None => false,
    }
}

/// Whether one of the two is so.
fn is_new_at(reading: &Reading, index: u16, sub: u8) -> bool
    ensures { result ≡ is_new_at reading.now.sections (index, sub) }
{
    is_new_entry(reading, index, sub) || is_new_object(reading, index)
}

/// Whether an entry of a data sheet has a type that version 3 alone models, or a compact object says one. Takes time by
/// the number of entries and its logarithm.
#[tactic(auto, unfolding(crate::specs::Sheets::has_new_types))]
pub(crate) fn has_new_types(reading: &Reading) -> bool
    ensures { result ≡ has_new_types reading.now.sections }
{
    reading
        .pairs()
        .iter()
        .any(|place| is_new_at(reading, place.0, place.1))
}

/// What is said of an entry, its type as a version knows it.
fn known_as(described: Described<'_>, is_three: bool) -> Described<'_>
    ensures { description_shown result ≡ known_as is_three (description_shown described.entry) }
{
    Described {
        kind: described.kind.in_version(is_three),
        ..described
    }
}

impl DataSheet {
    /// What the EDS says of an entry; `None` where there is no such entry.
    #[tactic(auto, unfolding(crate::specs::Described::description_of))]
    pub(crate) fn described(&self, index: u16, sub: u8) -> Option<Described<'_>>
        ensures { option_map description_shown result ≡ description_of self.now index sub }
    {
        let reading = self.reading();
        let stand = reading.stand(index, sub);
        let described = described_by(reading.sections(), reading.said(), stand, sub)?;
        Some(known_as(described, self.is_three))
    }

    /// The type of an entry; `NotModelled` too where there is no such entry.
    #[tactic(auto, unfolding(crate::specs::Described::kind_at))]
    pub fn kind(&self, index: u16, sub: u8) -> DataType
        ensures { result ≡ kind_at self.now (index, sub) }
    {
        match self.described(index, sub) {
            Some(described) => described.kind,
            None => DataType::NotModelled,
        }
    }

    /// The DefaultValue of an entry as it stands, with its type. `None` where it is missing or empty, of sub 0 of
    /// a compact object (whose default is its highest sub-index), and where there is no such entry.
    #[tactic(auto, unfolding(crate::specs::Described::default_text, crate::specs::Described::kind_at))]
    pub fn default_given(&self, index: u16, sub: u8) -> Option<(Spelling<'_>, DataType)>
        ensures text { option_map (λ p. p.0) result ≡ default_text self.now index sub }
        ensures kind { IfSome result (λ p. p.1 ≡ kind_at self.now (index, sub)) }
    {
        let Described { default, kind, .. } = self.described(index, sub)?;
        match default {
            DefaultText::Written(text) if !text.text().is_empty() => Some((text, kind)),
            _ => None,
        }
    }

    /// The DefaultValue of an entry as it stands. `None` where it is missing or empty, of sub 0 of a
    /// compact object (whose default is its highest sub-index), and where there is no such entry.
    pub fn default_text(&self, index: u16, sub: u8) -> Option<&[u8]>
        ensures { option_copied result ≡ default_text self.now index sub }
    {
        let (text, _kind) = self.default_given(index, sub)?;
        Some(text.text())
    }

    /// The ParameterValue of an entry as it stands: of a compact sub its value in `[xxxxValue]`.
    /// `None` where it is missing or empty, or where there is no such entry.
    #[tactic(auto, unfolding(crate::specs::Described::value_text))]
    pub fn value_text(&self, index: u16, sub: u8) -> Option<&[u8]>
        ensures { option_copied result ≡ value_text self.now.sections index sub }
    {
        let reading = self.reading();
        let stand = reading.stand(index, sub)?;
        let (section, said) = reading.said_at(stand.position)?;
        let text = match stand.highest {
            None => said.value(section)?,
            Some(_highest) => reading.listed_value(index, sub)?,
        };
        unless_empty(text)
    }
}
