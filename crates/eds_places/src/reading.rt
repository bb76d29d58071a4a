//! What is read of the sections of an EDS, once.
ghost use Rattle.std.specs.Prelude.{◌≡◌, ◌≤◌, length, map, IfSome, Some};
ghost use Rattle.std.specs.Option.{option_and_then, option_copied, option_map};
ghost use Rattle.std.specs.List.{find, slice_get};
ghost use Rattle.std.specs.Ordering.{nat_cmp};
ghost use Rattle.base.specs.Gives.{Gives};
ghost use Rattle.ini_text.specs.Content.{content_at};
ghost use Rattle.eds_entries.specs.Names.{sub_listed};
ghost use Rattle.eds_entries.specs.Said.{said_in};
ghost use Rattle.eds_places.specs.Faults.{is_memory, most_entries, unless_too_many};
ghost use Rattle.eds_places.specs.Index.{FindsFirsts};
ghost use Rattle.eds_places.specs.Places.{pairs_of};
ghost use Rattle.eds_places.specs.Table.{AreStands, standing};
ghost use Rattle.eds_places.specs.Origins.{is_index, object_section, values_section, listed_value, origin_of};

use crate::fault::DeviceFault;
use crate::index::{Listed, object_positions, sub_positions, values_positions};
use crate::places::places_of;
use crate::table::{Stand, find_stand, find_stand_near, stand_there, stands};
use eds_entries::Said;
use ini_text::{Ini, Pair, Section};
use std::alloc::Global;
use std::collections::BTreeMap;
use std::marker::Model;

/// What is read of an EDS text: its sections, what each says, and where the objects, the lists of compact
/// values and the entries stand. Contracts see it as the content of the text.
///
/// It has at most 4,096 entries. A look-up takes time by the logarithm of the sections.
#[derive(Drop)]
pub struct Reading {
    ini: Ini,
    said: Vec<Said>,
    objects: BTreeMap<u16, usize>,
    values: BTreeMap<u16, Listed>,
    places: Vec<(u16, u8)>,
    stands: Vec<Option<Stand>>,
}

impl Model for Reading {
    ghost use Rattle.ini_text.specs.Content.{Content};
    ghost use Rattle.eds_places.specs.Index.{IsIndexed};

    ghost Value = { Content };

    ghost view = { λ a. a.ini };

    ghost invariant = { λ a.
        IsIndexed a.ini.sections a.said.items a.objects.entries a.values.entries a.places.items a.stands.items };
}

/// The section at a position that a table has.
fn section_at<'a>(sections: &'a [Section], position: Option<&usize>) -> Option<&'a Section>
    ensures { option_copied result ≡ option_and_then (slice_get sections.now) (option_copied position.entry) }
{
    sections.get(*position?)
}

/// The pair at a position that a table has.
fn pair_at<'a>(pairs: &'a [Pair], position: Option<&usize>) -> Option<&'a Pair>
    ensures { option_copied result ≡ option_and_then (slice_get pairs.now) (option_copied position.entry) }
{
    pairs.get(*position?)
}

/// The first pair whose key is a sub.
fn listed_pair<'a>(section: &'a Section, listed: &Listed, sub: u8) -> Option<&'a Pair>
    requires { FindsFirsts nat_cmp (λ key p. is_index key (sub_listed p.key)) listed.now.pairs.entries section.now.pairs
        section.now.pairs }
    ensures { option_copied result ≡ find (λ p. is_index sub (sub_listed p.key)) section.now.pairs }
{
    pair_at(section.pairs(), listed.pairs.get(&sub))
}

impl Reading {
    /// What is read of a text: `Limit` where it gives over 4,096 entries. Takes time by the number of its
    /// keys and the logarithm of it, and no memory for the entries past the limit.
    pub fn of(alloc: Global, ini: Ini) -> Result<Reading, DeviceFault>
        ensures { Gives is_memory (λ reading. reading) result (unless_too_many (pairs_of ini.sections) ini) }
    {
        let places = places_of(alloc, ini.sections())?;
        let subs = sub_positions(alloc, ini.sections())?;
        let objects = object_positions(alloc, ini.sections())?;
        let values = values_positions(alloc, ini.sections())?;
        let stands = stands(alloc, ini.sections(), &subs, &objects, &places)?;
        let said = Said::of_all(alloc, ini.sections())?;
        Ok(Reading {
            ini,
            said,
            objects,
            values,
            places,
            stands,
        })
    }

    /// Where it takes its memory.
    pub fn allocator(&self) -> Global {
        *self.places.allocator()
    }

    /// The sections of the text, in order.
    pub fn sections(&self) -> &[Section]
        ensures { result.now ≡ self.now.sections }
    {
        self.ini.sections()
    }

    /// The numbers of the warned lines, from 1, in rising order.
    pub fn warnings(&self) -> &[u32]
        ensures { result.now ≡ self.now.warnings }
    {
        self.ini.warnings()
    }

    /// The index and sub-index of each entry, in order, at most 4,096.
    pub fn pairs(&self) -> &[(u16, u8)]
        ensures pairs { result.now ≡ pairs_of self.now.sections }
        ensures bound { length result.now ≤ most_entries }
    {
        self.places.as_slice()
    }

    /// The first section that is named for an object, as `[1018]`.
    pub fn object_section(&self, index: u16) -> Option<&Section>
        ensures { option_copied result ≡ object_section self.now.sections index }
    {
        section_at(self.ini.sections(), self.objects.get(&index))
    }

    /// The first section that is named for an object's compact values, as `[1003Value]`.
    pub fn values_section(&self, index: u16) -> Option<&Section>
        ensures { option_copied result ≡ values_section self.now.sections index }
    {
        let listed = self.values.get(&index)?;
        section_at(self.ini.sections(), Some(&listed.position))
    }

    /// The value of a key in a section, each in any case.
    pub fn text(&self, section: &[u8], key: &[u8]) -> Option<&[u8]>
        ensures { option_copied result ≡ content_at self.now.sections section.now key.now }
    {
        self.ini.get(section, key)
    }

    /// The value that `[xxxxValue]` lists for a sub of a compact object: of two spellings of the sub
    /// the first counts.
    #[tactic(auto, unfolding(crate::specs::Origins::listed_value))]
    pub fn listed_value(&self, index: u16, sub: u8) -> Option<&[u8]>
        ensures { option_copied result ≡ listed_value self.now.sections index sub }
    {
        let listed = self.values.get(&index)?;
        let section = section_at(self.ini.sections(), Some(&listed.position))?;
        let pair = listed_pair(section, listed, sub)?;
        Some(pair.value())
    }

    /// What each section says of its entry.
    pub fn said(&self) -> &[Said]
        ensures { result.now ≡ map said_in self.now.sections }
    {
        self.said.as_slice()
    }

    /// Where each entry stands, in the order of `pairs`.
    pub fn stands(&self) -> &[Option<Stand>]
        ensures { AreStands self.now.sections (pairs_of self.now.sections) result.now }
    {
        self.stands.as_slice()
    }

    /// Where an entry stands. `None` where there is no such entry. Takes time by the logarithm of the
    /// entries.
    pub fn stand(&self, index: u16, sub: u8) -> Option<Stand>
        ensures { standing self.now.sections result ≡ origin_of self.now.sections index sub }
    {
        find_stand(self.ini.sections(), &self.places, &self.stands, index, sub)
    }

    /// Where an entry stands, with its position among the entries, which is looked for at `near` and
    /// behind it first: there it takes constant time, and else the logarithm of the entries.
    pub fn stand_near(&self, near: usize, index: u16, sub: u8) -> Option<(usize, Stand)>
        ensures { standing self.now.sections (option_map (λ p. p.1) result)
            ≡ origin_of self.now.sections index sub }
    {
        find_stand_near(
            self.ini.sections(),
            &self.places,
            &self.stands,
            near,
            index,
            sub,
        )
    }

    /// Where the entry at a position stands. Takes constant time.
    pub fn stand_there(&self, position: usize, index: u16, sub: u8) -> Option<Stand>
        requires { slice_get (pairs_of self.now.sections) position ≡ Some (index, sub) }
        ensures { standing self.now.sections result ≡ origin_of self.now.sections index sub }
    {
        stand_there(
            self.ini.sections(),
            &self.places,
            &self.stands,
            position,
            index,
            sub,
        )
    }

    /// The section at a position, with what it says.
    pub fn said_at(&self, position: usize) -> Option<(&Section, &Said)>
        ensures section { option_map (λ p. p.0.now) result ≡ slice_get self.now.sections position }
        ensures said { IfSome result (λ p. p.1.now ≡ said_in p.0.now) }
    {
        let section = self.ini.sections().get(position)?;
        let said = self.said.get(position)?;
        Some((section, said))
    }
}
