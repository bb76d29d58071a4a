//! Where the entries of a device stand, found once when it is read.
ghost use Rattle.std.specs.Prelude.{◌≡◌, ℕ, IfOk, IfSome, IfNone, IsTrue, Some, None, option_and_then, option_map};
ghost use Rattle.std.specs.List.{slice_get};
ghost use Rattle.std.specs.Option.{option_or};
ghost use Rattle.std.specs.Ordering.{nat_cmp};
ghost use Rattle.co_dict.specs.Places.{place_cmp};
ghost use Rattle.eds_entries.specs.Names.{index_named, place_named};
ghost use Rattle.eds_places.specs.Index.{FindsFirsts};
ghost use Rattle.eds_places.specs.Origins.{from_compact, from_object, is_index, is_place, object_section, origin_of};
ghost use Rattle.eds_places.specs.Origins.{sub_section};
ghost use Rattle.eds_places.specs.Places.{pairs_of};
ghost use Rattle.eds_places.specs.Table.{AreStands, standing};

use eds_entries::{compact_count, is_plain};
use ini_text::Section;
use std::alloc::{AllocError, Global};
use std::collections::BTreeMap;

/// Where an entry stands.
#[derive(Clone, Copy)]
pub struct Stand {
    /// The position of its section.
    pub position: usize,
    /// The highest sub-index, where that is the section of a compact object.
    pub highest: Option<u8>,
}

/// The position of the first section that is named for an entry.
#[tactic(auto, unfolding(crate::specs::Index::FindsFirsts, crate::specs::Origins::sub_section))]
fn sub_position(
    sections: &[Section],
    subs: &BTreeMap<(u16, u8), usize>,
    index: u16,
    sub: u8,
) -> Option<usize>
    requires { FindsFirsts place_cmp (λ key s. is_place key (place_named s.name)) subs.now.entries sections.now
        sections.now }
    ensures { option_map (slice_get sections.now) result ≡ option_map Some (sub_section sections.now index sub) }
{
    let _ = sections;
    subs.get(&(index, sub)).copied()
}

/// The position of the first section that is named for an object.
#[tactic(auto, unfolding(crate::specs::Index::FindsFirsts, crate::specs::Origins::object_section))]
fn object_position(
    sections: &[Section],
    objects: &BTreeMap<u16, usize>,
    index: u16,
) -> Option<usize>
    requires { FindsFirsts nat_cmp (λ key s. is_index key (index_named s.name)) objects.now.entries sections.now
        sections.now }
    ensures { option_map (slice_get sections.now) result ≡ option_map Some (object_section sections.now index) }
{
    let _ = sections;
    objects.get(&index).copied()
}

/// Where an entry stands that no section is named for.
fn stand_in_object(
    sections: &[Section],
    objects: &BTreeMap<u16, usize>,
    index: u16,
    sub: u8,
) -> Option<Stand>
    requires { FindsFirsts nat_cmp (λ key s. is_index key (index_named s.name)) objects.now.entries sections.now
        sections.now }
    ensures { standing sections.now result ≡ option_or (from_object sections.now index sub)
        (from_compact sections.now index sub) }
{
    let position = object_position(sections, objects, index)?;
    let object = sections.get(position)?;
    if sub == 0 && is_plain(object) {
        return Some(Stand {
            position,
            highest: None,
        });
    }
    let highest = compact_count(object)?;
    if sub <= highest {
        Some(Stand {
            position,
            highest: Some(highest),
        })
    } else {
        None
    }
}

/// Where an entry stands: in `[xxxxsubN]`; else, of sub 0, in `[xxxx]` of a VAR or DOMAIN; else in
/// `[xxxx]` of a compact object. `None` where there is no such entry.
fn stand_of(
    sections: &[Section],
    subs: &BTreeMap<(u16, u8), usize>,
    objects: &BTreeMap<u16, usize>,
    index: u16,
    sub: u8,
) -> Option<Stand>
    requires subs { FindsFirsts place_cmp (λ key s. is_place key (place_named s.name)) subs.now.entries sections.now
        sections.now }
    requires objects { FindsFirsts nat_cmp (λ key s. is_index key (index_named s.name)) objects.now.entries sections.now
        sections.now }
    ensures { standing sections.now result ≡ origin_of sections.now index sub }
{
    match sub_position(sections, subs, index, sub) {
        Some(position) => Some(Stand {
            position,
            highest: None,
        }),
        None => stand_in_object(sections, objects, index, sub),
    }
}

/// Where the entries at places stand, one after the other. Takes time by their number and the
/// logarithm of the sections.
pub(crate) fn stands(
    alloc: Global,
    sections: &[Section],
    subs: &BTreeMap<(u16, u8), usize>,
    objects: &BTreeMap<u16, usize>,
    places: &[(u16, u8)],
) -> Result<Vec<Option<Stand>>, AllocError>
    requires subs { FindsFirsts place_cmp (λ key s. is_place key (place_named s.name)) subs.now.entries sections.now
        sections.now }
    requires objects { FindsFirsts nat_cmp (λ key s. is_index key (index_named s.name)) objects.now.entries sections.now
        sections.now }
    ensures { IfOk result (λ v. AreStands sections.now places.now v.items) }
{
    let mut stands = Vec::with_capacity(alloc, places.len())?;
    for place in places {
        stands.push(stand_of(sections, subs, objects, place.0, place.1))?;
    }
    Ok(stands)
}

/// What stands at a position of the table.
pub fn stand_at(stands: &[Option<Stand>], position: usize) -> Option<Stand>
    ensures { result ≡ option_and_then (λ stand. stand) (slice_get stands.now position) }
{
    *stands.get(position)?
}

/// Where the entry at a position stands, as it was found. Takes constant time.
pub(crate) fn stand_there(
    sections: &[Section],
    places: &[(u16, u8)],
    stands: &[Option<Stand>],
    position: usize,
    index: u16,
    sub: u8,
) -> Option<Stand>
    requires places { places.now ≡ pairs_of sections.now }
    requires stands { AreStands sections.now places.now stands.now }
    requires there { slice_get (pairs_of sections.now) position ≡ Some (index, sub) }
    ensures { standing sections.now result ≡ origin_of sections.now index sub }
{
    let _ = sections;
    let _ = places;
    let _ = (index, sub);
    stand_at(stands, position)
}

/// Where an entry stands, as it was found. Takes time by the logarithm of the entries.
pub(crate) fn find_stand(
    sections: &[Section],
    places: &[(u16, u8)],
    stands: &[Option<Stand>],
    index: u16,
    sub: u8,
) -> Option<Stand>
    requires places { places.now ≡ pairs_of sections.now }
    requires stands { AreStands sections.now places.now stands.now }
    ensures { standing sections.now result ≡ origin_of sections.now index sub }
{
    let _ = sections;
    match places.binary_search(&(index, sub)) {
        Ok(position) => stand_at(stands, position),
        Err(_) => None,
    }
}

/// Whether a place stands at a position.
fn is_at(places: &[(u16, u8)], position: usize, index: u16, sub: u8) -> bool
    ensures { IsTrue result → slice_get places.now position ≡ Some (index, sub) }
{
    match places.get(position) {
        Some(place) => *place == (index, sub),
        None => false,
    }
}

/// The position of a place, by the logarithm of their number.
fn position_of(sections: &[Section], places: &[(u16, u8)], index: u16, sub: u8) -> Option<usize>
    requires { places.now ≡ pairs_of sections.now }
    ensures found { IfSome result (λ i. slice_get places.now i ≡ Some (index, sub)) }
    ensures none { IfNone result (origin_of sections.now index sub ≡ None) }
{
    let _ = sections;
    match places.binary_search(&(index, sub)) {
        Ok(position) => Some(position),
        Err(_) => None,
    }
}

/// The position of a place, which is looked for at `near` and behind it first.
fn position_near(
    sections: &[Section],
    places: &[(u16, u8)],
    near: usize,
    index: u16,
    sub: u8,
) -> Option<usize>
    requires { places.now ≡ pairs_of sections.now }
    ensures found { IfSome result (λ i. slice_get places.now i ≡ Some (index, sub)) }
    ensures none { IfNone result (origin_of sections.now index sub ≡ None) }
{
    if is_at(places, near, index, sub) {
        return Some(near);
    }
    let next = near.saturating_add(1);
    if is_at(places, next, index, sub) {
        return Some(next);
    }
    position_of(sections, places, index, sub)
}

/// Where an entry stands, with the position of its place, which is looked for at `near` and behind it
/// first: there it takes constant time, and else the logarithm of the entries.
pub(crate) fn find_stand_near(
    sections: &[Section],
    places: &[(u16, u8)],
    stands: &[Option<Stand>],
    near: usize,
    index: u16,
    sub: u8,
) -> Option<(usize, Stand)>
    requires places { places.now ≡ pairs_of sections.now }
    requires stands { AreStands sections.now places.now stands.now }
    ensures { standing sections.now (option_map (λ p. p.1) result) ≡ origin_of sections.now index sub }
{
    let position = position_near(sections, places, near, index, sub)?;
    let stand = stand_at(stands, position)?;
    Some((position, stand))
}
