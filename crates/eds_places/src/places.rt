//! The entries that sections give.
ghost use Rattle.std.specs.Prelude.{◌≡◌, ◌≤◌, [], ◌∷◌, length, IfOk};
ghost use Rattle.base.specs.Gives.{Gives};
ghost use Rattle.eds_places.specs.Faults.{is_memory, unless_too_many, most_entries};
ghost use Rattle.eds_places.specs.Places.{first_subs, object_places, places_given, pairs_of};
ghost use Rattle.eds_places.specs.Adding.{with_places};

use crate::fault::DeviceFault;
use eds_entries::{compact_count, index_named, is_plain, place_named};
use ini_text::Section;
use std::alloc::{AllocError, Global};
use std::collections::BTreeSet;

/// The most entries of a device.
const MAX_ENTRIES: usize = 4096;

/// Adds an entry, and refuses one that is too many.
fn add_place(places: &mut BTreeSet<(u16, u8)>, index: u16, sub: u8) -> Result<(), DeviceFault>
    ensures { Gives is_memory (λ _. places.new.keys) result (with_places places.old.keys ((index, sub) ∷ [])) }
{
    places.insert((index, sub))?;
    if places.len() > MAX_ENTRIES {
        return Err(DeviceFault::Limit);
    }
    Ok(())
}

/// Adds the first subs of an object.
fn add_first_subs(
    places: &mut BTreeSet<(u16, u8)>,
    index: u16,
    count: u8,
) -> Result<(), DeviceFault>
    requires { length places.old.keys ≤ most_entries }
    ensures { Gives is_memory (λ _. places.new.keys) result (with_places places.old.keys (first_subs index count)) }
{
    for sub in 0..count {
        add_place(places, index, sub)?;
    }
    Ok(())
}

/// Adds the entries that an object's section gives.
fn add_object(
    places: &mut BTreeSet<(u16, u8)>,
    section: &Section,
    index: u16,
) -> Result<(), DeviceFault>
    requires { length places.old.keys ≤ most_entries }
    ensures { Gives is_memory (λ _. places.new.keys) result
        (with_places places.old.keys (object_places section.now index)) }
{
    if is_plain(section) {
        return add_first_subs(places, index, 1);
    }
    match compact_count(section) {
        Some(highest) => add_first_subs(places, index, highest + 1),
        None => Ok(()),
    }
}

/// Adds the entries that a section gives.
#[tactic(auto, unfolding(crate::specs::Places::places_given))]
fn add_given(places: &mut BTreeSet<(u16, u8)>, section: &Section) -> Result<(), DeviceFault>
    requires { length places.old.keys ≤ most_entries }
    ensures { Gives is_memory (λ _. places.new.keys) result (with_places places.old.keys (places_given section.now)) }
{
    if let Some((index, sub)) = place_named(section.name()) {
        return add_place(places, index, sub);
    }
    match index_named(section.name()) {
        Some(index) => add_object(places, section, index),
        None => Ok(()),
    }
}

/// The elements of a set, in order.
fn in_order(alloc: Global, places: &BTreeSet<(u16, u8)>) -> Result<Vec<(u16, u8)>, AllocError>
    ensures { IfOk result (λ v. v.items ≡ places.now.keys) }
{
    let mut all = Vec::with_capacity(alloc, places.len())?;
    for place in places {
        all.push(*place)?;
    }
    Ok(all)
}

/// The entries that sections give, by index and sub-index, each once. No more than 4,096 are taken,
/// whatever more the sections give.
pub fn places_of(alloc: Global, sections: &[Section]) -> Result<Vec<(u16, u8)>, DeviceFault>
    ensures { Gives is_memory (λ v. v.items) result (unless_too_many (pairs_of sections.now) (pairs_of sections.now)) }
{
    let mut places = BTreeSet::new(alloc);
    for section in sections {
        add_given(&mut places, section)?;
    }
    let places = in_order(alloc, &places)?;
    Ok(places)
}
