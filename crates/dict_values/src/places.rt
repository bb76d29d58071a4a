//! What is asked of each place of a table.

ghost use Rattle.std.specs.Prelude.{◌≡◌, ◌↔◌, IsTrue, IsSome, true, false, if◌then◌else◌, OnOk};
ghost use Rattle.std.specs.FinMap as map;
ghost use Rattle.base.specs.Ranges.{is_between};
ghost use Rattle.dict_values.specs.Layers.{AgreeOn, HasEach, HasWritten};
ghost use Rattle.dict_values.specs.Places.{place_cmp};
ghost use Rattle.dict_values.specs.Restored.{is_kept};

use crate::dict::Dict;
use crate::held::Held;
use crate::table::Table;
use std::alloc::AllocError;

/// Whether an index is from `first` to `last`, or, with `inside` false, whether it isn't.
fn is_kept(first: u16, last: u16, inside: bool, index: u16) -> bool
    ensures { result ≡ is_kept first last inside index }
{
    (first..=last).contains(&index) == inside
}

/// Whether two dictionaries have the same at a place.
fn agree_at(a: &Dict, b: &Dict, place: (u16, u8)) -> bool
    ensures { IsTrue result ↔ (map.get a.now place ≡ map.get b.now place) }
{
    match (a.read(place.0, place.1), b.read(place.0, place.1)) {
        (None, None) => true,
        (Some(one), Some(other)) => one == other,
        _ => false,
    }
}

/// Whether two dictionaries have the same at each place of a table.
pub(crate) fn agree_on(a: &Dict, b: &Dict, places: &Table) -> bool
    ensures { IsTrue result ↔ AgreeOn places.now a.now b.now }
{
    for (place, _value) in places.held.iter() {
        if !agree_at(a, b, *place) {
            return false;
        }
    }
    true
}

/// Whether a place has a value, if its index isn't from `first` to `last`.
fn has_at(dict: &Dict, first: u16, last: u16, place: (u16, u8)) -> bool
    ensures { IsTrue result → is_kept first last false place.0 ≡ true → IsSome (map.get dict.now place) }
{
    !is_kept(first, last, false, place.0) || dict.read(place.0, place.1).is_some()
}

/// Whether a dictionary has a value at each place of a table whose index isn't from `first` to `last`.
pub(crate) fn has_each(dict: &Dict, first: u16, last: u16, places: &Table) -> bool
    ensures { IsTrue result → HasEach (λ place. is_kept first last false place.0) places.now dict.now }
{
    for (place, _value) in places.held.iter() {
        if !has_at(dict, first, last, *place) {
            return false;
        }
    }
    true
}

/// Sets the value of a place, if it is to be kept.
fn write_if(dict: &mut Dict, kept: bool, place: (u16, u8), value: &Held) -> Result<(), AllocError>
    ensures { OnOk result (dict.new ≡ (if kept then map.insert dict.old place value.now else dict.old)) }
{
    if kept {
        dict.write(place.0, place.1, value.as_slice())?;
    }
    Ok(())
}

/// Gives a dictionary the value of each place of a table whose index is from `first` to `last`; with `inside`
/// false, of each other place. Takes memory where it had another value.
pub(crate) fn write_each(
    dict: &mut Dict,
    first: u16,
    last: u16,
    inside: bool,
    from: &Table,
) -> Result<(), AllocError>
    ensures { OnOk result (HasWritten (λ place. is_kept first last inside place.0) from.now dict.old dict.new) }
{
    for (place, value) in from.held.iter() {
        write_if(dict, is_kept(first, last, inside, place.0), *place, value)?;
    }
    Ok(())
}
