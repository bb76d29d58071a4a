//! Numbers that tell dictionaries apart.

ghost use Rattle.std.specs.Prelude.{◌≡◌, ℕ, List};
ghost use Rattle.std.specs.Option.{option_or};
ghost use Rattle.std.specs.FinMap as map;
ghost use Rattle.dict_values.specs.Fingerprint.{fingerprint_of, weight, weight_at};
ghost use Rattle.dict_values.specs.Values.{Values};

use crate::held::Held;
use crate::layer::Layer;
use base::{mix, mix_bytes};

/// What a value at a place adds to a fingerprint. Takes time by its bytes.
#[tactic(auto, unfolding(crate::specs::Fingerprint::weight))]
pub(crate) fn weight(place: (u16, u8), bytes: &[u8]) -> u64
    ensures { result ≡ weight place bytes.now }
{
    let number = u64::from(place.0) * 256 + u64::from(place.1);
    let mixed = mix(mix_bytes(number, bytes), 0);
    mixed ^ (mixed >> 32)
}

/// The same of what a place has; nothing where it has no value.
pub(crate) fn weight_of(place: (u16, u8), value: Option<Held>) -> u64
    ensures { result ≡ weight_at place value }
{
    match value {
        Some(value) => weight(place, value.as_slice()),
        None => 0,
    }
}

/// The same of what a place has above a layer; where it has nothing there, of what the layer has.
pub(crate) fn weight_above(place: (u16, u8), value: Option<Held>, below: &Layer) -> u64
    ensures { result ≡ weight_at place (option_or value (map.get below.now place)) }
{
    match value {
        Some(value) => weight(place, value.as_slice()),
        None => match below.get(place) {
            Some(bytes) => weight(place, bytes),
            None => 0,
        },
    }
}

/// A fingerprint where one value is another, by what the value before and the one of now add.
pub(crate) fn changed(fingerprint: u64, taken: u64, added: u64) -> u64
    ensures { (values : Values) (place : ℕ × ℕ) (bytes : List ℕ) → fingerprint ≡ fingerprint_of values
        → taken ≡ weight_at place (map.get values place) → added ≡ weight place bytes
        → result ≡ fingerprint_of (map.insert values place bytes) }
{
    fingerprint.wrapping_sub(taken).wrapping_add(added)
}
