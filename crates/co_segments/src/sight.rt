//! What is seen of a bus at one entry.

ghost use Rattle.std.specs.Prelude.{◌≡◌, IsTrue};
ghost use Rattle.can_bus.specs.Bus.{Bus};
ghost use Rattle.co_segments.specs.Sights.{IsSightOf, sight_of};

use can_bus::BusState;
use trace_spans::Place;

/// The number that the first eight bytes of an entry spell, at a bus: what tells a bus from another one at once.
#[derive(Clone, Copy)]
pub(crate) struct Sight {
    /// The entry.
    pub place: Place,
    /// The number.
    pub number: u64,
}

impl Sight {
    /// What is seen of a bus at a place; nothing where the node has no device.
    pub fn of(place: Place, bus: &BusState) -> Option<Sight>
        ensures { result ≡ sight_of place bus.now }
    {
        let values = bus.values(place.node)?;
        let number = values.number_64(place.index, place.sub);
        Some(Sight { place, number })
    }

    /// Whether it is of another bus than the other one: another number is seen at the same place.
    pub fn differs(&self, other: &Sight) -> bool
        ensures { IsTrue result → (bus : Bus) → IsSightOf bus self.now → IsSightOf bus other.now → ⊥ }
    {
        self.place == other.place && self.number != other.number
    }
}
