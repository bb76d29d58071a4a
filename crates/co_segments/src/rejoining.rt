//! A bus at which a trace joins one that was traced before.

ghost use Rattle.std.specs.Prelude.{◌≡◌, ◌≤◌, ℕ, [], Contains, IfOk, IsTrue, MatchOption};
ghost use Rattle.co_segments.specs.Placed.{ServesNone, IsEndNumber, IsStart, Placed};
ghost use Rattle.co_segments.specs.Sights.{AreSightsOf};

use crate::numbered_bus::NumberedBus;
use crate::reached::Reached;
use crate::segment::Segment;
use crate::serving::give;
use crate::sight::Sight;
use can_bus::BusState;
use kept_values::Recent;
use std::alloc::{AllocError, Global};
use trace_spans::Place;

/// Whether a segment starts from another bus: as far as what is seen of both tells, or by a quick look at the device
/// of a place, if there is one to look at.
fn differs_there(
    segment: &Segment,
    apart: Option<usize>,
    bus: &BusState,
    sight: &Option<Sight>,
) -> bool
    requires { AreSightsOf bus.now sight.now }
    ensures { IsTrue result → segment.now.kept.start ≡ bus.now → ⊥ }
{
    if segment.is_other(bus, sight) {
        return true;
    }
    match apart {
        Some(place) => segment.differs_at(place, bus),
        None => false,
    }
}

/// The equal bus that a held segment of a number starts from, if there is one. Buses that an edit led to mostly
/// differ at one device for long: where it told one from the bus, it is looked at first in the others, and at the
/// end of the next segment.
fn held_start(
    recent: &Recent<Segment>,
    number: u64,
    bus: &BusState,
    sight: &Option<Sight>,
    apart: &mut Option<usize>,
) -> Result<Option<NumberedBus>, AllocError>
    requires settled { recent.now.ahead ≡ [] }
    requires later { recent.now.turn ≤ number }
    requires sight { AreSightsOf bus.now sight.now }
    ensures { IfOk result (λ start. MatchOption start (ServesNone recent.now.entries number bus.now)
        (λ n. (e : ℕ × Placed) × (Contains recent.now.entries e × IsStart e.1 n bus.now))) }
{
    let count = recent.count(number);
    for place in 0..count {
        if let Some((_key, segment)) = recent.at(number, place) {
            if differs_there(segment, *apart, bus, sight) {
                continue;
            }
            if let Some(found) = segment.start_at(number, bus, apart)? {
                return Ok(Some(found));
            }
        }
    }
    Ok(None)
}

/// What is seen of a bus at a place, if there is one.
fn seen_at(place: Option<Place>, bus: &BusState) -> Option<Sight>
    ensures { AreSightsOf bus.now result }
{
    match place {
        Some(place) => Sight::of(place, bus),
        None => None,
    }
}

/// A bus with the number that it has as the start of a held segment, and else with a new one. Each held segment
/// of the number is compared once: where none starts from the bus, none has to be looked for again. The device of
/// the place by which a bus was last told from another one is looked at first.
pub(crate) fn reach(
    alloc: Global,
    recent: &Recent<Segment>,
    given: &mut u64,
    number: u64,
    bus: BusState,
    place: Option<Place>,
    apart: Option<usize>,
) -> Result<Reached, AllocError>
    requires settled { recent.now.ahead ≡ [] }
    requires later { recent.now.turn ≤ number }
    ensures reached { IfOk result (λ end. IsEndNumber recent.now.entries given.old given.new bus end.state) }
    ensures new { IfOk result (λ end. IsTrue end.is_new → ServesNone recent.now.entries number bus) }
    ensures more { given.old ≤ given.new }
{
    let sight = seen_at(place, &bus);
    let mut apart = apart;
    let start = held_start(recent, number, &bus, &sight, &mut apart)?;
    match start {
        Some(state) => Ok(Reached {
            state,
            is_new: false,
            apart,
        }),
        None => {
            let state = give(alloc, given, bus, sight)?;
            Ok(Reached {
                state,
                is_new: true,
                apart,
            })
        }
    }
}
