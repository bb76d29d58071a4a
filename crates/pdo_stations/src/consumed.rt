//! What the nodes take of a message.
ghost use Rattle.std.specs.Prelude.{◌≡◌, IfOk};
ghost use Rattle.pdo_stations.specs.Carried.{taken_by, taken_of_all, lacks_dummy_for, lacks_some};
ghost use Rattle.pdo_stations.specs.Stations.{devices_in};

use crate::carried::{Carried, bits_in};
use crate::mapped::Mapped;
use crate::stations::Stations;
use project_messages::Sinks;
use std::alloc::{AllocError, Global};

/// What a consumer's PDO maps for a source: its sink at that position, else a dummy.
#[tactic(auto, unfolding(crate::specs::Carried::taken_by))]
fn taken_by(stations: &Stations, sinks: &Sinks, node: u8, carried: &Carried) -> Option<Mapped>
    ensures { result ≡ taken_by (devices_in stations.now) sinks.now node carried.now }
{
    if let Some(place) = sinks.get(carried.position, node) {
        return Some(Mapped {
            index: place.0,
            sub: place.1,
            bits: bits_in(carried),
        });
    }
    stations.dummy_for(node, carried.bits?)
}

/// What a consumer's RPDO maps: for each source its sink at that position, else the dummy of that
/// width that it allows. Want of memory is the only error.
#[tactic(auto, unfolding(crate::specs::Carried::taken_of_all))]
pub fn taken_mapping(
    alloc: Global,
    stations: &Stations,
    sinks: &Sinks,
    node: u8,
    carried: &[Carried],
) -> Result<Vec<Mapped>, AllocError>
    ensures { IfOk result (λ mapping. mapping.items ≡ taken_of_all (devices_in stations.now) sinks.now node carried.now) }
{
    let mut mapping = Vec::new(alloc);
    for source in carried {
        if let Some(entry) = taken_by(stations, sinks, node, source) {
            mapping.push(entry)?;
        }
    }
    Ok(mapping)
}

/// Whether a dummy is needed for a source, and the consumer allows none of that width.
fn lacks_dummy_for(stations: &Stations, sinks: &Sinks, node: u8, carried: &Carried) -> bool
    ensures { result ≡ lacks_dummy_for (devices_in stations.now) sinks.now node carried.now }
{
    match carried.bits {
        Some(bits) => {
            stations.dummy_for(node, bits).is_none() && sinks.get(carried.position, node).is_none()
        }
        None => false,
    }
}

/// Whether a consumer needs a dummy (CiA 301) that it doesn't allow, or that there is none of.
pub fn lacks_dummy(stations: &Stations, sinks: &Sinks, node: u8, carried: &[Carried]) -> bool
    ensures { result ≡ lacks_some (devices_in stations.now) sinks.now node carried.now }
{
    carried
        .iter()
        .any(|source| lacks_dummy_for(stations, sinks, node, source))
}
