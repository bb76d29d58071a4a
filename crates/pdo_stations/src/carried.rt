//! The sources of a message, looked up once.
ghost use Rattle.std.specs.Prelude.{◌≡◌, ◌≤◌, length, IfOk};
ghost use Rattle.std.specs.Option.{option_copied};
ghost use Rattle.pdo_stations.specs.Carried.{carried_of, carried_at, bits_in, total_bits, sent_by};
ghost use Rattle.pdo_stations.specs.Stations.{devices_in};

use crate::mapped::Mapped;
use crate::stations::Stations;
use co_dict::Direction;
use co_values::DataType;
use project_messages::Sources;
use std::alloc::{AllocError, Global};

/// A source of a message: an entry of its sender, at a position of the frame.
#[derive(Clone, Copy)]
pub struct Carried {
    /// Its position, 1 to 64.
    pub position: u8,
    /// The index and sub-index of the sender's entry.
    pub place: (u16, u8),
    /// The type of the entry; `NotModelled` too where it isn't there.
    pub kind: DataType,
    /// The bits of the entry in a PDO. An entry that isn't there, or no PDO can map, has none.
    pub bits: Option<u8>,
    /// Whether the entry is there and a TPDO can map it.
    pub sendable: bool,
}

/// The sources of a message of a sender, in order of position, each looked up once. Takes time and
/// memory by their number, and time by the logarithm of the number of the sender's entries; want of
/// memory is the only error.
pub fn carried_sources(
    alloc: Global,
    stations: &Stations,
    sender: u8,
    sources: &Sources,
) -> Result<Vec<Carried>, AllocError>
    ensures { IfOk result (λ carried. carried.items ≡ carried_of (devices_in stations.now) sender sources.now) }
{
    let mut carried = Vec::new(alloc);
    'sources: for (position, place) in sources.iter() {
        let entry = stations.mappable(Direction::Transmit, sender, *place);
        carried.push(Carried {
            position: *position,
            place: *place,
            kind: entry.kind,
            bits: entry.width,
            sendable: entry.can_map,
        })?;
    }
    Ok(carried)
}

/// The source at a position, if there is one. Takes time by the number of sources.
pub fn carried_at(carried: &[Carried], position: u8) -> Option<&Carried>
    ensures { option_copied result ≡ carried_at carried.now position }
{
    carried.iter().find(|source| source.position == position)
}

/// The bits of a source, 0 to 64; one without a width adds nothing.
pub fn bits_in(carried: &Carried) -> u8
    ensures { result ≡ bits_in carried.now }
{
    carried.bits.unwrap_or(0)
}

/// All bits of a message of up to 64 sources: a frame carries up to 64 (CiA 301), these can be more.
pub fn total_bits(carried: &[Carried]) -> u32
    requires { length carried.now ≤ 64 }
    ensures { result ≡ total_bits carried.now }
{
    let mut total = 0;
    for source in carried {
        total += u32::from(bits_in(source));
    }
    total
}

/// What the sender's TPDO maps: each source, in this order. Want of memory is the only error.
pub fn sent_mapping(alloc: Global, carried: &[Carried]) -> Result<Vec<Mapped>, AllocError>
    ensures { IfOk result (λ mapping. mapping.items ≡ sent_by carried.now) }
{
    let mut mapping = Vec::new(alloc);
    for source in carried {
        mapping.push(Mapped {
            index: source.place.0,
            sub: source.place.1,
            bits: bits_in(source),
        })?;
    }
    Ok(mapping)
}
