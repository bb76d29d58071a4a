//! The faults of the entries of a message.
ghost use Rattle.std.specs.Prelude.{◌≡◌, ◌||◌, ℕ, not, true};
ghost use Rattle.std.specs.List.{list_any};
ghost use Rattle.std.specs.Option.{option_copied, option_map_or};
ghost use Rattle.pdo_plan.specs.Carried.{is_untakable, mismatches};
ghost use Rattle.pdo_plan.specs.Mapping.{are_unlike, differ, is_real, misfit};
ghost use Rattle.pdo_plan.specs.Plan.{has_unmappable};
ghost use Rattle.pdo_stations.specs.Carried.{carried_at, carried_of};
ghost use Rattle.pdo_stations.specs.Devices.{type_at, width_at};
ghost use Rattle.pdo_stations.specs.Stations.{devices_in};

use co_dict::Direction;
use co_values::DataType;
use pdo_stations::{Carried, Mappable, Stations, carried_at};
use project_messages::{Linked, Sinks};

/// Which faults the entries of a message have.
#[derive(Clone, Copy)]
pub(crate) struct EntryFaults {
    /// A source or sink isn't there or can't be mapped in its direction, or a sink is on the sender.
    pub unmappable: bool,
    /// A sink has no source at its position, or one of another width, or of another type where one is a REAL.
    pub mismatched: bool,
}

impl EntryFaults {
    /// These faults and those of other entries.
    fn and(self, others: EntryFaults) -> EntryFaults
        ensures unmappable { result.unmappable ≡ (self.unmappable || others.unmappable) }
        ensures mismatched { result.mismatched ≡ (self.mismatched || others.mismatched) }
    {
        EntryFaults {
            unmappable: self.unmappable || others.unmappable,
            mismatched: self.mismatched || others.mismatched,
        }
    }
}

/// Whether a source isn't there or no TPDO can map it.
fn has_unsendable(carried: &[Carried]) -> bool
    ensures { result ≡ list_any (λ c. not c.sendable) carried.now }
{
    carried.iter().any(|source| !source.sendable)
}

/// Whether two widths differ; an entry without a width differs from none.
fn differ(width: Option<u8>, other: Option<u8>) -> bool
    ensures { result ≡ differ width other }
{
    match (width, other) {
        (Some(bits), Some(others)) => bits != others,
        _ => false,
    }
}

/// Whether a type is REAL32 or REAL64.
fn is_real(kind: DataType) -> bool
    ensures { result ≡ is_real kind }
{
    matches!(kind, DataType::Real32 | DataType::Real64)
}

/// Whether two types are modelled, one of them a REAL and the other another type.
fn are_unlike(kind: DataType, other: DataType) -> bool
    ensures { result ≡ are_unlike kind other }
{
    match kind {
        DataType::Real32 => !matches!(other, DataType::Real32) && other.is_modelled(),
        DataType::Real64 => !matches!(other, DataType::Real64) && other.is_modelled(),
        _ => kind.is_modelled() && other.is_modelled() && is_real(other),
    }
}

/// Whether there is no source, or one of another width, or of another type where one of the two is a REAL.
fn is_mismatched(source: Option<&Carried>, sink: Mappable) -> bool
    ensures { result ≡ option_map_or (λ c. misfit c.bits c.kind sink.width sink.kind) (option_copied source.entry) true }
{
    match source {
        Some(source) => differ(source.bits, sink.width) || are_unlike(source.kind, sink.kind),
        None => true,
    }
}

/// The source at a position, where that at the last position is known.
fn source_at<'a>(
    carried: &'a [Carried],
    last: u8,
    source: Option<&'a Carried>,
    position: u8,
) -> Option<&'a Carried>
    requires { option_copied source ≡ carried_at carried.now last }
    ensures { option_copied result ≡ carried_at carried.now position }
{
    if position == last {
        source
    } else {
        carried_at(carried, position)
    }
}

/// The faults of a sink with the source at its position.
fn sink_faults(
    stations: &Stations,
    sender: u8,
    source: Option<&Carried>,
    node: u8,
    place: (u16, u8),
) -> EntryFaults
    ensures unmappable { (position : ℕ)
        → result.unmappable ≡ is_untakable (devices_in stations.now) sender ((position, node), place) }
    ensures mismatched { result.mismatched ≡ option_map_or (λ c. misfit c.bits c.kind
        (width_at (devices_in stations.now) node place) (type_at (devices_in stations.now) node place))
        (option_copied source.entry) true }
{
    let entry = stations.mappable(Direction::Receive, node, place);
    EntryFaults {
        unmappable: !entry.can_map || node == sender,
        mismatched: is_mismatched(source, entry),
    }
}

/// The faults of all sinks. The source at a position is found once for the sinks there.
fn all_sink_faults(
    stations: &Stations,
    sender: u8,
    carried: &[Carried],
    sinks: &Sinks,
) -> EntryFaults
    ensures unmappable { result.unmappable ≡ list_any (is_untakable (devices_in stations.now) sender) sinks.now }
    ensures mismatched { result.mismatched ≡ list_any (mismatches (devices_in stations.now) carried.now) sinks.now }
{
    let mut found = EntryFaults {
        unmappable: false,
        mismatched: false,
    };
    let mut position = 0;
    let mut source = carried_at(carried, position);
    'sinks: for (seat, place) in sinks.iter() {
        source = source_at(carried, position, source, seat.0);
        position = seat.0;
        found = found.and(sink_faults(stations, sender, source, seat.1, *place));
    }
    found
}

/// The faults of the entries of a message with these sources.
pub(crate) fn entry_faults(stations: &Stations, linked: &Linked, carried: &[Carried]) -> EntryFaults
    requires { carried.now ≡ carried_of (devices_in stations.now) linked.now.message.node linked.now.sources }
    ensures unmappable { result.unmappable ≡ has_unmappable (devices_in stations.now) linked.now }
    ensures mismatched { result.mismatched
        ≡ list_any (mismatches (devices_in stations.now) carried.now) linked.now.sinks }
{
    let sources = EntryFaults {
        unmappable: has_unsendable(carried),
        mismatched: false,
    };
    sources.and(all_sink_faults(stations, linked.message.node, carried, &linked.sinks))
}
