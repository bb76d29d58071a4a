//! All nodes as the plan of messages sees them.
ghost use Rattle.std.specs.Prelude.{◌≡◌, ◌==◌, ◌≤◌, is_some, option_and_then, IfOk};
ghost use Rattle.std.specs.Option.{option_copied};
ghost use Rattle.co_values.specs.Types.{width_bits};
ghost use Rattle.pdo_stations.specs.Devices.{devices_of, can_map, has_pdo, has_start, has_times, type_at, width_at};
ghost use Rattle.pdo_stations.specs.Devices.{is_of_manager as is_managers};
ghost use Rattle.cia301.specs.PdoObjects.{tpdo_object};
ghost use Rattle.pdo_stations.specs.Dummies.{dummy_for};
ghost use Rattle.pdo_stations.specs.Shown.{nodes_of};
ghost use Rattle.pdo_stations.specs.Seats.{shape_at};
ghost use Rattle.pdo_stations.specs.Stations.{devices_in};

use crate::as_made::AsMade;
use crate::dummy::dummy_type;
use crate::makes::{made_at, makes_of};
use crate::mappable::Mappable;
use crate::mapped::Mapped;
use crate::seats::Seats;
use crate::station::Station;
use co_dict::{Direction, Entry};
use co_values::{DataType, width_bits};
use eds_device::DataSheet;
use std::alloc::{AllocError, Global};

/// All nodes as the plan of messages sees them: the entries and dummies of each, by the nodes' numbers; in
/// version 3 each device as its vendor made it besides.
///
/// A call takes time by the logarithm of the number of entries, and by the mapping entries that it
/// counts.
#[derive(Drop)]
pub struct Stations {
    /// The entries and dummies of each node.
    pub(crate) seats: Seats,
    /// In version 3 a seat for each number, with the device of the node.
    pub(crate) makes: Option<Vec<Option<AsMade>>>,
    /// The node, if there is one, that the manager runs in.
    pub(crate) controller: Option<u8>,
}

/// The bits of an entry in a PDO, where it is BOOLEAN, an integer or a REAL.
fn entry_width(entry: &Entry) -> Option<u8>
    ensures { result ≡ width_bits entry.now.kind }
{
    let bits = width_bits(entry.kind)?;
    Some(bits as u8)
}

/// Whether this is the producer heartbeat time (CiA 301, object 1017h) of the node that the manager runs in.
fn is_of_manager(controller: Option<u8>, node: u8, place: (u16, u8)) -> bool
    ensures { result ≡ is_managers controller node place }
{
    match controller {
        None => false,
        Some(controller) => node == controller && place.0 == 0x1017 && place.1 == 0,
    }
}

impl Stations {
    /// Looks the devices of nodes up, by the rules of version 3 or not, where the manager runs in this one, if in any.
    /// Of two nodes with one number the first counts. Takes time by the number of the devices' entries and its
    /// logarithm, and in version 3 memory by it.
    pub fn new(
        alloc: Global,
        is_three: bool,
        controller: Option<u8>,
        nodes: &[(u8, &DataSheet)],
    ) -> Result<Stations, AllocError>
        ensures { IfOk result (λ stations. devices_in stations ≡ devices_of is_three controller (nodes_of nodes.now)) }
    {
        let seats = Seats::new(alloc, nodes)?;
        let makes = makes_of(alloc, is_three, nodes)?;
        Ok(Stations {
            seats,
            makes,
            controller,
        })
    }

    /// Whether devices serve as their vendors made them: in version 3.
    pub fn is_three(&self) -> bool
        ensures { result ≡ is_some (devices_in self.now).vendor }
    {
        self.makes.is_some()
    }

    /// The device of a node as its vendor made it, in version 3. Takes constant time.
    pub fn made(&self, node: u8) -> Option<&AsMade>
        ensures { option_copied result ≡ option_and_then (λ made. made node) (devices_in self.now).vendor }
    {
        made_at(self.makes.as_ref()?, node)
    }

    /// The node of a number. Takes constant time.
    pub fn get(&self, node: u8) -> Option<&Station>
        ensures { option_copied result ≡ shape_at self.now.seats node }
    {
        self.seats.get(node)
    }

    /// The entry of a node at an index and sub, if there is one.
    fn entry(&self, node: u8, place: (u16, u8)) -> Option<&Entry>
        ensures { option_copied result ≡ (devices_in self.now).entry node place }
    {
        self.get(node)?.entry(place.0, place.1)
    }

    /// The bits of an entry of a node in a PDO, where it is there and BOOLEAN, an integer or a REAL.
    pub fn width(&self, node: u8, place: (u16, u8)) -> Option<u8>
        ensures { result ≡ width_at (devices_in self.now) node place }
    {
        entry_width(self.entry(node, place)?)
    }

    /// Whether an entry of a node is there and can be mapped in a direction.
    pub fn can_map(&self, direction: Direction, node: u8, place: (u16, u8)) -> bool
        ensures { result ≡ can_map direction (devices_in self.now) node place }
    {
        match self.entry(node, place) {
            Some(entry) => {
                entry.is_mappable(direction) && !is_of_manager(self.controller, node, place)
            }
            None => false,
        }
    }

    /// What a PDO of a direction can carry of an entry of a node: `can_map`, the type and `width` of it, by one
    /// look-up.
    pub fn mappable(&self, direction: Direction, node: u8, place: (u16, u8)) -> Mappable
        ensures can_map { result.can_map ≡ can_map direction (devices_in self.now) node place }
        ensures kind { result.kind ≡ type_at (devices_in self.now) node place }
        ensures width { result.width ≡ width_at (devices_in self.now) node place }
    {
        match self.entry(node, place) {
            Some(entry) => Mappable {
                can_map: entry.is_mappable(direction)
                    && !is_of_manager(self.controller, node, place),
                kind: entry.kind,
                width: entry_width(entry),
            },
            None => Mappable {
                can_map: false,
                kind: DataType::NotModelled,
                width: None,
            },
        }
    }

    /// Whether a node allows the dummy of a data type.
    fn dummy_allowed(&self, node: u8, kind: u16) -> bool
        ensures { result ≡ (devices_in self.now).dummy node kind }
    {
        match self.get(node) {
            Some(station) => station.dummy_allowed(kind),
            None => false,
        }
    }

    /// The dummy of so many bits, where a node allows it.
    pub fn dummy_for(&self, node: u8, bits: u8) -> Option<Mapped>
        ensures { result ≡ dummy_for (devices_in self.now) node bits }
    {
        let index = dummy_type(bits)?;
        if self.dummy_allowed(node, index) {
            Some(Mapped {
                index,
                sub: 0,
                bits,
            })
        } else {
            None
        }
    }

    /// Whether a node has a TPDO, up to 512, with what the writes of so many mapping entries, up to
    /// 64, name.
    pub fn has_tpdo(&self, node: u8, number: u16, count: usize) -> bool
        requires high { number ≤ 512 }
        requires few { count ≤ 64 }
        ensures { result ≡ has_pdo (devices_in self.now) node (tpdo_object number) count }
    {
        match self.get(node) {
            Some(station) => station.has_tpdo(number, count),
            None => false,
        }
    }

    /// Whether a node's TPDO, up to 512, has an UNSIGNED16 for its inhibit time and for its event
    /// timer, each where that isn't 0.
    pub fn has_times(&self, node: u8, number: u16, inhibit: u16, event: u16) -> bool
        requires { number ≤ 512 }
        ensures { result ≡ has_times (devices_in self.now) node (tpdo_object number) inhibit event }
    {
        match self.get(node) {
            Some(station) => station.has_times(number, inhibit, event),
            None => inhibit == 0 && event == 0,
        }
    }

    /// Whether a node's TPDO, up to 512, has an UNSIGNED8 for its SYNC start value, where that isn't 0.
    pub fn has_start(&self, node: u8, number: u16, start: u8) -> bool
        requires { number ≤ 512 }
        ensures { result ≡ has_start (devices_in self.now) node (tpdo_object number) start }
    {
        match self.get(node) {
            Some(station) => station.has_start(number, start),
            None => start == 0,
        }
    }
}
