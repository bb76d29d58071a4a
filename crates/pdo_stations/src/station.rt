//! A node as the plan of messages sees it.
ghost use Rattle.std.specs.Prelude.{◌≡◌, ◌≤◌, ◌==◌, ◌||◌, IfOk};
ghost use Rattle.std.specs.FinMap as map;
ghost use Rattle.std.specs.Option.{option_copied};
ghost use Rattle.co_dict.specs.Shapes.{is_dummy_allowed};
ghost use Rattle.co_values.specs.declared.form.Width.TheVariants as width;
ghost use Rattle.pdo_stations.specs.Devices.{has_pdo, has_start, has_times, has_unsigned};
ghost use Rattle.cia301.specs.PdoObjects.{rpdo_object, tpdo_object};
ghost use Rattle.pdo_stations.specs.Rooms.{device_with, has_room, AreRoomsOf};

use crate::room::{has_unsigned, room};
use cia301::{rpdo_object, tpdo_object};
use co_dict::{Entry, Shape};
use co_values::Width;
use std::alloc::{AllocError, Global};
use std::marker::Model;

/// A node as the plan of messages sees it: its entries, and for each RPDO from 1 to 512 how many
/// mapping entries it has room for. Contracts see its entries and dummies.
#[derive(Drop)]
pub struct Station {
    shape: Shape,
    rooms: Vec<Option<u8>>,
}

impl Model for Station {
    ghost use Rattle.co_dict.specs.contracts.entry.Entry as described;
    ghost use Rattle.co_dict.specs.Shapes.{Shaped, shaped_code};
    ghost use Rattle.pdo_stations.specs.Rooms.{AreRoomsOf};

    ghost Value = { Shaped };

    ghost coded = { shaped_code described.the_row.coded };

    ghost view = { λ station. station.shape };

    ghost invariant = { λ station. AreRoomsOf station.shape station.rooms.items };
}

/// The room of each RPDO.
fn rooms(alloc: Global, shape: &Shape) -> Result<Vec<Option<u8>>, AllocError>
    ensures { IfOk result (λ rooms. AreRoomsOf shape.now rooms.items) }
{
    let mut rooms = Vec::new(alloc);
    for number in 1..513 {
        rooms.push(room(shape, rpdo_object(number)))?;
    }
    Ok(rooms)
}

/// Whether a PDO has room for so many mapping entries.
fn has_room(room: Option<u8>, count: usize) -> bool
    ensures { result ≡ has_room room count }
{
    match room {
        Some(room) => count <= usize::from(room),
        None => false,
    }
}

/// Whether an UNSIGNED16 for a time is there, where the time isn't 0.
fn has_time(shape: &Shape, object: u16, sub: u8, time: u16) -> bool
    ensures { result ≡ (time == 0 || has_unsigned (device_with shape.now) 0 width.Bits16 (object, sub)) }
{
    time == 0 || has_unsigned(shape, Width::Bits16, object, sub)
}

impl Station {
    /// Looks the RPDOs of a device up. Takes time by 512 times the logarithm of its entries, and by
    /// the mapping entries of its RPDOs.
    pub fn new(alloc: Global, shape: Shape) -> Result<Station, AllocError>
        ensures { IfOk result (λ station. station ≡ shape) }
    {
        let rooms = rooms(alloc, &shape)?;
        Ok(Station { shape, rooms })
    }

    /// Looks the RPDOs of a device up, or copies what is known of them from another node that has the
    /// same entries and dummies. Takes time by the number of the entries at most, beside that of `new`.
    pub fn beside(alloc: Global, other: &Station, shape: Shape) -> Result<Station, AllocError>
        ensures { IfOk result (λ station. station ≡ shape) }
    {
        let rooms = other.rooms_for(alloc, &shape)?;
        Ok(Station { shape, rooms })
    }

    /// The room of each RPDO of a device: a copy, where this node has the same entries.
    fn rooms_for(&self, alloc: Global, shape: &Shape) -> Result<Vec<Option<u8>>, AllocError>
        ensures { IfOk result (λ rooms. AreRoomsOf shape.now rooms.items) }
    {
        if self.shape.same(shape) {
            self.rooms.clone()
        } else {
            rooms(alloc, shape)
        }
    }

    /// The entry at an index and sub, if there is one.
    pub fn entry(&self, index: u16, sub: u8) -> Option<&Entry>
        ensures { option_copied result ≡ map.get self.now.entries (index, sub) }
    {
        self.shape.entry(index, sub)
    }

    /// Whether the dummy of a data type may be mapped.
    pub fn dummy_allowed(&self, kind: u16) -> bool
        ensures { result ≡ is_dummy_allowed self.now kind }
    {
        self.shape.dummy_allowed(kind)
    }

    /// Whether an RPDO, from 1 to 512, has what the writes of so many mapping entries, up to 64, name.
    pub fn has_rpdo(&self, number: u16, count: usize) -> bool
        requires low { 1 ≤ number }
        requires high { number ≤ 512 }
        requires few { count ≤ 64 }
        ensures { result ≡ has_pdo (device_with self.now) 0 (rpdo_object number) count }
    {
        has_room(self.rooms[usize::from(number) - 1], count)
    }

    /// Whether a TPDO, up to 512, has what the writes of so many mapping entries, up to 64, name.
    pub fn has_tpdo(&self, number: u16, count: usize) -> bool
        requires high { number ≤ 512 }
        requires few { count ≤ 64 }
        ensures { result ≡ has_pdo (device_with self.now) 0 (tpdo_object number) count }
    {
        has_room(room(&self.shape, tpdo_object(number)), count)
    }

    /// Whether a TPDO, up to 512, has an UNSIGNED16 for its inhibit time and for its event timer, each
    /// where that isn't 0.
    pub fn has_times(&self, number: u16, inhibit: u16, event: u16) -> bool
        requires { number ≤ 512 }
        ensures { result ≡ has_times (device_with self.now) 0 (tpdo_object number) inhibit event }
    {
        let object = tpdo_object(number);
        has_time(&self.shape, object, 3, inhibit) && has_time(&self.shape, object, 5, event)
    }

    /// Whether a TPDO, up to 512, has an UNSIGNED8 for its SYNC start value, where that isn't 0.
    pub fn has_start(&self, number: u16, start: u8) -> bool
        requires { number ≤ 512 }
        ensures { result ≡ has_start (device_with self.now) 0 (tpdo_object number) start }
    {
        start == 0 || has_unsigned(&self.shape, Width::Bits8, tpdo_object(number), 6)
    }
}
