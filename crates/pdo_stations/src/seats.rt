//! The stations of nodes by their numbers.
ghost use Rattle.std.specs.Prelude.{◌≡◌, ◌==◌, ℕ, [], length, slice_index_or, if◌then◌else◌, None, Some, IfOk, OnOk};
ghost use Rattle.std.specs.Prelude.{option_map};
ghost use Rattle.std.specs.Option.{option_copied};
ghost use Rattle.eds_device.specs.Entries.{shape_of};
ghost use Rattle.pdo_stations.specs.Devices.{sheet_at};
ghost use Rattle.pdo_stations.specs.Shown.{nodes_of};
ghost use Rattle.pdo_stations.specs.Seats.{shape_at, seats_by_number};

use crate::station::Station;
use co_dict::Shape;
use eds_device::DataSheet;
use std::alloc::{AllocError, Global};
use std::marker::Model;

/// How many numbers a node can have, with those that none has.
pub(crate) const NUMBERS: usize = 256;

/// The stations of nodes. Contracts see the entries and dummies of each, by the nodes' numbers.
#[derive(Drop)]
pub struct Seats {
    seats: Vec<Option<Station>>,
}

impl Model for Seats {
    ghost use Rattle.std.specs.Prelude.{ℕ, List};
    ghost use Rattle.std.specs.Coded.{coded_ℕ, coded_list, coded×};
    ghost use Rattle.co_dict.specs.contracts.entry.Entry as described;
    ghost use Rattle.co_dict.specs.Shapes.{Shaped, shaped_code};
    ghost use Rattle.pdo_stations.specs.Seats.{seats_by_number};

    ghost Value = { List (ℕ × Shaped) };

    ghost coded = { coded_list (coded× coded_ℕ (shaped_code described.the_row.coded)) };

    ghost view = { λ seated. seats_by_number 0 seated.seats.items };
}

/// A seat for each number, each without a station.
fn empty_seats(alloc: Global) -> Result<Vec<Option<Station>>, AllocError>
    ensures count { IfOk result (λ seats. length seats.items ≡ 256) }
    ensures empty { IfOk result (λ seats. seats_by_number 0 seats.items ≡ []) }
{
    let mut seats = Vec::with_capacity(alloc, NUMBERS)?;
    for _number in 0..NUMBERS {
        seats.push(None)?;
    }
    Ok(seats)
}

/// The station at a number.
fn seated(seats: &[Option<Station>], number: u8) -> Option<&Station>
    ensures { option_copied result ≡ slice_index_or seats.now number None }
{
    let seat = seats.get(usize::from(number))?;
    seat.as_ref()
}

/// The station of a shape. That at another number may have the same one.
fn station_of(
    alloc: Global,
    seats: &[Option<Station>],
    other: u8,
    shape: Shape,
) -> Result<Station, AllocError>
    ensures { IfOk result (λ station. station ≡ shape) }
{
    match seated(seats, other) {
        Some(known) => Station::beside(alloc, known, shape),
        None => Station::new(alloc, shape),
    }
}

/// Looks the device of a node up, and puts it in the place of one that has its number. The node of
/// another number may have the same device.
fn add_station(
    alloc: Global,
    seats: &mut [Option<Station>],
    other: u8,
    number: u8,
    device: &DataSheet,
) -> Result<(), AllocError>
    requires { length seats.now ≡ 256 }
    ensures count { OnOk result (length seats.new ≡ 256) }
    ensures station { OnOk result ((node : ℕ) → shape_at (seats_by_number 0 seats.new) node
        ≡ (if number == node then Some (shape_of device.now number)
        else shape_at (seats_by_number 0 seats.old) node)) }
{
    let shape = device.shared_shape(number)?;
    let station = station_of(alloc, seats, other, shape)?;
    seats[usize::from(number)] = Some(station);
    Ok(())
}

/// Looks the devices of the nodes up. Of two nodes with one number the first counts.
fn look_up(alloc: Global, nodes: &[(u8, &DataSheet)]) -> Result<Vec<Option<Station>>, AllocError>
    ensures { IfOk result (λ seats. (node : ℕ) → shape_at (seats_by_number 0 seats.items) node
        ≡ option_map (λ sheet. shape_of sheet node) (sheet_at (nodes_of nodes.now) node)) }
{
    let mut seats = empty_seats(alloc)?;
    let mut last = 0;
    let mut count = nodes.len();
    'nodes: while count > 0 {
        count -= 1;
        let (number, device) = nodes[count];
        add_station(alloc, seats.as_mut_slice(), last, number, device)?;
        last = number;
    }
    Ok(seats)
}

impl Seats {
    /// Looks the devices of nodes up. Of two nodes with one number the first counts. Takes time by
    /// the number of the devices' entries and its logarithm.
    pub(crate) fn new(alloc: Global, nodes: &[(u8, &DataSheet)]) -> Result<Seats, AllocError>
        ensures { IfOk result (λ seats. (node : ℕ) → shape_at seats node
            ≡ option_map (λ sheet. shape_of sheet node) (sheet_at (nodes_of nodes.now) node)) }
    {
        let seats = look_up(alloc, nodes)?;
        Ok(Seats { seats })
    }

    /// The node of a number. Takes constant time.
    pub(crate) fn get(&self, node: u8) -> Option<&Station>
        ensures { option_copied result ≡ shape_at self.now node }
    {
        seated(&self.seats, node)
    }
}
