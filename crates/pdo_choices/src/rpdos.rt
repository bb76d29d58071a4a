//! The RPDOs of consumers.
ghost use Rattle.std.specs.Prelude.{◌≡◌, ◌≤◌, ◌&&◌, ℕ, not, false, length, option_and_then, Some};
ghost use Rattle.std.specs.Option.{option_map_or};
ghost use Rattle.cia301.specs.PdoObjects.{rpdo_object};
ghost use Rattle.pdo_choices.specs.Least.{least_free};
ghost use Rattle.pdo_choices.specs.Rpdos.{can_take, is_free_rpdo, may_take, rpdo_by, vendor_rpdo};
ghost use Rattle.pdo_stations.specs.Flags.{is_spare};
ghost use Rattle.pdo_choices.specs.Taken.{devices_known, had_in};
ghost use Rattle.project_messages.specs.Messages.{IsLinked};
ghost use Rattle.pdo_stations.specs.declared.as_made.AsMade.{AsMade};
ghost use Rattle.vendor_pdos.specs.Fixed.{has_fixed};
ghost use Rattle.vendor_pdos.specs.Parameters.{is_open};

use crate::named::rpdo_named;
use crate::taken::Taken;
use crate::wish::Wish;
use cia301::rpdo_object;
use pdo_stations::{AsMade, Station, TakenRpdos, is_spare};
use vendor_pdos::{Taker, is_open, takes};

/// The least of a node's RPDOs that isn't taken and has what the writes of so many mapping entries
/// name.
fn least_spare(station: &Station, taken: &TakenRpdos, node: u8, count: usize) -> Option<u16>
    requires { count ≤ 64 }
    ensures { result ≡ least_free (is_spare station.now taken.now.flags.items node count) 1 512 }
{
    for number in 1..513 {
        if is_spare(station, taken, node, count, number) {
            return Some(number);
        }
    }
    None
}

/// The least RPDO of a node that isn't taken and has what the writes of so many mapping entries
/// name.
fn spare_rpdo(taken: &Taken, node: u8, count: usize) -> Option<u16>
    requires { count ≤ 64 }
    ensures { result ≡ least_free (is_free_rpdo (had_in taken.now) (devices_known taken.now) node count) 1 512 }
{
    match taken.known.stations.get(node) {
        Some(station) => least_spare(station, &taken.rpdos, node, count),
        None => None,
    }
}

/// Whether no clean message has an RPDO, up to 512, and it serves a message.
fn can_take(device: &AsMade, taken: &Taken, wish: &Wish, node: u8, number: u16) -> bool
    requires number { number ≤ 512 }
    requires few { length wish.now.carried.now ≤ 64 }
    ensures { let w = wish.now in result ≡ can_take (had_in taken.now) device.now w.linked.now w.carried.now
        w.identifier node number }
{
    let linked = wish.linked;
    let taker = Taker {
        device,
        sinks: &linked.sinks,
        node,
    };
    !taken.rpdos.contains(node, number)
        && takes(
            &taker,
            number,
            wish.identifier,
            linked.message.transmission,
            wish.carried,
        )
}

/// Whether no receive names an RPDO, up to 512, no clean message has it, and it serves a message.
fn may_take(device: &AsMade, taken: &Taken, wish: &Wish, node: u8, number: u16) -> bool
    requires number { number ≤ 512 }
    requires few { length wish.now.carried.now ≤ 64 }
    ensures { let w = wish.now in result ≡ may_take (had_in taken.now) device.now w.linked.now w.carried.now
        w.identifier node number }
{
    !taken.withheld_rpdos.contains(&(node, number)) && can_take(device, taken, wish, node, number)
}

/// Whether an RPDO, up to 512, is closed, and a message may be given it.
fn may_take_closed(device: &AsMade, taken: &Taken, wish: &Wish, node: u8, number: u16) -> bool
    requires number { number ≤ 512 }
    requires few { length wish.now.carried.now ≤ 64 }
    ensures { let w = wish.now in result ≡ (not (is_open device.now (rpdo_object number))
        && may_take (had_in taken.now) device.now w.linked.now w.carried.now w.identifier node number) }
{
    !is_open(device, rpdo_object(number)) && may_take(device, taken, wish, node, number)
}

/// Whether some closed RPDO of a node may have the identifier of a message: a quick look ahead.
fn may_be_closed(taken: &Taken, wish: &Wish, node: u8) -> bool
    ensures { (made : AsMade) (number : ℕ) → result ≡ false
        → option_and_then (λ made. made node) (devices_known taken.now).vendor ≡ Some made → 1 ≤ number → number ≤ 512
        → option_map_or (has_fixed made (rpdo_object number)) wish.now.identifier false ≡ false }
{
    match wish.identifier {
        Some(identifier) => taken.known.may_fix(node, identifier),
        None => false,
    }
}

/// The least closed RPDO that a message may be given.
fn least_closed(device: &AsMade, taken: &Taken, wish: &Wish, node: u8) -> Option<u16>
    requires few { length wish.now.carried.now ≤ 64 }
    requires made { option_and_then (λ made. made node) (devices_known taken.now).vendor ≡ Some device.now }
    ensures { let w = wish.now in result ≡ least_free (λ number. not (is_open device.now (rpdo_object number))
        && may_take (had_in taken.now) device.now w.linked.now w.carried.now w.identifier node number) 1 512 }
{
    if !may_be_closed(taken, wish, node) {
        return None;
    }
    for number in 1..513 {
        if may_take_closed(device, taken, wish, node, number) {
            return Some(number);
        }
    }
    None
}

/// The least RPDO that a message may be given.
fn least_of_all(device: &AsMade, taken: &Taken, wish: &Wish, node: u8) -> Option<u16>
    requires { length wish.now.carried.now ≤ 64 }
    ensures { let w = wish.now in result ≡ least_free (may_take (had_in taken.now) device.now w.linked.now w.carried.now
        w.identifier node) 1 512 }
{
    for number in 1..513 {
        if may_take(device, taken, wish, node, number) {
            return Some(number);
        }
    }
    None
}

/// The RPDO that a message gets of a device as it was made: the one that a receive names, if it serves; else the least
/// closed one, or where none of these serves the least.
#[tactic(auto, unfolding(crate::specs::Rpdos::vendor_rpdo))]
fn vendor_rpdo(device: &AsMade, taken: &Taken, wish: &Wish, node: u8) -> Option<u16>
    requires linked { IsLinked wish.now.linked.now }
    requires few { length wish.now.carried.now ≤ 64 }
    requires made { option_and_then (λ made. made node) (devices_known taken.now).vendor ≡ Some device.now }
    ensures { let w = wish.now in result ≡ vendor_rpdo (had_in taken.now) device.now w.linked.now w.carried.now
        w.identifier node }
{
    if let Some(number) = rpdo_named(wish.linked, node) {
        return if can_take(device, taken, wish, node, number) {
            Some(number)
        } else {
            None
        };
    }
    match least_closed(device, taken, wish, node) {
        Some(number) => Some(number),
        None => least_of_all(device, taken, wish, node),
    }
}

/// The RPDO, 1 to 512 (CiA 301), by which a node takes a message, where it has one for it: in versions 1 and 2 the least
/// that no clean message has and that has what its writes name; in version 3 the one that a receive names, if it
/// serves, or else the least closed one that serves, or else the least. Takes time by the number of RPDOs up to it, in
/// version 3 for each of them by that of the sources, and no memory.
pub fn rpdo_by(taken: &Taken, wish: &Wish, node: u8) -> Option<u16>
    requires linked { IsLinked wish.now.linked.now }
    requires few { length wish.now.carried.now ≤ 64 }
    ensures { let w = wish.now in result ≡ rpdo_by (had_in taken.now) (devices_known taken.now) w.linked.now
        w.carried.now w.identifier node }
{
    let stations = &taken.known.stations;
    if stations.is_three() {
        vendor_rpdo(stations.made(node)?, taken, wish, node)
    } else {
        spare_rpdo(taken, node, wish.carried.len())
    }
}
