//! The identifier of a message.
ghost use Rattle.std.specs.Prelude.{◌≡◌, ◌≤◌};
ghost use Rattle.pdo_choices.specs.Least.{least_free};
ghost use Rattle.pdo_choices.specs.Identifiers.{explicit, automatic, fixed_for, identifier_for, is_free_identifier};
ghost use Rattle.pdo_choices.specs.Identifiers.{sought_identifier};
ghost use Rattle.pdo_choices.specs.Taken.{devices_known, had_in};
ghost use Rattle.cia301.specs.PdoObjects.{tpdo_object};
ghost use Rattle.pdo_stations.specs.Stations.{devices_in};
ghost use Rattle.vendor_pdos.specs.Fixed.{fixed_at};

use crate::taken::Taken;
use cia301::{is_restricted, tpdo_object};
use pdo_stations::Stations;
use project_messages::Message;
use vendor_pdos::fixed_identifier;

/// The identifiers of a message (COB-IDs of 11 bits).
#[derive(Clone, Copy)]
pub struct Identifiers {
    /// The one that it has, where it can have one.
    pub own: Option<u16>,
    /// The one by which its receivers are sought, though it may be one that it can't have.
    pub sought: Option<u16>,
}

/// Whether no clean message has an identifier, and no closed PDO waits for it.
fn is_free(taken: &Taken, identifier: u16) -> bool
    ensures { result ≡ is_free_identifier (had_in taken.now) identifier }
{
    !taken.identifiers.contains(&identifier) && !taken.known.withheld.contains(&identifier)
}

/// The least of the identifiers from 681h to 6DFh that is free.
fn least_of_pool(taken: &Taken) -> Option<u16>
    ensures { result ≡ least_free (is_free_identifier (had_in taken.now)) 0x681 95 }
{
    for number in 0x681..0x6E0 {
        if is_free(taken, number) {
            return Some(number);
        }
    }
    None
}

/// An explicit identifier, where it may be had.
fn explicit(taken: &Taken, cob: u16) -> Option<u16>
    ensures { result ≡ explicit (had_in taken.now) cob }
{
    if cob < 0x181 || is_restricted(cob) || taken.identifiers.contains(&cob) {
        None
    } else {
        Some(cob)
    }
}

/// An automatic identifier, where one is free.
fn automatic(taken: &Taken, node: u8, tpdo: u16) -> Option<u16>
    ensures { result ≡ automatic (had_in taken.now) node tpdo }
{
    if tpdo <= 4 {
        let predefined = 0x80 + 0x100 * tpdo + u16::from(node);
        if is_free(taken, predefined) {
            return Some(predefined);
        }
    }
    least_of_pool(taken)
}

/// The fixed identifier of a TPDO, where a message may have it: it names it or leaves its own open.
fn fixed_for(taken: &Taken, cob: u16, fixed: u16) -> Option<u16>
    ensures { result ≡ fixed_for (had_in taken.now) cob fixed }
{
    if cob == 0 || cob == fixed {
        explicit(taken, fixed)
    } else {
        None
    }
}

/// The fixed identifier of a TPDO, up to 512, of a node, in version 3.
fn fixed_at(stations: &Stations, node: u8, tpdo: u16) -> Option<u16>
    requires { tpdo ≤ 512 }
    ensures { result ≡ fixed_at (devices_in stations.now) node (tpdo_object tpdo) }
{
    fixed_identifier(stations.made(node)?, tpdo_object(tpdo))
}

/// The identifiers of a message of a TPDO up to 512: the fixed one of its TPDO, or else its own, or else an automatic
/// one. That is the one of TPDO 1 to 4 in the predefined connection set (CiA 301), where it is free, or else the least
/// free of 681h to 6DFh. Takes time by the logarithm of the number of messages, and no memory.
#[tactic(auto, unfolding(crate::specs::Identifiers::identifier_for))]
pub fn identifiers_of(taken: &Taken, message: &Message) -> Identifiers
    requires { message.now.tpdo ≤ 512 }
    ensures own { result.own ≡ identifier_for (had_in taken.now) (devices_known taken.now) message.now }
    ensures sought { result.sought ≡ sought_identifier (had_in taken.now) (devices_known taken.now) message.now }
{
    if let Some(fixed) = fixed_at(&taken.known.stations, message.node, message.tpdo) {
        return Identifiers {
            own: fixed_for(taken, message.cob, fixed),
            sought: Some(fixed),
        };
    }
    if message.cob == 0 {
        let identifier = automatic(taken, message.node, message.tpdo);
        return Identifiers {
            own: identifier,
            sought: identifier,
        };
    }
    Identifiers {
        own: explicit(taken, message.cob),
        sought: Some(message.cob),
    }
}
