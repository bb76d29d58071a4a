//! The TPDO of the sender.
ghost use Rattle.std.specs.Prelude.{◌≡◌, ◌≤◌, ◌&&◌};
ghost use Rattle.pdo_stations.specs.Devices.{has_pdo, has_start, has_times};
ghost use Rattle.cia301.specs.PdoObjects.{tpdo_object};
ghost use Rattle.pdo_stations.specs.Stations.{devices_in};

use crate::stations::Stations;
use project_messages::Linked;

/// Whether the sender of a message has what the writes of its TPDO, up to 512, name (CiA 301), with
/// so many mapping entries, up to 64: its COB-ID, type and mapping, and its times and its SYNC start
/// value where they aren't 0.
pub fn has_tpdo(stations: &Stations, linked: &Linked, count: usize) -> bool
    requires number { linked.now.message.tpdo ≤ 512 }
    requires few { count ≤ 64 }
    ensures { let message = linked.now.message in let devices = devices_in stations.now in
        let object = tpdo_object message.tpdo in
        result ≡ (has_pdo devices message.node object count
        && has_times devices message.node object message.inhibit message.event
        && has_start devices message.node object linked.now.start) }
{
    let message = &linked.message;
    stations.has_tpdo(message.node, message.tpdo, count)
        && stations.has_times(message.node, message.tpdo, message.inhibit, message.event)
        && stations.has_start(message.node, message.tpdo, linked.start)
}
