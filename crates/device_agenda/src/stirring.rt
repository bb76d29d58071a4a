//! The frames that are something to a device.

ghost use Rattle.std.specs.Prelude.{◌≡◌, ◌<◌, ℕ, false, is_some};
ghost use Rattle.std.specs.List.{list_any};
ghost use Rattle.can_frame.specs.Identifiers.{error_control_id};
ghost use Rattle.cia301.specs.ConsumerHeartbeatTimes.{consumed_node};
ghost use Rattle.device_objects.specs.Consumers.{expects};
ghost use Rattle.device_objects.specs.Profile.{sync_identifier as identifier_of_sync};
ghost use Rattle.device_agenda.specs.Reach.{Extends, IsReachOf, reaches};
ghost use Rattle.device_agenda.specs.Deaf.{AwaitsNoSync};
ghost use Rattle.device_pdos.specs.Rpdos.{has_identifier};
ghost use Rattle.device_pdos.specs.Tpdos.{goes_by_sync};

use crate::reach::Reach;
use can_frame::identifiers;
use cia301::ConsumerHeartbeatTime;
use co_device::Device;
use device_objects::Consumer;
use device_pdos::{RpdoState, TpdoState};
use pdo_rules::Configuration;

/// Whether one of the RPDOs keeps a frame.
fn any_keeps(rpdos: &[RpdoState]) -> bool
    ensures { result ≡ list_any (λ p. is_some p.kept) rpdos.now }
{
    rpdos.iter().any(|rpdo| rpdo.kept.is_some())
}

/// Whether one of the TPDOs goes by SYNC.
fn any_goes_by_sync(tpdos: &[TpdoState]) -> bool
    ensures { result ≡ list_any (λ p. goes_by_sync p.configuration) tpdos.now }
{
    tpdos.iter().any(|tpdo| tpdo.goes_by_sync())
}

/// Whether something of a device may wait for a SYNC.
fn awaits_sync(device: &Device) -> bool
    ensures { result ≡ false → AwaitsNoSync device.now }
{
    any_keeps(device.rpdos()) | any_goes_by_sync(device.tpdos())
}

/// Adds that of SYNC, where something of a device may wait for one.
fn with_sync(reach: Reach, device: &Device, sync: u16) -> Reach
    requires { sync ≡ identifier_of_sync device.now.learnt device.now.values }
    ensures kept { Extends reach result }
    ensures sync { reaches result (identifier_of_sync device.now.learnt device.now.values) ≡ false
        → AwaitsNoSync device.now }
{
    if awaits_sync(device) {
        reach.with(sync)
    } else {
        reach
    }
}

/// The node whose heartbeat a consumer expects.
fn expected(consumer: &Consumer) -> u8
    ensures { result ≡ consumed_node consumer.now.entry }
{
    ConsumerHeartbeatTime::of(consumer.entry).node()
}

/// Adds that of the heartbeats that a consumer may expect.
fn with_producer(reach: Reach, consumer: &Consumer) -> Reach
    ensures kept { Extends reach result }
    ensures producer { (producer : ℕ) → producer < 0x100 → reaches result (error_control_id producer) ≡ false
        → expects producer consumer.now.entry ≡ false }
{
    if ConsumerHeartbeatTime::of(consumer.entry).time() > 0 {
        reach.with(identifiers::error_control(expected(consumer)))
    } else {
        reach
    }
}

/// Adds those of the heartbeats that consumers may expect.
fn with_producers(reach: Reach, consumers: &[Consumer]) -> Reach
    ensures kept { Extends reach result }
    ensures producers { (producer : ℕ) → producer < 0x100 → reaches result (error_control_id producer) ≡ false
        → list_any (λ c. expects producer c.entry) consumers.now ≡ false }
{
    let mut reach = reach;
    for consumer in consumers {
        reach = with_producer(reach, consumer);
    }
    reach
}

/// Adds that of the frames of an RPDO that works.
fn with_rpdo(reach: Reach, configuration: &Option<Configuration>) -> Reach
    ensures kept { Extends reach result }
    ensures rpdo { (id : ℕ) → id < 0x800 → reaches result id ≡ false → has_identifier id configuration.now ≡ false }
{
    match configuration {
        Some(configuration) => reach.with(configuration.identifier.number()),
        None => reach,
    }
}

/// Adds those of the frames of RPDOs that work.
fn with_rpdos(reach: Reach, rpdos: &[RpdoState]) -> Reach
    ensures kept { Extends reach result }
    ensures rpdos { (id : ℕ) → id < 0x800 → reaches result id ≡ false
        → list_any (λ p. has_identifier id p.configuration) rpdos.now ≡ false }
{
    let mut reach = reach;
    for rpdo in rpdos {
        reach = with_rpdo(reach, &rpdo.configuration);
    }
    reach
}

/// The identifiers of frames that are something to a device with this identifier of SYNC. Takes time by its
/// consumers and PDOs.
pub(crate) fn stirring(device: &Device, sync: u16) -> Reach
    requires { sync ≡ identifier_of_sync device.now.learnt device.now.values }
    ensures { IsReachOf result device.now }
{
    if !device.has_power() {
        return Reach::none();
    }
    let reach = Reach::none()
        .with(identifiers::nmt())
        .with(identifiers::sdo_request(device.number()));
    let reach = with_sync(reach, device, sync);
    let reach = with_producers(reach, device.consumers());
    with_rpdos(reach, device.rpdos())
}
