//! What a few devices of a bus do, and what is known of them.

ghost use Rattle.std.specs.Prelude.{◌≡◌, ◌↔◌, ◌<◌, ◌≤◌, ◌∷◌, [], List, false, length, option_copied, IfOk, IfSome, IsTrue, OnOk};
ghost use Rattle.image_parts.specs.Record.{GoesBy, Lasts};
ghost use Rattle.bus_devices.specs.Blocks.{AreEachOf, AreOutlooksOf, FollowsFromEach, IsBestOf, IsBlockOf, IsOutlookOf};
ghost use Rattle.bus_devices.specs.Numbers.{values_of as first_values_of};
ghost use Rattle.bus_devices.specs.Senders.{contends_with as contends, device_lists, is_contender, sender_place};
ghost use Rattle.image_parts.specs.Each.{each};
ghost use Rattle.can_frame.specs.Winner.{contenders, IsWinner};
ghost use Rattle.base.specs.Moments.{earliest};
ghost use Rattle.co_device.specs.Device.{Device, moments};
ghost use Rattle.std.specs.List.{flat_map};
ghost use Rattle.device_agenda.specs.Agenda.{at_instant};
ghost use Rattle.device_agenda.specs.LowBytes.{AreDeafBeyond, IsDeafBeyond};

use crate::outlook::{Outlook, keep_winner};
use base::earlier;
use can_frame::Contender;
use co_dict::Dict;
use device_agenda::{Delivery, LowBytes, ScheduledDevice};
use device_objects::Shapes;
use image_parts::END;
use std::alloc::AllocError;

/// The number of devices of a block; the last one may have fewer.
pub(crate) const BLOCK: usize = 8;

/// What is known of the devices of a block, of all of them and of each, so that those that sleep aren't touched.
#[derive(Clone, Copy, Debug)]
pub(crate) struct Block {
    /// What is known of all of them.
    pub outlook: Outlook,
    /// The low bytes of frames that may be something to one of them: more as they run, till one has run that was awake,
    /// or blocks are planned anew.
    pub low_bytes: LowBytes,
    /// What is known of each, in their order; what stands behind those of the devices is of none.
    pub each: [Outlook; BLOCK],
}

impl Block {
    /// That of at most eight devices. Walks them.
    pub(crate) fn of(devices: &[ScheduledDevice]) -> Block
        requires { length devices.now ≤ 8 }
        ensures { IsBlockOf result devices.now }
    {
        let each = outlooks_of(devices);
        Block {
            outlook: outlook_of(&each, devices.len()),
            low_bytes: low_bytes_of(devices),
            each,
        }
    }
}

/// What is known of each of at most eight devices, in their order.
fn outlooks_of(devices: &[ScheduledDevice]) -> [Outlook; BLOCK]
    requires { length devices.now ≤ 8 }
    ensures { AreOutlooksOf result devices.now }
{
    let mut outlooks = [Outlook::none(); BLOCK];
    for (place, device) in devices.iter().enumerate() {
        outlooks[place] = Outlook::of(device);
    }
    outlooks
}

/// What is known of so many devices, by what is known of each.
pub(crate) fn outlook_of(each: &[Outlook], count: usize) -> Outlook
    requires { count ≤ length each.now }
    ensures { FollowsFromEach result each.now count }
{
    let mut all = Outlook::none();
    for place in 0..count {
        all.add(&each[place]);
    }
    all
}

/// The low bytes of the identifiers of frames that may be something to one of the devices. Walks them.
pub(crate) fn low_bytes_of(devices: &[ScheduledDevice]) -> LowBytes
    ensures { AreDeafBeyond result devices.now }
{
    let mut low_bytes = LowBytes::none();
    for device in devices {
        low_bytes = low_bytes.and(&device.low_bytes());
    }
    low_bytes
}

/// Runs a device of which this is known, if it has to run at the moment t, at which this is delivered, and says
/// whether another thing is known of it then. It isn't touched where it is known that it sleeps; where it ran, what is
/// known of it is worked out anew, and its low bytes come to those of its block.
fn run_one<P: Shapes>(
    device: &mut ScheduledDevice,
    outlook: &mut Outlook,
    low_bytes: &mut LowBytes,
    t: u64,
    delivery: &Option<Delivery>,
    shapes: &mut P,
) -> Result<bool, AllocError>
    requires soon { t < END }
    requires outlook { IsOutlookOf outlook.old (device.old ∷ []) }
    ensures outlook { OnOk result (IsOutlookOf outlook.new (device.new ∷ [])) }
    ensures deaf { OnOk result ((ds : List Device) → AreDeafBeyond low_bytes.old ds → AreDeafBeyond low_bytes.new ds) }
    ensures own { OnOk result (IsDeafBeyond low_bytes.old device.old → IsDeafBeyond low_bytes.new device.new) }
    ensures ran { OnOk result (GoesBy (at_instant t delivery.now device.old) device.new
        P.seen P.asks shapes.old shapes.new) }
    ensures lasts { Lasts (P.seen shapes.old) (P.seen shapes.new) }
    ensures still { IfOk result (λ changed. changed ≡ false ↔ (outlook.new ≡ outlook.old)) }
{
    if outlook.alarm.sleeps_through(t, delivery) {
        return Ok(false);
    }
    let ran = device.run_instant(t, delivery, shapes)?;
    if !ran {
        return Ok(false);
    }
    let before = *outlook;
    *outlook = Outlook::of(device);
    *low_bytes = low_bytes.and(&device.low_bytes());
    Ok(!outlook.same(&before))
}

/// Runs each device that has to run at the moment t, at which this is delivered, and says whether another thing is known
/// of one of them then. What is known of each, and their low bytes, become those of behind it.
pub(crate) fn run_each<P: Shapes>(
    devices: &mut [ScheduledDevice],
    outlooks: &mut [Outlook],
    low_bytes: &mut LowBytes,
    t: u64,
    delivery: &Option<Delivery>,
    shapes: &mut P,
) -> Result<bool, AllocError>
    requires soon { t < END }
    requires outlooks { AreOutlooksOf outlooks.old devices.old }
    requires deaf { AreDeafBeyond low_bytes.old devices.old }
    ensures outlooks { OnOk result (AreOutlooksOf outlooks.new devices.new) }
    ensures deaf { OnOk result (AreDeafBeyond low_bytes.new devices.new) }
    ensures ran { OnOk result (GoesBy (each (at_instant t delivery.now) devices.old) devices.new
        P.seen P.asks shapes.old shapes.new) }
    ensures lasts { Lasts (P.seen shapes.old) (P.seen shapes.new) }
    ensures still { IfOk result (λ changed. changed ≡ false ↔ (outlooks.new ≡ outlooks.old)) }
{
    let mut changed = false;
    for (place, device) in devices.iter_mut().enumerate() {
        let other = run_one(device, &mut outlooks[place], low_bytes, t, delivery, shapes)?;
        changed |= other;
    }
    Ok(changed)
}

/// The first moment at which one of the devices is due, if there is one. Walks them.
pub(crate) fn first_due(devices: &[ScheduledDevice]) -> Option<u64>
    ensures { result ≡ earliest (flat_map moments devices.now) }
{
    let mut first = None;
    for device in devices {
        first = earlier(first, device.next_due());
    }
    first
}

/// The least frame that waits at one of the devices. Walks them.
pub(crate) fn winner_of(devices: &[ScheduledDevice]) -> Option<Contender>
    ensures { IsWinner (contenders (device_lists devices.now)) result }
{
    let mut best = None;
    for device in devices {
        keep_winner(&mut best, &device.contender());
    }
    best
}

/// The same of so many devices, by what is known of each.
pub(crate) fn best_of_each(each: &[Outlook], count: usize) -> Option<Contender>
    requires { count ≤ length each.now }
    ensures { (devices : List Device) → length devices ≡ count → AreEachOf IsBestOf each.now devices
        → IsWinner (contenders (device_lists devices)) result }
{
    let mut best = None;
    for place in 0..count {
        keep_winner(&mut best, &each[place].best);
    }
    best
}

/// Whether a frame is this one.
fn is_same(contender: &Contender, other: Option<Contender>) -> bool
    ensures { result ≡ is_contender contender.now other }
{
    match other {
        None => false,
        Some(other) => {
            other.id == contender.id
                && (other.sender == contender.sender && other.place == contender.place)
        }
    }
}

/// Whether a device contends with this frame.
fn contends_with(contender: &Contender, device: &ScheduledDevice) -> bool
    ensures { result ≡ contends contender.now device.now }
{
    is_same(contender, device.contender())
}

/// The place of the first device that contends with this frame. Walks them.
#[tactic(auto, unfolding(crate::specs::Senders::sender_place))]
pub(crate) fn place_of_sender(contender: &Contender, devices: &[ScheduledDevice]) -> Option<usize>
    ensures { result ≡ sender_place contender.now devices.now }
{
    devices
        .iter()
        .position(|device| contends_with(contender, device))
}

/// The same, by what is known of each.
#[tactic(auto, unfolding(crate::specs::Senders::sender_place))]
pub(crate) fn place_by_each(
    contender: &Contender,
    each: &[Outlook],
    devices: &[ScheduledDevice],
) -> Option<usize>
    requires { AreOutlooksOf each.now devices.now }
    ensures { result ≡ sender_place contender.now devices.now }
{
    for place in 0..devices.len() {
        if is_same(contender, each[place].best) {
            return Some(place);
        }
    }
    None
}

/// The values of the first device of a number. Walks the devices.
pub(crate) fn values_of(node: u8, devices: &[ScheduledDevice]) -> Option<&Dict>
    ensures { option_copied result ≡ first_values_of node devices.now }
{
    let device = devices.iter().find(|device| device.number() == node)?;
    Some(device.values())
}
