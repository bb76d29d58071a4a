//! A device that runs only when it has to.

ghost use Rattle.std.specs.Prelude.{◌≡◌, ◌↔◌, ◌<◌, ◌≤◌, ◌∷◌, [], Some, true, false, length, remove, slice_get};
ghost use Rattle.std.specs.Prelude.{IfOk, IfSome, OnOk, OnErr, IsErr, IsTrue};
ghost use Rattle.image_parts.specs.Asking.{Answer};
ghost use Rattle.image_parts.specs.Record.{GoesBy, Lasts};
ghost use Rattle.can_frame.specs.Senders.{device_sender as device_sender_of};
ghost use Rattle.can_frame.specs.Winner.{contenders_of, IsWinner};
ghost use Rattle.co_values.specs.Values.{longest_value};
ghost use Rattle.co_device.specs.Device.{next_due, after_power, after_instant, after_set, without_power};
ghost use Rattle.co_device.specs.Receiving.{is_ignored};
ghost use Rattle.device_agenda.specs.Agenda.{at_instant, hears, IsAgendaOf};
ghost use Rattle.device_agenda.specs.LowBytes.{IsDeafBeyond};
ghost use Rattle.device_agenda.specs.Reach.{IsReachOf};
ghost use Rattle.device_agenda.specs.Schedule.{IsScheduled};
ghost use Rattle.device_agenda.specs.Rest.{Rests};
ghost use Rattle.device_objects.specs.Profile.{sync_identifier as identifier_of_sync};
ghost use Rattle.cia301.specs.PdoObjects.{is_of_pdos};

use crate::agenda::Agenda;
use crate::delivery::Delivery;
use crate::ignored::ignores;
use crate::low_bytes::LowBytes;
use crate::reach::Reach;
use crate::schedule::Schedule;
use crate::stirring::stirring;
use base::{Octets, Shared, has_come, unshare};
use can_frame::{Contender, Waiting, device_sender};
use co_device::Device;
use co_dict::Dict;
use device_objects::{Shapes, sync_identifier};
use image_parts::END;
use std::alloc::{AllocError, Global};
use std::marker::Model;
use std::rc::Rc;

/// A device at a moment (CiA 301) that runs only when it has to, and that copies share until one of them is changed.
///
/// It does what the device does. Its agenda is worked out when it ran, and until a moment or a frame that the
/// agenda has, it sleeps, unless a write of its application or its switch wakes it. The agenda, and the identifier
/// of SYNC that is kept with it, follow from the device, and are no part of it: two are the same where their
/// devices are.
///
/// A change of a device that is shared takes memory for a copy of it. Where none is found the device stays as
/// it was, and isn't spent.
#[derive(Drop)]
pub struct ScheduledDevice {
    schedule: Rc<Schedule>,
}

impl Model for ScheduledDevice {
    ghost use Rattle.std.specs.Coded.{codes, coded_ℕ, coded_list, coded×};
    ghost use Rattle.std.specs.FinMap as map;
    ghost use Rattle.co_dict.specs.Places.{place_cmp};
    ghost use Rattle.co_device.specs.Device.{Device};
    ghost use Rattle.device_agenda.specs.Schedule.{IsScheduled};

    ghost Value = { Device };

    ghost coded = { Prim.hlevel (codes, map.code {R = place_cmp} (coded× coded_ℕ coded_ℕ) (coded_list coded_ℕ)) };

    ghost view = { λ s. s.schedule.value.device };

    ghost invariant = { λ s. IsScheduled s.schedule.value.agenda s.schedule.value.low_bytes s.schedule.value.sync
        s.schedule.value.device };
}

/// The agenda of a device that ran, to which frames of other identifiers than these are nothing.
fn agenda_of(device: &Device, reach: &Reach) -> Agenda
    requires reach { IsReachOf reach.now device.now }
    requires rests { Rests device.now }
    requires unspent { device.now.spent ≡ false }
    ensures { IsAgendaOf result (device.now ∷ []) }
{
    Agenda {
        awake: false,
        due: device.next_due(),
        groups: reach.groups,
        waits: device.contender().is_some(),
    }
}

/// Plans a device anew, which ran.
fn plan(schedule: &mut Schedule)
    requires rests { Rests schedule.old.device }
    requires unspent { schedule.old.device.spent ≡ false }
    ensures device { schedule.new.device ≡ schedule.old.device }
    ensures plan { IsScheduled schedule.new.agenda schedule.new.low_bytes schedule.new.sync schedule.new.device }
{
    schedule.sync = sync_identifier(schedule.device.learnt(), schedule.device.values());
    let reach = stirring(&schedule.device, schedule.sync);
    schedule.agenda = agenda_of(&schedule.device, &reach);
    schedule.low_bytes = reach.low_bytes;
}

/// Whether what is delivered is nothing that a device with this identifier of SYNC takes.
fn takes_nothing(device: &Device, sync: u16, delivery: &Option<Delivery>) -> bool
    requires { sync ≡ identifier_of_sync device.now.learnt device.now.values }
    ensures { IsTrue result → IfSome delivery.now (λ d. is_ignored d.frame device.now ≡ true) }
{
    match delivery {
        None => true,
        Some(delivery) => ignores(device, sync, &delivery.frame),
    }
}

/// Gives a device what is delivered at the moment t, if it isn't its sender.
#[tactic(auto, unfolding(crate::specs::Agenda::hears))]
fn hear<P: Shapes>(
    device: &mut Device,
    t: u64,
    delivery: &Delivery,
    shapes: &mut P,
) -> Result<(), AllocError>
    requires { t < END }
    ensures ran { OnOk result (GoesBy (hears t delivery.now device.old) device.new
        P.seen P.asks shapes.old shapes.new) }
    ensures lasts { Lasts (P.seen shapes.old) (P.seen shapes.new) }
    ensures still { OnOk result (IsTrue device.old.spent → IsTrue device.new.spent) }
    ensures spent { OnErr result (IsTrue device.new.spent) }
{
    if device_sender(device.number()) == delivery.sender {
        return Ok(());
    }
    device.on_frame(t, &delivery.frame, shapes)
}

/// Runs what is due at the moment t.
fn run_due(device: &mut Device, t: u64) -> Result<(), AllocError>
    requires { t < END }
    ensures state { OnOk result (device.new ≡ after_instant t device.old) }
    ensures refused { IsTrue device.old.spent → IsErr result }
    ensures spent { OnErr result (IsTrue device.new.spent) }
    ensures rests { OnOk result (Rests device.new) }
    ensures unspent { OnOk result (device.new.spent ≡ false) }
{
    if device.spent() {
        return Err(AllocError);
    }
    device.on_instant(t)?;
    Ok(())
}

/// What a device does at the moment t: it hears what is delivered, and then runs what is due.
#[tactic(auto, unfolding(crate::specs::Agenda::at_instant))]
fn run<P: Shapes>(
    device: &mut Device,
    t: u64,
    delivery: &Option<Delivery>,
    shapes: &mut P,
) -> Result<(), AllocError>
    requires { t < END }
    ensures ran { OnOk result (GoesBy (at_instant t delivery.now device.old) device.new
        P.seen P.asks shapes.old shapes.new) }
    ensures lasts { Lasts (P.seen shapes.old) (P.seen shapes.new) }
    ensures refused { IsTrue device.old.spent → IsErr result }
    ensures spent { OnErr result (IsTrue device.new.spent) }
    ensures rests { OnOk result (Rests device.new) }
    ensures unspent { OnOk result (device.new.spent ≡ false) }
{
    let Some(delivery) = delivery else {
        return run_due(device, t);
    };
    hear(device, t, delivery, shapes)?;
    run_due(device, t)?;
    Ok(())
}

impl ScheduledDevice {
    /// A device of this number without power.
    pub fn new(alloc: Global, number: u8) -> Result<ScheduledDevice, AllocError>
        ensures { IfOk result (λ device. device ≡ without_power false number) }
    {
        let schedule = Rc::new(
            alloc,
            Schedule {
                device: Device::new(alloc, number),
                agenda: Agenda::unknown(),
                low_bytes: LowBytes::none(),
                sync: 0,
            },
        )?;
        Ok(ScheduledDevice { schedule })
    }

    /// An equal device, which it shares. Takes no memory.
    pub fn copy(&self) -> Result<ScheduledDevice, AllocError>
        ensures { IfOk result (λ device. device ≡ self.now) }
    {
        let schedule = self.schedule.clone()?;
        Ok(ScheduledDevice { schedule })
    }

    /// Whether the other device is due when it is, as far as their agendas tell. Takes constant time.
    fn may_be_due_with(&self, other: &ScheduledDevice) -> bool
        ensures { self.now ≡ other.now → IsTrue result }
    {
        if self.schedule.agenda.awake || other.schedule.agenda.awake {
            return true;
        }
        self.next_due() == other.next_due()
    }

    /// Whether the other device looks the same: a look ahead of `may_be`, at what is told in constant time.
    pub fn looks_like(&self, other: &ScheduledDevice) -> bool
        ensures { self.now ≡ other.now → IsTrue result }
    {
        self.may_be_due_with(other) && self.schedule.device.looks_like(&other.schedule.device)
    }

    /// Whether the other device may be the same: a quick look ahead of `same`.
    pub fn may_be(&self, other: &ScheduledDevice) -> bool
        ensures { self.now ≡ other.now → IsTrue result }
    {
        self.schedule.device.may_be(&other.schedule.device)
    }

    /// Whether the other device is the same.
    pub fn same(&self, other: &ScheduledDevice) -> bool
        ensures { IsTrue result ↔ (self.now ≡ other.now) }
    {
        self.schedule.device.same(&other.schedule.device)
    }

    /// The number of the device's node.
    pub fn number(&self) -> u8
        ensures { result ≡ self.now.number }
    {
        self.schedule.device.number()
    }

    /// The values of its entries.
    pub fn values(&self) -> &Dict
        ensures { result.now ≡ self.now.values }
    {
        self.schedule.device.values()
    }

    /// The first moment at which it is due, in microseconds, if there is one. Takes constant time while it
    /// sleeps; else it walks its consumers and its TPDOs.
    pub fn next_due(&self) -> Option<u64>
        ensures { result ≡ next_due self.now }
    {
        if self.schedule.agenda.awake {
            self.schedule.device.next_due()
        } else {
            self.schedule.agenda.due
        }
    }

    /// Its agenda.
    pub fn agenda(&self) -> Agenda
        ensures { IsAgendaOf result (self.now ∷ []) }
    {
        self.schedule.agenda
    }

    /// The low bytes of the identifiers of frames that may be something to it.
    pub fn low_bytes(&self) -> LowBytes
        ensures { IsDeafBeyond result self.now }
    {
        if self.schedule.agenda.awake {
            LowBytes::all()
        } else {
            self.schedule.low_bytes
        }
    }

    /// The frame with which it contends for the bus: the first of those waiting that have the least
    /// identifier. Takes constant time.
    pub fn contender(&self) -> Option<Contender>
        ensures { IsWinner (contenders_of (device_sender_of self.now.number, self.now.waiting)) result }
    {
        if !self.schedule.agenda.waits {
            return None;
        }
        self.schedule.device.contender()
    }

    /// Takes the waiting frame at a place for the bus; the others keep their order. It sleeps on.
    pub fn send(&mut self, place: usize) -> Result<Waiting, AllocError>
        requires { place < length self.old.waiting }
        ensures frame { IfOk result (λ sent. slice_get self.old.waiting place ≡ Some sent) }
        ensures left { OnOk result (self.new ≡ record self.old { waiting = remove self.old.waiting place }) }
    {
        let schedule = unshare(&mut self.schedule)?;
        let sent = schedule.device.send(place);
        schedule.agenda.waits = schedule.device.contender().is_some();
        Ok(sent)
    }

    /// Switches the power of the device at the moment t. Where it is as it was, nothing changes, and no memory is
    /// taken.
    #[tactic(auto, unfolding(co_device::specs::Device::after_power))]
    pub fn power<P: Shapes>(&mut self, on: bool, t: u64, shapes: &mut P) -> Result<(), AllocError>
        requires { t < END }
        ensures ran { OnOk result (GoesBy (after_power on t self.old) self.new P.seen P.asks shapes.old shapes.new) }
        ensures lasts { Lasts (P.seen shapes.old) (P.seen shapes.new) }
    {
        if self.schedule.device.has_power() == on {
            return Ok(());
        }
        let schedule = unshare(&mut self.schedule)?;
        schedule.agenda = Agenda::unknown();
        schedule.device.power(on, t, shapes)
    }

    /// The application of the device sets an entry at the moment t, whatever its access and limits; without
    /// power nothing happens, and no memory is taken. The index isn't one of 1400h to 1BFFh, and the value has at most
    /// 512 bytes.
    #[tactic(auto, unfolding(co_device::specs::Device::after_set))]
    pub fn set(
        &mut self,
        t: u64,
        index: u16,
        sub: u8,
        bytes: &Shared<Octets>,
    ) -> Result<(), AllocError>
        requires soon { t < END }
        requires own { is_of_pdos index ≡ false }
        requires short { length bytes.now ≤ longest_value }
        ensures state { OnOk result (self.new ≡ after_set t (index, sub) bytes.now self.old) }
    {
        if !self.schedule.device.has_power() {
            return Ok(());
        }
        let schedule = unshare(&mut self.schedule)?;
        schedule.agenda = Agenda::unknown();
        schedule.device.set(t, index, sub, bytes)
    }

    /// Runs what has to at the moment t: it hears what is delivered, if another node sent it, and then come its
    /// heartbeat consumers by sub-index, the heartbeat, and the TPDOs by number. Says whether it had to run: where
    /// it hadn't, it is as it was. Takes constant time, and no memory, where it sleeps.
    pub fn run_instant<P: Shapes>(
        &mut self,
        t: u64,
        delivery: &Option<Delivery>,
        shapes: &mut P,
    ) -> Result<bool, AllocError>
        requires { t < END }
        ensures ran { OnOk result (GoesBy (at_instant t delivery.now self.old) self.new
            P.seen P.asks shapes.old shapes.new) }
        ensures lasts { Lasts (P.seen shapes.old) (P.seen shapes.new) }
        ensures still { IfOk result (λ ran. ran ≡ false → self.new ≡ self.old) }
    {
        if self.does_nothing(t, delivery) {
            return Ok(false);
        }
        let schedule = unshare(&mut self.schedule)?;
        schedule.agenda = Agenda::unknown();
        run(&mut schedule.device, t, delivery, shapes)?;
        plan(schedule);
        Ok(true)
    }

    /// Whether nothing happens to it at the moment t.
    fn does_nothing(&self, t: u64, delivery: &Option<Delivery>) -> bool
        ensures { IsTrue result → at_instant t delivery.now self.now ≡ Answer self.now }
    {
        if self
            .schedule
            .agenda
            .sleeps_on(&self.schedule.low_bytes, t, delivery)
        {
            return true;
        }
        self.is_left_alone(t, delivery)
    }

    /// Whether it isn't due at the moment t, and takes nothing of what is delivered.
    fn is_left_alone(&self, t: u64, delivery: &Option<Delivery>) -> bool
        ensures { IsTrue result → at_instant t delivery.now self.now ≡ Answer self.now }
    {
        if self.schedule.agenda.awake {
            return false;
        }
        if has_come(t, self.schedule.agenda.due) {
            return false;
        }
        takes_nothing(&self.schedule.device, self.schedule.sync, delivery)
    }
}
