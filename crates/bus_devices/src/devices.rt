//! The devices of a bus.

ghost use Rattle.std.specs.Prelude.{◌≡◌, ◌<◌, ◌↔◌, [], length, slice_get, Some, IfOk, IsTrue, OnOk};
ghost use Rattle.std.specs.Prelude.{option_copied};
ghost use Rattle.std.specs.List.{flat_map};
ghost use Rattle.image_parts.specs.Record.{GoesBy, Lasts};
ghost use Rattle.image_parts.specs.Each.{each};
ghost use Rattle.bus_devices.specs.Numbers.{values_of as first_values_of};
ghost use Rattle.bus_devices.specs.Senders.{device_lists, sender_place as place_of, with_sent};
ghost use Rattle.bus_devices.specs.Telling.{TellsApart};
ghost use Rattle.bus_devices.specs.Places.{device_at};
ghost use Rattle.can_frame.specs.Winner.{contenders, IsWinner};
ghost use Rattle.co_device.specs.Device.{moments};
ghost use Rattle.base.specs.Moments.{earliest};
ghost use Rattle.device_agenda.specs.Agenda.{at_instant};

use crate::apart::Apart;
use crate::block::{Block, first_due, place_of_sender, values_of, winner_of};
use crate::blocks::{best_of, renew_best, sender_place};
use crate::known::{know, run_known};
use crate::lists::{copy_all, differ_at, tell_apart};
use crate::outlook::Outlook;
use can_frame::{Contender, Waiting};
use co_dict::Dict;
use device_agenda::{Delivery, ScheduledDevice};
use device_objects::Shapes;
use image_parts::END;
use std::alloc::{AllocError, Global};
use std::marker::Model;

/// The devices of a bus at a moment.
///
/// Those that have nothing to do are passed over: of each eight devices, and of all, it is known when they have
/// to run, and which of their frames wins. This follows from the devices, and is no part of them.
#[derive(Drop)]
pub struct Devices {
    alloc: Global,
    devices: Vec<ScheduledDevice>,
    blocks: Vec<Block>,
    all: Outlook,
    known: bool,
}

impl Model for Devices {
    ghost use Rattle.std.specs.Prelude.{◌≡◌, List, true};
    ghost use Rattle.std.specs.Coded.{codes, coded_ℕ, coded_list, coded×};
    ghost use Rattle.std.specs.FinMap as map;
    ghost use Rattle.co_dict.specs.Places.{place_cmp};
    ghost use Rattle.co_device.specs.Device.{Device};
    ghost use Rattle.bus_devices.specs.Blocks.{AreKnown};

    ghost Value = { List Device };

    ghost coded = { Prim.hlevel (codes, map.code {R = place_cmp} (coded× coded_ℕ coded_ℕ) (coded_list coded_ℕ)) };

    ghost view = { λ d. d.devices.items };

    ghost invariant = { λ d. d.known ≡ true → AreKnown d.blocks.items d.all d.devices.items };
}

impl Devices {
    /// No devices. Takes no memory.
    pub fn none(alloc: Global) -> Devices
        ensures { result ≡ [] }
    {
        Devices::of(alloc, Vec::new(alloc))
    }

    /// These devices. Takes no memory.
    pub fn of(alloc: Global, devices: Vec<ScheduledDevice>) -> Devices
        ensures { result ≡ devices.items }
    {
        Devices {
            alloc,
            devices,
            blocks: Vec::new(alloc),
            all: Outlook::none(),
            known: false,
        }
    }

    /// The vector of these devices.
    pub fn into_vec(self) -> Vec<ScheduledDevice>
        ensures { result.items ≡ self }
    {
        self.devices
    }

    /// Equal devices, of which as much is known.
    pub fn copy(&self) -> Result<Devices, AllocError>
        ensures { IfOk result (λ devices. devices ≡ self.now) }
    {
        let devices = copy_all(self.alloc, &self.devices)?;
        let blocks = Vec::from_slice(self.alloc, &self.blocks)?;
        Ok(Devices {
            alloc: self.alloc,
            devices,
            blocks,
            all: self.all,
            known: self.known,
        })
    }

    /// Lets go of what is known of them, and of its memory. They are the same; their next instant works it out
    /// anew.
    pub fn forget_known(&mut self)
        ensures { self.new ≡ self.old }
    {
        self.known = false;
        self.blocks = Vec::new(self.alloc);
    }

    /// Whether two lists of devices are the same.
    pub fn same(&self, other: &Devices) -> bool
        ensures { IsTrue result ↔ (self.now ≡ other.now) }
    {
        match self.tell_apart(other) {
            Apart::No => true,
            Apart::At(_) | Apart::Elsewhere => false,
        }
    }

    /// Whether a quick look at the device of a place tells them from others. Takes the time of one such look.
    pub fn differ_at(&self, other: &Devices, place: usize) -> bool
        ensures { IsTrue result → self.now ≡ other.now → ⊥ }
    {
        differ_at(&self.devices, &other.devices, place)
    }

    /// What tells them from others: a place at which `differ_at` does, if there is one. Looks at each of them up to
    /// that place, at what is told in constant time first; where none is told so, compares them by value.
    pub fn tell_apart(&self, other: &Devices) -> Apart
        ensures { TellsApart result self.now other.now }
    {
        tell_apart(&self.devices, &other.devices)
    }

    /// An instant of each device, by number: it hears what is delivered, if another node sent it, and then
    /// runs what is due. Takes constant time where the agenda of all says that they sleep: none is due, and what is
    /// delivered is of a group of none. Else takes time by an eighth of all, by those that are due, and by the
    /// consumers or RPDOs of those that have its group and its low byte. The first instant of devices of which
    /// nothing is known walks all of them, and takes memory for what is known of each eight. Want of memory may come
    /// halfway: some of the devices have had their instant then, and others not.
    pub fn instant<P: Shapes>(
        &mut self,
        t: u64,
        delivery: &Option<Delivery>,
        shapes: &mut P,
    ) -> Result<(), AllocError>
        requires { t < END }
        ensures ran { OnOk result (GoesBy (each (at_instant t delivery.now) self.old) self.new
            P.seen P.asks shapes.old shapes.new) }
        ensures lasts { Lasts (P.seen shapes.old) (P.seen shapes.new) }
    {
        if self.known && self.all.alarm.sleeps_through(t, delivery) {
            return Ok(());
        }
        if !self.known {
            self.all = know(&mut self.blocks, &self.devices)?;
        }
        self.known = false;
        let blocks = self.blocks.as_mut_slice();
        let devices = self.devices.as_mut_slice();
        run_known(blocks, &mut self.all, devices, t, delivery, shapes)?;
        self.known = true;
        Ok(())
    }

    /// The first moment at which one of them is due, in microseconds, if there is one. Takes constant time once
    /// an instant has run, else walks them.
    pub fn next_due(&self) -> Option<u64>
        ensures { result ≡ earliest (flat_map moments self.now) }
    {
        let agenda = self.all.alarm.agenda();
        if self.known && !agenda.awake {
            return agenda.due;
        }
        first_due(&self.devices)
    }

    /// The values of the first of them that has this number, if one has. Walks them, and takes no memory.
    pub fn values(&self, node: u8) -> Option<&Dict>
        ensures { option_copied result ≡ first_values_of node self.now }
    {
        values_of(node, &self.devices)
    }

    /// The frame with which one of them contends for the bus: of all that wait at them the one that wins. Takes
    /// constant time once an instant has run, else walks them.
    pub fn contender(&self) -> Option<Contender>
        ensures { IsWinner (contenders (device_lists self.now)) result }
    {
        if self.known {
            self.all.best
        } else {
            winner_of(&self.devices)
        }
    }

    /// The place of the first of them that contends with a frame.
    pub fn sender_place(&self, contender: &Contender) -> Option<usize>
        ensures { result ≡ place_of contender.now self.now }
    {
        if self.known {
            sender_place(contender, &self.blocks, &self.devices)
        } else {
            place_of_sender(contender, &self.devices)
        }
    }

    /// Takes the frame at a place of its list from the device at a place. Takes time by an eighth of all, wherever
    /// the device stands, once an instant has run. Want of memory leaves the devices as they were.
    pub fn send(&mut self, i: usize, place: usize) -> Result<Waiting, AllocError>
        requires device { i < length self.old }
        requires frame { place < length (device_at self.old i).waiting }
        ensures frame { IfOk result (λ sent. slice_get (device_at self.old i).waiting place ≡ Some sent) }
        ensures left { OnOk result (self.new ≡ with_sent self.old i place) }
    {
        let known = self.known;
        self.known = false;
        let sent = self.devices[i].send(place)?;
        if known {
            renew_best(self.blocks.as_mut_slice(), &self.devices, i);
            self.all.best = best_of(&self.blocks);
            self.known = true;
        }
        Ok(sent)
    }
}
