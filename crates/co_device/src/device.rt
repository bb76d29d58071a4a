//! The device at a moment.

ghost use Rattle.std.specs.Prelude.{◌≡◌, ◌↔◌, ◌<◌, ◌≤◌, Some, false, length, remove, slice_get, IfOk, OnOk, OnErr};
ghost use Rattle.std.specs.Prelude.{IsErr, IsTrue};
ghost use Rattle.image_parts.specs.Record.{GoesBy, Lasts};
ghost use Rattle.can_frame.specs.Senders.{device_sender as device_sender_of};
ghost use Rattle.can_frame.specs.Winner.{contenders_of, IsWinner};
ghost use Rattle.co_values.specs.Values.{longest_value};
ghost use Rattle.co_device.specs.Device.{is_in as is_in_state, next_due, after_power, after_instant, after_set};
ghost use Rattle.co_device.specs.Device.{without_power};
ghost use Rattle.co_device.specs.Receiving.{after_frame};
ghost use Rattle.cia301.specs.PdoObjects.{is_of_pdos};

use base::{Octets, Shared, earlier};
use can_frame::{Contender, Frame, Pending, Waiting, device_sender};
use cia301::NmtState;
use co_dict::Dict;
use co_sdo::transfer::{self, Transfer};
use device_objects::{Consumer, Learnt, Shapes, same_consumers};
use device_pdos::{RpdoState, TpdoState, copy_rpdos, copy_tpdos, same_rpdos, same_tpdos};
use image_parts::END;
use pdo_rules::SyncMessage;
use std::alloc::{AllocError, Global};
use std::marker::Model;

/// A device at a moment (CiA 301): its values, its NMT state, what it has open, due and waiting.
///
/// A device that found no memory in a call is spent: `spent` answers true, and each later call that can
/// answer `AllocError` does. All moments are microseconds from the power-on of the network.
#[derive(Drop)]
pub struct Device {
    pub(crate) alloc: Global,
    pub(crate) spent: bool,
    pub(crate) number: u8,
    pub(crate) has_power: bool,
    pub(crate) state: NmtState,
    pub(crate) learnt: Learnt,
    pub(crate) values: Dict,
    pub(crate) consumers: Vec<Consumer>,
    pub(crate) rpdos: Vec<RpdoState>,
    pub(crate) tpdos: Vec<TpdoState>,
    pub(crate) synced: Option<SyncMessage>,
    pub(crate) heartbeat: Option<u64>,
    pub(crate) waiting: Pending,
    pub(crate) transfer: Transfer,
}

impl Model for Device {
    ghost use Rattle.std.specs.Coded.{codes, coded_ℕ, coded_list, coded×};
    ghost use Rattle.std.specs.FinMap as map;
    ghost use Rattle.co_dict.specs.Places.{place_cmp};
    ghost use Rattle.co_device.specs.Device.{Device as State};

    ghost Value = { State };

    ghost coded = { Prim.hlevel (codes, map.code {R = place_cmp} (coded× coded_ℕ coded_ℕ) (coded_list coded_ℕ)) };

    ghost view = { λ d. record {
      spent = d.spent;
      number = d.number;
      has_power = d.has_power;
      state = d.state;
      learnt = d.learnt;
      values = d.values;
      consumers = d.consumers.items;
      rpdos = d.rpdos.items;
      tpdos = d.tpdos.items;
      synced = d.synced;
      heartbeat = d.heartbeat;
      waiting = d.waiting;
      transfer = d.transfer;
    } };
}

impl Device {
    /// A device of this number without power. Takes no memory.
    pub fn new(alloc: Global, number: u8) -> Device
        ensures { result ≡ without_power false number }
    {
        Device {
            alloc,
            spent: false,
            number,
            has_power: false,
            state: NmtState::PreOperational,
            learnt: Learnt::nothing(),
            values: Dict::new(alloc),
            consumers: Vec::new(alloc),
            rpdos: Vec::new(alloc),
            tpdos: Vec::new(alloc),
            synced: None,
            heartbeat: None,
            waiting: Pending::new(alloc),
            transfer: Transfer::Idle,
        }
    }

    /// An equal device. A spent one has none.
    pub fn copy(&self) -> Result<Device, AllocError>
        ensures same { IfOk result (λ device. device ≡ self.now) }
        ensures refused { IsTrue self.now.spent → IsErr result }
    {
        if self.spent {
            return Err(AllocError);
        }
        Ok(Device {
            alloc: self.alloc,
            spent: false,
            number: self.number,
            has_power: self.has_power,
            state: self.state,
            learnt: self.learnt,
            values: self.values.copy()?,
            consumers: Vec::from_slice(self.alloc, &self.consumers)?,
            rpdos: copy_rpdos(self.alloc, &self.rpdos)?,
            tpdos: copy_tpdos(self.alloc, &self.tpdos)?,
            synced: self.synced,
            heartbeat: self.heartbeat,
            waiting: self.waiting.copy()?,
            transfer: transfer::copy(&self.transfer)?,
        })
    }

    /// Whether the other device is the same, but for values, lists and transfer.
    fn is_like(&self, other: &Device) -> bool
        ensures { IsTrue result
            ↔ (record self.now {
              values = other.now.values;
              consumers = other.now.consumers;
              rpdos = other.now.rpdos;
              tpdos = other.now.tpdos;
              waiting = other.now.waiting;
              transfer = other.now.transfer;
            } ≡ other.now) }
    {
        self.spent == other.spent
            && self.number == other.number
            && self.has_power == other.has_power
            && self.state == other.state
            && self.learnt.same(&other.learnt)
            && self.synced == other.synced
            && self.heartbeat == other.heartbeat
    }

    /// Whether the other device is the same, but for values.
    fn is_same_but_values(&self, other: &Device) -> bool
        ensures { IsTrue result ↔ (record self.now { values = other.now.values } ≡ other.now) }
    {
        self.is_like(other)
            && transfer::same(&self.transfer, &other.transfer)
            && same_consumers(&self.consumers, &other.consumers)
            && same_rpdos(&self.rpdos, &other.rpdos)
            && same_tpdos(&self.tpdos, &other.tpdos)
            && self.waiting.same(&other.waiting)
    }

    /// Whether the other device looks the same, by the fingerprints of the values and by all but lists and transfer.
    /// Takes constant time.
    pub fn looks_like(&self, other: &Device) -> bool
        ensures { self.now ≡ other.now → IsTrue result }
    {
        self.values.may_be(&other.values) && self.is_like(other)
    }

    /// Whether the other device may be the same: a quick look ahead of `same`, which leaves the values to their
    /// fingerprints. Hardly ever said of others.
    pub fn may_be(&self, other: &Device) -> bool
        ensures { self.now ≡ other.now → IsTrue result }
    {
        self.values.may_be(&other.values) && self.is_same_but_values(other)
    }

    /// Whether the other device is the same.
    pub fn same(&self, other: &Device) -> bool
        ensures { IsTrue result ↔ (self.now ≡ other.now) }
    {
        self.is_same_but_values(other) && self.values.same(&other.values)
    }

    /// Whether a call before found no memory.
    pub fn spent(&self) -> bool
        ensures { result ≡ self.now.spent }
    {
        self.spent
    }

    /// The number of the device's node.
    pub fn number(&self) -> u8
        ensures { result ≡ self.now.number }
    {
        self.number
    }

    /// The values of its entries.
    pub fn values(&self) -> &Dict
        ensures { result.now ≡ self.now.values }
    {
        &self.values
    }

    /// Whether it has power.
    pub fn has_power(&self) -> bool
        ensures { result ≡ self.now.has_power }
    {
        self.has_power
    }

    /// What it has learnt of its entries.
    pub fn learnt(&self) -> Learnt
        ensures { result ≡ self.now.learnt }
    {
        self.learnt
    }

    /// Its heartbeat consumers, by sub-index.
    pub fn consumers(&self) -> &[Consumer]
        ensures { result.now ≡ self.now.consumers }
    {
        &self.consumers
    }

    /// Its RPDOs, by number.
    pub fn rpdos(&self) -> &[RpdoState]
        ensures { result.now ≡ self.now.rpdos }
    {
        &self.rpdos
    }

    /// Its TPDOs, by number.
    pub fn tpdos(&self) -> &[TpdoState]
        ensures { result.now ≡ self.now.tpdos }
    {
        &self.tpdos
    }

    /// Whether it is in an NMT state.
    pub fn is_in(&self, state: NmtState) -> bool
        ensures { result ≡ is_in_state state self.now }
    {
        self.state == state
    }

    /// The first moment at which it is due, if there is one. Walks its consumers and its TPDOs.
    #[tactic(auto, using(base::proofs::EarliestLemmas::earliest_append, base::proofs::EarliestLemmas::earliest_of), unfolding(crate::specs::Device::next_due))]
    pub fn next_due(&self) -> Option<u64>
        ensures { result ≡ next_due self.now }
    {
        let next = earlier(self.heartbeat, device_objects::next_moment(&self.consumers));
        let operational = self.is_in(NmtState::Operational);
        earlier(next, device_pdos::next_moment(&self.tpdos, operational))
    }

    /// The frame with which it contends for the bus: the first of those waiting that have the least
    /// identifier. Takes constant time.
    pub fn contender(&self) -> Option<Contender>
        ensures { IsWinner (contenders_of (device_sender_of self.now.number, self.now.waiting)) result }
    {
        self.waiting.contender(device_sender(self.number))
    }

    /// Takes the waiting frame at a place for the bus; the others keep their order.
    pub fn send(&mut self, place: usize) -> Waiting
        requires { place < length self.old.waiting }
        ensures frame { slice_get self.old.waiting place ≡ Some result }
        ensures left { self.new ≡ record self.old { waiting = remove self.old.waiting place } }
    {
        self.waiting.take(place)
    }

    /// Switches the power of the device at the moment t. Where it is as it was, nothing changes.
    pub fn power<P: Shapes>(&mut self, on: bool, t: u64, shapes: &mut P) -> Result<(), AllocError>
        requires { t < END }
        ensures ran { OnOk result (GoesBy (after_power on t self.old) self.new P.seen P.asks shapes.old shapes.new) }
        ensures lasts { Lasts (P.seen shapes.old) (P.seen shapes.new) }
        ensures refused { IsTrue self.old.spent → IsErr result }
        ensures spent { OnErr result (IsTrue self.new.spent) }
    {
        if self.spent {
            return Err(AllocError);
        }
        let done = self.switch(on, t, shapes);
        if done.is_err() {
            self.spent = true;
        }
        done
    }

    /// Takes a frame of another node at the moment t.
    pub fn on_frame<P: Shapes>(
        &mut self,
        t: u64,
        frame: &Frame,
        shapes: &mut P,
    ) -> Result<(), AllocError>
        requires { t < END }
        ensures ran { OnOk result (GoesBy (after_frame t frame.now self.old) self.new
            P.seen P.asks shapes.old shapes.new) }
        ensures lasts { Lasts (P.seen shapes.old) (P.seen shapes.new) }
        ensures refused { IsTrue self.old.spent → IsErr result }
        ensures spent { OnErr result (IsTrue self.new.spent) }
    {
        if self.spent {
            return Err(AllocError);
        }
        let done = self.receive(t, frame, shapes);
        if done.is_err() {
            self.spent = true;
        }
        done
    }

    /// The application of the device sets an entry at the moment t, whatever its access and limits; without
    /// power nothing happens. The index isn't one of 1400h to 1BFFh, and the value has at most 512 bytes; one of more
    /// than eight is shared.
    pub fn set(
        &mut self,
        t: u64,
        index: u16,
        sub: u8,
        bytes: &Shared<Octets>,
    ) -> Result<(), AllocError>
        requires soon { t < END }
        requires own { is_of_pdos index ≡ false }
        requires short { length bytes.now ≤ longest_value }
        ensures state { OnOk result (self.new ≡ after_set t (index, sub) bytes.now self.old) }
        ensures refused { IsTrue self.old.spent → IsErr result }
        ensures spent { OnErr result (IsTrue self.new.spent) }
    {
        if self.spent {
            return Err(AllocError);
        }
        let done = self.write_own(t, index, sub, bytes);
        if done.is_err() {
            self.spent = true;
        }
        done
    }

    /// Runs what is due at the moment t: heartbeat consumers by sub-index, the heartbeat, and then the
    /// TPDOs by number.
    pub fn on_instant(&mut self, t: u64) -> Result<(), AllocError>
        requires { t < END }
        ensures state { OnOk result (self.new ≡ after_instant t self.old) }
        ensures refused { IsTrue self.old.spent → IsErr result }
        ensures spent { OnErr result (IsTrue self.new.spent) }
    {
        if self.spent {
            return Err(AllocError);
        }
        let done = self.run(t);
        if done.is_err() {
            self.spent = true;
        }
        done
    }
}
