//! The bus at a moment.

ghost use Rattle.std.specs.Prelude.{◌≡◌, ◌<◌, ◌≤◌, ◌+◌, ◌*◌, ◌++◌, ◌↔◌, IfOk, OnOk, OnErr, IsErr, IsTrue};
ghost use Rattle.std.specs.Prelude.{option_copied};
ghost use Rattle.image_parts.specs.Asking.{outcome};
ghost use Rattle.image_parts.specs.Record.{BeginsWith, GoesBy, IsAsked, Lasts};
ghost use Rattle.bus_devices.specs.Numbers.{values_of};
ghost use Rattle.can_bus.specs.Bus.{blank_bus, ended_slot, from_delivery_on, instant, open_slot, power_on, power_on_of};
ghost use Rattle.can_bus.specs.Bus.{after_arbitration};
ghost use Rattle.can_bus.specs.Dues.{next_due};
ghost use Rattle.can_bus.specs.Telling.{TellsApart};
ghost use Rattle.can_frame.specs.Slots.{bits_of_slot as bits_of};
ghost use Rattle.image_parts.specs.Contents.{first_roster as roster_of_first};

use crate::arbitration::{send, winner};
use crate::due_moments::{before_end, sooner};
use crate::lines::Lines;
use crate::nodes::run_nodes;
use crate::parts::Parts;
use crate::slot::Slot;
use crate::steps_left::StepsLeft;
use crate::telling::tell;
use crate::windows::{begin_window, run_due};
use base::Octets;
use bus_devices::{Apart, Devices, new_devices, power_all};
use can_frame::{Frame, SlotRule, bit_time, bits_of_slot};
use co_dict::Dict;
use image_parts::{END, Roster, StartMode};
use nmt_boot::Manager;
use node_boot::Notes;
use std::alloc::{AllocError, Global};
use std::marker::Model;

/// A CAN bus at a moment: its devices, its manager, the frame on the wire, and the events of the window that
/// have not run.
///
/// A bus that found no memory in a call is spent: `spent` answers true, and each later call that can
/// answer `AllocError` does. All moments are microseconds from the power-on of the network.
#[derive(Drop)]
pub struct BusState {
    pub(crate) alloc: Global,
    pub(crate) spent: bool,
    pub(crate) bit_time: u32,
    pub(crate) slots: SlotRule,
    pub(crate) devices: Devices,
    pub(crate) manager: Manager,
    pub(crate) wire: Option<Slot>,
    pub(crate) window: u64,
    pub(crate) steps: StepsLeft,
}

impl Model for BusState {
    ghost use Rattle.std.specs.Coded.{codes, coded_ℕ, coded_list, coded×};
    ghost use Rattle.std.specs.FinMap as map;
    ghost use Rattle.co_dict.specs.Places.{place_cmp};
    ghost use Rattle.can_bus.specs.Bus.{Bus};

    ghost Value = { Bus };

    ghost coded = { Prim.hlevel (codes, map.code {R = place_cmp} (coded× coded_ℕ coded_ℕ) (coded_list coded_ℕ)) };

    ghost view = { λ bus. record {
      spent = bus.spent;
      bit_time = bus.bit_time;
      slots = bus.slots;
      devices = bus.devices;
      manager = bus.manager;
      wire = bus.wire;
      window = bus.window;
      steps = bus.steps;
    } };
}

/// The network of the first project: its manager alone.
fn first_roster(alloc: Global) -> Roster
    ensures { result ≡ roster_of_first }
{
    Roster {
        bit_rate: 1000,
        slots: SlotRule::Unstuffed,
        manager: 127,
        sync_us: 0,
        sync_counter: 0,
        time_us: 0,
        first_day: 0,
        heartbeat_ms: 0,
        timeout_ms: 500,
        start_mode: StartMode::EachNode,
        mandatory: Octets::from_vec(Vec::new(alloc)),
        nodes: Octets::from_vec(Vec::new(alloc)),
    }
}

/// The bus of this network as the power comes on.
#[tactic(auto, using(crate::proofs::PowerLemmas::power_on_laws))]
fn power_on_of<P: Parts>(
    alloc: Global,
    roster: &Roster,
    parts: &mut P,
) -> Result<BusState, AllocError>
    requires { 1 ≤ roster.now.bit_rate }
    ensures ran { IfOk result (λ bus. GoesBy (power_on_of roster.now) bus P.seen P.asks parts.old parts.new) }
    ensures lasts { Lasts (P.seen parts.old) (P.seen parts.new) }
{
    let mut devices = new_devices(alloc, roster.nodes.as_slice())?;
    power_all(devices.as_mut_slice(), parts)?;
    let manager = Manager::powered_on(alloc, roster)?;
    Ok(BusState {
        alloc,
        spent: false,
        bit_time: bit_time(roster.bit_rate),
        slots: roster.slots,
        devices: Devices::of(alloc, devices),
        manager,
        wire: None,
        window: 0,
        steps: StepsLeft::none(),
    })
}

/// Takes the slot that ends at the moment t off the wire.
fn take_ended(wire: &mut Option<Slot>, t: u64) -> Option<Slot>
    ensures ended { result ≡ ended_slot t wire.old }
    ensures wire { wire.new ≡ open_slot t wire.old }
{
    match *wire {
        Some(slot) if slot.end == t => {
            *wire = None;
            Some(slot)
        }
        _ => None,
    }
}

/// Whether the same is on two wires.
fn same_wire(wire: &Option<Slot>, other: &Option<Slot>) -> bool
    ensures { IsTrue result ↔ (wire.now ≡ other.now) }
{
    match (wire, other) {
        (None, None) => true,
        (Some(slot), Some(other)) => slot.same(other),
        _ => false,
    }
}

/// The end of a slot that starts at the moment t.
fn slot_end(t: u64, rule: SlotRule, bit_time: u32, frame: &Frame) -> u64
    requires { t < END }
    ensures { result ≡ t + bits_of rule frame.now * bit_time }
{
    t + u64::from(bits_of_slot(rule, frame)) * u64::from(bit_time)
}

/// Starts the slot of the winner at the moment t, where the wire is idle and a frame waits.
#[tactic(auto, unfolding(crate::specs::Bus::after_arbitration))]
fn start_slot(bus: &mut BusState, t: u64) -> Result<(), AllocError>
    requires { t < END }
    ensures { OnOk result (bus.new ≡ after_arbitration t bus.old) }
{
    if bus.wire.is_some() {
        return Ok(());
    }
    let best = winner(&bus.devices, &bus.manager);
    if let Some(contender) = best {
        let frame = send(&contender, &mut bus.devices, &mut bus.manager)?;
        bus.wire = Some(Slot {
            end: slot_end(t, bus.slots, bus.bit_time, &frame),
            sender: contender.sender,
            frame,
        });
    }
    Ok(())
}

/// The instant from the delivery on.
#[tactic(auto, using(crate::proofs::InstantLemmas::delivery_laws))]
fn run_from_delivery<P: Parts>(
    bus: &mut BusState,
    t: u64,
    parts: &mut P,
    lines: &mut Lines,
) -> Result<(), AllocError>
    requires { t < END }
    ensures state { OnOk result (bus.new ≡ (outcome (from_delivery_on t bus.old) (P.seen parts.old).image).0) }
    ensures told { OnOk result (lines.new ≡ lines.old
        ++ (outcome (from_delivery_on t bus.old) (P.seen parts.old).image).1) }
    ensures lines_before { BeginsWith lines.new lines.old }
    ensures asked { OnOk result (IsAsked (from_delivery_on t bus.old)
        (P.seen parts.old) (P.seen parts.new) (P.asks parts.old) (P.asks parts.new)) }
    ensures lasts { Lasts (P.seen parts.old) (P.seen parts.new) }
{
    let ended = take_ended(&mut bus.wire, t);
    let mut notes = Notes::new(bus.alloc);
    run_nodes(
        &mut bus.devices,
        &mut bus.manager,
        t,
        &ended,
        parts,
        &mut notes,
    )?;
    tell(lines, t as u32, &ended, notes.as_slice())?;
    start_slot(bus, t)?;
    Ok(())
}

/// One instant.
#[tactic(auto, using(crate::proofs::InstantLemmas::outcome_instant))]
fn run_instant<P: Parts>(
    bus: &mut BusState,
    t: u64,
    parts: &mut P,
    lines: &mut Lines,
) -> Result<(), AllocError>
    requires { t < END }
    ensures state { OnOk result (bus.new ≡ (outcome (instant t bus.old) (P.seen parts.old).image).0) }
    ensures told { OnOk result (lines.new ≡ lines.old ++ (outcome (instant t bus.old) (P.seen parts.old).image).1) }
    ensures lines_before { BeginsWith lines.new lines.old }
    ensures asked { OnOk result (IsAsked (instant t bus.old)
        (P.seen parts.old) (P.seen parts.new) (P.asks parts.old) (P.asks parts.new)) }
    ensures lasts { Lasts (P.seen parts.old) (P.seen parts.new) }
{
    begin_window(bus, t, parts)?;
    run_due(bus, t, parts)?;
    run_from_delivery(bus, t, parts, lines)
}

impl BusState {
    /// A bus without devices. Takes no memory.
    pub fn new(alloc: Global) -> BusState
        ensures { result ≡ blank_bus }
    {
        BusState {
            alloc,
            spent: false,
            bit_time: 1,
            slots: SlotRule::Unstuffed,
            devices: Devices::none(alloc),
            manager: Manager::new(alloc),
            wire: None,
            window: 0,
            steps: StepsLeft::none(),
        }
    }

    /// The bus of a network as the power comes on, at time 0. Takes time by the number of nodes.
    #[tactic(auto, unfolding(crate::specs::Bus::power_on))]
    pub fn power_on<P: Parts>(alloc: Global, parts: &mut P) -> Result<BusState, AllocError>
        ensures ran { IfOk result (λ bus. GoesBy power_on bus P.seen P.asks parts.old parts.new) }
        ensures lasts { Lasts (P.seen parts.old) (P.seen parts.new) }
    {
        let roster = parts.roster()?;
        match roster {
            None => {
                let first = first_roster(alloc);
                power_on_of(alloc, &first, parts)
            }
            Some(roster) => power_on_of(alloc, &roster, parts),
        }
    }

    /// An equal bus. A spent one has none.
    pub fn copy(&self) -> Result<BusState, AllocError>
        ensures same { IfOk result (λ bus. bus ≡ self.now) }
        ensures refused { IsTrue self.now.spent → IsErr result }
    {
        if self.spent {
            return Err(AllocError);
        }
        let devices = self.devices.copy()?;
        let manager = self.manager.copy()?;
        let steps = self.steps.copy()?;
        Ok(BusState {
            alloc: self.alloc,
            spent: false,
            bit_time: self.bit_time,
            slots: self.slots,
            devices,
            manager,
            wire: self.wire,
            window: self.window,
            steps,
        })
    }

    /// Lets go of what is known of its devices beside them, and of its memory: it is the same bus.
    pub fn forget_known(&mut self)
        ensures { self.new ≡ self.old }
    {
        self.devices.forget_known();
    }

    /// Whether the other bus is the same but for its devices.
    fn is_like(&self, other: &BusState) -> bool
        ensures { IsTrue result ↔ (record self.now { devices = other.now.devices } ≡ other.now) }
    {
        if self.spent != other.spent {
            return false;
        }
        if self.bit_time != other.bit_time {
            return false;
        }
        if self.slots != other.slots {
            return false;
        }
        if !same_wire(&self.wire, &other.wire) {
            return false;
        }
        if self.window != other.window {
            return false;
        }
        if !self.steps.same(&other.steps) {
            return false;
        }
        self.manager.same(&other.manager)
    }

    /// Whether the other bus is the same.
    pub fn same(&self, other: &BusState) -> bool
        ensures { IsTrue result ↔ (self.now ≡ other.now) }
    {
        self.is_like(other) && self.devices.same(&other.devices)
    }

    /// Whether a quick look at the device of a place tells it from another bus. Takes the time of one such look.
    pub fn differs_at(&self, other: &BusState, place: usize) -> bool
        ensures { IsTrue result → self.now ≡ other.now → ⊥ }
    {
        self.devices.differ_at(&other.devices, place)
    }

    /// What tells it from another bus: of one that is the same but for its devices a place at which `differs_at`
    /// does, if there is one. Takes time as `same` does, and no memory.
    pub fn tell_apart(&self, other: &BusState) -> Apart
        ensures { TellsApart result self.now other.now }
    {
        if self.is_like(other) {
            self.devices.tell_apart(&other.devices)
        } else {
            Apart::Elsewhere
        }
    }

    /// Whether a call before found no memory.
    pub fn spent(&self) -> bool
        ensures { result ≡ self.now.spent }
    {
        self.spent
    }

    /// The values that the device of a node holds, if the node has one: the first of its number. Takes time by
    /// the number of nodes, and no memory.
    pub fn values(&self, node: u8) -> Option<&Dict>
        ensures { option_copied result ≡ values_of node self.now.devices }
    {
        self.devices.values(node)
    }

    /// The least moment at which something is due: a timer of a device or of the manager, the end of the
    /// frame on the wire, an event, or the start of the next window. An instant before it changes nothing
    /// once another has run. Takes constant time once an instant has run, and no memory.
    #[tactic(auto, using(crate::proofs::LeastLemmas::next_due_is))]
    pub fn next_due(&self) -> u64
        ensures { result ≡ next_due self.now }
    {
        let first = sooner(self.window, self.steps.first());
        let first = before_end(first, &self.wire);
        let first = sooner(first, self.manager.next_due());
        sooner(first, self.devices.next_due())
    }

    /// The instant at the moment t, which is below `END`: adds what it tells to the lines. Takes time by an eighth
    /// of all devices, by those that are due, and by the consumers or RPDOs of those of whose groups the frame is
    /// that is delivered; constant time where no device is due, the frame is of a group of none, and none sends; and
    /// time by all devices where events run, and in the first instant of a bus that was switched on, whose events
    /// have run, or that let go of what it knew, or of a copy of such a bus. That one takes memory for what is known
    /// of each eight devices; else one in which nothing is due and no window starts takes none.
    /// Want of memory may leave lines added, and reads noted: what stood there before comes first, unchanged.
    pub fn instant<P: Parts>(
        &mut self,
        t: u64,
        parts: &mut P,
        lines: &mut Lines,
    ) -> Result<(), AllocError>
        requires { t < END }
        ensures state { OnOk result (self.new ≡ (outcome (instant t self.old) (P.seen parts.old).image).0) }
        ensures told { OnOk result (lines.new ≡ lines.old
            ++ (outcome (instant t self.old) (P.seen parts.old).image).1) }
        ensures lines_before { BeginsWith lines.new lines.old }
        ensures asked { OnOk result (IsAsked (instant t self.old)
            (P.seen parts.old) (P.seen parts.new) (P.asks parts.old) (P.asks parts.new)) }
        ensures lasts { Lasts (P.seen parts.old) (P.seen parts.new) }
        ensures refused { IsTrue self.old.spent → IsErr result }
        ensures spent { OnErr result (IsTrue self.new.spent) }
    {
        if self.spent {
            return Err(AllocError);
        }
        let done = run_instant(self, t, parts, lines);
        if done.is_err() {
            self.spent = true;
        }
        done
    }
}
