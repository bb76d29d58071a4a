//! The manager at a moment.

ghost use Rattle.std.specs.Prelude.{◌≡◌, ◌<◌, ◌*◌, ◌^◌, ◌++◌, ◌↔◌, Some, length, remove, slice_get, IfOk};
ghost use Rattle.std.specs.Prelude.{IfSome, OnOk, OnErr, IsErr, IsTrue};
ghost use Rattle.image_parts.specs.Record.{BeginsWith, Lasts};
ghost use Rattle.can_frame.specs.Senders.{manager_sender as manager_sender_of};
ghost use Rattle.can_frame.specs.Winner.{contenders_of, IsWinner};
ghost use Rattle.nmt_boot.specs.TellsBy.{TellsBy};
ghost use Rattle.nmt_boot.specs.Manager as rules;

use crate::periodic::{self, Periodic};
use crate::periodic_message::MESSAGES;
use crate::startup::Startup;
use crate::telling::{send_command, start_own, tell};
use base::earlier;
use can_frame::{
    Contender, Frame, Pending, Purpose, Unwanted, Waiting, identifiers, manager_sender,
};
use co_scenario::NmtCommand;
use image_parts::{END, Roster};
use manager_nodes::{NodeTable, note};
use node_boot::{Boots, Notes};
use std::alloc::{AllocError, Global};
use std::marker::Model;

/// The NMT manager of a network at a moment (CiA 302): the boots of its nodes, when it starts them, what it
/// sends periodically, as its heartbeat and SYNC (CiA 301), and what it has waiting.
///
/// A manager that found no memory in a call is spent: `spent` answers true, and each later call that can
/// answer `AllocError` does. All moments are microseconds from the power-on of the network.
#[derive(Drop)]
pub struct Manager {
    alloc: Global,
    spent: bool,
    number: u8,
    timeout: u64,
    periodic: [Periodic; MESSAGES],
    startup: Startup,
    nodes: NodeTable,
    waiting: Pending,
}

impl Model for Manager {
    ghost use Rattle.std.specs.Prelude.{◌<◌, ◌*◌, ◌^◌};
    ghost use Rattle.nmt_boot.specs.Manager.{Manager as State};

    ghost Value = { State };

    ghost view = { λ m. record {
      spent = m.spent;
      number = m.number;
      timeout = m.timeout;
      periodic = m.periodic;
      startup = m.startup;
      nodes = m.nodes;
      waiting = m.waiting;
    } };

    ghost invariant = { λ m. m.timeout < 1000 * 2 ^ 16 };
}

/// Whether these are the bytes of a boot-up message.
#[tactic(auto, unfolding(crate::specs::Manager::has_boot_up_byte))]
fn has_boot_up_byte(bytes: &[u8]) -> bool
    ensures { result ≡ rules.has_boot_up_byte bytes.now }
{
    bytes.len() == 1 && bytes[0] == 0
}

/// A time in microseconds, from one in milliseconds.
fn microseconds(milliseconds: u16) -> u64
    ensures time { result ≡ 1000 * milliseconds }
    ensures short { result < 1000 * 2 ^ 16 }
{
    1000 * u64::from(milliseconds)
}

/// What waits as the power comes on: the manager's own boot-up message, where it runs in no node.
fn first_waiting(alloc: Global, roster: &Roster) -> Result<Pending, AllocError>
    ensures { IfOk result (λ waiting. waiting ≡ rules.first_waiting roster.now) }
{
    let mut waiting = Pending::new(alloc);
    if !roster.has_controller() {
        let boot_up = Frame::of(identifiers::error_control(roster.manager), &[0]);
        waiting.add(Purpose::BootUp, boot_up)?;
    }
    Ok(waiting)
}

impl Manager {
    /// A manager of no network. Takes no memory.
    pub fn new(alloc: Global) -> Manager
        ensures { result ≡ rules.blank }
    {
        Manager {
            alloc,
            spent: false,
            number: 0,
            timeout: 0,
            periodic: periodic::none(),
            startup: Startup::none(),
            nodes: NodeTable::none(),
            waiting: Pending::new(alloc),
        }
    }

    /// The manager of a network as the power comes on, at time 0. Takes time by the number of nodes.
    #[tactic(auto, unfolding(crate::specs::Manager::manager_at_power_on))]
    pub fn powered_on(alloc: Global, roster: &Roster) -> Result<Manager, AllocError>
        ensures { IfOk result (λ manager. manager ≡ rules.manager_at_power_on roster.now) }
    {
        let startup = Startup::of(alloc, roster)?;
        let nodes = NodeTable::of(alloc, roster.manager, roster.nodes.as_slice())?;
        let waiting = first_waiting(alloc, roster)?;
        Ok(Manager {
            alloc,
            spent: false,
            number: roster.manager,
            timeout: microseconds(roster.timeout_ms),
            periodic: periodic::powered_on(roster),
            startup,
            nodes,
            waiting,
        })
    }

    /// An equal manager. A spent one answers `AllocError`.
    pub fn copy(&self) -> Result<Manager, AllocError>
        ensures copied { IfOk result (λ manager. manager ≡ self.now) }
        ensures refused { IsTrue self.now.spent → IsErr result }
    {
        if self.spent {
            return Err(AllocError);
        }
        let startup = self.startup.copy()?;
        let nodes = self.nodes.copy()?;
        let waiting = self.waiting.copy()?;
        Ok(Manager {
            alloc: self.alloc,
            spent: false,
            number: self.number,
            timeout: self.timeout,
            periodic: self.periodic,
            startup,
            nodes,
            waiting,
        })
    }

    /// Whether two managers are equal.
    pub fn same(&self, other: &Manager) -> bool
        ensures { IsTrue result ↔ (self.now ≡ other.now) }
    {
        self.spent == other.spent
            && self.number == other.number
            && self.timeout == other.timeout
            && periodic::same(&self.periodic, &other.periodic)
            && self.startup.same(&other.startup)
            && self.nodes.same(&other.nodes)
            && self.waiting.same(&other.waiting)
    }

    /// The first moment at which a request times out, or a periodic message is due. Takes constant time; by
    /// the number of nodes where the manager is spent.
    #[tactic(auto, using(crate::proofs::MomentLemmas::next_due_is))]
    pub fn next_due(&self) -> Option<u64>
        ensures { result ≡ rules.next_due self.now }
    {
        earlier(
            periodic::first_due(&self.periodic),
            self.nodes.first_deadline(),
        )
    }

    /// Whether a call before found no memory.
    pub fn spent(&self) -> bool
        ensures { result ≡ self.now.spent }
    {
        self.spent
    }

    /// The number of the manager's node.
    pub fn number(&self) -> u8
        ensures { result ≡ self.now.number }
    {
        self.number
    }

    /// The frame with which it contends for the bus: the first of those waiting that have the least
    /// identifier. Takes constant time.
    pub fn contender(&self) -> Option<Contender>
        ensures { IsWinner (contenders_of (manager_sender_of self.now.number, self.now.waiting)) result }
    {
        self.waiting.contender(manager_sender(self.number))
    }

    /// Takes the waiting frame at a place for the bus; the others keep their order.
    pub fn send(&mut self, place: usize) -> Waiting
        requires { place < length self.old.waiting }
        ensures frame { slice_get self.old.waiting place ≡ Some result }
        ensures left { self.new ≡ record self.old { waiting = remove self.old.waiting place } }
    {
        self.waiting.take(place)
    }

    /// The longest wait for an SDO answer, in microseconds.
    fn timeout(&self) -> u64
        ensures timeout { result ≡ self.now.timeout }
        ensures short { result < 1000 * 2 ^ 16 }
    {
        self.timeout
    }

    /// The boot of a node of the table begins anew.
    fn boot_at<P: Boots>(
        &mut self,
        t: u64,
        i: usize,
        boots: &mut P,
        notes: &mut Notes,
    ) -> Result<(), AllocError>
        requires soon { t < END }
        requires within { i < length self.now.nodes }
        ensures ran { OnOk result (TellsBy (rules.after_boot_at t i self.old) self.new
            P.seen P.asks boots.old boots.new notes.old notes.new) }
        ensures notes_before { BeginsWith notes.new notes.old }
        ensures lasts { Lasts (P.seen boots.old) (P.seen boots.new) }
    {
        let deadline = t + self.timeout();
        let number = self.nodes.number_at(i);
        note(notes, number, self.nodes.lost_at(i))?;
        self.waiting.drop_of(Unwanted::SdoOf(number));
        let sent = self.nodes.boot_at(self.alloc, i, deadline, boots)?;
        tell(
            &mut self.waiting,
            &mut self.startup,
            &self.nodes,
            notes,
            number,
            sent,
        )?;
        Ok(())
    }

    /// An SDO answer of a node of the table comes.
    fn answer_at<P: Boots>(
        &mut self,
        t: u64,
        answer: &[u8; 8],
        i: usize,
        boots: &mut P,
        notes: &mut Notes,
    ) -> Result<(), AllocError>
        requires soon { t < END }
        requires within { i < length self.now.nodes }
        ensures ran { OnOk result (TellsBy (rules.after_answer_at t answer.now i self.old) self.new
            P.seen P.asks boots.old boots.new notes.old notes.new) }
        ensures notes_before { BeginsWith notes.new notes.old }
        ensures lasts { Lasts (P.seen boots.old) (P.seen boots.new) }
    {
        let deadline = t + self.timeout();
        let number = self.nodes.number_at(i);
        let sent = self
            .nodes
            .answer_at(self.alloc, i, deadline, answer, boots)?;
        tell(
            &mut self.waiting,
            &mut self.startup,
            &self.nodes,
            notes,
            number,
            sent,
        )?;
        Ok(())
    }

    /// The manager's own node has booted up.
    #[tactic(auto, unfolding(crate::specs::Manager::after_own_boot_up))]
    fn start_own(&mut self, i: usize) -> Result<(), AllocError>
        requires { i < length self.now.nodes }
        ensures { OnOk result (self.new ≡ rules.after_own_boot_up i self.old) }
    {
        let number = self.nodes.number_at(i);
        start_own(&mut self.waiting, &self.startup, number)
    }

    /// The boot-up of the node at a place of the table, if there is one.
    #[tactic(auto, unfolding(crate::specs::Manager::after_boot_up))]
    fn take_boot_up<P: Boots>(
        &mut self,
        t: u64,
        place: Option<usize>,
        boots: &mut P,
        notes: &mut Notes,
    ) -> Result<(), AllocError>
        requires soon { t < END }
        requires within { IfSome place (λ i. i < length self.now.nodes) }
        ensures ran { OnOk result (TellsBy (rules.after_boot_up t place self.old) self.new
            P.seen P.asks boots.old boots.new notes.old notes.new) }
        ensures notes_before { BeginsWith notes.new notes.old }
        ensures lasts { Lasts (P.seen boots.old) (P.seen boots.new) }
    {
        match place {
            None => Ok(()),
            Some(i) if self.nodes.is_own(i) => self.start_own(i),
            Some(i) => self.boot_at(t, i, boots, notes),
        }
    }

    /// The SDO answer of the node at a place of the table, if there is one.
    #[tactic(auto, unfolding(crate::specs::Manager::after_sdo_frame))]
    fn take_answer<P: Boots>(
        &mut self,
        t: u64,
        answer: &[u8; 8],
        place: Option<usize>,
        boots: &mut P,
        notes: &mut Notes,
    ) -> Result<(), AllocError>
        requires soon { t < END }
        requires within { IfSome place (λ i. i < length self.now.nodes) }
        ensures ran { OnOk result (TellsBy (rules.after_sdo_frame t answer.now place self.old) self.new
            P.seen P.asks boots.old boots.new notes.old notes.new) }
        ensures notes_before { BeginsWith notes.new notes.old }
        ensures lasts { Lasts (P.seen boots.old) (P.seen boots.new) }
    {
        match place {
            None => Ok(()),
            Some(i) => self.answer_at(t, answer, i, boots, notes),
        }
    }

    /// A frame comes, where there was memory before.
    #[tactic(auto, unfolding(crate::specs::Manager::after_frame))]
    fn receive<P: Boots>(
        &mut self,
        t: u64,
        frame: &Frame,
        boots: &mut P,
        notes: &mut Notes,
    ) -> Result<(), AllocError>
        requires soon { t < END }
        ensures ran { OnOk result (TellsBy (rules.after_frame t frame.now self.old) self.new
            P.seen P.asks boots.old boots.new notes.old notes.new) }
        ensures notes_before { BeginsWith notes.new notes.old }
        ensures lasts { Lasts (P.seen boots.old) (P.seen boots.new) }
    {
        let bytes = frame.bytes();
        if has_boot_up_byte(bytes) {
            let base = identifiers::error_control(0);
            let place = self.nodes.place_of(base, frame.id());
            return self.take_boot_up(t, place, boots, notes);
        }
        if bytes.len() == 8 {
            let base = identifiers::sdo_answer(0);
            let place = self.nodes.place_of(base, frame.id());
            return self.take_answer(t, &frame.eight(), place, boots, notes);
        }
        Ok(())
    }

    /// The requests that time out at the moment t.
    #[tactic(auto, unfolding(crate::specs::Manager::time_outs))]
    fn time_out(&mut self, t: u64, notes: &mut Notes) -> Result<(), AllocError>
        ensures state { OnOk result (self.new ≡ (rules.time_outs t self.old).0) }
        ensures notes { OnOk result (notes.new ≡ notes.old ++ (rules.time_outs t self.old).1) }
        ensures notes_before { BeginsWith notes.new notes.old }
    {
        self.nodes
            .time_outs(self.alloc, t, &mut self.waiting, notes)
    }

    /// Runs what is due, where there was memory before.
    #[tactic(auto, unfolding(crate::specs::Manager::timers))]
    fn run_timers(&mut self, t: u64, notes: &mut Notes) -> Result<(), AllocError>
        requires { t < END }
        ensures state { OnOk result (self.new ≡ (rules.timers t self.old).0) }
        ensures notes { OnOk result (notes.new ≡ notes.old ++ (rules.timers t self.old).1) }
        ensures notes_before { BeginsWith notes.new notes.old }
    {
        self.time_out(t, notes)?;
        periodic::send_due(&mut self.periodic, t, self.number, &mut self.waiting)
    }

    /// Takes a frame of a node at the moment t, and notes what that brings about. Takes time by the number
    /// of nodes; where it leaves a node configured and the network is started as a whole, by that number times
    /// the number of mandatory nodes.
    pub fn on_frame<P: Boots>(
        &mut self,
        t: u64,
        frame: &Frame,
        boots: &mut P,
        notes: &mut Notes,
    ) -> Result<(), AllocError>
        requires { t < END }
        ensures ran { OnOk result (TellsBy (rules.after_frame t frame.now self.old) self.new
            P.seen P.asks boots.old boots.new notes.old notes.new) }
        ensures notes_before { BeginsWith notes.new notes.old }
        ensures lasts { Lasts (P.seen boots.old) (P.seen boots.new) }
        ensures refused { IsTrue self.old.spent → IsErr result }
        ensures spent { OnErr result (IsTrue self.new.spent) }
    {
        if self.spent {
            return Err(AllocError);
        }
        let done = self.receive(t, frame, boots, notes);
        if done.is_err() {
            self.spent = true;
        }
        done
    }

    /// Runs what is due at the moment t, and notes it. Takes time by the number of nodes where a request times
    /// out, and by the number of frames that wait where a periodic message is due.
    pub fn on_instant(&mut self, t: u64, notes: &mut Notes) -> Result<(), AllocError>
        requires { t < END }
        ensures state { OnOk result (self.new ≡ (rules.timers t self.old).0) }
        ensures notes { OnOk result (notes.new ≡ notes.old ++ (rules.timers t self.old).1) }
        ensures notes_before { BeginsWith notes.new notes.old }
        ensures refused { IsTrue self.old.spent → IsErr result }
        ensures spent { OnErr result (IsTrue self.new.spent) }
    {
        if self.spent {
            return Err(AllocError);
        }
        let done = self.run_timers(t, notes);
        if done.is_err() {
            self.spent = true;
        }
        done
    }

    /// Queues a command of the network management (CiA 301) to a node, 0 for all nodes, behind the frames
    /// that wait.
    pub fn command(&mut self, command: NmtCommand, node: u8) -> Result<(), AllocError>
        ensures state { OnOk result (self.new ≡ rules.with_command command node self.old) }
        ensures refused { IsTrue self.old.spent → IsErr result }
        ensures spent { OnErr result (IsTrue self.new.spent) }
    {
        if self.spent {
            return Err(AllocError);
        }
        let done = send_command(&mut self.waiting, command, node);
        if done.is_err() {
            self.spent = true;
        }
        done
    }
}
