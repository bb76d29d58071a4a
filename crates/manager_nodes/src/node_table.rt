//! The table of the manager's nodes.

ghost use Rattle.std.specs.Prelude.{◌≡◌, ◌≤◌, ◌<◌, ◌++◌, ◌↔◌, [], length, map, IfOk, IfSome, IsTrue, OnOk};
ghost use Rattle.image_parts.specs.Asking.{outcome};
ghost use Rattle.image_parts.specs.Record.{BeginsWith, IsAsked, Lasts};
ghost use Rattle.base.specs.Moments.{earliest};
ghost use Rattle.node_boot.specs.Boot.{boot_nmt_slave, sdo_answer};
ghost use Rattle.manager_nodes.specs.Table.{all_configured, is_configured as has_node_configured};
ghost use Rattle.manager_nodes.specs.Table.{deadlines, note_of_loss, note_of_time_out, node_after, node_at};
ghost use Rattle.manager_nodes.specs.Table.{first_node, is_own as is_managers_own, place_of as is_place_of, queue_after_time_outs, timed_out};
ghost use Rattle.manager_nodes.specs.Table.{with_stage};
ghost use Rattle.manager_nodes.specs.Sending.{sending_of};

use crate::booting::Booting;
use crate::sent::Sent;
use crate::shared_nodes::SharedNodes;
use base::earlier;
use can_frame::Pending;
use node_boot::{BootStage, Boots, NoteKind, Notes, deadline_of, is_timed_out};
use std::alloc::{AllocError, Global};
use std::marker::Model;

/// The nodes of a manager with their boots, by number.
///
/// Copies share them. The first of their deadlines is kept, so that asking for it takes constant time. It is
/// not known where a call found no memory; then it is looked for anew.
#[derive(Drop)]
pub struct NodeTable {
    nodes: SharedNodes,
    known: bool,
    deadline: Option<u64>,
}

impl Model for NodeTable {
    ghost use Rattle.std.specs.Prelude.{◌≡◌, List, IsTrue};
    ghost use Rattle.base.specs.Moments.{earliest};
    ghost use Rattle.manager_nodes.specs.Table.{deadlines};
    ghost use Rattle.manager_nodes.specs.declared.booting.Booting.{Booting};

    ghost Value = { List Booting };

    ghost view = { λ table. table.nodes };

    ghost invariant = { λ table. IsTrue table.known → table.deadline ≡ earliest (deadlines table.nodes) };
}

/// A node at first: that of the manager's number is the manager's own.
fn first_of_number(manager: u8, number: u8) -> Booting
    ensures { result ≡ first_node manager number }
{
    let stage = if number == manager {
        BootStage::Own
    } else {
        BootStage::Unseen
    };
    Booting { number, stage }
}

/// Nodes at first, of which no boot-up came yet.
fn first_nodes(alloc: Global, manager: u8, numbers: &[u8]) -> Result<Vec<Booting>, AllocError>
    ensures { IfOk result (λ nodes. nodes.items ≡ map (first_node manager) numbers.now) }
{
    let mut nodes = Vec::new(alloc);
    for number in numbers {
        nodes.push(first_of_number(manager, *number))?;
    }
    Ok(nodes)
}

/// Whether two lists of nodes are the same.
fn same_nodes(nodes: &[Booting], others: &[Booting]) -> bool
    ensures { IsTrue result ↔ (nodes.now ≡ others.now) }
{
    if nodes.len() != others.len() {
        return false;
    }
    for place in 0..nodes.len() {
        if !nodes[place].same(&others[place]) {
            return false;
        }
    }
    true
}

/// The place of the node whose frames have this identifier: its number above a base.
#[tactic(auto, unfolding(crate::specs::Table::place_of))]
fn place_in(nodes: &[Booting], base: u16, id: u16) -> Option<usize>
    requires { base ≤ 0x700 }
    ensures place { result ≡ is_place_of base id nodes.now }
    ensures within { IfSome result (λ i. i < length nodes.now) }
{
    nodes
        .iter()
        .position(|node| base + u16::from(node.number) == id)
}

/// Whether the node of this number is configured.
#[tactic(auto, unfolding(crate::specs::Table::is_configured))]
fn is_configured(nodes: &[Booting], number: u8) -> bool
    ensures { result ≡ has_node_configured nodes.now number }
{
    nodes
        .iter()
        .any(|node| node.number == number && node.has_booted())
}

/// Whether each node with one of these numbers is configured.
#[tactic(auto, unfolding(crate::specs::Table::all_configured))]
fn each_configured(nodes: &[Booting], numbers: &[u8]) -> bool
    ensures { result ≡ all_configured nodes.now numbers.now }
{
    numbers.iter().all(|number| is_configured(nodes, *number))
}

/// The time-outs of the moment t: of each node that is timed out, in turn.
fn time_out_each(
    t: u64,
    nodes: &mut [Booting],
    waiting: &mut Pending,
    notes: &mut Notes,
) -> Result<(), AllocError>
    ensures state { OnOk result (nodes.new ≡ map (node_after t) nodes.old) }
    ensures queued { OnOk result (waiting.new ≡ queue_after_time_outs (timed_out t nodes.old) waiting.old) }
    ensures notes { OnOk result (notes.new ≡ notes.old ++ map note_of_time_out (timed_out t nodes.old)) }
    ensures notes_before { BeginsWith notes.new notes.old }
{
    for node in nodes.iter_mut() {
        if is_timed_out(t, &node.stage) {
            node.time_out(waiting, notes)?;
        }
    }
    Ok(())
}

/// The first of the deadlines of the nodes. Walks them.
fn first_of(nodes: &[Booting]) -> Option<u64>
    ensures { result ≡ earliest (deadlines nodes.now) }
{
    let mut first = None;
    for node in nodes {
        first = earlier(first, deadline_of(&node.stage));
    }
    first
}

/// Whether a moment lies after t; it does where there is none.
fn lies_after(t: u64, moment: Option<u64>) -> bool
    ensures { IsTrue result ↔ IfSome moment (λ at. t < at) }
{
    match moment {
        None => true,
        Some(at) => t < at,
    }
}

impl NodeTable {
    /// No nodes. Takes no memory.
    #[tactic(auto, unfolding(crate::specs::Table::deadlines))]
    pub fn none() -> NodeTable
        ensures { result ≡ [] }
    {
        NodeTable {
            nodes: SharedNodes::none(),
            known: true,
            deadline: None,
        }
    }

    /// The nodes of a network at first, of which no boot-up came yet: that of the manager's number is its own.
    pub fn of(alloc: Global, manager: u8, numbers: &[u8]) -> Result<NodeTable, AllocError>
        ensures { IfOk result (λ table. table ≡ map (first_node manager) numbers.now) }
    {
        let nodes = first_nodes(alloc, manager, numbers)?;
        let deadline = first_of(&nodes);
        let nodes = SharedNodes::of(alloc, nodes)?;
        Ok(NodeTable {
            nodes,
            known: true,
            deadline,
        })
    }

    /// An equal table. Takes no memory.
    pub fn copy(&self) -> Result<NodeTable, AllocError>
        ensures { IfOk result (λ table. table ≡ self.now) }
    {
        let nodes = self.nodes.copy()?;
        Ok(NodeTable {
            nodes,
            known: self.known,
            deadline: self.deadline,
        })
    }

    /// The nodes with their boots, by number.
    pub fn as_slice(&self) -> &[Booting]
        ensures { result.now ≡ self.now }
    {
        self.nodes.as_slice()
    }

    /// Whether two tables are the same.
    pub fn same(&self, other: &NodeTable) -> bool
        ensures { IsTrue result ↔ (self.now ≡ other.now) }
    {
        same_nodes(self.nodes.as_slice(), other.nodes.as_slice())
    }

    /// The place of the node whose frames have this identifier: its number above a base. Walks the nodes.
    pub fn place_of(&self, base: u16, id: u16) -> Option<usize>
        requires { base ≤ 0x700 }
        ensures place { result ≡ is_place_of base id self.now }
        ensures within { IfSome result (λ i. i < length self.now) }
    {
        place_in(self.nodes.as_slice(), base, id)
    }

    /// The number of a node of the table.
    pub fn number_at(&self, i: usize) -> u8
        requires { i < length self.now }
        ensures { result ≡ (node_at self.now i).number }
    {
        self.nodes.as_slice()[i].number
    }

    /// What is noted where a node of the table boots anew.
    pub fn lost_at(&self, i: usize) -> Option<NoteKind>
        requires { i < length self.now }
        ensures { result ≡ note_of_loss (node_at self.now i).stage }
    {
        self.nodes.as_slice()[i].lost()
    }

    /// Whether a node of the table is the manager's own.
    pub fn is_own(&self, i: usize) -> bool
        requires { i < length self.now }
        ensures { result ≡ is_managers_own (node_at self.now i).stage }
    {
        self.nodes.as_slice()[i].is_own()
    }

    /// Whether each node with one of these numbers is configured. Takes time by the number of nodes times that
    /// of the numbers, and no memory.
    pub fn all_configured(&self, numbers: &[u8]) -> bool
        ensures { result ≡ all_configured self.now numbers.now }
    {
        each_configured(self.nodes.as_slice(), numbers)
    }

    /// The first of the deadlines of the nodes. Takes constant time where it is known, and else walks the
    /// nodes.
    pub fn first_deadline(&self) -> Option<u64>
        ensures { result ≡ earliest (deadlines self.now) }
    {
        if self.known {
            self.deadline
        } else {
            first_of(self.nodes.as_slice())
        }
    }

    /// Whether it is known that each deadline lies after t. Takes constant time.
    fn is_quiet(&self, t: u64) -> bool
        ensures { IsTrue result → IfSome (earliest (deadlines self.now)) (λ first. t < first) }
    {
        self.known && lies_after(t, self.deadline)
    }

    /// Has these nodes from now on, and keeps the first of their deadlines. Walks the nodes.
    fn put(&mut self, alloc: Global, nodes: Vec<Booting>) -> Result<(), AllocError>
        ensures { OnOk result (self.new ≡ nodes.items) }
    {
        let deadline = first_of(&nodes);
        self.nodes = SharedNodes::of(alloc, nodes)?;
        self.deadline = deadline;
        self.known = true;
        Ok(())
    }

    /// The boot of a node of the table begins anew. Walks the nodes.
    pub fn boot_at<P: Boots>(
        &mut self,
        alloc: Global,
        i: usize,
        deadline: u64,
        boots: &mut P,
    ) -> Result<Sent, AllocError>
        requires { i < length self.now }
        ensures nodes { OnOk result (self.new
            ≡ with_stage self.old i (outcome (boot_nmt_slave deadline (node_at self.old i).number)
            (P.seen boots.old).image).stage) }
        ensures sent { IfOk result (λ sent. sent
            ≡ sending_of (outcome (boot_nmt_slave deadline (node_at self.old i).number) (P.seen boots.old).image)) }
        ensures asked { OnOk result (IsAsked (boot_nmt_slave deadline (node_at self.old i).number)
            (P.seen boots.old) (P.seen boots.new) (P.asks boots.old) (P.asks boots.new)) }
        ensures lasts { Lasts (P.seen boots.old) (P.seen boots.new) }
    {
        self.known = false;
        let mut nodes = self.nodes.take(alloc)?;
        let sent = nodes[i].boot(alloc, deadline, boots)?;
        self.put(alloc, nodes)?;
        Ok(sent)
    }

    /// An SDO answer of a node of the table comes. Walks the nodes.
    pub fn answer_at<P: Boots>(
        &mut self,
        alloc: Global,
        i: usize,
        deadline: u64,
        answer: &[u8; 8],
        boots: &mut P,
    ) -> Result<Sent, AllocError>
        requires { i < length self.now }
        ensures nodes { OnOk result (self.new
            ≡ with_stage self.old i
            (outcome (sdo_answer deadline (node_at self.old i).number (node_at self.old i).stage answer.now)
            (P.seen boots.old).image).stage) }
        ensures sent { IfOk result (λ sent. sent
            ≡ sending_of
            (outcome (sdo_answer deadline (node_at self.old i).number (node_at self.old i).stage answer.now)
            (P.seen boots.old).image)) }
        ensures asked { OnOk result (IsAsked (sdo_answer deadline (node_at self.old i).number (node_at self.old i).stage
            answer.now) (P.seen boots.old) (P.seen boots.new) (P.asks boots.old) (P.asks boots.new)) }
        ensures lasts { Lasts (P.seen boots.old) (P.seen boots.new) }
    {
        self.known = false;
        let mut nodes = self.nodes.take(alloc)?;
        let sent = nodes[i].take_answer(alloc, deadline, answer, boots)?;
        self.put(alloc, nodes)?;
        Ok(sent)
    }

    /// The time-outs of the moment t, node by node. Takes constant time where it is known that each deadline
    /// lies after t, and else walks the nodes.
    pub fn time_outs(
        &mut self,
        alloc: Global,
        t: u64,
        waiting: &mut Pending,
        notes: &mut Notes,
    ) -> Result<(), AllocError>
        ensures state { OnOk result (self.new ≡ map (node_after t) self.old) }
        ensures queued { OnOk result (waiting.new ≡ queue_after_time_outs (timed_out t self.old) waiting.old) }
        ensures notes { OnOk result (notes.new ≡ notes.old ++ map note_of_time_out (timed_out t self.old)) }
        ensures notes_before { BeginsWith notes.new notes.old }
    {
        if self.is_quiet(t) {
            return Ok(());
        }
        self.known = false;
        let mut nodes = self.nodes.take(alloc)?;
        time_out_each(t, &mut nodes, waiting, notes)?;
        self.put(alloc, nodes)
    }
}
