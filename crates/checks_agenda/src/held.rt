//! What the nodes of a network hold of what was written to them.

use crate::holding::Holding;
use crate::marks::Marks;
use crate::run::instant;
use anyhow::Result;
use can_bus::{BusState, Line, Lines, Parts};
use checks_layout::parts_of;
use co_project::Project;
use concise_dcf::Write as Written;
use node_boot::{Note, NoteKind};
use std::alloc::{AllocError, Global};
use std::io::Write;
use std::rc::Rc;

/// The most turns of a run, and the most writes of a node.
const MOST: u32 = 1_000_000;

/// The greatest number of a node.
const LAST_NODE: u8 = 127;

/// What nodes held as they had just been configured, and what the manager noted so far.
#[derive(Drop)]
pub struct Held {
    alloc: Global,
    notes: Vec<Note>,
    holdings: Vec<Holding>,
}

/// The writes of a node, in order.
fn writes_of<P: Parts>(
    alloc: Global,
    parts: &mut P,
    node: u8,
) -> Result<Vec<Rc<Written>>, AllocError> {
    let mut writes = Vec::new(alloc);
    for place in 0..MOST {
        let Some(write) = parts.boot(node, place)? else {
            break;
        };
        writes.push(write)?;
    }
    Ok(writes)
}

/// What a node holds after the moment t.
fn holding_of<P: Parts>(
    alloc: Global,
    t: u64,
    node: u8,
    bus: &BusState,
    parts: &mut P,
) -> Result<Holding, AllocError> {
    let writes = writes_of(alloc, parts, node)?;
    let _asked = parts.take_asked();
    Holding::of(alloc, t, node, bus.values(node), &writes)
}

/// What an instant tells, of whose reads no record stays.
fn told_at<P: Parts>(
    alloc: Global,
    bus: &mut BusState,
    t: u64,
    parts: &mut P,
) -> Result<Lines, AllocError> {
    let mut lines = Lines::new(alloc);
    instant(bus, t, parts, &mut lines)?;
    let _asked = parts.take_asked();
    Ok(lines)
}

/// Whether the last note of a node is that it was configured.
fn is_configured(notes: &[Note], node: u8) -> bool {
    match notes.iter().rev().find(|note| note.node == node) {
        Some(note) => note.kind == NoteKind::Configured,
        None => false,
    }
}

impl Held {
    /// Nothing so far.
    fn none(alloc: Global) -> Held {
        Held {
            alloc,
            notes: Vec::new(alloc),
            holdings: Vec::new(alloc),
        }
    }

    /// Adds what a node holds after the moment t.
    fn look_at<P: Parts>(
        &mut self,
        t: u64,
        node: u8,
        bus: &BusState,
        parts: &mut P,
    ) -> Result<(), AllocError> {
        let holding = holding_of(self.alloc, t, node, bus, parts)?;
        self.holdings.push(holding)?;
        Ok(())
    }

    /// Takes a note, and looks at its node if it was configured.
    fn take_note<P: Parts>(
        &mut self,
        t: u64,
        note: Note,
        bus: &BusState,
        parts: &mut P,
    ) -> Result<(), AllocError> {
        self.notes.push(note)?;
        if note.kind == NoteKind::Configured {
            self.look_at(t, note.node, bus, parts)?;
        }
        Ok(())
    }

    /// Takes the notes among the lines of the moment t.
    fn take_lines<P: Parts>(
        &mut self,
        t: u64,
        lines: &[Line],
        bus: &BusState,
        parts: &mut P,
    ) -> Result<(), AllocError> {
        for line in lines {
            if let Line::Note { note, .. } = line {
                self.take_note(t, *note, bus, parts)?;
            }
        }
        Ok(())
    }

    /// Runs a bus at its next due moment, and takes what is told. Answers whether that isn't after the last one.
    fn run_turn<P: Parts>(
        &mut self,
        bus: &mut BusState,
        last: u64,
        parts: &mut P,
    ) -> Result<bool, AllocError> {
        let t = bus.next_due();
        if t > last {
            return Ok(false);
        }
        let lines = told_at(self.alloc, bus, t, parts)?;
        self.take_lines(t, lines.as_slice(), bus, parts)?;
        Ok(true)
    }

    /// Runs a bus at each due moment up to the last one.
    fn run_turns<P: Parts>(
        &mut self,
        bus: &mut BusState,
        last: u64,
        parts: &mut P,
    ) -> Result<(), AllocError> {
        for _turn in 0..MOST {
            if !self.run_turn(bus, last, parts)? {
                break;
            }
        }
        Ok(())
    }

    /// Looks at each node that is still configured after the moment t.
    fn look_at_all<P: Parts>(
        &mut self,
        t: u64,
        bus: &BusState,
        parts: &mut P,
    ) -> Result<(), AllocError> {
        for node in 1..=LAST_NODE {
            if is_configured(&self.notes, node) {
                self.look_at(t, node, bus, parts)?;
            }
        }
        Ok(())
    }

    /// Runs the network whose parts are handed out up to the last moment.
    fn run_parts<P: Parts>(&mut self, last: u64, parts: &mut P) -> Result<(), AllocError> {
        let mut bus = BusState::power_on(self.alloc, parts)?;
        self.run_turns(&mut bus, last, parts)?;
        self.look_at_all(last, &bus, parts)
    }

    /// What nodes hold in a run to the horizon: each as it has just been configured, and at the end.
    pub fn of(alloc: Global, project: &Project) -> Result<Held, AllocError> {
        let mut parts = parts_of(alloc, project)?;
        let mut held = Held::none(alloc);
        held.run_parts(u64::from(project.horizon()), &mut parts)?;
        Ok(held)
    }

    /// Shows all, with these marks.
    pub fn show<W: Write>(&self, out: &mut W, marks: &Marks) -> Result<()> {
        for holding in &self.holdings {
            holding.show(out, marks)?;
        }
        Ok(())
    }
}
