//! The record of what a run reads.

use crate::run::instant;
use anyhow::Result;
use can_bus::{BusState, Lines, Parts};
use checks_layout::parts_of;
use co_project::Project;
use image_parts::Part;
use std::alloc::{AllocError, Global};
use std::io::Write;

/// The most turns of a run.
const MOST: u32 = 1_000_000;

/// The names that a run read, in order, how many calls asked, and whether the bus was blank before and after power-on.
#[derive(Drop)]
pub struct Record {
    names: Vec<Part>,
    asks: u64,
    is_blank_before: bool,
    is_blank_after: bool,
}

/// Takes the record over, and adds its names.
fn take_names<P: Parts>(parts: &mut P, names: &mut Vec<Part>) -> Result<(), AllocError> {
    let record = parts.take_asked();
    for read in record.as_slice() {
        names.push(read.part())?;
    }
    Ok(())
}

/// An instant, whose reads are added.
fn run_instant<P: Parts>(
    bus: &mut BusState,
    t: u64,
    parts: &mut P,
    lines: &mut Lines,
    names: &mut Vec<Part>,
) -> Result<(), AllocError> {
    instant(bus, t, parts, lines)?;
    take_names(parts, names)
}

/// Runs a bus at each due moment before the end, and adds what it reads.
fn run_turns<P: Parts>(
    alloc: Global,
    bus: &mut BusState,
    end: u64,
    parts: &mut P,
    names: &mut Vec<Part>,
) -> Result<(), AllocError> {
    let mut lines = Lines::new(alloc);
    for _turn in 0..MOST {
        let t = bus.next_due();
        if t >= end {
            break;
        }
        run_instant(bus, t, parts, &mut lines, names)?;
    }
    Ok(())
}

/// The names that a run from the power-on to the end reads.
fn run_parts<P: Parts>(alloc: Global, parts: &mut P, end: u64) -> Result<Record, AllocError> {
    let mut names = Vec::new(alloc);
    let blank = BusState::new(alloc);
    let is_blank_before = blank.same(&BusState::new(alloc));
    let mut bus = BusState::power_on(alloc, parts)?;
    let is_blank_after = blank.same(&bus);
    take_names(parts, &mut names)?;
    run_turns(alloc, &mut bus, end, parts, &mut names)?;
    let asks = parts.asks();
    Ok(Record {
        names,
        asks,
        is_blank_before,
        is_blank_after,
    })
}

/// What a run of a project's network to its horizon reads.
pub fn read_project(alloc: Global, project: &Project) -> Result<Record, AllocError> {
    let end = u64::from(project.horizon()) + 1;
    let mut parts = parts_of(alloc, project)?;
    run_parts(alloc, &mut parts, end)
}

/// Shows the name of a part.
fn show_name<W: Write>(out: &mut W, name: Part) -> Result<()> {
    match name {
        Part::Roster => writeln!(out, "  Roster")?,
        Part::Defaults(node) => writeln!(out, "  Defaults {node}")?,
        Part::Shape(node) => writeln!(out, "  Shape {node}")?,
        Part::Expect(node) => writeln!(out, "  Expect {node}")?,
        Part::Boot(node, place) => writeln!(out, "  Boot {node} {place}")?,
        Part::Events(i) => writeln!(out, "  Events {i}")?,
    }
    Ok(())
}

impl Record {
    /// Whether the name at a place isn't at one before it.
    fn is_first(&self, place: usize, name: Part) -> bool {
        !self.names.iter().take(place).any(|other| *other == name)
    }

    /// The number of names, each counted once.
    fn distinct(&self) -> usize {
        let mut count: usize = 0;
        for (place, name) in self.names.iter().enumerate() {
            if self.is_first(place, *name) {
                count = count.saturating_add(1);
            }
        }
        count
    }

    /// Shows the numbers, and each name that was read.
    pub fn show<W: Write>(&self, out: &mut W) -> Result<()> {
        let (asks, readings, distinct) = (self.asks, self.names.len(), self.distinct());
        let (before, after) = (self.is_blank_before, self.is_blank_after);
        writeln!(out, "  asks {asks}, readings {readings}, names {distinct}")?;
        writeln!(out, "  blank before {before}, at power-on {after}")?;
        for name in &self.names {
            show_name(out, *name)?;
        }
        Ok(())
    }
}
