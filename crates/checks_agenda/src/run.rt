//! A run from due moment to due moment.

use crate::outcome::Outcome;
use can_bus::{BusState, Lines, Parts};
use checks_layout::parts_of;
use co_project::Project;
use image_parts::END;
use std::alloc::{AllocError, Global};

/// The most turns of a run.
const MOST: u32 = 1_000_000;

/// The bus of a network as the power comes on.
fn power_on<P: Parts>(alloc: Global, parts: &mut P) -> Result<BusState, AllocError> {
    BusState::power_on(alloc, parts)
}

/// An instant, if it is below `END`.
pub fn instant<P: Parts>(
    bus: &mut BusState,
    t: u64,
    parts: &mut P,
    lines: &mut Lines,
) -> Result<(), AllocError> {
    if t >= END {
        return Ok(());
    }
    bus.instant(t, parts, lines)
}

/// An instant, of whose reads no record stays.
fn run_instant<P: Parts>(
    bus: &mut BusState,
    t: u64,
    parts: &mut P,
    lines: &mut Lines,
) -> Result<(), AllocError> {
    instant(bus, t, parts, lines)?;
    let _asked = parts.take_asked();
    Ok(())
}

/// Runs a bus at its next due moment if that is before the end, and adds the moment. Answers whether it is.
fn run_turn<P: Parts>(
    bus: &mut BusState,
    end: u64,
    parts: &mut P,
    lines: &mut Lines,
    moments: &mut Vec<u64>,
) -> Result<bool, AllocError> {
    let t = bus.next_due();
    if t >= end {
        return Ok(false);
    }
    run_instant(bus, t, parts, lines)?;
    moments.push(t)?;
    Ok(true)
}

/// Runs a bus at each due moment before the end, and answers these moments.
fn run_turns<P: Parts>(
    alloc: Global,
    bus: &mut BusState,
    end: u64,
    parts: &mut P,
    lines: &mut Lines,
) -> Result<Vec<u64>, AllocError> {
    let mut moments = Vec::new(alloc);
    for _turn in 0..MOST {
        if !run_turn(bus, end, parts, lines, &mut moments)? {
            break;
        }
    }
    Ok(moments)
}

/// Whether a copy of a bus runs at these moments up to the end, and comes to the same.
fn comes_to_the_same<P: Parts>(
    alloc: Global,
    copy: &mut BusState,
    end: u64,
    parts: &mut P,
    bus: &BusState,
    moments: &[u64],
) -> Result<bool, AllocError> {
    let mut lines = Lines::new(alloc);
    let again = run_turns(alloc, copy, end, parts, &mut lines)?;
    Ok(copy.same(bus) && again.as_slice() == moments)
}

/// Runs a bus that ran to half of its time on to the end, and its copy after it.
fn run_second_half<P: Parts>(
    alloc: Global,
    bus: &mut BusState,
    end: u64,
    parts: &mut P,
    lines: &mut Lines,
    first: Vec<u64>,
) -> Result<Outcome, AllocError> {
    let mut copy = bus.copy()?;
    let is_equal = copy.same(bus);
    let second = run_turns(alloc, bus, end, parts, lines)?;
    let is_left_behind = !copy.same(bus);
    let same = comes_to_the_same(alloc, &mut copy, end, parts, bus, &second)?;
    Ok(Outcome {
        first,
        second,
        told: lines.as_slice().len(),
        is_equal,
        is_left_behind,
        comes_to_the_same: same,
    })
}

/// Runs the network whose parts are handed out to the end.
fn run_parts<P: Parts>(alloc: Global, parts: &mut P, end: u64) -> Result<Outcome, AllocError> {
    let mut lines = Lines::new(alloc);
    let mut bus = power_on(alloc, parts)?;
    let first = run_turns(alloc, &mut bus, end / 2, parts, &mut lines)?;
    run_second_half(alloc, &mut bus, end, parts, &mut lines, first)
}

/// Runs a project's network to its horizon.
pub fn run_project(alloc: Global, project: &Project) -> Result<Outcome, AllocError> {
    let end = u64::from(project.horizon()) + 1;
    let mut parts = parts_of(alloc, project)?;
    run_parts(alloc, &mut parts, end)
}
