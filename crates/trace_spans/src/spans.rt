//! A span, run over its due moments.

ghost use Rattle.std.specs.Prelude.{◌≡◌, ◌≤◌, ◌<◌, ◌-◌, ◌*◌, ◌++◌, ◌+◌, length, IfOk, OnOk};
ghost use Rattle.image_parts.specs.Asking.{outcome, after_reads, reads, turns};
ghost use Rattle.can_bus.specs.Bus.{instant};
ghost use Rattle.can_bus.specs.Dues.{IsJustBefore};
ghost use Rattle.image_parts.specs.Images.{IsImage};
ghost use Rattle.can_bus.specs.Spans.{span};
ghost use Rattle.trace_spans.specs.Spans.{IsReady};

use can_bus::{BusState, Lines, Parts};
use image_parts::{END, WINDOW};
use std::alloc::{AllocError, Global};

/// The instants from a moment on before the end.
fn run_to<P: Parts>(
    bus: &mut BusState,
    first: u64,
    end: u64,
    parts: &mut P,
    lines: &mut Lines,
) -> Result<(), AllocError>
    requires ordered { first ≤ end }
    requires soon { end ≤ END }
    requires image { IsImage (P.seen parts.old).image }
    requires before { IsJustBefore first bus.old }
    ensures state { OnOk result (bus.new
        ≡ (outcome (turns instant (end - first) first bus.old) (P.seen parts.old).image).0) }
    ensures told { OnOk result (lines.new ≡ lines.old
        ++ (outcome (turns instant (end - first) first bus.old) (P.seen parts.old).image).1) }
    ensures noted { OnOk result (P.seen parts.new
        ≡ after_reads (turns instant (end - first) first bus.old) (P.seen parts.old)) }
    ensures counted { OnOk result (P.asks parts.new ≤ P.asks parts.old
        + length (reads (turns instant (end - first) first bus.old) (P.seen parts.old).image)) }
    ensures kept { (P.seen parts.new).image ≡ (P.seen parts.old).image }
{
    let mut due = bus.next_due().min(end);
    'dues: while due < end {
        bus.instant(due, parts, lines)?;
        due = bus.next_due().min(end);
    }
    Ok(())
}

/// The span of that number, from a bus on. Takes the time of its due moments, and where it isn't the
/// first that of a copy of the bus.
pub(crate) fn run_span<P: Parts>(
    alloc: Global,
    number: u64,
    start: &BusState,
    parts: &mut P,
    lines: &mut Lines,
) -> Result<BusState, AllocError>
    requires within { number ≤ 1000 }
    requires image { IsImage (P.seen parts.old).image }
    requires ready { IsReady number start.now }
    ensures state { IfOk result (λ bus. bus ≡ (outcome (span number start.now) (P.seen parts.old).image).0) }
    ensures told { OnOk result (lines.new ≡ lines.old
        ++ (outcome (span number start.now) (P.seen parts.old).image).1) }
    ensures noted { OnOk result (P.seen parts.new ≡ after_reads (span number start.now) (P.seen parts.old)) }
    ensures counted { OnOk result (P.asks parts.new ≤ P.asks parts.old
        + length (reads (span number start.now) (P.seen parts.old).image)) }
    ensures kept { (P.seen parts.new).image ≡ (P.seen parts.old).image }
{
    if number == 0 {
        let mut bus = BusState::power_on(alloc, parts)?;
        run_to(&mut bus, 0, WINDOW, parts, lines)?;
        Ok(bus)
    } else {
        let mut bus = start.copy()?;
        run_to(
            &mut bus,
            WINDOW * number,
            WINDOW * number + WINDOW,
            parts,
            lines,
        )?;
        Ok(bus)
    }
}
