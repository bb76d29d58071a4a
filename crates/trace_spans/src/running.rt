//! A span that is run, and recorded.

ghost use Rattle.std.specs.Prelude.{◌≡◌, ◌≤◌, ◌+◌, ℕ, length, IfOk, OnOk};
ghost use Rattle.image_parts.specs.Asking.{outcome, reads};
ghost use Rattle.can_bus.specs.Spans.{span};
ghost use Rattle.image_parts.specs.Contents.{Content};
ghost use Rattle.image_parts.specs.Images.{IsImage};
ghost use Rattle.trace_spans.specs.Reads.{AreNumbered, AreMarked, LearnsMore, plain};
ghost use Rattle.trace_spans.specs.Records.{IsRecordOf};
ghost use Rattle.trace_spans.specs.Spans.{IsReady};

use crate::kept_read::KeptRead;
use crate::look::Look;
use crate::passage::Passage;
use crate::recording::recorded;
use crate::spans::run_span;
use can_bus::{BusState, Lines, Parts};
use std::alloc::{AllocError, Global};

/// What a span gave.
#[derive(Drop)]
pub struct Ran {
    /// Each part that it read, once.
    pub reads: Vec<KeptRead>,
    /// What it told.
    pub told: Passage,
    /// The bus at its end.
    pub end: BusState,
}

/// Runs a span.
pub fn run<P: Parts>(
    alloc: Global,
    now: &mut Look,
    given: &mut u64,
    number: u64,
    start: &BusState,
    parts: &mut P,
) -> Result<Ran, AllocError>
    requires within { number ≤ 1000 }
    requires image { IsImage (P.seen parts.now).image }
    requires ready { IsReady number start.now }
    requires known { (contents : ℕ → Content) × AreNumbered (P.seen parts.now).image contents given.now now.now.reads }
    ensures recorded { IfOk result (λ ran. IsRecordOf
        (reads (span number start.now) (P.seen parts.old).image) (plain ran.reads.items)) }
    ensures gives { IfOk result (λ ran. outcome (span number start.now) (P.seen parts.old).image
        ≡ (ran.end, ran.told)) }
    ensures known { IfOk result (λ ran. (contents : ℕ → Content)
        → AreNumbered (P.seen parts.old).image contents given.old now.old.reads
        → (e : LearnsMore (P.seen parts.old).image contents given.old given.new now.new.reads)
        × AreMarked e.meaning given.new ran.reads.items) }
    ensures more { given.old ≤ given.new }
    ensures counted { OnOk result (P.asks parts.new ≤ P.asks parts.old
        + length (reads (span number start.now) (P.seen parts.old).image)) }
    ensures kept { (P.seen parts.new).image ≡ (P.seen parts.old).image }
{
    let _before = parts.take_asked();
    let mut lines = Lines::new(alloc);
    let end = run_span(alloc, number, start, parts, &mut lines)?;
    let all = parts.take_asked();
    let reads = recorded(alloc, &mut now.reads, given, all)?;
    let told = Passage::new(alloc, lines.into_vec())?;
    Ok(Ran { reads, told, end })
}
