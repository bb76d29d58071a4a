//! A store of segments.

ghost use Rattle.std.specs.Prelude.{◌≡◌, ◌≤◌, ◌<◌, ◌+◌, ◌/◌, [], Contains, IfOk, OnOk, filter, length};
ghost use Rattle.can_bus.specs.Runs.{is_shown, trace as trace_of};
ghost use Rattle.image_parts.specs.Images.{IsImage};
ghost use Rattle.co_segments.specs.Segments.{IsValidOnce, Segment, TraceState, Traced, at_power_on, recorded_from};
ghost use Rattle.co_segments.specs.Stocks.{AreSegments, held_in};
ghost use Rattle.trace_spans.specs.Spans.{lines_of_spans};
ghost use Rattle.kept_values.specs.Work.{Rises};

use crate::numbers_given::NumbersGiven;
use crate::reached::Reached;
use crate::serving::{advance, give};
use crate::stock::Stock;
use crate::telling::Telling;
use can_bus::{BusState, Line, Parts};
use image_parts::{END, WINDOW};
use kept_values::{Meter, Recent};
use std::alloc::{AllocError, Global};
use std::marker::Model;
use trace_spans::TraceText;

/// The number of windows for which the record of what was asked is kept.
const RECORDED: u64 = 64;

/// Segments of traces, at most a fixed number of them: the last run or used first.
///
/// Each is valid: under every image that has its recorded values at what it read, its lines and its end are
/// those of its span. So it is of use for any image, whatever was traced before.
#[derive(Drop)]
pub struct Store {
    stock: Stock,
}

impl Model for Store {
    ghost use Rattle.can_bus.specs.contracts.bus_state.BusState as bus_state;
    ghost use Rattle.can_bus.specs.contracts.line.Line as told;
    ghost use Rattle.image_parts.specs.contracts.read.Read as noted;
    ghost use Rattle.co_segments.specs.Segments.{HeldSegments, held_code, kept_code};
    ghost use Rattle.co_segments.specs.Stocks.{AreSegments, held_in};

    ghost Value = { HeldSegments };

    ghost coded = { held_code (kept_code bus_state.the_row.coded noted.the_row.coded told.the_row.coded) };

    ghost view = { λ a. record { capacity = a.stock.recent.capacity; segments = held_in a.stock } };

    ghost invariant = { λ a. AreSegments a.stock };
}

/// At each 64th window, lets go of the record of what was asked: windows that are used need none, and so it
/// stays small.
fn let_go<P: Parts>(parts: &mut P, number: u64)
    ensures image { (P.seen parts.new).image ≡ (P.seen parts.old).image }
    ensures asks { P.asks parts.new ≡ P.asks parts.old }
{
    if number % RECORDED == 0 {
        let _asked = parts.take_asked();
    }
}

/// What the first `count` spans tell.
fn tell_spans<P: Parts>(
    stock: &mut Stock,
    parts: &mut P,
    count: u64,
    meter: &mut Meter,
) -> Result<TraceText, AllocError>
    requires within { count ≤ 1001 }
    requires image { IsImage (P.seen parts.now).image }
    requires segments { AreSegments stock.old }
    ensures lines { IfOk result (λ told. told ≡ lines_of_spans (P.seen parts.old).image count) }
    ensures traced { IfOk result (λ told. (end : TraceState) × (
        Traced (P.seen parts.old).image stock.old.recent.capacity (at_power_on (held_in stock.old) meter.old) count end
        × (held_in stock.new ≡ end.held) × (told ≡ end.told) × (meter.new ≡ end.work)
        × (P.asks parts.new ≤ P.asks parts.old + recorded_from 0 (held_in stock.old) + end.read))) }
    ensures segments { AreSegments stock.new }
    ensures capacity { stock.new.recent.capacity ≡ stock.old.recent.capacity }
    ensures kept { (P.seen parts.new).image ≡ (P.seen parts.old).image }
    ensures rises { Rises meter.old meter.new }
{
    stock.recent.begin()?;
    let mut telling = Telling::new(stock.alloc);
    let bus = BusState::new(stock.alloc);
    let state = give(stock.alloc, &mut stock.given.buses, bus, None)?;
    let mut here = Reached {
        state,
        is_new: false,
        apart: None,
    };
    for number in 0..count {
        let end = advance(stock, &mut telling, number, here, parts, meter)?;
        here = end;
        let_go(parts, number);
    }
    Ok(telling.told)
}

impl Store {
    /// A store that holds at most `capacity` segments: none where that is 0.
    pub fn new(alloc: Global, capacity: usize) -> Result<Store, AllocError>
        ensures { IfOk result (λ store. store ≡ record { capacity = capacity; segments = [] }) }
    {
        let recent = Recent::new(alloc, capacity)?;
        Ok(Store {
            stock: Stock {
                alloc,
                recent,
                given: NumbersGiven {
                    buses: 0,
                    contents: 0,
                },
            },
        })
    }

    /// The trace up to the horizon, a moment in microseconds, of the network whose parts are handed out, with
    /// its text: whatever was traced before. A segment that serves is used, each other one is run and kept.
    ///
    /// A segment that is run takes time at each due moment by the devices that have to run there, and by an
    /// eighth of all; each other one that of comparing its reads: only segments of its number are looked at.
    /// Want of memory is the only error: other segments may then be held, each of them valid.
    ///
    /// What the parts recorded of earlier asking is let go, and so is the record of the trace's own: it is empty
    /// afterwards. Who wants it takes it before. Where memory runs out, a part of the trace's may stand there.
    pub fn trace_text<P: Parts>(
        &mut self,
        parts: &mut P,
        horizon: u32,
        meter: &mut Meter,
    ) -> Result<TraceText, AllocError>
        requires soon { horizon < END }
        requires image { IsImage (P.seen parts.old).image }
        ensures lines { IfOk result (λ told. told ≡ trace_of (P.seen parts.old).image horizon) }
        ensures traced { IfOk result (λ told. (end : TraceState) × (
            Traced (P.seen parts.old).image self.old.capacity (at_power_on self.old.segments meter.old)
            (horizon / 10000 + 1) end
            × (self.new.segments ≡ end.held) × (meter.new ≡ end.work)
            × (P.asks parts.new ≤ P.asks parts.old + recorded_from 0 self.old.segments + end.read))) }
        ensures capacity { self.new.capacity ≡ self.old.capacity }
        ensures kept { (P.seen parts.new).image ≡ (P.seen parts.old).image }
        ensures asked { OnOk result ((P.seen parts.new).asked ≡ []) }
        ensures rises { Rises meter.old meter.new }
    {
        let count = u64::from(horizon) / WINDOW + 1;
        let mut told = tell_spans(&mut self.stock, parts, count, meter)?;
        let _asked = parts.take_asked();
        told.keep_shown(horizon)?;
        Ok(told)
    }

    /// The trace up to the horizon, a moment in microseconds, of the network whose parts are handed out:
    /// whatever was traced before. A segment that serves is used, each other one is run and kept.
    ///
    /// Takes time and memory as `trace_text` does, and for a copy of the lines.
    pub fn trace<P: Parts>(
        &mut self,
        parts: &mut P,
        horizon: u32,
        meter: &mut Meter,
    ) -> Result<Vec<Line>, AllocError>
        requires soon { horizon < END }
        requires image { IsImage (P.seen parts.old).image }
        ensures lines { IfOk result (λ told. told.items ≡ trace_of (P.seen parts.old).image horizon) }
        ensures traced { IfOk result (λ told. (end : TraceState) × (
            Traced (P.seen parts.old).image self.old.capacity (at_power_on self.old.segments meter.old)
            (horizon / 10000 + 1) end
            × (self.new.segments ≡ end.held) × (meter.new ≡ end.work)
            × (P.asks parts.new ≤ P.asks parts.old + recorded_from 0 self.old.segments + end.read))) }
        ensures capacity { self.new.capacity ≡ self.old.capacity }
        ensures kept { (P.seen parts.new).image ≡ (P.seen parts.old).image }
        ensures asked { OnOk result ((P.seen parts.new).asked ≡ []) }
        ensures rises { Rises meter.old meter.new }
    {
        let told = self.trace_text(parts, horizon, meter)?;
        told.lines()
    }

    /// How many segments it holds. Each of them is valid, and has each of its reads once.
    pub fn held(&self) -> usize
        ensures count { result ≡ length self.now.segments }
        ensures sound { (kept : Segment) → Contains self.now.segments kept → IsValidOnce kept }
    {
        self.stock.recent.len()
    }
}
