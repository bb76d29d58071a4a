//! One segment of a trace.

ghost use Rattle.std.specs.Prelude.{◌≡◌, ◌≤◌, ◌+◌, ℕ, [], IfOk, OnErr, OnOk, Some, drop, length, nat_eq, slice_get};
ghost use Rattle.std.specs.Map.{lookup};
ghost use Rattle.image_parts.specs.Asking.{reads};
ghost use Rattle.can_bus.specs.Spans.{span};
ghost use Rattle.kept_values.specs.LastUsed.{HasNumber, put_first, use_first};
ghost use Rattle.co_segments.specs.Placed.{IsMore, Placed};
ghost use Rattle.co_segments.specs.Progress.{CanRun, Goes, Tells, progress};
ghost use Rattle.co_segments.specs.Segments.{IsRun};
ghost use Rattle.co_segments.specs.Sights.{AreSightsOf};
ghost use Rattle.co_segments.specs.Stocks.{ArePassed, AreSegments, LooksAhead, StandsAt, held_in, left_from};

use crate::finding::find;
use crate::numbered_bus::NumberedBus;
use crate::reached::Reached;
use crate::rejoining::reach;
use crate::segment::Segment;
use crate::sight::Sight;
use crate::stock::Stock;
use crate::telling::Telling;
use base::Shared;
use can_bus::{BusState, Parts};
use kept_values::{Meter, Recent};
use std::alloc::{AllocError, Global};
use std::rc::Rc;
use trace_spans::{Look, TraceText, run};

/// Gives a bus a new number, with what is seen of it, if it was looked at. It is kept without what is known of its
/// devices beside them, which takes more than they do where none of them changed.
pub(crate) fn give(
    alloc: Global,
    given: &mut u64,
    bus: BusState,
    sight: Option<Sight>,
) -> Result<NumberedBus, AllocError>
    requires { AreSightsOf bus sight }
    ensures is { IfOk result (λ state. state ≡ record { number = given.old; bus = bus }) }
    ensures ok { OnOk result (given.new ≡ given.old + 1) }
    ensures err { OnErr result (given.new ≡ given.old) }
{
    if *given == u64::MAX {
        return Err(AllocError);
    }
    let mut bus = bus;
    bus.forget_known();
    let bus = Rc::new(alloc, bus)?;
    let state = NumberedBus::new(*given, bus, sight);
    *given += 1;
    Ok(state)
}

/// Tells what a segment told, and gives the bus at its end.
fn tell(segment: &Segment, told: &mut TraceText) -> Result<NumberedBus, AllocError>
    ensures { IfOk result (λ end. Tells segment.now told.old told.new end) }
{
    let lines = segment.told()?;
    told.add(lines)?;
    segment.end().share()
}

/// Uses the segment that lies ahead, and puts it first.
fn follow(recent: &mut Recent<Segment>, told: &mut TraceText) -> Result<NumberedBus, AllocError>
    requires { (e : ℕ × Placed) × (slice_get recent.old.ahead 0 ≡ Some e) }
    ensures used { IfOk result (λ end. (e : ℕ × Placed)
        × ((slice_get recent.old.ahead 0 ≡ Some e) × Tells e.1 told.old told.new end)) }
    ensures first { OnOk result ((e : ℕ × Placed) → slice_get recent.old.ahead 0 ≡ Some e
        → recent.new ≡ record (use_first e.0 recent.old) { ahead = drop 1 recent.old.ahead }) }
    ensures err { OnErr result (recent.new ≡ recent.old) }
{
    let end = match recent.next() {
        None => return Err(AllocError),
        Some((_key, segment)) => tell(segment, told)?,
    };
    recent.use_next();
    Ok(end)
}

/// Uses the segment under a key, and puts it first.
fn use_held(
    recent: &mut Recent<Segment>,
    key: u64,
    told: &mut TraceText,
) -> Result<NumberedBus, AllocError>
    requires settled { recent.old.ahead ≡ [] }
    requires turn { HasNumber (λ (s : Placed). s.kept.number) key recent.old.turn recent.old.entries }
    ensures used { IfOk result (λ end. (s : Placed)
        × ((lookup (nat_eq key) recent.old.entries ≡ Some s) × Tells s told.old told.new end)) }
    ensures first { OnOk result (recent.new ≡ use_first key recent.old) }
    ensures err { OnErr result (recent.new ≡ recent.old) }
{
    let end = match recent.get(key) {
        None => return Err(AllocError),
        Some(segment) => tell(segment, told)?,
    };
    recent.use_again(key)?;
    Ok(end)
}

/// Runs a segment, and puts it first.
fn run_new<P: Parts>(
    stock: &mut Stock,
    telling: &mut Telling,
    number: u64,
    here: Reached,
    parts: &mut P,
) -> Result<Reached, AllocError>
    requires settled { stock.old.recent.ahead ≡ [] }
    requires can { CanRun (P.seen parts.now).image number here.state.bus }
    requires stands { StandsAt (P.seen parts.now).image number stock.old telling.old.look here }
    ensures ran { IfOk result (λ end. (s : Placed) × (
        IsRun (P.seen parts.old).image number here.state.bus s.kept
        × (stock.new.recent ≡ put_first s stock.old.recent)
        × Tells s telling.old.told telling.new.told end.state)) }
    ensures stands { IfOk result (λ end. StandsAt (P.seen parts.old).image (number + 1)
        stock.new telling.new.look end) }
    ensures err { OnErr result (stock.new.recent ≡ stock.old.recent) }
    ensures more { IsMore stock.old.given stock.new.given }
    ensures counted { OnOk result (P.asks parts.new ≤ P.asks parts.old
        + length (reads (span number here.state.bus) (P.seen parts.old).image)) }
    ensures kept { (P.seen parts.new).image ≡ (P.seen parts.old).image }
{
    let ran = run(
        stock.alloc,
        &mut telling.look,
        &mut stock.given.contents,
        number,
        here.state.bus(),
        parts,
    )?;
    let lines = Shared::new(stock.alloc, ran.told)?;
    telling.told.add(lines.share()?)?;
    let end = reach(
        stock.alloc,
        &stock.recent,
        &mut stock.given.buses,
        number + 1,
        ran.end,
        telling.look.place,
        here.apart,
    )?;
    let copy = end.state.share()?;
    let segment = Segment::new(number, here.state, ran.reads, lines, copy);
    stock.recent.add(segment)?;
    Ok(end)
}

/// Whether the segment that lies ahead serves, if one does: the first of its number.
fn look_ahead<P: Parts>(
    stock: &mut Stock,
    look: &mut Look,
    number: u64,
    here: &Reached,
    parts: &mut P,
) -> Result<Option<bool>, AllocError>
    requires { StandsAt (P.seen parts.now).image number stock.old look.old here.now }
    ensures answer { IfOk result (λ answer. LooksAhead (P.seen parts.old).image number stock.old
        here.now.state.bus answer (P.asks parts.old) (P.asks parts.new)) }
    ensures stands { OnOk result (StandsAt (P.seen parts.old).image number stock.new look.new here.now) }
    ensures segments { AreSegments stock.new }
    ensures recent { stock.new.recent ≡ stock.old.recent }
    ensures kept { (P.seen parts.new).image ≡ (P.seen parts.old).image }
{
    match stock.recent.next() {
        None => Ok(None),
        Some((_key, segment)) => {
            let serves = segment.serves(
                stock.alloc,
                look,
                &mut stock.given,
                number,
                &here.state,
                parts,
            )?;
            Ok(Some(serves))
        }
    }
}

/// The next segment of a trace: one that is held, from a place on among those of its number before which none
/// serves, or else it is run. It is put first.
fn search<P: Parts>(
    stock: &mut Stock,
    telling: &mut Telling,
    number: u64,
    from: usize,
    here: Reached,
    parts: &mut P,
    meter: &mut Meter,
) -> Result<Reached, AllocError>
    requires settled { stock.old.recent.ahead ≡ [] }
    requires passed { ArePassed (P.seen parts.now).image number from stock.old here.state.bus }
    requires can { CanRun (P.seen parts.now).image number here.state.bus }
    requires stands { StandsAt (P.seen parts.now).image number stock.old telling.old.look here }
    ensures { Goes P.Asked number here.state.bus (left_from number from stock.old)
        (progress stock.old telling.old meter.old parts.old)
        (progress stock.new telling.new meter.new parts.new) result }
{
    let _count = stock.recent.len();
    let found = find(stock, &mut telling.look, number, from, &here, parts)?;
    match found {
        Some(key) => {
            let state = use_held(&mut stock.recent, key, &mut telling.told)?;
            Ok(Reached {
                state,
                is_new: false,
                apart: here.apart,
            })
        }
        None => {
            meter.ran();
            let reached = run_new(stock, telling, number, here, parts)?;
            Ok(reached)
        }
    }
}

/// The same, once nothing lies ahead any more.
fn pass_on<P: Parts>(
    stock: &mut Stock,
    telling: &mut Telling,
    number: u64,
    from: usize,
    here: Reached,
    parts: &mut P,
    meter: &mut Meter,
) -> Result<Reached, AllocError>
    requires passed { ArePassed (P.seen parts.now).image number from stock.old here.state.bus }
    requires can { CanRun (P.seen parts.now).image number here.state.bus }
    requires stands { StandsAt (P.seen parts.now).image number stock.old telling.old.look here }
    ensures { Goes P.Asked number here.state.bus (left_from number from stock.old)
        (progress stock.old telling.old meter.old parts.old)
        (progress stock.new telling.new meter.new parts.new) result }
{
    stock.recent.give_up_ahead()?;
    let end = search(stock, telling, number, from, here, parts, meter)?;
    Ok(end)
}

/// The next segment of a trace: one that is held, or else it is run. It is put first. What the trace before
/// used lies ahead, and is looked at first.
pub(crate) fn advance<P: Parts>(
    stock: &mut Stock,
    telling: &mut Telling,
    number: u64,
    here: Reached,
    parts: &mut P,
    meter: &mut Meter,
) -> Result<Reached, AllocError>
    requires can { CanRun (P.seen parts.now).image number here.state.bus }
    requires stands { StandsAt (P.seen parts.now).image number stock.old telling.old.look here }
    ensures { Goes P.Asked number here.state.bus (held_in stock.old)
        (progress stock.old telling.old meter.old parts.old)
        (progress stock.new telling.new meter.new parts.new) result }
{
    let _count = stock.recent.len();
    let ahead = look_ahead(stock, &mut telling.look, number, &here, parts)?;
    match ahead {
        Some(true) => {
            let state = follow(&mut stock.recent, &mut telling.told)?;
            Ok(Reached {
                state,
                is_new: false,
                apart: here.apart,
            })
        }
        Some(false) => {
            let end = pass_on(stock, telling, number, 1, here, parts, meter)?;
            Ok(end)
        }
        None => {
            let end = pass_on(stock, telling, number, 0, here, parts, meter)?;
            Ok(end)
        }
    }
}
