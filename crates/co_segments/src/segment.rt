//! A segment of a run.

ghost use Rattle.std.specs.Prelude.{◌≡◌, ◌≤◌, ◌+◌, ◌↔◌, length, if◌then◌else◌, ◌==◌, IfOk, MatchOption, OnOk, IsTrue};
ghost use Rattle.image_parts.specs.Contents.{Image};
ghost use Rattle.co_segments.specs.Placed.{AreComparable, IsStart, Learns, placed_of};
ghost use Rattle.co_segments.specs.Segments.{Serves};
ghost use Rattle.co_segments.specs.Sights.{AreSightsOf};

use crate::numbered_bus::NumberedBus;
use crate::numbers_given::NumbersGiven;
use crate::sight::Sight;
use base::Shared;
use bus_devices::Apart;
use can_bus::{BusState, Parts};
use kept_values::Numbered;
use std::alloc::{AllocError, Global};
use std::marker::Model;
use trace_spans::{KeptRead, Look, Passage, matches};

/// A span that was run, from a bus on, with what it read and told.
#[derive(Drop)]
pub(crate) struct Segment {
    number: u64,
    start: NumberedBus,
    reads: Vec<KeptRead>,
    told: Shared<Passage>,
    end: NumberedBus,
}

impl Model for Segment {
    ghost use Rattle.can_bus.specs.contracts.bus_state.BusState as bus_state;
    ghost use Rattle.can_bus.specs.contracts.line.Line as line;
    ghost use Rattle.image_parts.specs.contracts.read.Read as noted;
    ghost use Rattle.trace_spans.specs.contracts.kept_read.KeptRead as marked;
    ghost use Rattle.co_segments.specs.Placed.{Placed, placed_code, placed_of};
    ghost use Rattle.co_segments.specs.Segments.{kept_code};

    ghost Value = { Placed };

    ghost coded = { placed_code
        (kept_code bus_state.the_row.coded noted.the_row.coded line.the_row.coded) marked.the_row.coded };

    ghost view = { λ a. placed_of a.number a.start a.reads.items a.told a.end };
}

impl Numbered for Segment {
    ghost number_of = { λ s. s.kept.number };

    fn number(&self) -> u64 {
        self.number
    }
}

/// Whether two buses are the same. Where a quick look at the devices of a place tells them apart, `apart` is that
/// place behind it.
fn are_same(bus: &BusState, other: &BusState, apart: &mut Option<usize>) -> bool
    ensures { IsTrue result ↔ (bus.now ≡ other.now) }
{
    match bus.tell_apart(other) {
        Apart::No => true,
        Apart::At(place) => {
            *apart = Some(place);
            false
        }
        Apart::Elsewhere => false,
    }
}

impl Segment {
    /// The segment of a span that was run.
    pub fn new(
        number: u64,
        start: NumberedBus,
        reads: Vec<KeptRead>,
        told: Shared<Passage>,
        end: NumberedBus,
    ) -> Segment
        ensures { result ≡ placed_of number start reads.items told end }
    {
        Segment {
            number,
            start,
            reads,
            told,
            end,
        }
    }

    /// Its lines, shared. Takes no memory.
    pub fn told(&self) -> Result<Shared<Passage>, AllocError>
        ensures { IfOk result (λ told. told ≡ self.now.kept.lines) }
    {
        self.told.share()
    }

    /// The bus at its end.
    pub fn end(&self) -> &NumberedBus
        ensures number { result.now.number ≡ self.now.end }
        ensures bus { result.now.bus ≡ self.now.kept.end }
    {
        &self.end
    }

    /// The bus at its start, if it has this number and starts from an equal bus. Where a quick look at the devices
    /// of a place tells the buses apart, `apart` is that place behind it.
    pub fn start_at(
        &self,
        number: u64,
        bus: &BusState,
        apart: &mut Option<usize>,
    ) -> Result<Option<NumberedBus>, AllocError>
        ensures { IfOk result (λ start. MatchOption start
            ((image : Image) → Serves image number bus.now self.now.kept → ⊥)
            (λ n. IsStart self.now n bus.now)) }
    {
        if self.number != number {
            return Ok(None);
        }
        let own = self.start.bus();
        let same = are_same(own, bus, apart);
        if !same {
            return Ok(None);
        }
        let start = self.start.share()?;
        Ok(Some(start))
    }

    /// Whether its bus at its start is another one, as far as what is seen of both tells.
    pub fn is_other(&self, bus: &BusState, sight: &Option<Sight>) -> bool
        requires { AreSightsOf bus.now sight.now }
        ensures { IsTrue result → self.now.kept.start ≡ bus.now → ⊥ }
    {
        self.start.is_other(bus, sight)
    }

    /// Whether its bus at its start is another one, by a quick look at the device of a place.
    pub fn differs_at(&self, place: usize, bus: &BusState) -> bool
        ensures { IsTrue result → self.now.kept.start ≡ bus.now → ⊥ }
    {
        let own = self.start.bus();
        own.differs_at(bus, place)
    }

    /// Whether it serves.
    pub fn serves<P: Parts>(
        &self,
        alloc: Global,
        look: &mut Look,
        given: &mut NumbersGiven,
        number: u64,
        state: &NumberedBus,
        parts: &mut P,
    ) -> Result<bool, AllocError>
        requires { AreComparable (P.seen parts.now).image given.now self.now state.now look.now.reads }
        ensures answer { IfOk result (λ b. IsTrue b
            ↔ Serves (P.seen parts.old).image number state.now.bus self.now.kept) }
        ensures known { OnOk result (Learns (P.seen parts.old).image self.now.reads given.old given.new
            look.old.reads look.new.reads) }
        ensures more { given.old.contents ≤ given.new.contents }
        ensures buses { given.new.buses ≡ given.old.buses }
        ensures counted { OnOk result (P.asks parts.new ≤ P.asks parts.old
            + (if self.now.kept.number == number then length self.now.kept.reads else 0)) }
        ensures kept { (P.seen parts.new).image ≡ (P.seen parts.old).image }
    {
        if self.number != number {
            return Ok(false);
        }
        if !self.start.same(state) {
            return Ok(false);
        }
        let same = matches(alloc, look, &mut given.contents, parts, &self.reads)?;
        Ok(same)
    }
}
