//! The events of a scenario.
ghost use Rattle.std.specs.Prelude.{◌≡◌, ◌↔◌, ◌==◌, IsTrue, None, IfOk, OnOk, OnErr, option_copied};
ghost use Rattle.std.specs.FinMap as map;
ghost use Rattle.co_scenario.specs.Scenario.{events_between};

use crate::between::in_order;
use crate::timed_event::TimedEvent;
use std::alloc::{AllocError, Global};
use std::collections::BTreeMap;
use std::collections::btree_map::Iter;
use std::marker::Model;

/// The events of a scenario by number.
///
/// A call takes time by the logarithm of the number of events, where it does not say otherwise.
#[derive(Drop)]
pub struct Script {
    events: BTreeMap<u16, TimedEvent>,
}

impl Model for Script {
    ghost use Rattle.std.specs.Coded.{coded_ℕ};
    ghost use Rattle.std.specs.FinMap as map;
    ghost use Rattle.co_scenario.specs.contracts.timed_event.TimedEvent as timed;
    ghost use Rattle.co_scenario.specs.Scenario.{Events};

    ghost Value = { Events };

    ghost coded = { map.code coded_ℕ timed.the_row.coded };

    ghost view = { λ script. map.from_entries script.events.entries };
}

/// Whether the same numbers have the same events.
fn same_entries(a: &Script, b: &Script) -> bool
    ensures { IsTrue result ↔ (map.entries a.now ≡ map.entries b.now) }
{
    let mut others = b.iter();
    for (number, event) in a.iter() {
        let Some((other_number, other)) = others.next() else {
            return false;
        };
        if *number != *other_number || !event.same(other) {
            return false;
        }
    }
    others.next().is_none()
}

impl Script {
    /// No events.
    pub fn new(alloc: Global) -> Self
        ensures { result ≡ map.empty }
    {
        Script {
            events: BTreeMap::new(alloc),
        }
    }

    /// Equal events. Takes time and memory by their number and the length of their texts; want of
    /// memory is the only error.
    pub fn copy(&self) -> Result<Script, AllocError>
        ensures { IfOk result (λ script. script ≡ self.now) }
    {
        Ok(Script {
            events: self.events.clone()?,
        })
    }

    /// Whether the others are the same by the same numbers. Takes time by their number and the length
    /// of their texts up to the first difference, and no memory.
    pub fn same(&self, other: &Script) -> bool
        ensures { IsTrue result ↔ (self.now ≡ other.now) }
    {
        same_entries(self, other)
    }

    /// The number of events.
    pub fn len(&self) -> usize
        ensures { result ≡ map.len self.now }
    {
        self.events.len()
    }

    /// Whether there is no event.
    pub fn is_empty(&self) -> bool
        ensures { result ≡ (map.len self.now == 0) }
    {
        self.len() == 0
    }

    /// The event of a number, if it has one.
    pub fn get(&self, number: u16) -> Option<&TimedEvent>
        ensures { option_copied result ≡ map.get self.now number }
    {
        self.events.get(&number)
    }

    /// The events by number.
    pub fn iter(&self) -> Iter<'_, u16, TimedEvent>
        ensures { result ≡ map.entries self.now }
    {
        self.events.iter()
    }

    /// The times in microseconds and the numbers of the events with a time from `first` to `last`, both
    /// included: by time, and events of one time by number. Want of memory is the only error.
    ///
    /// Takes time by the number of all events, and for each that it gives the logarithm of their number.
    pub fn events_between(
        &self,
        alloc: Global,
        first: u32,
        last: u32,
    ) -> Result<Vec<(u32, u16)>, AllocError>
        ensures { IfOk result (λ moments. moments.items ≡ events_between first last self.now) }
    {
        in_order(alloc, self, first, last)
    }

    /// Gives a number an event, in place of any that it has. Want of memory changes nothing, and can
    /// come at a number without an event alone.
    pub fn put(&mut self, number: u16, event: TimedEvent) -> Result<(), AllocError>
        ensures ok { OnOk result (self.new ≡ map.insert self.old number event) }
        ensures err { OnErr result (self.new ≡ self.old) }
        ensures absent { OnErr result (map.get self.old number ≡ None) }
    {
        self.events.insert(number, event)?;
        Ok(())
    }

    /// Takes the event of a number away, if it has one.
    pub fn remove(&mut self, number: u16)
        ensures { self.new ≡ map.remove self.old number }
    {
        self.events.remove(&number);
    }
}
