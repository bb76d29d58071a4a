//! A bus with its number.

ghost use Rattle.std.specs.Prelude.{◌≡◌, ◌↔◌, ℕ, IfOk, IsTrue};
ghost use Rattle.can_bus.specs.Bus.{Bus};
ghost use Rattle.trace_spans.specs.Numbers.{StandsFor};
ghost use Rattle.co_segments.specs.Sights.{AreSightsOf};

use crate::sight::Sight;
use can_bus::BusState;
use std::alloc::AllocError;
use std::marker::Model;
use std::rc::Rc;

/// A bus at a moment, shared, with its private number: no two buses have one number. What is seen of it at one
/// entry stands beside it, so that it is told from another one without a look at either.
#[derive(Drop)]
pub(crate) struct NumberedBus {
    number: u64,
    bus: Rc<BusState>,
    sight: Option<Sight>,
}

impl Model for NumberedBus {
    ghost use Rattle.can_bus.specs.contracts.bus_state.BusState as bus_state;
    ghost use Rattle.co_segments.specs.Placed.{Numbered, numbered_code};
    ghost use Rattle.co_segments.specs.Sights.{AreSightsOf};

    ghost Value = { Numbered };

    ghost coded = { numbered_code bus_state.the_row.coded };

    ghost view = { λ a. record { number = a.number; bus = a.bus.value } };

    ghost invariant = { λ a. AreSightsOf a.bus.value a.sight };
}

impl NumberedBus {
    /// The bus of this number, with what is seen of it, if it was looked at.
    pub fn new(number: u64, bus: Rc<BusState>, sight: Option<Sight>) -> NumberedBus
        requires { AreSightsOf bus.value sight }
        ensures { result ≡ record { number = number; bus = bus.value } }
    {
        NumberedBus { number, bus, sight }
    }

    /// The same bus, shared. Takes no memory.
    pub fn share(&self) -> Result<NumberedBus, AllocError>
        ensures { IfOk result (λ copy. copy ≡ self.now) }
    {
        let bus = self.bus.clone()?;
        Ok(NumberedBus {
            number: self.number,
            bus,
            sight: self.sight,
        })
    }

    /// Its number.
    pub fn number(&self) -> u64
        ensures { result ≡ self.now.number }
    {
        self.number
    }

    /// The bus.
    pub fn bus(&self) -> &BusState
        ensures { result.now ≡ self.now.bus }
    {
        &self.bus
    }

    /// Whether it is another bus than one of which something is seen, as far as the two sights tell.
    pub fn is_other(&self, bus: &BusState, sight: &Option<Sight>) -> bool
        requires { AreSightsOf bus.now sight.now }
        ensures { IsTrue result → self.now.bus ≡ bus.now → ⊥ }
    {
        let _ = bus;
        match (&self.sight, sight) {
            (Some(own), Some(other)) => own.differs(other),
            _ => false,
        }
    }

    /// Whether the buses are the same. Those of one number aren't compared.
    pub fn same(&self, other: &NumberedBus) -> bool
        requires { (buses : ℕ → Bus) × ((given : ℕ) × (StandsFor buses given self.now.number self.now.bus
            × StandsFor buses given other.now.number other.now.bus)) }
        ensures { IsTrue result ↔ (self.now.bus ≡ other.now.bus) }
    {
        if self.number == other.number {
            return true;
        }
        self.bus.same(&other.bus)
    }
}
