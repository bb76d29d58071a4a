//! An event at its time.

ghost use Rattle.std.specs.Prelude.{◌≡◌, ◌↔◌, IsTrue};

use crate::event::Event;
use std::alloc::AllocError;

/// An event at its time.
#[derive(Debug, Drop)]
pub struct TimedEvent {
    /// The time in microseconds.
    pub time: u32,
    /// What happens then.
    pub event: Event,
}

impl TimedEvent {
    /// Whether the other does the same at the same time. Takes time by the length of the text, and no
    /// memory.
    pub fn same(&self, other: &TimedEvent) -> bool
        ensures { IsTrue result ↔ (self.now ≡ other.now) }
    {
        self.time == other.time && self.event.same(&other.event)
    }
}

impl Clone for TimedEvent {
    ghost is_clone = { λ a b. b ≡ a };

    fn clone(&self) -> Result<TimedEvent, AllocError> {
        let event = self.event.clone()?;
        Ok(TimedEvent {
            time: self.time,
            event,
        })
    }
}
